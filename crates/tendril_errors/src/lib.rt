//! Why calls return errors, and how contracts say when.
//!
//! The errors of all crates are here, in one enum, with the limits on lengths that some of them depend on. By the
//! predicates of `specs/Outcomes`, contracts say which errors a call must return, and which it may.
#![tactic(auto)]

mod limits;
mod refusal;
mod subtendril_error;

pub use limits::{INLINE_LEN, MAX_LEN};
pub use refusal::Refusal;
pub use subtendril_error::SubtendrilError;
