//! Blocks of bytes that several references share: where long texts are stored.
//!
//! Contracts see a block as a list of bytes and the number `copied` of bytes that were copied for this reference. Bytes
//! are changed only through a block's only reference, so no reference sees the changes of another.
#![tactic(auto)]

mod atomic;
mod atomicity;
mod body;
mod copied;
mod holder;
mod inline_bytes;
mod node;
mod pointer;
mod sole;
mod stored;
mod tail;
pub mod words;

pub use atomic::{Atomic, AtomicUpTo, LocalBlock, NonAtomic, SharedBlock};
pub use atomicity::{Atomicity, MAX_HOLDERS, MIN_CAP};
pub use body::Body;
pub use holder::{CountedBy, Holder};
pub use inline_bytes::NODE_CAPACITY;
pub use sole::Sole;
pub use tail::Tail;
pub use tendril_count::interleavings;
pub use tendril_errors::{INLINE_LEN, MAX_LEN, Refusal, SubtendrilError};
