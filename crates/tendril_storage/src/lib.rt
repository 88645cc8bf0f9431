//! Stored bytes of texts: up to 8 are inline, more are a view of a block that clones and slices share.
//!
//! Contracts see a `Storage<A>` as its bytes and the number of bytes that were copied for it. It knows no format: any
//! bytes may be stored, and split anywhere.
#![tactic(auto)]

mod detached;
mod storage;

pub use crate::detached::Detached;
pub use crate::storage::Storage;
