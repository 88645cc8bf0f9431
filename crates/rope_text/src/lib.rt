//! Ropes: UTF-8 of up to 18446744073709551615 bytes, in shared texts.
#![tactic(auto)]

mod decode;
mod rope;

pub use crate::decode::{decode_rope, read_rope, rope_from_file};
pub use crate::rope::{MAX_TOTAL, Rope, RopeLines};
pub use tendril_stream as stream;
pub use tendril_text::{
    Atomic, Atomicity, ByteSet, ByteTendril, Members, NonAtomic, StrTendril, Tendril, block, fmt,
};
