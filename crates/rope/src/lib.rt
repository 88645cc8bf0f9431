//! Ropes: UTF-8 of up to 18446744073709551615 bytes, in texts that are shared; and tables that hold them.
//!
//! This crate has no function of its own. It re-exports the ropes of `rope_text`, the tables of `rope_run`, and the
//! texts and streams that ropes need, so that users name one crate.
#![tactic(auto)]

pub use rope_run::{
    RopeCommand, RopeReply, RopeTable, parse_rope_line, print_rope_reply, run_ropes,
};
pub use rope_text::{MAX_TOTAL, Rope, RopeLines, decode_rope, read_rope, rope_from_file};
pub use tendril::{
    Atomic, Atomicity, ByteSet, ByteTendril, Members, NonAtomic, StrTendril, Tendril, block, fmt,
    lossy, stream,
};
