//! Formats of bytes: which lists of bytes are valid, how two valid ones join, and how the ends of a slice of a valid
//! one show whether the slice is valid.
//!
//! `fmt` has the formats, and `futf` the classification of one UTF-8 sequence that their tests use. Only `copies`
//! allocates. A call that accepts only valid bytes says so in `requires`.
#![tactic(auto)]

pub mod blocks;
pub mod copies;
pub mod cuts;
pub mod fmt;
pub mod futf;
