//! Each file tests one subject. Expected values come from Unicode's tables or from rows written by hand, never from
//! what the calls returned.
//!
//! A test notes its first failure, continues, and reports it at its end: each early return would be one more path to
//! prove.

mod blocks;
mod characters;
mod joined;
mod memory;
mod queues;
mod sent;
mod streams;
mod table;
mod utf8_table;
mod valid;
