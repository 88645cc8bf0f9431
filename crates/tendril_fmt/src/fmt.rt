//! What it means for bytes to be valid in a format.
//!
//! Contracts see a `Format` as two ghost members: `valid`, the lists of bytes that are valid in it, and `join`, which
//! makes one of two valid lists. Code that uses formats is generic, and proved once, from the laws of the trait alone.

mod ascii;
mod ascii_cuts;
mod bytes;
mod char_indices;
mod chars;
mod code_point;
mod decode_units;
mod fixup;
mod format;
mod latin1;
mod local;
mod subset;
mod theorems;
mod unit_blocks;
mod units;
mod utf8;
mod wtf8;

pub use ascii::ASCII;
pub use ascii_cuts::CutsAtAscii;
pub use bytes::Bytes;
pub use char_indices::{SingleByteCharIndices, Utf8CharIndices};
pub use chars::{CharFormat, Encoded};
pub use code_point::put_code_point;
pub use decode_units::decode_wtf8;
pub use fixup::Fixup;
pub use format::Format;
pub use latin1::Latin1;
pub use local::{utf8_ends, wtf8_ends};
pub use subset::SubsetOf;
pub use theorems::laws;
pub use units::{Wtf8Units, encode_wtf8, wtf8_len};
pub use utf8::UTF8;
pub use wtf8::WTF8;
