//! Decoders of the encodings of the WHATWG Encoding Standard: each decodes a slice of a stream, and keeps its state.
#![tactic(auto)]

mod any_decoder;
mod ascii;
mod big5;
mod characters;
mod decode;
mod euc_jp;
mod euc_kr;
mod gb18030;
mod indexes;
mod iso_2022_jp;
mod packed;
mod part;
mod replacement;
mod shift_jis;
mod single_byte;
mod steps;
mod tables;
mod two_bytes;
mod utf16;

pub use any_decoder::AnyDecoder;
pub use big5::{Big5, Big5Pairs};
pub use decode::Decode;
pub use euc_jp::EucJp;
pub use euc_kr::{EucKr, EucKrPairs};
pub use gb18030::Gb18030;
pub use iso_2022_jp::Iso2022Jp;
pub use part::Part;
pub use replacement::Replacement;
pub use shift_jis::{ShiftJis, ShiftJisPairs};
pub use single_byte::SingleByte;
pub use two_bytes::{First, LeadTrail, Pair, TwoBytes};
pub use utf16::{Utf16, Utf16Be, Utf16Le};
