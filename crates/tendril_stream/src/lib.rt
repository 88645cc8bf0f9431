//! Streams of texts: sinks, and lossy decoding of bytes that come in pieces.
#![tactic(auto)]

mod accumulate;
mod counted;
mod counted_read;
mod decoder;
mod fill;
mod line_start;
mod lines;
mod log;
mod piece_decoding;
mod pieces;
mod reading;
mod sending;
mod sink;
mod theorems;
mod tracks;
mod utf8;

pub use accumulate::{Accumulate, Event};
pub use counted::Counted;
pub use counted_read::{CountedRead, ReadFault};
pub use decoder::{Decoder, LossyDecoder, Utf8LossyDecoder};
pub use fill::ReadExt;
pub use lines::{Lines, line_laws};
pub use piece_decoding::PieceDecoding;
pub use pieces::{decode_pieces, decode_pieces_into};
pub use reading::{Stopped, decode_reader, from_file, read_decoded, read_from, read_once};
pub use sending::{replace, send};
pub use sink::{StreamText, TendrilSink};
pub use theorems::laws;
pub use tracks::Tracks;
pub use utf8::KeptUtf8;
