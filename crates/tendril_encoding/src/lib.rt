//! Decoding of streams in the encodings of the web.
#![tactic(auto)]

mod begin;
mod decode;
mod kept;
mod known;
mod lossy;
mod mark;
mod pieces;
mod reading;
mod search;
mod slices;
mod text;
mod theorems;
mod whole;

pub use kept::Kept;
pub use lossy::LossyDecoder;
pub use mark::BomHandling;
pub use pieces::decode_pieces;
pub use reading::decode_reader;
pub use tendril_labels::{Encoding, Label, labels};
pub use text::decode_to_text;
pub use theorems::laws;
