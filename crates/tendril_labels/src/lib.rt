//! The names and labels of the encodings of the WHATWG Encoding Standard.
#![tactic(auto)]

mod encoding;
mod label;
mod table;
mod theorems;

pub use encoding::Encoding;
pub use label::{Label, labels};
pub use theorems::laws;
