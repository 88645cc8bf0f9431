//! Decoding of a program's input to its output, in any encoding.
#![tactic(auto)]

mod decode;
mod joined;
mod text;

pub use decode::transcode;
pub use joined::Joined;
pub use text::write_text;
