//! A sink that writes what is sent to it into one line of bytes. It allocates nothing.

use std::borrow::CowStr;
use tendril::StrTendril;
use tendril::block::Refusal;
use tendril::stream::TendrilSink;

/// The maximal length of a line that is stored.
const ROOM: usize = 192;

/// The texts, and each error's words between two bytes that are in no text. Only the number of bytes beyond `ROOM` is
/// stored.
#[derive(Clone, Copy, Drop)]
pub struct Line {
    bytes: [u8; ROOM],
    pub len: usize,
    pub errors: usize,
    pub had_empty: bool,
}

impl Line {
    pub fn new() -> Self {
        Line {
            bytes: [0; ROOM],
            len: 0,
            errors: 0,
            had_empty: false,
        }
    }

    /// The line, or `too long`.
    pub fn as_slice(&self) -> &[u8] {
        self.bytes.get(..self.len).unwrap_or(b"too long")
    }

    pub fn push(&mut self, bytes: &[u8]) {
        for byte in bytes.iter() {
            if let Some(place) = self.bytes.get_mut(self.len) {
                *place = *byte;
            }
            self.len = self.len.saturating_add(1);
        }
    }

    pub fn push_error(&mut self, words: &str) {
        self.push(b"\xFF");
        self.push(words.as_bytes());
        self.push(b"\xFF");
        self.errors = self.errors.saturating_add(1);
    }
}

impl TendrilSink<StrTendril> for Line {
    type Output = Self;

    fn process(&mut self, text: StrTendril) -> Result<(), Refusal> {
        self.had_empty = self.had_empty || text.len32() == 0;
        self.push(text.as_byte_slice());
        Ok(())
    }

    fn error(&mut self, words: CowStr<'static>) -> Result<(), Refusal> {
        self.push_error(words.as_str());
        Ok(())
    }

    fn finish(self) -> Result<Self, Refusal> {
        Ok(self)
    }
}
