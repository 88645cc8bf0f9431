//! What is printed for a line.

use crate::stream::recorder::Sent;
use std::alloc::{AllocError, Global};
use std::fmt::Display;
use tendril_block::{Atomicity, Refusal};
use tendril_text::Tendril;
use tendril_text::fmt::UTF8;
use test_rows::words::{Hex, MAX_WRITTEN_SINGLY};

// Capacity for the longest reply, so that replies don't allocate: a row that gets no memory can be played again.
const ROOM: usize = 0x1_0000;

/// The items of a reply, separated by `; `.
#[derive(Drop)]
pub struct Reply {
    line: String,
}

impl Reply {
    pub fn new(alloc: Global) -> Result<Self, AllocError> {
        Ok(Reply {
            line: String::with_capacity(alloc, ROOM)?,
        })
    }

    pub fn clear(&mut self) {
        self.line.clear();
    }

    /// The reply, `-` if it has no item.
    pub fn as_str(&self) -> &str {
        if self.line.is_empty() {
            return "-";
        }
        self.line.as_str()
    }

    pub fn item<D: Display + Drop>(&mut self, item: D) -> Result<(), Refusal> {
        let separator = if self.line.is_empty() { "" } else { "; " };
        write!(self.line, "{separator}{item}")?;
        Ok(())
    }

    /// Adds an error by its number and name.
    pub fn refusal(&mut self, refusal: Refusal) -> Result<(), Refusal> {
        let number = refusal.number();
        let name = refusal.name();
        self.item(format_args!("refused {number} {name}"))
    }

    /// Adds `ok`, or the error.
    pub fn outcome(&mut self, outcome: Result<(), Refusal>) -> Result<(), Refusal> {
        match outcome {
            Ok(()) => self.item("ok"),
            Err(refusal) => self.refusal(refusal),
        }
    }

    /// Adds a text as a string, or a long one as bytes, and whether it shares a block.
    pub fn text<A: Atomicity>(&mut self, text: &Tendril<UTF8, A>) -> Result<(), Refusal> {
        let shared = if text.is_shared() { " shared" } else { "" };
        let string = text.as_str();
        if string.len() > MAX_WRITTEN_SINGLY {
            return self.item(format_args!("{}{shared}", Hex(string.as_bytes())));
        }
        self.item(format_args!("{string:?}{shared}"))
    }

    /// Adds what was sent to a sink after the first `count` calls, and returns the number of all calls. Adjacent equal
    /// texts of many bytes are added once, with their number.
    pub fn sent<A: Atomicity>(&mut self, sent: &[Sent<A>], count: usize) -> Result<usize, Refusal> {
        if let Some(new) = sent.get(count..) {
            for equal in new.chunk_by(|one, next| are_equal(one, next)) {
                self.equal(equal)?;
            }
        }
        Ok(sent.len())
    }

    fn equal<A: Atomicity>(&mut self, equal: &[Sent<A>]) -> Result<(), Refusal> {
        match equal.first() {
            Some(Sent::Text(text)) => self.text(text)?,
            Some(Sent::Error(words)) => self.item(words.as_str())?,
            None => {}
        }
        if equal.len() > 1 {
            write!(self.line, " x{}", equal.len())?;
        }
        Ok(())
    }
}

// Whether these are equal texts of many bytes.
fn are_equal<A: Atomicity>(one: &Sent<A>, next: &Sent<A>) -> bool {
    match (one, next) {
        (Sent::Text(one), Sent::Text(next)) => {
            one.as_byte_slice().len() > MAX_WRITTEN_SINGLY
                && one.as_byte_slice() == next.as_byte_slice()
                && one.is_shared() == next.is_shared()
        }
        _ => false,
    }
}
