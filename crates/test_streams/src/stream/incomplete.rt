//! Lines over an `IncompleteUtf8`.

use crate::stream::Stream;
use crate::stream::reply::Reply;
use tendril_block::{Atomicity, Refusal};
use tendril_text::fmt::{Bytes, UTF8};
use tendril_text::{IncompleteUtf8, Tendril};
use test_rows::words::Hex;

impl<A: Atomicity> Stream<A> {
    pub(super) fn kept(&mut self, words: &str, reply: &mut Reply) -> Result<(), Refusal> {
        match IncompleteUtf8::new(self.bytes(words)?.as_slice()) {
            Some(kept) => reply.item(format_args!("kept {}", Hex(kept.kept()))),
            None => reply.item("none"),
        }
    }

    pub(super) fn complete(&mut self, words: &str, reply: &mut Reply) -> Result<(), Refusal> {
        let (mut held, input) = self.held_and_input(words)?;
        match held.try_to_complete_codepoint(input.as_slice()) {
            Some((Ok(text), rest)) => {
                let text = text.as_str();
                reply.item(format_args!("{text:?}; rest {}", Hex(rest)))?;
            }
            Some((Err(broken), rest)) => {
                reply.item(format_args!("broken {}; rest {}", Hex(broken.as_slice()), Hex(rest)))?;
            }
            None => reply.item("more")?,
        }
        reply.item(format_args!("kept {}", Hex(held.kept())))
    }

    pub(super) fn hand(&mut self, words: &str, reply: &mut Reply) -> Result<(), Refusal> {
        let (mut held, input) = self.held_and_input(words)?;
        let piece = Tendril::<Bytes, A>::from_slice(self.alloc, input.as_slice())?;
        let mut outcome = Ok(());
        let answer = held.try_complete(piece, |text: Tendril<UTF8, A>| {
            outcome = reply.text(&text);
        });
        outcome?;
        match answer {
            Ok(rest) => reply.item(format_args!("rest {}", Hex(rest.as_byte_slice())))?,
            Err(()) => reply.item("more")?,
        }
        reply.item(format_args!("kept {}", Hex(held.kept())))
    }

    // Kept bytes, and the input that follows them.
    fn held_and_input(&self, words: &str) -> Result<(IncompleteUtf8, Vec<u8>), Refusal> {
        let (held, input) = words.split_once(' ').unwrap_or((words, "-"));
        let held = self.bytes(held)?;
        let held = IncompleteUtf8::new(held.as_slice()).ok_or(Refusal::Invalid)?;
        Ok((held, self.bytes(input)?))
    }
}
