//! Lines over the session's text: its clones, and its decoding.

use crate::stream::Stream;
use crate::stream::reply::Reply;
use std::mem;
use tendril_block::{Atomicity, Refusal};
use tendril_lossy::Ending;
use tendril_text::fmt::{Bytes, UTF8};
use tendril_text::{IncompleteUtf8, Tendril};
use test_rows::words::Hex;

// The maximal number of texts from `decode_utf8_lossy` that a session can keep.
const TEXTS: usize = 16;

impl<A: Atomicity> Stream<A> {
    pub(super) fn set_text(&mut self, words: &str, reply: &mut Reply) -> Result<(), Refusal> {
        self.text = self.text_of(words)?;
        reply.item("ok")
    }

    pub(super) fn hold(&mut self, count: u32, reply: &mut Reply) -> Result<(), Refusal> {
        self.clones.reserve(count as usize)?;
        for _ in 0..count {
            match self.text.clone() {
                Ok(clone) => self.clones.push(clone)?,
                Err(refusal) => return reply.refusal(refusal),
            }
        }
        reply.item("ok")
    }

    pub(super) fn release(&mut self, count: u32, reply: &mut Reply) -> Result<(), Refusal> {
        for _ in 0..count {
            self.clones.pop();
        }
        reply.item("ok")
    }

    pub(super) fn held(&mut self, reply: &mut Reply) -> Result<(), Refusal> {
        for clone in self.clones.iter() {
            reply.item(Hex(clone.as_byte_slice()))?;
        }
        Ok(())
    }

    pub(super) fn lossy(&mut self, reply: &mut Reply) -> Result<(), Refusal> {
        self.texts.reserve(TEXTS)?;
        let text = mem::replace(&mut self.text, Tendril::new(self.alloc));
        let mut texts = mem::replace(&mut self.texts, Vec::new(self.alloc));
        let before = texts.len();
        let mut is_full = false;
        let answer = text.decode_utf8_lossy(|text: Tendril<UTF8, A>| {
            is_full = texts.push(text).is_err() || is_full;
        });
        for text in texts.iter().skip(before) {
            reply.text(text)?;
        }
        self.texts = texts;
        if is_full {
            return reply.item("too many texts");
        }
        self.lossy_answer(answer, reply)
    }

    pub(super) fn lossy_dropping(&mut self, reply: &mut Reply) -> Result<(), Refusal> {
        let text = mem::replace(&mut self.text, Tendril::new(self.alloc));
        let mut count = 0u32;
        let answer = text.decode_utf8_lossy(|_text: Tendril<UTF8, A>| count = count.saturating_add(
            1,
        ));
        reply.item(format_args!("{count} texts"))?;
        self.lossy_answer(answer, reply)
    }

    fn lossy_answer(
        &mut self,
        answer: Result<Option<IncompleteUtf8>, (Refusal, Tendril<Bytes, A>)>,
        reply: &mut Reply,
    ) -> Result<(), Refusal> {
        match answer {
            Ok(Some(kept)) => reply.item(format_args!("kept {}", Hex(kept.kept()))),
            Ok(None) => reply.item("kept -"),
            Err((refusal, rest)) => {
                self.text = rest;
                reply.refusal(refusal)?;
                reply.item(format_args!("left {}", Hex(self.text.as_byte_slice())))
            }
        }
    }

    pub(super) fn pop(&mut self, reply: &mut Reply) -> Result<(), Refusal> {
        match self.text.pop_text() {
            Ok((text, ending)) => {
                if let Some(text) = &text {
                    reply.text(text)?;
                }
                match ending {
                    Ending::Whole => reply.item("whole")?,
                    Ending::Open => reply.item("open")?,
                    Ending::Broken(len) => reply.item(format_args!("broken {len}"))?,
                }
            }
            Err(refusal) => reply.refusal(refusal)?,
        }
        reply.item(format_args!("left {}", Hex(self.text.as_byte_slice())))
    }
}
