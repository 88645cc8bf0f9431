//! Lines over the decoder and its sink.

use crate::stream::Stream;
use crate::stream::reply::Reply;
use std::borrow::CowStr;
use std::mem;
use tendril_block::{Atomicity, Refusal};
use tendril_stream::TendrilSink;
use tendril_text::Tendril;
use tendril_text::fmt::Bytes;

impl<A: Atomicity> Stream<A> {
    pub(super) fn piece(&mut self, words: &str, reply: &mut Reply) -> Result<(), Refusal> {
        let piece = self.text_of(words)?;
        self.process(piece, reply)
    }

    pub(super) fn send(&mut self, reply: &mut Reply) -> Result<(), Refusal> {
        let piece = mem::replace(&mut self.text, Tendril::new(self.alloc));
        self.process(piece, reply)
    }

    fn process(&mut self, piece: Tendril<Bytes, A>, reply: &mut Reply) -> Result<(), Refusal> {
        let Some(decoder) = &mut self.decoder else {
            return reply.item("no decoder");
        };
        let answer = decoder.process(piece);
        self.print(answer, reply)
    }

    pub(super) fn error(&mut self, reply: &mut Reply) -> Result<(), Refusal> {
        let Some(decoder) = &mut self.decoder else {
            return reply.item("no decoder");
        };
        let answer = decoder.error(CowStr::Borrowed("noise"));
        self.print(answer, reply)
    }

    pub(super) fn end(&mut self, reply: &mut Reply) -> Result<(), Refusal> {
        let Some(decoder) = self.decoder.take() else {
            return reply.item("no decoder");
        };
        match decoder.finish() {
            Ok(sent) => {
                self.ended = sent;
                self.print(Ok(()), reply)
            }
            Err(refusal) => reply.refusal(refusal),
        }
    }

    // Prints what was sent to the sink since the last print, and the error.
    pub(super) fn print(
        &mut self,
        answer: Result<(), Refusal>,
        reply: &mut Reply,
    ) -> Result<(), Refusal> {
        let printed = match &self.decoder {
            Some(decoder) => reply.sent(decoder.inner_sink.sent.as_slice(), self.printed)?,
            None => reply.sent(self.ended.as_slice(), self.printed)?,
        };
        self.printed = printed;
        match answer {
            Ok(()) => Ok(()),
            Err(refusal) => reply.refusal(refusal),
        }
    }

    /// Whether the decoder's sink ran out of memory.
    pub fn is_out_of_memory(&self) -> bool {
        self.calls.get().is_out_of_memory
    }

    /// Ends the decoder, if there is one, after a piece and an error. Returns whether each of these calls returned
    /// `Failed`, and none called its sink.
    pub fn ends_failed(&mut self) -> bool {
        let calls = self.calls.get().count;
        let Some(mut decoder) = self.decoder.take() else {
            return true;
        };
        let processed = decoder.process(Tendril::new(self.alloc));
        let passed = decoder.error(CowStr::Borrowed("noise"));
        let ended = decoder.finish().err();
        processed == Err(Refusal::Failed)
            && passed == Err(Refusal::Failed)
            && ended == Some(Refusal::Failed)
            && self.calls.get().count == calls
    }

    pub(super) fn refusing(&mut self, call: u32, reply: &mut Reply) -> Result<(), Refusal> {
        let Some(decoder) = &mut self.decoder else {
            return reply.item("no decoder");
        };
        decoder.inner_sink.refused = call;
        reply.item("ok")
    }
}
