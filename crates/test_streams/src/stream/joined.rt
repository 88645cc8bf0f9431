//! Files that are decoded into one text.

use std::alloc::Global;
use std::borrow::CowStr;
use std::fs::Files;
use tendril_block::{Atomicity, Refusal};
use tendril_stream::{TendrilSink, Utf8LossyDecoder, from_file};
use tendril_text::fmt::UTF8;
use tendril_text::{StrTendril, Tendril};

/// A sink that joins the texts.
#[derive(Drop)]
pub struct Joined<A: Atomicity> {
    text: Tendril<UTF8, A>,
}

impl<A: Atomicity> TendrilSink<Tendril<UTF8, A>> for Joined<A> {
    type Output = Tendril<UTF8, A>;

    fn process(&mut self, text: Tendril<UTF8, A>) -> Result<(), Refusal> {
        self.text.push_tendril(&text)
    }

    fn error(&mut self, _words: CowStr<'static>) -> Result<(), Refusal> {
        Ok(())
    }

    fn finish(self) -> Result<Tendril<UTF8, A>, Refusal> {
        Ok(self.text)
    }
}

/// The text of a file, read in at most `max_reads` reads.
pub fn text_of_file<A: Atomicity>(
    files: &impl Files,
    alloc: Global,
    path: &str,
    max_reads: u64,
) -> Result<Tendril<UTF8, A>, Refusal> {
    let sink = Joined {
        text: Tendril::new(alloc),
    };
    let decoder: Utf8LossyDecoder<Joined<A>, A> = Utf8LossyDecoder::new(alloc, sink);
    Ok(from_file(files, alloc, decoder, path, max_reads)?)
}
