//! A stream that comes in pieces, decoded into a sink of one's own.

use std::borrow::CowStr;
use tendril::block::Refusal;
use tendril::stream::{TendrilSink, Utf8LossyDecoder};
use tendril::{ByteTendril, StrTendril};

/// Counts what it receives.
#[derive(Drop)]
struct Counts {
    bytes: u64,
    errors: u64,
}

impl TendrilSink<StrTendril> for Counts {
    type Output = Counts;

    fn process(&mut self, text: StrTendril) -> Result<(), Refusal> {
        self.bytes = self.bytes.saturating_add(text.len() as u64);
        Ok(())
    }

    fn error(&mut self, _message: CowStr<'static>) -> Result<(), Refusal> {
        self.errors = self.errors.saturating_add(1);
        Ok(())
    }

    fn finish(self) -> Result<Counts, Refusal> {
        Ok(self)
    }
}

pub fn print_counts(rt: &HostRuntime) -> anyhow::Result<()> {
    let sink = Counts {
        bytes: 0,
        errors: 0,
    };
    let mut decoder = Utf8LossyDecoder::new(rt.alloc(), sink);
    for piece in [b"caf\xC3".as_slice(), b"\xA9 \xFF".as_slice()] {
        decoder.process(ByteTendril::from_slice(rt.alloc(), piece)?)?;
    }
    let Counts { bytes, errors } = decoder.finish()?;
    println!(rt; "bytes of text: {bytes}, errors: {errors}")?;
    Ok(())
}
