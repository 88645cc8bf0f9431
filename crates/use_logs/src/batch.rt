//! A sink that stores lines until a thread counts them.

use crate::Text;
use std::alloc::Global;
use std::borrow::CowStr;
use tendril::block::Refusal;
use tendril::stream::TendrilSink;

/// Lines, and the number of broken sequences that were replaced.
#[derive(Drop)]
pub struct Batch {
    pub lines: Vec<Text>,
    pub replaced: u64,
}

impl Batch {
    /// Creates a batch of no lines.
    pub fn new(alloc: Global) -> Self {
        Batch {
            lines: Vec::new(alloc),
            replaced: 0,
        }
    }
}

impl TendrilSink<Text> for Batch {
    type Output = Batch;

    fn process(&mut self, line: Text) -> Result<(), Refusal> {
        self.lines.push(line)?;
        Ok(())
    }

    fn error(&mut self, _words: CowStr<'static>) -> Result<(), Refusal> {
        // It never saturates: no input has 2^64 broken sequences.
        self.replaced = self.replaced.saturating_add(1);
        Ok(())
    }

    fn finish(self) -> Result<Batch, Refusal> {
        Ok(self)
    }
}
