//! Any reader, with a record of its reads.
ghost use Rattle.std.specs.Prelude.{◌≡◌, ◌↔◌, []};
ghost use Rattle.std.specs.IoError.{error_kind};

use crate::counted_read::{CountedRead, ReadFault};
use crate::log::Log;
use std::io;
use std::io::{ErrorKind, Read};

/// A reader whose reads are recorded for contracts. The record exists only in proofs: at run time this is the reader.
#[derive(Drop)]
pub struct Counted<R: Read + Drop> {
    reader: R,
    log: Log,
}

impl<R: Read + Drop> Counted<R> {
    /// Wraps a reader that hasn't been read yet.
    ///
    /// ```
    /// let mut reader = Counted::new(b"abc".as_slice());
    /// let mut text = ByteTendril::new(alloc);
    /// assert_eq!(rt; reader.read_to_tendril(&mut text, 10)?, 3);
    /// ```
    pub fn new(reader: R) -> Self
        ensures reader { result.reader ≡ reader }
        ensures reads { result.log.reads ≡ [] }
    {
        Counted {
            reader,
            log: Log::new(),
        }
    }
}

impl<R: Read + Drop> CountedRead for Counted<R> {
    ghost history = { λ c. c.log.reads };

    ghost remaining = { λ c. R.remaining c.reader };

    fn read_some(&mut self, buffer: &mut [u8]) -> Result<usize, ReadFault> {
        let answer = match self.reader.read(buffer) {
            Ok(count) => Ok(count),
            Err(error) => Err(fault_of(&error)),
        };
        self.log = self.log.after(&answer, buffer);
        answer
    }
}

// Tells interrupted reads from failed ones, by the kind of the error.
fn fault_of(error: &io::Error) -> ReadFault
    ensures { (result ≡ ReadFault.Interrupted) ↔ (error_kind error.now ≡ ErrorKind.Interrupted) }
{
    if error.kind() == ErrorKind::Interrupted {
        ReadFault::Interrupted
    } else {
        ReadFault::Failed
    }
}
