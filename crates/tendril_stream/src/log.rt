//! The reads of a reader, only for contracts. At run time the list doesn't exist, and these functions do nothing.
ghost use Rattle.std.specs.Prelude.{◌≡◌, List, [], ◌∷◌, ◌++◌};
ghost use Rattle.std.specs.Borrow.{ftrue};
ghost use Rattle.tendril_stream.specs.Reads.{OneRead, read_of};

use crate::counted_read::ReadFault;
use std::marker::Model;

/// The reads of a reader, in order, which only proofs see.
#[derive(Drop)]
pub(crate) struct Log {
    pub ghost reads: { List OneRead },
}

impl Model for Log {
    ghost also_owns = { λ _. ftrue };
}

impl Log {
    /// Returns an empty record.
    pub(crate) fn new() -> Log
        ensures { result.reads ≡ [] }
    {
        Log {}
    }

    /// Returns the record with one more read, which returned `_answer` and left `_buffer` as it is now.
    pub(crate) fn after(&self, _answer: &Result<usize, ReadFault>, _buffer: &[u8]) -> Log
        ensures { result.reads ≡ self.now.reads ++ read_of _answer.now _buffer.now ∷ [] }
    {
        Log {}
    }
}
