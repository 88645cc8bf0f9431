//! Readers whose reads are recorded for contracts.

/// Why a read returned no bytes.
#[derive(Clone, Copy, Debug, PartialEq, Eq)]
pub enum ReadFault {
    /// The read was interrupted, and may be repeated.
    Interrupted,
    /// The read failed.
    Failed,
}

/// A source of bytes whose reads are recorded for contracts. `Counted` turns any std `Read` into one.
pub trait CountedRead: Drop {
    ghost use Rattle.std.specs.Prelude.{◌≡◌, ◌≤◌, List, [], ◌∷◌, ◌++◌, ℕ, Option, None, length, IfOk};
    ghost use Rattle.std.specs.Io.KnownBytes.{ReadConsumes};
    ghost use Rattle.tendril_stream.specs.Reads.{OneRead, read_of};

    /// The reads so far, in order.
    ghost history: { Self → List OneRead };

    /// The bytes that further reads will return, or `None` if they aren't known.
    ghost remaining: { Self → Option (List ℕ) } = { λ _. None };

    /// Reads into the start of the buffer and returns the number of bytes: 0 at the end, or for an empty buffer.
    fn read_some(&mut self, buffer: &mut [u8]) -> Result<usize, ReadFault>
        ensures within { IfOk result (λ n. n ≤ length buffer.new) }
        ensures history { history self.new ≡ history self.old ++ read_of result buffer.new ∷ [] }
        ensures consumes { ReadConsumes (remaining self.old) (remaining self.new) result buffer.new };
}
