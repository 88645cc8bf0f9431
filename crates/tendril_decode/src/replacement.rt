//! The encoding `replacement`: one malformed sequence for a whole stream.

use crate::decode::Decode;
use crate::part::Part;

/// The state between two slices of a stream in the encoding `replacement`.
#[derive(Clone, Copy, PartialEq, Eq, Hash, Debug)]
pub struct Replacement {
    /// Whether a byte has come, so that the malformed sequence was told.
    pub seen: bool,
}

impl Replacement {
    ghost use Rattle.std.specs.Prelude.{◌≡◌};
    ghost use Rattle.tendril_decode.specs.Replacement.{replacement};

    /// Returns the state at the start of a stream.
    pub fn new() -> Self
        ensures { result ≡ (replacement).start }
    {
        Replacement { seen: false }
    }
}

impl Decode for Replacement {
    ghost use Rattle.std.specs.Prelude.{true};
    ghost use Rattle.tendril_decode.specs.Replacement.{replacement};
    ghost use Rattle.tendril_decode.specs.Single.{none_few};

    ghost machine = { replacement };

    ghost fits = { λ _. true };

    ghost weight = { λ _. 0 };

    ghost few = { λ _. none_few };

    fn is_complete(&self) -> bool {
        true
    }

    fn end(&mut self, _out: &mut [u8]) -> Part {
        Part::empty(false)
    }

    fn decode(&mut self, input: &[u8], out: &mut [u8]) -> Part {
        let read = input.len();
        if self.seen || read == 0 {
            return Part {
                read,
                written: 0,
                broken: false,
            };
        }
        self.seen = true;
        Part {
            read,
            written: 0,
            broken: true,
        }
    }
}
