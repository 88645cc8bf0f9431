//! Kept bytes that are completed from the input after them.
ghost use Rattle.std.specs.Prelude.{◌≡◌, ◌≤◌, ◌++◌, length, take};
ghost use Rattle.tendril_lossy.specs.Completions.{Completes};
ghost use Rattle.tendril_lossy.specs.Lossy.{IsIncomplete};

use crate::search::{Ending, first_part};
use std::marker::Model;
use tendril_fmt::fmt::Encoded;

/// A text of at most four bytes: an `Encoded` whose bytes are UTF-8, as its invariant says.
#[derive(Clone, Copy, Debug)]
pub struct ShortText {
    bytes: Encoded,
}

impl Model for ShortText {
    ghost use Rattle.std.specs.Prelude.{ℕ, List, IsUtf8, refl};

    ghost Value = { List ℕ };

    ghost view = { λ t. t.bytes };

    ghost invariant = { λ t. IsUtf8 t.bytes };

    ghost inverse = { λ list. record { bytes = list } };

    ghost inverse_ok = { λ t h. refl };
}

impl ShortText {
    fn new(text: &str) -> Self
        requires { length text.now ≤ 4 }
        ensures { result ≡ text.now }
    {
        ShortText {
            bytes: Encoded::new(text.as_bytes()),
        }
    }

    /// The text.
    pub fn as_str(&self) -> &str
        ensures { result.now ≡ self.now }
    {
        unsafe { std::str::from_utf8_unchecked(self.bytes.as_slice()) }
    }
}

/// What kept bytes become when they are filled up to four bytes from the input.
///
/// It doesn't borrow the kept bytes, as the Rust crate's does: no contract could say what they are during the borrow.
#[derive(Clone, Copy, Debug)]
pub enum Completion {
    /// The longest text that they begin with.
    Text(ShortText),
    /// The maximal subpart, if they begin with no character.
    Broken(Encoded),
    /// The kept bytes and all of the input, which are still only the beginning of a character.
    Open(Encoded),
}

/// Completes kept bytes from the input. Reads at most four bytes of it. A text or a maximal subpart is the kept
/// bytes, then the first bytes of the input.
pub fn complete(kept: &[u8], input: &[u8]) -> Completion
    requires { IsIncomplete kept.now }
    ensures { Completes kept.now input.now result }
{
    let filled = fill(kept, input);
    let bytes = filled.as_slice();
    let (front, ending) = first_part(bytes);
    if !front.is_empty() {
        return Completion::Text(ShortText::new(front));
    }
    match ending {
        Ending::Whole => Completion::Text(ShortText::new(front)),
        Ending::Broken(len) => Completion::Broken(Encoded::new(&bytes[..len])),
        Ending::Open => Completion::Open(filled),
    }
}

fn fill(kept: &[u8], input: &[u8]) -> Encoded
    requires { length kept.now ≤ 4 }
    ensures { result ≡ take 4 (kept.now ++ input.now) }
{
    let count = kept.len() + input.len().min(4 - kept.len());
    let mut bytes = [0; 4];
    bytes[..kept.len()].copy_from_slice(kept);
    bytes[kept.len()..count].copy_from_slice(&input[..count - kept.len()]);
    Encoded::new(&bytes[..count])
}
