//! Reads all of a reader into a text.
ghost use Rattle.std.specs.Prelude.{◌≡◌, ℕ, List, Some, IfOk};

use std::alloc::Global;
use tendril::ByteTendril;
use tendril::block::Refusal;
use tendril::stream::{CountedRead, ReadExt};

/// The maximal number of reads.
const MOST: u64 = 1000;

/// Returns all bytes of the reader, up to its end.
pub fn read_all<R: CountedRead>(alloc: Global, reader: &mut R) -> Result<ByteTendril, Refusal>
    ensures { IfOk result (λ text. (bytes : List ℕ) → R.remaining reader.old ≡ Some bytes → text.bytes ≡ bytes) }
{
    let mut text = ByteTendril::new(alloc);
    reader.read_to_tendril(&mut text, MOST)?;
    Ok(text)
}
