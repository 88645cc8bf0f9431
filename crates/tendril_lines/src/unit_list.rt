//! Words that are 16-bit units.
ghost use Rattle.std.specs.Prelude.{◌≡◌, ◌↔◌, ℕ, List, Some, IfOk, string_bytes};
ghost use Rattle.tendril_lines.specs.Words.{IsUnits, big_endian, hex_text};

use crate::hexadecimal::{bytes, hex_of};
use std::alloc::{AllocError, Global};
use std::marker::Model;

/// 16-bit units that a command or a reply carries.
#[derive(Debug, Drop)]
pub struct UnitList {
    units: Vec<u16>,
}

impl Model for UnitList {
    ghost Value = { List ℕ };

    ghost view = { λ u. u.units.items };
}

impl UnitList {
    /// Wraps a vector of units. Allocates nothing.
    pub fn new(units: Vec<u16>) -> Self
        ensures { result ≡ units.items }
    {
        UnitList { units }
    }

    /// Borrows the units.
    pub fn as_slice(&self) -> &[u16]
        ensures { result.now ≡ self.now }
    {
        self.units.as_slice()
    }

    /// Returns the vector of the units. Allocates nothing.
    pub fn into_vec(self) -> Vec<u16>
        ensures { result.items ≡ self }
    {
        let Self { units } = self;
        units
    }
}

/// Reads a word of units: four hexadecimal digits each, in either case, the high ones first, or a dash for none.
///
/// Returns `None` for other words. The only error is a failed allocation.
#[tactic(auto, unfolding(crate::specs::Words::IsUnits))]
pub fn units(alloc: Global, word: &[u8]) -> Result<Option<UnitList>, AllocError>
    ensures { IfOk result (λ found. (us : List ℕ) → (found ≡ Some us) ↔ IsUnits us word.now) }
{
    match bytes(alloc, word)? {
        Some(bytes) => paired(alloc, bytes.as_slice()),
        None => Ok(None),
    }
}

/// Returns the word of units: four digits each in lower case, the high ones first, or a dash for none.
pub fn hex_of_units(alloc: Global, units: &[u16]) -> Result<String, AllocError>
    ensures { IfOk result (λ text. string_bytes text ≡ hex_text (big_endian units.now)) }
{
    let mut bytes = Vec::new(alloc);
    for unit in units {
        bytes.extend_from_slice(&[(*unit / 0x100) as u8, (*unit % 0x100) as u8])?;
    }
    hex_of(alloc, bytes.as_slice())
}

// The units of bytes, two each, the high one first, if no byte is left over.
fn paired(alloc: Global, bytes: &[u8]) -> Result<Option<UnitList>, AllocError>
    ensures { IfOk result (λ found. (us : List ℕ) → (found ≡ Some us) ↔ (bytes.now ≡ big_endian us)) }
{
    let mut units = Vec::new(alloc);
    let mut rest = bytes;
    while let [high, low, after @ ..] = rest {
        units.extend_from_slice(&[*high as u16 * 0x100 + *low as u16])?;
        rest = after;
    }
    if rest.is_empty() {
        Ok(Some(UnitList::new(units)))
    } else {
        Ok(None)
    }
}
