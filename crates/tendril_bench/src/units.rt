//! 16-bit units and texts in WTF-8.
ghost use Rattle.std.specs.Prelude.{◌≡◌, ◌++◌, ◌||◌, IfOk, count_by};
ghost use Rattle.std.specs.Char.Utf16.{is_high_surrogate, is_low_surrogate};
ghost use Rattle.tendril.specs.Fmt.Wtf8.{units as units_of};

use std::alloc::Global;
use tendril::Tendril;
use tendril::block::Refusal;
use tendril::fmt::{WTF8, Wtf8Units, laws};

/// Returns the units of two lists, joined in a text.
pub fn joined_units(alloc: Global, left: &[u16], right: &[u16]) -> Result<Vec<u16>, Refusal>
    ensures { IfOk result (λ units. units.items ≡ left.now ++ right.now) }
{
    laws();
    let mut text: Tendril<WTF8> = Tendril::from_units(alloc, left)?;
    let more: Tendril<WTF8> = Tendril::from_units(alloc, right)?;
    text.push_tendril(&more)?;
    text.to_units()
}

/// Returns how many of a text's units are surrogates, in pairs or alone.
pub fn surrogates(text: &Tendril<WTF8>) -> usize
    ensures { result ≡ count_by (λ u. is_high_surrogate u || is_low_surrogate u) (units_of text.now.bytes) }
{
    let mut count = 0;
    for unit in Wtf8Units::new(text.as_byte_slice()) {
        if is_surrogate(unit) {
            count += 1;
        }
    }
    count
}

fn is_surrogate(unit: u16) -> bool
    ensures { result ≡ is_high_surrogate unit || is_low_surrogate unit }
{
    (0xD800 <= unit && unit < 0xDC00) || (0xDC00 <= unit && unit < 0xE000)
}
