//! WTF-8.
ghost use Rattle.std.specs.Prelude.{◌≡◌, ◌+◌, ◌*◌, ◌-◌, ◌<◌, ◌≤◌, ◌∷◌, [], ◌++◌, ℕ, List, MatchOption, length};
ghost use Rattle.std.specs.Prelude.{encode_utf8};
ghost use Rattle.std.specs.Char.Utf16.{surrogate_pair_char};
ghost use Rattle.tendril_fmt.specs.CodePoints.{EndsWithCodePoint, BeginsWithCodePoint};

use crate::fmt::ascii_cuts::CutsAtAscii;
use crate::fmt::fixup::Fixup;
use crate::fmt::format::Format;
use crate::fmt::local::{first_four, last_four, wtf8_ends};
use crate::futf::{Meaning, decode, split_code_point};

/// WTF-8: UTF-8 that may also have lone surrogates, of three bytes each, so that it can encode any list of 16-bit units
/// (<https://simonsapin.github.io/wtf-8/>).
///
/// The three bytes of a lead surrogate right before those of a trail aren't valid: the pair must be the four bytes of
/// its character. So if a lead ends a text and a trail begins the next, a join replaces both by these four bytes.
#[derive(Clone, Copy, Debug, Default)]
pub struct WTF8;

// The lead surrogate that ends the bytes, less 0xD800.
fn lead_at_end(bytes: &[u8]) -> Option<u16>
    ensures { MatchOption result ((i : ℕ) → i < 0x400 → ¬ (EndsWithCodePoint bytes.now (0xD800 + i)))
        (λ i. (i < 0x400) × EndsWithCodePoint bytes.now (0xD800 + i)) }
{
    let start = bytes.len().checked_sub(3)?;
    match decode(&bytes[start..])? {
        Meaning::LeadSurrogate(index) => Some(index),
        _ => None,
    }
}

// The trail surrogate that begins the bytes, less 0xDC00.
fn trail_at_front(bytes: &[u8]) -> Option<u16>
    ensures { MatchOption result ((i : ℕ) → i < 0x400 → ¬ (BeginsWithCodePoint bytes.now (0xDC00 + i)))
        (λ i. (i < 0x400) × BeginsWithCodePoint bytes.now (0xDC00 + i)) }
{
    match decode(bytes.get(..3)?)? {
        Meaning::TrailSurrogate(index) => Some(index),
        _ => None,
    }
}

// Replaces the six bytes of a surrogate pair by the four of its character.
fn pair_fixup(lead: u16, trail: u16) -> Fixup
    requires lead { lead < 0x400 }
    requires trail { trail < 0x400 }
    ensures drop_left { result.drop_left ≡ 3 }
    ensures drop_right { result.drop_right ≡ 3 }
    ensures insert_len { result.insert_len ≡ 4 }
    ensures insert_bytes { result.insert_bytes ≡ encode_utf8 (surrogate_pair_char (0xD800 + lead) (0xDC00 + trail)) }
{
    let code = 0x1_0000 + (lead as u32) * 0x400 + (trail as u32);
    Fixup {
        drop_left: 3,
        drop_right: 3,
        insert_len: 4,
        insert_bytes: [
            (0xF0 + code / 0x4_0000) as u8,
            (0x80 + code / 0x1000 % 0x40) as u8,
            (0x80 + code / 0x40 % 0x40) as u8,
            (0x80 + code % 0x40) as u8,
        ],
    }
}

impl Format for WTF8 {
    ghost use Rattle.tendril_fmt.specs.Wtf8.{IsWtf8, wtf8_join};
    ghost use Rattle.tendril_fmt.specs.Proved.Units.{IsWtf8-nil, IsWtf8-join, AreBytes-from_wtf8};

    ghost valid = { IsWtf8 };

    ghost join = { wtf8_join };

    ghost empty_valid = { IsWtf8-nil };

    ghost join_valid = { IsWtf8-join };

    ghost are_bytes = { AreBytes-from_wtf8 };

    fn validate(bytes: &[u8]) -> bool {
        let mut rest = bytes;
        let mut after_lead = false;
        while !rest.is_empty() {
            let Some((meaning, after)) = split_code_point(rest) else {
                return false;
            };
            if after_lead && matches!(meaning, Meaning::TrailSurrogate(_)) {
                return false;
            }
            after_lead = matches!(meaning, Meaning::LeadSurrogate(_));
            rest = after;
        }
        true
    }

    fn validate_prefix(bytes: &[u8]) -> bool {
        wtf8_ends(&[], last_four(bytes))
    }

    fn validate_suffix(bytes: &[u8]) -> bool {
        wtf8_ends(first_four(bytes), &[])
    }

    fn validate_subseq(bytes: &[u8]) -> bool {
        wtf8_ends(first_four(bytes), last_four(bytes))
    }

    /// Reads at most three bytes of each side.
    fn fixup(left: &[u8], right: &[u8]) -> Fixup {
        match (lead_at_end(left), trail_at_front(right)) {
            (Some(lead), Some(trail)) => pair_fixup(lead, trail),
            _ => Fixup::default(),
        }
    }
}

impl CutsAtAscii for WTF8 {
    ghost use Rattle.tendril_fmt.specs.Proved.Cuts.{IsWtf8-ascii_cut, IsWtf8-after_ascii};

    ghost ascii_cut = { IsWtf8-ascii_cut };

    ghost after_ascii = { IsWtf8-after_ascii };
}
