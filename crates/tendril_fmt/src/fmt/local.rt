//! Tests of a slice of a text that read only its ends.
ghost use Rattle.std.specs.Prelude.{◌≡◌, ◌≤◌, ◌↔◌, ℕ, List, length, IsTrue, IsUtf8};
ghost use Rattle.tendril_fmt.specs.Local.{IsWhole, IsWholeOrSurrogate, StandsAccepted, PassesAsFront, PassesAsEnd};
ghost use Rattle.tendril_fmt.specs.Local.{first_four as first_four_of, last_four as last_four_of};
ghost use Rattle.tendril_fmt.specs.Parts.{IsSliceOf};
ghost use Rattle.tendril_fmt.specs.Wtf8.{IsWtf8};

use crate::futf::{Meaning, classify};

// The first four bytes, or all if there are fewer.
pub(super) fn first_four(bytes: &[u8]) -> &[u8]
    ensures four { result.now ≡ first_four_of bytes.now }
    ensures short { length result.now ≤ 4 }
{
    &bytes[..bytes.len().min(4)]
}

// The last four bytes, or all if there are fewer.
pub(super) fn last_four(bytes: &[u8]) -> &[u8]
    ensures four { result.now ≡ last_four_of bytes.now }
    ensures short { length result.now ≤ 4 }
{
    &bytes[bytes.len().saturating_sub(4)..]
}

fn is_whole(meaning: Meaning) -> bool
    ensures { IsTrue result ↔ IsWhole meaning }
{
    matches!(meaning, Meaning::Whole(_))
}

fn is_whole_or_surrogate(meaning: Meaning) -> bool
    ensures { IsTrue result ↔ IsWholeOrSurrogate meaning }
{
    matches!(
        meaning,
        Meaning::Whole(_) | Meaning::LeadSurrogate(_) | Meaning::TrailSurrogate(_)
    )
}

// Whether the byte is part of a whole character.
fn stands_whole(bytes: &[u8], index: usize) -> bool
    ensures { IsTrue result ↔ StandsAccepted IsWhole bytes.now index }
{
    match classify(bytes, index) {
        Some(found) => is_whole(found.meaning),
        None => false,
    }
}

// Whether the byte is part of a whole character or a surrogate.
fn stands_whole_or_surrogate(bytes: &[u8], index: usize) -> bool
    ensures { IsTrue result ↔ StandsAccepted IsWholeOrSurrogate bytes.now index }
{
    match classify(bytes, index) {
        Some(found) => is_whole_or_surrogate(found.meaning),
        None => false,
    }
}

// Whether the bytes are empty or begin with a whole character.
fn begins_with_character(bytes: &[u8]) -> bool
    ensures { IsTrue result ↔ PassesAsEnd IsWhole bytes.now }
{
    bytes.is_empty() || stands_whole(bytes, 0)
}

// Whether the bytes are empty or end with a whole character.
fn ends_with_character(bytes: &[u8]) -> bool
    ensures { IsTrue result ↔ PassesAsFront IsWhole bytes.now }
{
    bytes.is_empty() || stands_whole(bytes, bytes.len() - 1)
}

// Whether the bytes are empty or begin with a whole character or a surrogate.
fn begins_with_code_point(bytes: &[u8]) -> bool
    ensures { IsTrue result ↔ PassesAsEnd IsWholeOrSurrogate bytes.now }
{
    bytes.is_empty() || stands_whole_or_surrogate(bytes, 0)
}

// Whether the bytes are empty or end with a whole character or a surrogate.
fn ends_with_code_point(bytes: &[u8]) -> bool
    ensures { IsTrue result ↔ PassesAsFront IsWholeOrSurrogate bytes.now }
{
    bytes.is_empty() || stands_whole_or_surrogate(bytes, bytes.len() - 1)
}

/// Whether a slice of UTF-8 with these first and last four bytes is UTF-8: whether a character begins at the first
/// byte, and one ends at the last. An empty side isn't tested.
///
/// If the slice has fewer than four bytes, each argument is the whole slice. Calls `classify` at most twice, and reads
/// no other byte.
pub fn utf8_ends(first: &[u8], last: &[u8]) -> bool
    requires first_short { length first.now ≤ 4 }
    requires last_short { length last.now ≤ 4 }
    ensures ends { IsTrue result ↔ (PassesAsEnd IsWhole first.now × PassesAsFront IsWhole last.now) }
    ensures slice { (part whole : List ℕ) → IsUtf8 whole → IsSliceOf part whole
        → first.now ≡ first_four_of part → last.now ≡ last_four_of part → (IsTrue result ↔ IsUtf8 part) }
{
    begins_with_character(first) && ends_with_character(last)
}

/// Whether a slice of WTF-8 with these first and last four bytes is WTF-8. As `utf8_ends`, but surrogates are accepted.
pub fn wtf8_ends(first: &[u8], last: &[u8]) -> bool
    requires first_short { length first.now ≤ 4 }
    requires last_short { length last.now ≤ 4 }
    ensures ends { IsTrue result
        ↔ (PassesAsEnd IsWholeOrSurrogate first.now × PassesAsFront IsWholeOrSurrogate last.now) }
    ensures slice { (part whole : List ℕ) → IsWtf8 whole → IsSliceOf part whole
        → first.now ≡ first_four_of part → last.now ≡ last_four_of part → (IsTrue result ↔ IsWtf8 part) }
{
    begins_with_code_point(first) && ends_with_code_point(last)
}
