//! Splits a text into parts: each byte of a set, and the texts between them.
ghost use Rattle.std.specs.Prelude.{◌≡◌, ◌<◌, ◌++◌, [], length, flat_map, IfOk, IfSome, IfNone, OnSome};

use std::alloc::Global;
use tendril::block::Refusal;
use tendril::{ByteSet, StrTendril};

/// Returns the parts of a text, in order. Long ones share its block.
pub fn parts(alloc: Global, mut text: StrTendril, set: &ByteSet) -> Result<Vec<StrTendril>, Refusal>
    ensures { IfOk result (λ parts. flat_map (λ part. part.bytes) parts.items ≡ text.bytes) }
{
    let mut parts = Vec::new(alloc);
    'parts: while let Some(part) = next_part(alloc, &mut text, set)? {
        parts.push(part)?;
    }
    Ok(parts)
}

/// Removes and returns the next part of a text, or returns None if the text is empty.
pub fn next_part(
    alloc: Global,
    text: &mut StrTendril,
    set: &ByteSet,
) -> Result<Option<StrTendril>, Refusal>
    ensures part { IfOk result (λ found. IfSome found (λ part. text.old.bytes ≡ part.bytes ++ text.new.bytes)) }
    ensures shorter { IfOk result (λ found. OnSome found (length text.new.bytes < length text.old.bytes)) }
    ensures none { IfOk result (λ found. IfNone found (text.old.bytes ≡ [])) }
{
    if let Some(part) = text.pop_front_until(set)? {
        return Ok(Some(part));
    }
    match text.pop_front_char() {
        Some(character) => Ok(Some(StrTendril::from_char(alloc, character)?)),
        None => Ok(None),
    }
}
