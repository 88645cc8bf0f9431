//! Decodes a piece after bytes that were kept.
ghost use Rattle.tendril_bench.specs.Decoded.{spelled};
ghost use Rattle.std.specs.Prelude.{◌≡◌, ◌++◌, chars, OnOk};
ghost use Rattle.tendril.specs.Lossy.{characters, due_open, kept};

use crate::push::{push_decoded, push_replacement};
use tendril::block::Refusal;
use tendril::fmt::Encoded;
use tendril::lossy::{ShortText, laws};
use tendril::{ByteTendril, IncompleteUtf8, StrTendril};

/// Completes `held` from a piece, decodes the remainder onto the text, and stores the incomplete end of it in `held`.
pub fn resume(
    held: &mut IncompleteUtf8,
    text: &mut StrTendril,
    mut piece: ByteTendril,
) -> Result<(), Refusal>
    ensures characters { OnOk result (
        chars text.new.bytes ≡ chars text.old.bytes ++ characters (due_open (held.old ++ piece.bytes))) }
    ensures keeps { OnOk result (held.new ≡ kept (held.old ++ piece.bytes)) }
{
    laws();
    let Some(found) = held.complete_from(&mut piece) else {
        return Ok(());
    };
    push_completed(text, &found)?;
    if let Some(kept) = push_decoded(text, piece)? {
        *held = kept;
    }
    Ok(())
}

fn push_completed(text: &mut StrTendril, found: &Result<ShortText, Encoded>) -> Result<(), Refusal>
    ensures { OnOk result (chars text.new.bytes ≡ chars text.old.bytes ++ spelled found.now) }
{
    let _is_utf8 = text.as_str();
    match found {
        Ok(short) => text.push_slice(short.as_str()),
        Err(_) => push_replacement(text),
    }
}
