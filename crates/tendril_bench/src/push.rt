//! Decodes a piece onto a text.
ghost use Rattle.std.specs.Prelude.{◌≡◌, ◌⊎◌, ◌++◌, ◌∷◌, [], chars, MatchOption, IfOk, IfErr, OnOk};
ghost use Rattle.tendril.specs.Decoding.{bytes_of};
ghost use Rattle.tendril.specs.Lossy.{characters, due_open, kept};

use tendril::block::Refusal;
use tendril::lossy::{Ending, laws};
use tendril::{ByteTendril, IncompleteUtf8, StrTendril};

/// Decodes a piece onto a text, and returns the incomplete character at its end, if there is one.
pub fn push_decoded(
    text: &mut StrTendril,
    mut piece: ByteTendril,
) -> Result<Option<IncompleteUtf8>, Refusal>
    ensures characters { OnOk result (
        chars text.new.bytes ≡ chars text.old.bytes ++ characters (due_open piece.bytes)) }
    ensures refusal { IfErr result (λ e. (e ≡ Refusal.Count) ⊎ (e ≡ Refusal.TooLong) ⊎ (e ≡ Refusal.Memory)) }
    ensures keeps { IfOk result (λ held.
        MatchOption held (kept piece.bytes ≡ []) (λ k. k ≡ kept piece.bytes)) }
{
    laws();
    loop {
        let (part, ending) = piece.pop_text()?;
        push_some(text, part)?;
        match ending {
            Ending::Whole => return Ok(None),
            Ending::Open => return Ok(IncompleteUtf8::new(piece.as_byte_slice())),
            Ending::Broken(_) => push_replacement(text)?,
        }
    }
}

fn push_some(text: &mut StrTendril, part: Option<StrTendril>) -> Result<(), Refusal>
    ensures refusal { IfErr result (λ e. (e ≡ Refusal.TooLong) ⊎ (e ≡ Refusal.Memory)) }
    ensures ok { OnOk result (chars text.new.bytes ≡ chars text.old.bytes ++ chars (bytes_of part)) }
{
    let _is_utf8 = text.as_str();
    match part {
        Some(part) => text.push_slice(part.as_str()),
        None => Ok(()),
    }
}

pub fn push_replacement(text: &mut StrTendril) -> Result<(), Refusal>
    ensures refusal { IfErr result (λ e. (e ≡ Refusal.TooLong) ⊎ (e ≡ Refusal.Memory)) }
    ensures ok { OnOk result (chars text.new.bytes ≡ chars text.old.bytes ++ 0xFFFD ∷ []) }
{
    let _is_utf8 = text.as_str();
    text.push_char('\u{FFFD}')
}
