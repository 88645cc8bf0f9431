//! Joins the texts that a tokenizer has not processed yet.
ghost use Rattle.std.specs.Prelude.{◌≡◌, ◌<◌, ◌++◌, length, IfOk, OnOk, OnErr};
ghost use Rattle.use_tokens.specs.Spelled.{begun_bytes};

use crate::state::State;
use std::alloc::Global;
use tendril::StrTendril;
use tendril::block::Refusal;
use tendril_queue::TextQueue;

// Appends a text to another one, which becomes the appended text if it was empty.
#[inline(always)]
pub(crate) fn append(text: &mut StrTendril, more: StrTendril) -> Result<(), Refusal>
    ensures { OnOk result (text.new.bytes ≡ text.old.bytes ++ more.bytes) }
{
    if text.is_empty() {
        *text = more;
        return Ok(());
    }
    text.push_tendril(&more)
}

// The bytes of incomplete markup, or the empty text.
pub(crate) fn begun_text(alloc: Global, state: State) -> StrTendril
    ensures { result.bytes ≡ begun_bytes state }
{
    match state {
        State::Outside => StrTendril::new(alloc),
        State::Inside { begun, .. } => begun,
    }
}

// Appends the remaining input to a text.
pub(crate) fn joined(begun: StrTendril, mut input: TextQueue) -> Result<StrTendril, Refusal>
    ensures ok { IfOk result (λ text. text.bytes ≡ begun.bytes ++ input.bytes) }
    ensures err { OnErr result (0 < length input.bytes) }
{
    let mut text = begun;
    'texts: while let Some(more) = input.pop_front() {
        append(&mut text, more)?;
    }
    Ok(text)
}
