//! The start of a line, which is completed by what comes in next.
//!
//! Contracts see a `LineStart` as its text, which has no LF.
ghost use Rattle.std.specs.Prelude.{◌≡◌, ◌<◌, ◌++◌, [], length, IfOk, IfErr, OnOk, IsUtf8};
ghost use Rattle.tendril_stream.specs.LineStarts.{CompletesLine, CompletionStops, KeepsMore};
ghost use Rattle.tendril_stream.specs.Lines.{HasLongNextLine, JoinStops};
ghost use Rattle.tendril_fmt.specs.Cuts.{EndsFirstLine, LacksFeed};
ghost use Rattle.tendril_text.specs.Texts.{Text};

use std::alloc::Global;
use std::marker::Model;
use tendril_errors::Refusal;
use tendril_text::fmt::UTF8;
use tendril_text::{Atomicity, Tendril};

/// The start of a line: a text without an LF.
#[derive(Drop)]
pub(crate) struct LineStart<A: Atomicity> {
    text: Tendril<UTF8, A>,
}

impl<A: Atomicity> Model for LineStart<A> {
    ghost use Rattle.tendril_fmt.specs.Cuts.{LacksFeed};
    ghost use Rattle.tendril_text.specs.Texts.{Text};

    ghost Value = { Text };

    ghost view = { λ l. l.text };

    ghost invariant = { λ l. LacksFeed l.text.bytes };
}

impl<A: Atomicity> LineStart<A> {
    pub(crate) fn new(alloc: Global) -> Self
        ensures { result.bytes ≡ [] }
    {
        LineStart {
            text: Tendril::new(alloc),
        }
    }

    pub(crate) fn text(&self) -> &Tendril<UTF8, A>
        ensures value { result.now ≡ self.now }
        ensures lacks { LacksFeed self.now.bytes }
    {
        &self.text
    }

    pub(crate) fn into_text(self) -> Tendril<UTF8, A>
        ensures value { result ≡ self }
    {
        self.text
    }

    // Removes the first line of a text, of `count` bytes, and returns what was kept joined with it.
    pub(crate) fn complete(
        &mut self,
        rest: &mut Tendril<UTF8, A>,
        count: u32,
    ) -> Result<Tendril<UTF8, A>, Refusal>
        requires { EndsFirstLine rest.old.bytes count }
        ensures ok { IfOk result (λ line. CompletesLine self.old rest.old line rest.new) }
        ensures empty { OnOk result (self.new.bytes ≡ []) }
        ensures err { IfErr result (CompletionStops self.old.bytes rest.old.bytes) }
    {
        if self.text.as_byte_slice().is_empty() {
            return split_line(rest, count);
        }
        join_line(&mut self.text, rest, count)
    }

    // Keeps a text without an LF too.
    pub(crate) fn keep(&mut self, rest: Tendril<UTF8, A>) -> Result<(), Refusal>
        requires { LacksFeed rest.bytes }
        ensures ok { OnOk result (KeepsMore self.old rest self.new) }
        ensures err { IfErr result (JoinStops self.old.bytes (self.old.bytes ++ rest.bytes)) }
    {
        if self.text.is_empty() {
            self.text = rest;
            return Ok(());
        }
        self.text.push_tendril(&rest)
    }
}

// Removes the first line of a text, where nothing was kept. It shares the text's block.
fn split_line<A: Atomicity>(
    rest: &mut Tendril<UTF8, A>,
    count: u32,
) -> Result<Tendril<UTF8, A>, Refusal>
    requires { EndsFirstLine rest.old.bytes count }
    ensures ok { (kept : Text) → kept.bytes ≡ [] → IfOk result (λ line. CompletesLine kept rest.old line rest.new) }
    ensures err { IfErr result (HasLongNextLine rest.old.bytes rest.old.bytes) }
{
    match rest.split_to(count) {
        Ok(line) => Ok(line),
        Err(_) => Err(Refusal::Count),
    }
}

// Removes the first line of a text, and joins it to what was kept.
fn join_line<A: Atomicity>(
    kept: &mut Tendril<UTF8, A>,
    rest: &mut Tendril<UTF8, A>,
    count: u32,
) -> Result<Tendril<UTF8, A>, Refusal>
    requires line { EndsFirstLine rest.old.bytes count }
    requires lacks { LacksFeed kept.old.bytes }
    requires valid { IsUtf8 kept.old.bytes }
    requires some { 0 < length kept.old.bytes }
    ensures ok { IfOk result (λ line. CompletesLine kept.old rest.old line rest.new) }
    ensures empty { OnOk result (kept.new.bytes ≡ []) }
    ensures lacks { LacksFeed kept.new.bytes }
    ensures err { IfErr result (JoinStops kept.old.bytes (kept.old.bytes ++ rest.old.bytes)) }
{
    kept.push_bytes_without_validating(&rest.as_byte_slice()[..count as usize])?;
    rest.pop_front(count);
    Ok(kept.take())
}
