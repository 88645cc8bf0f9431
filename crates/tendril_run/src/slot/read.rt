//! What is read of a slot's text.
ghost use Rattle.tendril_lines.specs.declared.command.Reply.TheVariants as reply;
ghost use Rattle.tendril_run.specs.Cells.{cell_of, IsCell};
ghost use Rattle.tendril_run.specs.OneCell.{part_rule, clone_rule, text_rule, units_rule};
ghost use Rattle.tendril_run.specs.Rules.{GivesBy};

use crate::slot::Slot;
use crate::text;
use std::alloc::Global;
use tendril_lines::{ByteList, Kind, UnitList};
use tendril_text::Atomicity;
use tendril_text::block::Refusal;

impl<A: Atomicity> Slot<A> {
    /// Reads the text, which gives the prover that it is valid. Costs nothing.
    pub(crate) fn read(&self)
        ensures { IsCell (cell_of self.now) }
    {
        on_text!(
            self,
            _kind,
            text => {
                let _bytes = text.as_byte_slice();
            },
            ()
        )
    }

    /// A slice of the text.
    pub(crate) fn slice(&self, offset: u32, count: u32) -> Result<Self, Refusal>
        ensures { GivesBy (part_rule offset count (cell_of self.now)) cell_of result }
    {
        like_text!(self, text => text.try_subtendril(offset, count), Err(Refusal::NoSuchSlot))
    }

    /// A clone of the text.
    pub(crate) fn clone(&self) -> Result<Self, Refusal>
        ensures { GivesBy (clone_rule (cell_of self.now)) cell_of result }
    {
        like_text!(self, text => text.clone(), Err(Refusal::NoSuchSlot))
    }

    /// The text's format, and its bytes, copied.
    pub(crate) fn text(&self, alloc: Global) -> Result<(Kind, ByteList), Refusal>
        ensures { GivesBy (text_rule (cell_of self.now)) (λ told. reply.Text told.0 told.1) result }
    {
        on_text!(self, kind, text => Ok((kind, text::bytes(alloc, text)?)), Err(Refusal::NoSuchSlot))
    }

    /// The units of the text, if it is in WTF-8.
    pub(crate) fn units(&self) -> Result<UnitList, Refusal>
        ensures { GivesBy (units_rule (cell_of self.now)) (λ us. reply.Units us) result }
    {
        match self {
            Slot::Wtf8(text) => Ok(UnitList::new(text.to_units()?)),
            Slot::Gone => Err(Refusal::NoSuchSlot),
            _ => Err(Refusal::WrongFormat),
        }
    }
}
