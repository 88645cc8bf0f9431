//! Conversions of a slot's text to another format.
ghost use Rattle.tendril_run.specs.Cells.{cell_of, IsCell};
ghost use Rattle.tendril_run.specs.OneCell.{change_rule, Converts};
ghost use Rattle.tendril_run.specs.Rules.{Changes};

use crate::slot::Slot;
use std::mem;
use tendril_lines::{Change, Conversion};
use tendril_text::Atomicity;
use tendril_text::block::Refusal;

impl<A: Atomicity> Slot<A> {
    // Changes the text's format.
    pub(super) fn convert(&mut self, conversion: Conversion) -> Result<(), Refusal>
        ensures changed { Changes (change_rule (Change.Convert conversion)) (cell_of self.old) result
            (cell_of self.new) }
        ensures kept { IsCell (cell_of self.old) → IsCell (cell_of self.new) }
    {
        let old = mem::replace(self, Slot::Gone);
        match old.converted(conversion) {
            Ok(new) => {
                *self = new;
                Ok(())
            }
            Err((refusal, back)) => {
                *self = back;
                Err(refusal)
            }
        }
    }

    // The text in another format, or the error with the text.
    fn converted(self, conversion: Conversion) -> Result<Self, (Refusal, Self)>
        ensures { Converts cell_of (cell_of self) conversion result }
    {
        match conversion {
            Conversion::Reinterpret(kind) => self.reinterpreted(kind),
            Conversion::ToSuperset(kind) => self.into_superset(kind),
            Conversion::ToSubset(kind) => self.into_subset(kind),
        }
    }
}
