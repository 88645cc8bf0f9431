//! Changes of a slot's text.
ghost use Rattle.std.specs.Prelude.{◌≡◌, ℕ};
ghost use Rattle.tendril_run.specs.Cells.{cell_of, IsCell};
ghost use Rattle.tendril_run.specs.OneCell.{push_rule, join_rule, pop_char_rule, change_rule, char_of};
ghost use Rattle.tendril_run.specs.Rules.{with_effect, Follows, Changes};

use crate::change::{apply_byte_edit, apply_edit};
use crate::slot::Slot;
use crate::text;
use tendril_lines::{ByteEdit, ByteList, Change, Edit, Kind};
use tendril_text::Atomicity;
use tendril_text::block::Refusal;

impl<A: Atomicity> Slot<A> {
    /// Puts bytes at the end of the text.
    pub(crate) fn push_bytes(&mut self, bytes: &ByteList) -> Result<(), Refusal>
        ensures pushed { Changes (push_rule bytes.now) (cell_of self.old) result (cell_of self.new) }
        ensures kept { IsCell (cell_of self.old) → IsCell (cell_of self.new) }
    {
        on_text!(self, _kind, text => text::push(text, bytes), Err(Refusal::NoSuchSlot))
    }

    /// Changes the slot.
    pub(crate) fn change(&mut self, change: Change) -> Result<(), Refusal>
        ensures changed { Changes (change_rule change) (cell_of self.old) result (cell_of self.new) }
        ensures kept { IsCell (cell_of self.old) → IsCell (cell_of self.new) }
    {
        match change {
            Change::PushChar(character) => self.push_char(character),
            Change::Edit(edit) => self.edit(edit),
            Change::EditBytes(edit) => self.edit_bytes(edit),
            Change::Convert(conversion) => self.convert(conversion),
            Change::ThroughSend => self.through_send(),
            Change::Drop => self.drop_text(),
        }
    }

    // Puts a character at the end of the text.
    fn push_char(&mut self, character: char) -> Result<(), Refusal>
        ensures changed { Changes (change_rule (Change.PushChar character)) (cell_of self.old) result
            (cell_of self.new) }
        ensures kept { IsCell (cell_of self.old) → IsCell (cell_of self.new) }
    {
        on_characters!(self, text => text::push_char(text, character))
    }

    /// Removes the first character of the text and returns it.
    pub(crate) fn pop_char(&mut self) -> Result<Option<char>, Refusal>
        ensures popped { Follows
            (λ cell. with_effect (λ rest first new. (first ≡ char_of cell) × (new ≡ rest)) (pop_char_rule cell))
            (cell_of self.old) result (cell_of self.new) }
        ensures kept { IsCell (cell_of self.old) → IsCell (cell_of self.new) }
    {
        on_characters!(self, text => Ok(text::pop_char(text)))
    }

    /// Puts the text at its own end.
    pub(crate) fn join_self(&mut self) -> Result<(), Refusal>
        ensures joined { (slot : ℕ) →
            Changes (λ cell. join_rule slot slot cell cell) (cell_of self.old) result (cell_of self.new) }
        ensures kept { IsCell (cell_of self.old) → IsCell (cell_of self.new) }
    {
        on_text!(self, _kind, text => text::join_self(text), Err(Refusal::NoSuchSlot))
    }

    // Changes the text's bytes.
    fn edit(&mut self, edit: Edit) -> Result<(), Refusal>
        ensures changed { Changes (change_rule (Change.Edit edit)) (cell_of self.old) result (cell_of self.new) }
        ensures kept { IsCell (cell_of self.old) → IsCell (cell_of self.new) }
    {
        on_text!(self, _kind, text => apply_edit(text, edit), Err(Refusal::NoSuchSlot))
    }

    // Changes the bytes of a text in the format `Bytes`.
    fn edit_bytes(&mut self, edit: ByteEdit) -> Result<(), Refusal>
        ensures changed { Changes (change_rule (Change.EditBytes edit)) (cell_of self.old) result (cell_of self.new) }
        ensures kept { IsCell (cell_of self.old) → IsCell (cell_of self.new) }
    {
        match self {
            Slot::Bytes(text) => apply_byte_edit(text, edit),
            Slot::Gone => Err(Refusal::NoSuchSlot),
            _ => Err(Refusal::WrongFormat),
        }
    }

    // Makes a clone of the text sendable, converts it back, and replaces the text by it.
    fn through_send(&mut self) -> Result<(), Refusal>
        ensures changed { Changes (change_rule Change.ThroughSend) (cell_of self.old) result (cell_of self.new) }
        ensures kept { IsCell (cell_of self.old) → IsCell (cell_of self.new) }
    {
        on_text!(self, _kind, text => text::through_send(text), Err(Refusal::NoSuchSlot))
    }

    // Drops the text.
    fn drop_text(&mut self) -> Result<(), Refusal>
        ensures changed { Changes (change_rule Change.Drop) (cell_of self.old) result (cell_of self.new) }
        ensures kept { IsCell (cell_of self.old) → IsCell (cell_of self.new) }
    {
        if let Slot::Gone = self {
            return Err(Refusal::NoSuchSlot);
        }
        *self = Slot::Gone;
        Ok(())
    }
}
