//! Edits of a text, by its calls.
ghost use Rattle.std.specs.Prelude.{◌≤◌, length};
ghost use Rattle.tendril_run.specs.Cells.{IsText};
ghost use Rattle.tendril_run.specs.Edits.{edit_rule, byte_edit_rule};
ghost use Rattle.tendril_run.specs.Rules.{Changes};

use tendril_lines::{ByteEdit, Edit};
use tendril_text::block::{MAX_LEN, Refusal};
use tendril_text::fmt::{Bytes, Format};
use tendril_text::{Atomicity, Tendril};

/// Changes the bytes of the text.
pub(crate) fn apply_edit<F: Format, A: Atomicity>(
    text: &mut Tendril<F, A>,
    edit: Edit,
) -> Result<(), Refusal>
    ensures done { Changes (edit_rule F.valid edit) text.old.bytes result text.new.bytes }
    ensures kept { IsText F.valid text.old.bytes → IsText F.valid text.new.bytes }
{
    match edit {
        Edit::PopFront(count) => text.try_pop_front(count)?,
        Edit::PopBack(count) => text.try_pop_back(count)?,
        Edit::Clear => text.clear(),
        Edit::Reserve(more) => text.reserve(more)?,
    }
    Ok(())
}

/// Changes the bytes of a text in the format `Bytes`.
pub(crate) fn apply_byte_edit<A: Atomicity>(
    text: &mut Tendril<Bytes, A>,
    edit: ByteEdit,
) -> Result<(), Refusal>
    ensures done { Changes (byte_edit_rule edit) text.old.bytes result text.new.bytes }
    ensures short { length text.old.bytes ≤ MAX_LEN → length text.new.bytes ≤ MAX_LEN }
{
    match edit {
        ByteEdit::PushZeros(count) => text.push_uninitialized(count),
        ByteEdit::WriteByte(index, byte) => write_byte(text, index, byte),
    }
}

fn write_byte<A: Atomicity>(
    text: &mut Tendril<Bytes, A>,
    index: u32,
    byte: u8,
) -> Result<(), Refusal>
    ensures done { Changes (byte_edit_rule (ByteEdit.WriteByte index byte)) text.old.bytes result text.new.bytes }
    ensures short { length text.old.bytes ≤ MAX_LEN → length text.new.bytes ≤ MAX_LEN }
{
    if index >= text.len32() {
        return Err(Refusal::OutOfBounds);
    }
    text.bytes_mut(|bytes| bytes[index as usize] = byte)
}
