//! Commands on a table, and their replies.

use crate::byte_list::ByteList;
use crate::change::Change;
use crate::kind::Kind;
use crate::unit_list::UnitList;
use tendril_errors::Refusal;

/// How the bytes of two texts compare. Only texts in UTF-8 and texts of bytes have an order.
#[derive(Clone, Copy, Debug, PartialEq, Eq)]
pub enum Comparison {
    Less,
    Equal,
    Greater,
    /// They aren't equal, and their format has no order.
    Differ,
}

/// A command on a table. Slots are numbered from 0.
#[derive(Debug, Drop)]
pub enum Command {
    /// Adds a slot with the empty text.
    New(Kind),
    /// Adds a slot with these bytes.
    FromBytes(Kind, ByteList),
    /// Pushes the bytes onto the slot's text.
    PushBytes(usize, ByteList),
    /// Pushes the text of the second slot onto the first slot's text, if both have the same format.
    PushTendril(usize, usize),
    /// Changes the text of the slot.
    Change(usize, Change),
    /// Adds a slot with a slice of the text: the offset, and the number of bytes.
    Slice(usize, u32, u32),
    /// Pops the first character of the slot's text.
    PopChar(usize),
    /// Moves the longest prefix of the slot's text with characters of one class to a new slot.
    PopRun(usize),
    /// Adds a slot with the same text.
    Clone(usize),
    /// Compares the texts of two slots, if both have the same format.
    Compare(usize, usize),
    /// Returns the slot's format and bytes.
    Text(usize),
    /// Adds a slot with the text of these 16-bit units, in WTF-8.
    FromUnits(UnitList),
    /// Returns the 16-bit units of the slot's text, which is in WTF-8.
    Units(usize),
}

/// The reply to a command.
#[derive(Debug, Drop)]
pub enum Reply {
    /// The command is done.
    Done,
    /// The command is done, and its text is in the new slot of this number.
    Made(usize),
    /// The character, or `None` if the text is empty.
    Char(Option<char>),
    /// The new slot with the run, and the run's class, or `None` if the text is empty.
    Run(Option<(usize, u32)>),
    /// How two texts compare.
    Compared(Comparison),
    /// The text.
    Text(Kind, ByteList),
    /// The units of the text.
    Units(UnitList),
    /// The command's error. Nothing has changed.
    Refused(Refusal),
}
