//! Commands on a table with ropes, and their replies.

use tendril_lines::{Command, Reply};

/// A command on a table with ropes. Slots and ropes are numbered, each from 0.
#[derive(Debug, Drop)]
pub enum RopeCommand {
    /// A command on the slots.
    OnSlots(Command),
    /// Adds an empty rope.
    RopeNew,
    /// Pushes the text of the slot, which is in UTF-8, onto the rope.
    RopePush(usize, usize),
    /// Pushes the text of the second rope onto the first.
    RopeAppend(usize, usize),
    /// Returns the number of the rope's bytes.
    RopeLen(usize),
    /// Pops the first character of the rope.
    RopePopChar(usize),
    /// Adds a rope with a slice of the rope: the offset, and the number of bytes.
    RopeSub(usize, u64, u64),
    /// Adds a slot with the rope's text.
    RopeTake(usize),
    /// Drops the rope. Its number isn't used again.
    RopeDrop(usize),
}

/// The reply to a command.
#[derive(Debug, Drop)]
pub enum RopeReply {
    /// A reply that a table without ropes has too.
    Plain(Reply),
    /// The command is done, and its text is in the new rope of this number.
    MadeRope(usize),
    /// The number of bytes.
    Length(u64),
}
