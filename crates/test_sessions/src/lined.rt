//! Tables that sessions are played on.

use crate::class::Counting;
use std::alloc::{AllocError, Global};
use tendril_block::Refusal;
use tendril_run::CommandTable;

/// A kind of table that sessions are played on.
pub trait Lined: CommandTable {
    /// Whether a reply says that its command got no memory.
    fn got_no_memory(reply: &Self::Reply) -> bool;

    /// The reply to a line of the player's own that reads texts or creates one, None for another line.
    fn reply_by_texts(
        &mut self,
        alloc: Global,
        verb: &str,
        words: &str,
    ) -> Result<Option<String>, Refusal>;

    /// Appends everything that the table holds, so that two tables that hold the same append the same bytes.
    fn write_to(&self, notes: &mut Vec<u8>) -> Result<(), AllocError>;
}

/// Plays a session on a table of its own.
#[derive(Drop)]
pub struct Player<T> {
    pub table: T,
    /// The classifier of the characters of a run.
    pub class: Counting,
    silent: bool,
}

impl<T: Lined> Player<T> {
    /// Begins a session, with an empty table.
    pub fn new(alloc: Global) -> Self {
        Player {
            table: T::empty(alloc),
            class: Counting::new(),
            silent: false,
        }
    }

    /// Reserves capacity and carries out one command.
    pub fn step(&mut self, command: &T::Command) -> Result<T::Reply, Refusal> {
        self.table.reserve(1)?;
        Ok(self.table.step(command, &self.class))
    }

    /// Reserves capacity for these many commands. After that none but `text` may allocate.
    pub fn silence(&mut self, commands: usize) -> Result<(), Refusal> {
        self.table.reserve(commands)?;
        self.silent = true;
        Ok(())
    }

    pub fn is_silent(&self) -> bool {
        self.silent
    }
}
