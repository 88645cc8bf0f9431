//! What tables held after each row of a file.

use crate::lined::Lined;
use std::alloc::{AllocError, Global};

// The capacity that is reserved first, so that notes seldom allocate between rows.
const ROOM: usize = 0x10_0000;

/// What tables held after each row when a file was first played, and the current note when it is played again.
#[derive(Drop)]
pub struct Notes {
    all: Vec<u8>,
    // Where the last note and the next one begin.
    last: usize,
    next: usize,
    // What a table holds now.
    now: Vec<u8>,
    again: bool,
}

impl Notes {
    pub fn new(alloc: Global) -> Result<Self, AllocError> {
        Ok(Notes {
            all: Vec::with_capacity(alloc, ROOM)?,
            last: 0,
            next: 0,
            now: Vec::with_capacity(alloc, ROOM)?,
            again: false,
        })
    }

    /// Begins to play the file again: tables must hold the same after each row.
    pub fn play_again(&mut self) {
        self.last = 0;
        self.next = 0;
        self.again = true;
    }

    /// Notes what a table holds after a row. When the file is played again, returns whether that was noted.
    pub fn add<T: Lined>(&mut self, table: &T) -> Result<bool, AllocError> {
        self.now.clear();
        table.write_to(&mut self.now)?;
        self.last = self.next;
        self.next = self.last.saturating_add(self.now.len());
        if !self.again {
            self.all.extend_from_slice(self.now.as_slice())?;
        }
        Ok(self.last_note() == Some(self.now.as_slice()))
    }

    /// Returns whether a table holds what it held after the last row.
    pub fn is_last<T: Lined>(&mut self, table: &T) -> Result<bool, AllocError> {
        self.now.clear();
        table.write_to(&mut self.now)?;
        Ok(self.last_note() == Some(self.now.as_slice()))
    }

    fn last_note(&self) -> Option<&[u8]> {
        self.all.get(self.last..self.next)
    }
}
