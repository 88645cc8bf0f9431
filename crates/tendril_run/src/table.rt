//! Texts in numbered slots.
ghost use Rattle.std.specs.Prelude.{◌≡◌, ◌≤◌, ◌<◌, ◌+◌, ◌++◌, ◌∷◌, [], length, IfErr, OnOk, OnErr, IsOk, MatchOption};
ghost use Rattle.std.specs.Prelude.{All};
ghost use Rattle.tendril_run.specs.Cells.{cell_of, IsCell, cell_at};
ghost use Rattle.tendril_run.specs.Steps.{Step};

mod chain;
mod commands;

use crate::classifier::Classifier;
use crate::slot::Slot;
pub use chain::run;
use std::alloc::Global;
use std::marker::Model;
use tendril_lines::{Command, Reply};
use tendril_text::Atomicity;
use tendril_text::block::Refusal;

/// Slots, numbered from 0, each with a text or `Gone`.
#[derive(Drop)]
pub struct Table<A: Atomicity> {
    slots: Vec<Slot<A>>,
    alloc: Global,
}

impl<A: Atomicity> Model for Table<A> {
    ghost use Rattle.std.specs.Prelude.{◌-◌, All, map, vec_len, vec_capacity};
    ghost use Rattle.tendril_run.specs.Cells.{Board, cell_of, IsCell};

    ghost Value = { Board };

    ghost view = { λ t. record { cells = map cell_of t.slots.items; room = vec_capacity t.slots - vec_len t.slots } };

    ghost invariant = { λ t. All IsCell (map cell_of t.slots.items) };
}

impl<A: Atomicity> Table<A> {
    /// Creates a table without slots. Allocates nothing.
    pub fn new(alloc: Global) -> Self
        ensures { result.cells ≡ [] }
    {
        Table {
            slots: Vec::new(alloc),
            alloc,
        }
    }

    /// Appends a slot, in amortized constant time. The only error is Memory, returned with the slot.
    pub fn push(&mut self, slot: Slot<A>) -> Result<(), (Refusal, Slot<A>)>
        ensures ok { OnOk result (self.new.cells ≡ self.old.cells ++ cell_of slot ∷ []) }
        ensures err { OnErr result (self.new.cells ≡ self.old.cells) }
        ensures refusal { IfErr result (λ e. e.0 ≡ Refusal.Memory) }
        ensures back { IfErr result (λ e. e.1 ≡ slot) }

        // With spare capacity the push succeeds.
        ensures room { self.old.room ≤ self.new.room + 1 }
        ensures succeeds { 1 ≤ self.old.room → IsOk result }
    {
        // The slot may come from any code: reading it gives the prover that its text is valid.
        slot.read();
        match self.slots.push(slot) {
            Ok(()) => Ok(()),
            Err(failed) => Err((Refusal::Memory, failed.value)),
        }
    }

    /// Returns the number of slots, those that are `Gone` too.
    pub fn len(&self) -> usize
        ensures count { result ≡ length self.now.cells }
        ensures valid { All IsCell self.now.cells }
    {
        self.slots.len()
    }

    /// Returns the slot with this number, or None past the end.
    pub fn slot(&self, index: usize) -> Option<&Slot<A>>
        ensures { MatchOption result (length self.now.cells ≤ index)
            (λ s. (index < length self.now.cells) × (cell_of s.now ≡ cell_at self.now.cells index)) }
    {
        self.slots.get(index)
    }

    /// Returns how many more slots the table has capacity for.
    pub fn room(&self) -> usize
        ensures { result ≡ self.now.room }
    {
        self.slots.capacity() - self.slots.len()
    }

    /// Reserves capacity for `more` slots. The only error is Memory.
    pub fn reserve_slots(&mut self, more: usize) -> Result<(), Refusal>
        ensures ok { OnOk result (more ≤ self.new.room) }
        ensures cells { self.new.cells ≡ self.old.cells }
        ensures room { self.old.room ≤ self.new.room }
        ensures refusal { IfErr result (λ r. r ≡ Refusal.Memory) }
        ensures err { OnErr result (self.new.room ≡ self.old.room) }
    {
        self.slots.reserve(more)?;
        Ok(())
    }

    /// Carries out one command and returns its reply. The table must have capacity for one more slot.
    pub fn step<C: Classifier>(&mut self, command: &Command, classifier: &C) -> Reply
        requires { 1 ≤ self.old.room }
        ensures step { Step (C.class classifier.now) self.old.cells command.now result self.new.cells }
        ensures room { self.old.room ≤ self.new.room + 1 }
    {
        match self.carry_out(command, classifier) {
            Ok(reply) => reply,
            Err(refusal) => Reply::Refused(refusal),
        }
    }
}
