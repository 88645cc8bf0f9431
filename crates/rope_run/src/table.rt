//! Texts in numbered slots, and ropes with numbers of their own.
ghost use Rattle.std.specs.Prelude.{◌≡◌, ◌≤◌, ◌+◌, [], length, All, IfErr, OnOk, MatchOption, MatchResult};
ghost use Rattle.rope_run.specs.RopeCells.{IsRopeCell, gone as gone_cell, rope as rope_cell, rope_at};
ghost use Rattle.rope_run.specs.RopeRows.{append_rule, rope_part_rule, rope_take_rule};
ghost use Rattle.rope_run.specs.RopeSteps.{AddsRope, AddsSlot, IsRefused, RopeStep};
ghost use Rattle.tendril_errors.specs.Outcomes.{Gives};
ghost use Rattle.tendril_lines.specs.declared.kind.Kind.TheVariants as kind;
ghost use Rattle.tendril_run.specs.Cells.{text as text_cell};
ghost use Rattle.tendril_run.specs.Rules.{GivesBy};

mod chain;

use crate::command::{RopeCommand, RopeReply};
use crate::one_rope;
pub use chain::run_ropes;
use rope_text::{MAX_TOTAL, Rope};
use std::alloc::Global;
use std::marker::Model;
use tendril_run::{Classifier, Reply, Slot, Table};
use tendril_text::block::Refusal;
use tendril_text::fmt::UTF8;
use tendril_text::{Atomicity, Tendril};

/// A table of slots and ropes, each numbered from 0, each with a text or dropped.
#[derive(Drop)]
pub struct RopeTable<A: Atomicity> {
    table: Table<A>,
    ropes: Vec<Option<Rope<A>>>,
    alloc: Global,
}

impl<A: Atomicity> Model for RopeTable<A> {
    ghost use Rattle.std.specs.Prelude.{◌-◌, All, map, vec_len, vec_capacity};
    ghost use Rattle.rope_run.specs.RopeCells.{IsRopeCell, RopeBoard};
    ghost use Rattle.rope_run.specs.RopeOf.{rope_cell_of};

    ghost Value = { RopeBoard };

    ghost view = { λ t. record {
      cells = record { slots = t.table.cells; ropes = map rope_cell_of t.ropes.items };
      slot_room = t.table.room;
      rope_room = vec_capacity t.ropes - vec_len t.ropes;
    } };

    ghost invariant = { λ t. All IsRopeCell (map rope_cell_of t.ropes.items) };
}

impl<A: Atomicity> RopeTable<A> {
    /// Returns a table with the slots of another, and no ropes. Allocates nothing.
    pub fn new(alloc: Global, table: Table<A>) -> Self
        ensures slots { result.cells.slots ≡ table.cells }
        ensures ropes { result.cells.ropes ≡ [] }
        ensures room { result.slot_room ≡ table.room }
    {
        RopeTable {
            table,
            ropes: Vec::new(alloc),
            alloc,
        }
    }

    /// Borrows the slots.
    pub fn slots(&self) -> &Table<A>
        ensures cells { result.now.cells ≡ self.now.cells.slots }
        ensures room { result.now.room ≡ self.now.slot_room }
    {
        &self.table
    }

    /// Returns the number of ropes, dropped ones included.
    pub fn ropes(&self) -> usize
        ensures count { result ≡ length self.now.cells.ropes }
        ensures valid { All IsRopeCell self.now.cells.ropes }
    {
        self.ropes.len()
    }

    /// Borrows the rope of a number, or returns `None` if it was dropped or never created.
    pub fn rope(&self, number: usize) -> Option<&Rope<A>>
        ensures { MatchOption result (rope_at self.now.cells.ropes number ≡ gone_cell)
            (λ r. rope_at self.now.cells.ropes number ≡ rope_cell r.now.bytes) }
    {
        self.ropes.get(number)?.as_ref()
    }

    /// Reserves capacity for `more` slots and `more` ropes. The only error is `Memory`; then no cell has changed.
    pub fn reserve(&mut self, more: usize) -> Result<(), Refusal>
        ensures slots { OnOk result (more ≤ self.new.slot_room) }
        ensures ropes { OnOk result (more ≤ self.new.rope_room) }
        ensures cells { self.new.cells ≡ self.old.cells }
        ensures slot_room { self.old.slot_room ≤ self.new.slot_room }
        ensures rope_room { self.old.rope_room ≤ self.new.rope_room }
        ensures refusal { IfErr result (λ r. r ≡ Refusal.Memory) }
    {
        self.table.reserve_slots(more)?;
        self.ropes.reserve(more)?;
        Ok(())
    }

    /// Carries out one command, and returns its reply. The caller proves capacity for one more slot and rope.
    pub fn step<C: Classifier>(&mut self, command: &RopeCommand, classifier: &C) -> RopeReply
        requires slot { 1 ≤ self.old.slot_room }
        requires rope { 1 ≤ self.old.rope_room }
        ensures step { RopeStep (C.class classifier.now) self.old.cells command.now result self.new.cells }
        ensures slots { self.old.slot_room ≤ self.new.slot_room + 1 }
        ensures ropes { self.old.rope_room ≤ self.new.rope_room + 1 }
    {
        match command {
            RopeCommand::OnSlots(command) => RopeReply::Plain(self.table.step(command, classifier)),
            RopeCommand::RopeNew => self.add(Rope::new(self.alloc)),
            RopeCommand::RopePush(rope, slot) => self.push(*rope, *slot),
            RopeCommand::RopeAppend(to, from) => self.append(*to, *from),
            RopeCommand::RopeLen(rope) => self.length(*rope),
            RopeCommand::RopePopChar(rope) => self.pop_char(*rope),
            RopeCommand::RopeSub(rope, offset, count) => {
                self.add_made(self.part(*rope, *offset, *count))
            },
            RopeCommand::RopeTake(rope) => self.add_slot(self.whole(*rope)),
            RopeCommand::RopeDrop(rope) => self.drop_rope(*rope),
        }
    }

    // Adds a rope, for which there is capacity.
    fn add(&mut self, rope: Rope<A>) -> RopeReply
        requires { 1 ≤ self.old.rope_room }
        ensures adds { AddsRope self.old.cells (rope_cell rope.bytes) result self.new.cells }
        ensures slots { self.old.slot_room ≡ self.new.slot_room }
        ensures ropes { self.old.rope_room ≤ self.new.rope_room + 1 }
    {
        one_rope::read(&rope);
        let number = self.ropes.len();
        self.ropes.push_reserved(Some(rope));
        RopeReply::MadeRope(number)
    }

    // Adds a rope, for which there is capacity, or replies with the error.
    fn add_made(&mut self, made: Result<Rope<A>, Refusal>) -> RopeReply
        requires { 1 ≤ self.old.rope_room }
        ensures added { MatchResult made (λ rope. AddsRope self.old.cells (rope_cell rope.bytes) result self.new.cells)
            (λ refusal. IsRefused self.old.cells refusal result self.new.cells) }
        ensures slots { self.old.slot_room ≡ self.new.slot_room }
        ensures ropes { self.old.rope_room ≤ self.new.rope_room + 1 }
    {
        match made {
            Ok(rope) => self.add(rope),
            Err(refusal) => refused(refusal),
        }
    }

    // Adds a slot with a text, for which there is capacity, or replies with the error.
    fn add_slot(&mut self, made: Result<Tendril<UTF8, A>, Refusal>) -> RopeReply
        requires { 1 ≤ self.old.slot_room }
        ensures added { MatchResult made
            (λ text. AddsSlot self.old.cells (text_cell kind.Utf8 text.bytes) result self.new.cells)
            (λ refusal. IsRefused self.old.cells refusal result self.new.cells) }
        ensures slots { self.old.slot_room ≤ self.new.slot_room + 1 }
        ensures ropes { self.old.rope_room ≡ self.new.rope_room }
    {
        match made {
            Ok(text) => {
                let number = self.table.len();
                let pushed = self.table.push(Slot::Utf8(text));
                prove!(pushed.is_ok());
                RopeReply::Plain(Reply::Made(number))
            }
            Err(refusal) => refused(refusal),
        }
    }

    fn length(&self, rope: usize) -> RopeReply
        ensures { (class : _) → RopeStep class self.now.cells (RopeCommand.RopeLen rope) result self.now.cells }
    {
        match self.rope(rope) {
            Some(rope) => RopeReply::Length(rope.len64()),
            None => refused(Refusal::NoSuchSlot),
        }
    }

    // A slice of a rope, which shares its pieces.
    fn part(&self, rope: usize, offset: u64, count: u64) -> Result<Rope<A>, Refusal>
        ensures { GivesBy (rope_part_rule offset count (rope_at self.now.cells.ropes rope))
            (λ r. rope_cell r.bytes) result }
    {
        match self.rope(rope) {
            Some(rope) => rope.sub_rope(offset, count),
            None => Err(Refusal::NoSuchSlot),
        }
    }

    // A copy of a rope's bytes, as one text.
    fn whole(&self, rope: usize) -> Result<Tendril<UTF8, A>, Refusal>
        ensures { GivesBy (rope_take_rule (rope_at self.now.cells.ropes rope))
            (λ t. text_cell kind.Utf8 t.bytes) result }
    {
        match self.rope(rope) {
            Some(rope) => rope.to_tendril(),
            None => Err(Refusal::NoSuchSlot),
        }
    }

    // A clone of a rope that is to be appended to another, if both together aren't too long.
    fn shared(&self, to: usize, from: usize) -> Result<Rope<A>, Refusal>
        ensures { let from = rope_at self.now.cells.ropes from in
            let by = append_rule from (rope_at self.now.cells.ropes to) in
            Gives by.must by.may (λ r. rope_cell r.bytes ≡ from) result }
    {
        match (self.rope(to), self.rope(from)) {
            (Some(to), Some(from)) => {
                if from.len64() > MAX_TOTAL - to.len64() {
                    return Err(Refusal::TooLong);
                }
                from.clone()
            }
            _ => Err(Refusal::NoSuchSlot),
        }
    }

    fn push(&mut self, rope: usize, slot: usize) -> RopeReply
        ensures step { (class : _) → RopeStep class self.old.cells
            (RopeCommand.RopePush rope slot) result self.new.cells }
        ensures slots { self.old.slot_room ≡ self.new.slot_room }
        ensures ropes { self.old.rope_room ≡ self.new.rope_room }
    {
        if rope >= self.ropes.len() {
            return refused(Refusal::NoSuchSlot);
        }
        match self.table.slot(slot) {
            Some(slot) => RopeReply::Plain(one_rope::push(&mut self.ropes[rope], slot)),
            None => refused(Refusal::NoSuchSlot),
        }
    }

    // Appends a clone of the second rope, so that a rope may be appended to itself.
    fn append(&mut self, to: usize, from: usize) -> RopeReply
        ensures step { (class : _) → RopeStep class self.old.cells
            (RopeCommand.RopeAppend to from) result self.new.cells }
        ensures slots { self.old.slot_room ≡ self.new.slot_room }
        ensures ropes { self.old.rope_room ≡ self.new.rope_room }
    {
        if to >= self.ropes.len() {
            return refused(Refusal::NoSuchSlot);
        }
        match self.shared(to, from) {
            Ok(more) => RopeReply::Plain(one_rope::append(&mut self.ropes[to], more)),
            Err(refusal) => refused(refusal),
        }
    }

    fn pop_char(&mut self, rope: usize) -> RopeReply
        ensures step { (class : _) → RopeStep class self.old.cells
            (RopeCommand.RopePopChar rope) result self.new.cells }
        ensures slots { self.old.slot_room ≡ self.new.slot_room }
        ensures ropes { self.old.rope_room ≡ self.new.rope_room }
    {
        if rope >= self.ropes.len() {
            return refused(Refusal::NoSuchSlot);
        }
        RopeReply::Plain(one_rope::pop_char(&mut self.ropes[rope]))
    }

    fn drop_rope(&mut self, rope: usize) -> RopeReply
        ensures step { (class : _) → RopeStep class self.old.cells (RopeCommand.RopeDrop rope) result self.new.cells }
        ensures slots { self.old.slot_room ≡ self.new.slot_room }
        ensures ropes { self.old.rope_room ≡ self.new.rope_room }
    {
        if rope >= self.ropes.len() {
            return refused(Refusal::NoSuchSlot);
        }
        RopeReply::Plain(one_rope::drop_rope(&mut self.ropes[rope]))
    }
}

fn refused(refusal: Refusal) -> RopeReply
    ensures { result ≡ RopeReply.Plain (Reply.Refused refusal) }
{
    RopeReply::Plain(Reply::Refused(refusal))
}
