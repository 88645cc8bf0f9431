//! What each command does to a table.
ghost use Rattle.std.specs.Prelude.{◌≡◌, ◌≤◌, ◌<◌, ◌+◌, ◌++◌, ◌∷◌, ◌≢◌, [], length, Ok, Err, MatchResult};
ghost use Rattle.tendril_run.specs.Cells.{cell_of, gone, cell_at};
ghost use Rattle.tendril_run.specs.OneCell.{change_rule, part_rule, clone_rule};
ghost use Rattle.tendril_run.specs.Rules.{Follows, GivesBy, IsNoRefusal};
ghost use Rattle.tendril_run.specs.Steps.{at_slot, CommandOutcome, TableJoined};

use crate::classifier::Classifier;
use crate::slot::Slot;
use crate::table::Table;
use std::mem;
use tendril_lines::{ByteList, Change, Command, Reply};
use tendril_text::Atomicity;
use tendril_text::block::Refusal;

impl<A: Atomicity> Table<A> {
    /// Carries out one command. The table must have capacity for one more slot.
    pub(super) fn carry_out<C: Classifier>(
        &mut self,
        command: &Command,
        classifier: &C,
    ) -> Result<Reply, Refusal>
        requires { 1 ≤ self.old.room }
        ensures outcome { CommandOutcome (C.class classifier.now) self.old.cells command.now result self.new.cells }
        ensures plain { IsNoRefusal result }
        ensures room { self.old.room ≤ self.new.room + 1 }
    {
        match command {
            Command::New(kind) => self.add_made(Ok(Slot::empty(self.alloc, *kind))),
            Command::FromBytes(kind, bytes) => {
                self.add_made(Slot::from_bytes(self.alloc, *kind, bytes))
            },
            Command::PushBytes(slot, bytes) => self.push_bytes(*slot, bytes),
            Command::PushTendril(to, from) => self.join(*to, *from),
            Command::Change(slot, change) => self.change(*slot, *change),
            Command::Slice(slot, offset, count) => self.add_made(self.part(*slot, *offset, *count)),
            Command::PopChar(slot) => self.pop_char(*slot),
            Command::PopRun(slot) => self.pop_run(*slot, classifier),
            Command::Clone(slot) => self.add_made(self.copy(*slot)),
            Command::Compare(first, second) => self.compare(*first, *second),
            Command::Text(slot) => self.text(*slot),
            Command::FromUnits(units) => self.add_made(Slot::from_units(self.alloc, units)),
            Command::Units(slot) => self.units(*slot),
        }
    }

    // Appends the slot and replies its number, or returns the error that prevented its creation.
    fn add_made(&mut self, made: Result<Slot<A>, Refusal>) -> Result<Reply, Refusal>
        requires { 1 ≤ self.old.room }
        ensures added { MatchResult made
            (λ slot. (result ≡ Ok (Reply.Made (length self.old.cells)))
            × (self.new.cells ≡ self.old.cells ++ cell_of slot ∷ []))
            (λ refusal. (result ≡ Err refusal) × (self.new.cells ≡ self.old.cells)) }
        ensures plain { IsNoRefusal result }
        ensures room { self.old.room ≤ self.new.room + 1 }
    {
        Ok(Reply::Made(self.add(made?)))
    }

    // Appends a slot, for which there is capacity, and returns its number.
    fn add(&mut self, slot: Slot<A>) -> usize
        requires { 1 ≤ self.old.room }
        ensures number { result ≡ length self.old.cells }
        ensures cells { self.new.cells ≡ self.old.cells ++ cell_of slot ∷ [] }
        ensures room { self.old.room ≤ self.new.room + 1 }
    {
        let number = self.slots.len();
        let pushed = self.push(slot);
        prove!(pushed.is_ok());
        number
    }

    fn push_bytes(&mut self, slot: usize, bytes: &ByteList) -> Result<Reply, Refusal>
        ensures outcome { (class : _) →
            CommandOutcome class self.old.cells (Command.PushBytes slot bytes.now) result self.new.cells }
        ensures plain { IsNoRefusal result }
        ensures room { self.old.room ≤ self.new.room }
    {
        if slot >= self.slots.len() {
            return Err(Refusal::NoSuchSlot);
        }
        self.slots[slot].push_bytes(bytes)?;
        Ok(Reply::Done)
    }

    fn pop_char(&mut self, slot: usize) -> Result<Reply, Refusal>
        ensures outcome { (class : _) → CommandOutcome class self.old.cells
            (Command.PopChar slot) result self.new.cells }
        ensures plain { IsNoRefusal result }
        ensures room { self.old.room ≤ self.new.room }
    {
        if slot >= self.slots.len() {
            return Err(Refusal::NoSuchSlot);
        }
        Ok(Reply::Char(self.slots[slot].pop_char()?))
    }

    fn pop_run<C: Classifier>(&mut self, slot: usize, classifier: &C) -> Result<Reply, Refusal>
        requires { 1 ≤ self.old.room }
        ensures outcome { CommandOutcome (C.class classifier.now) self.old.cells
            (Command.PopRun slot) result self.new.cells }
        ensures plain { IsNoRefusal result }
        ensures room { self.old.room ≤ self.new.room + 1 }
    {
        if slot >= self.slots.len() {
            return Err(Refusal::NoSuchSlot);
        }
        match self.slots[slot].pop_run(classifier)? {
            None => Ok(Reply::Run(None)),
            Some((run, class)) => Ok(Reply::Run(Some((self.add(run), class)))),
        }
    }

    fn join(&mut self, to: usize, from: usize) -> Result<Reply, Refusal>
        ensures outcome { (class : _) →
            CommandOutcome class self.old.cells (Command.PushTendril to from) result self.new.cells }
        ensures plain { IsNoRefusal result }
        ensures room { self.old.room ≤ self.new.room }
    {
        if to >= self.slots.len() || from >= self.slots.len() {
            return Err(Refusal::NoSuchSlot);
        }
        self.join_slots(to, from)?;
        Ok(Reply::Done)
    }

    fn join_slots(&mut self, to: usize, from: usize) -> Result<(), Refusal>
        requires to { to < length self.old.cells }
        requires from { from < length self.old.cells }
        ensures joined { TableJoined to from self.old.cells result self.new.cells }
        ensures room { self.old.room ≤ self.new.room }
    {
        if to == from {
            self.slots[to].join_self()
        } else {
            self.join_other(to, from)
        }
    }

    // Appends the text of slot `from` to that of slot `to`, which is out of the table meanwhile.
    fn join_other(&mut self, to: usize, from: usize) -> Result<(), Refusal>
        requires to { to < length self.old.cells }
        requires from { from < length self.old.cells }
        requires other { to ≢ from }
        ensures joined { TableJoined to from self.old.cells result self.new.cells }
        ensures room { self.old.room ≤ self.new.room }
    {
        let mut text = mem::replace(&mut self.slots[to], Slot::Gone);
        let joined = text.join(&self.slots[from]);
        self.slots[to] = text;
        joined
    }

    // Changes one slot. A number past the end is NoSuchSlot.
    fn change(&mut self, slot: usize, change: Change) -> Result<Reply, Refusal>
        ensures changed { Follows (at_slot slot (change_rule change)) self.old.cells result self.new.cells }
        ensures plain { IsNoRefusal result }
        ensures room { self.old.room ≤ self.new.room }
    {
        if slot >= self.slots.len() {
            return Err(Refusal::NoSuchSlot);
        }
        self.slots[slot].change(change)?;
        Ok(Reply::Done)
    }

    // The slot with this number, or NoSuchSlot past the end.
    fn there(&self, slot: usize) -> Result<&Slot<A>, Refusal>
        ensures { MatchResult result (λ s. cell_of s.now ≡ cell_at self.now.cells slot)
            (λ r. (r ≡ Refusal.NoSuchSlot) × (cell_at self.now.cells slot ≡ gone)) }
    {
        self.slot(slot).ok_or(Refusal::NoSuchSlot)
    }

    fn part(&self, slot: usize, offset: u32, count: u32) -> Result<Slot<A>, Refusal>
        ensures { GivesBy (part_rule offset count (cell_at self.now.cells slot)) cell_of result }
    {
        self.there(slot)?.slice(offset, count)
    }

    fn copy(&self, slot: usize) -> Result<Slot<A>, Refusal>
        ensures { GivesBy (clone_rule (cell_at self.now.cells slot)) cell_of result }
    {
        self.there(slot)?.clone()
    }

    fn compare(&self, first: usize, second: usize) -> Result<Reply, Refusal>
        ensures outcome { (class : _) → CommandOutcome class self.now.cells
            (Command.Compare first second) result self.now.cells }
        ensures plain { IsNoRefusal result }
    {
        Ok(Reply::Compared(self.there(first)?.compare(self.there(second)?)?))
    }

    fn text(&self, slot: usize) -> Result<Reply, Refusal>
        ensures outcome { (class : _) → CommandOutcome class self.now.cells (Command.Text slot) result self.now.cells }
        ensures plain { IsNoRefusal result }
    {
        let (kind, bytes) = self.there(slot)?.text(self.alloc)?;
        Ok(Reply::Text(kind, bytes))
    }

    fn units(&self, slot: usize) -> Result<Reply, Refusal>
        ensures outcome { (class : _) → CommandOutcome class self.now.cells (Command.Units slot) result self.now.cells }
        ensures plain { IsNoRefusal result }
    {
        Ok(Reply::Units(self.there(slot)?.units()?))
    }
}
