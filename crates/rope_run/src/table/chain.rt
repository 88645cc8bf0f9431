//! Commands in order.
ghost use Rattle.std.specs.Prelude.{◌≡◌, IfOk, IfErr, OnErr, All};
ghost use Rattle.rope_run.specs.RopeCells.{IsRopeCell};
ghost use Rattle.rope_run.specs.RopeSteps.{RopeStep};
ghost use Rattle.tendril_run.specs.Cells.{IsCell};
ghost use Rattle.tendril_run.specs.Chains.{Chain};

use crate::command::{RopeCommand, RopeReply};
use crate::reply::print_rope_reply;
use crate::table::RopeTable;
use std::alloc::Global;
use tendril_run::{Classifier, CommandTable, Reply, Table, run_commands};
use tendril_text::Atomicity;
use tendril_text::block::Refusal;

/// Carries out commands in order, and returns one reply for each.
///
/// Returns `Memory` if the replies or more slots and ropes can't be allocated; that is before the first command, and no
/// cell has changed. A later error is in the reply to its command.
pub fn run_ropes<A: Atomicity, C: Classifier>(
    table: &mut RopeTable<A>,
    commands: &[RopeCommand],
    classifier: &C,
) -> Result<Vec<RopeReply>, Refusal>
    ensures run { IfOk result (λ replies.
        Chain (RopeStep (C.class classifier.now)) table.old.cells commands.now replies.items table.new.cells) }
    ensures slots { All IsCell table.new.cells.slots }
    ensures ropes { All IsRopeCell table.new.cells.ropes }
    ensures refusal { IfErr result (λ r. r ≡ Refusal.Memory) }
    ensures err { OnErr result (table.new.cells ≡ table.old.cells) }
{
    let replies = run_commands(table, commands, classifier);
    // The contracts of both calls state that the cells are valid.
    let _ = (table.slots().len(), table.ropes());
    replies
}

impl<A: Atomicity> CommandTable for RopeTable<A> {
    ghost use Rattle.std.specs.Prelude.{min};
    ghost use Rattle.rope_run.specs.RopeCells.{Cells, no_cells};
    ghost use Rattle.rope_run.specs.RopePrinted.{rope_printed};
    ghost use Rattle.rope_run.specs.RopeSteps.{RopeStep};
    ghost use Rattle.rope_run.specs.declared.command.RopeReply.TheVariants.{Plain};
    ghost use Rattle.tendril_lines.specs.declared.command.Reply.TheVariants.{Refused};

    type Command = RopeCommand;

    type Reply = RopeReply;

    ghost Cells = { Cells };

    ghost cells = { λ table. table.cells };

    ghost no_cells = { no_cells };

    ghost room = { λ table. min table.slot_room table.rope_room };

    ghost step = { RopeStep };

    ghost refused = { λ refusal. Plain (Refused refusal) };

    ghost printed = { rope_printed };

    #[tactic(auto, using(crate::proofs::NoRopes::none_of_both))]
    fn empty(alloc: Global) -> Self {
        RopeTable::new(alloc, Table::new(alloc))
    }

    fn allocator(&self) -> Global {
        self.alloc
    }

    fn reserve(&mut self, more: usize) -> Result<(), Refusal> {
        self.reserve(more)
    }

    fn step<C: Classifier>(&mut self, command: &RopeCommand, classifier: &C) -> RopeReply {
        self.step(command, classifier)
    }

    fn refused(refusal: Refusal) -> RopeReply {
        RopeReply::Plain(Reply::Refused(refusal))
    }

    fn print(alloc: Global, reply: &RopeReply) -> Result<String, Refusal> {
        print_rope_reply(alloc, reply)
    }
}
