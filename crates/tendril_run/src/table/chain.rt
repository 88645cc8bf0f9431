//! Commands in order.
ghost use Rattle.std.specs.Prelude.{◌≡◌, IfOk, IfErr, OnErr, All};
ghost use Rattle.tendril_run.specs.Cells.{IsCell};
ghost use Rattle.tendril_run.specs.Chains.{Chain};
ghost use Rattle.tendril_run.specs.Steps.{Step};

use crate::classifier::Classifier;
use crate::command_table::{CommandTable, run_commands};
use crate::table::Table;
use std::alloc::Global;
use tendril_lines::{Command, Reply, print_reply};
use tendril_text::Atomicity;
use tendril_text::block::Refusal;

/// Carries out commands in order and returns one reply per command.
///
/// Capacity for all replies and slots is reserved before the first command. If that fails, `run` returns Memory and
/// changes nothing. If an allocation fails later, the reply to its command says so.
pub fn run<A: Atomicity, C: Classifier>(
    table: &mut Table<A>,
    commands: &[Command],
    classifier: &C,
) -> Result<Vec<Reply>, Refusal>
    ensures run { IfOk result (λ replies.
        Chain (Step (C.class classifier.now)) table.old.cells commands.now replies.items table.new.cells) }
    ensures valid { All IsCell table.new.cells }
    ensures refusal { IfErr result (λ r. r ≡ Refusal.Memory) }
    ensures err { OnErr result (table.new.cells ≡ table.old.cells) }
{
    let replies = run_commands(table, commands, classifier);
    // Borrowing the slots gives the prover the table's invariant: each cell is valid.
    let _ = &table.slots;
    replies
}

impl<A: Atomicity> CommandTable for Table<A> {
    ghost use Rattle.std.specs.Prelude.{List, []};
    ghost use Rattle.tendril_lines.specs.Printed.{printed};
    ghost use Rattle.tendril_lines.specs.declared.command.Reply.TheVariants as reply;
    ghost use Rattle.tendril_run.specs.Cells.{Cell};
    ghost use Rattle.tendril_run.specs.Steps.{Step};

    type Command = Command;

    type Reply = Reply;

    ghost Cells = { List Cell };

    ghost cells = { λ table. table.cells };

    ghost no_cells = { [] };

    ghost room = { λ table. table.room };

    ghost step = { Step };

    ghost refused = { reply.Refused };

    ghost printed = { printed };

    fn empty(alloc: Global) -> Self {
        Table::new(alloc)
    }

    fn allocator(&self) -> Global {
        self.alloc
    }

    fn reserve(&mut self, more: usize) -> Result<(), Refusal> {
        self.reserve_slots(more)
    }

    fn step<C: Classifier>(&mut self, command: &Command, classifier: &C) -> Reply {
        self.step(command, classifier)
    }

    fn refused(refusal: Refusal) -> Reply {
        Reply::Refused(refusal)
    }

    fn print(alloc: Global, reply: &Reply) -> Result<String, Refusal> {
        print_reply(alloc, reply)
    }
}
