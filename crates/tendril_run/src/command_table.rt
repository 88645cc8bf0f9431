//! Tables that carry out commands, one after another.
ghost use Rattle.std.specs.Prelude.{◌≡◌, IfOk, IfErr, OnErr};
ghost use Rattle.tendril_run.specs.Chains.{Chain, Worked};

use crate::classifier::Classifier;
use crate::gate::{Gate, Open};
use std::alloc::Global;
use tendril_lines::LineCommand;
use tendril_text::block::Refusal;

/// A table that carries out commands. Each command and each reply has a line.
pub trait CommandTable: Drop {
    ghost use Rattle.std.specs.Prelude.{◌≡◌, ◌≤◌, ◌+◌, ℕ, List, IfOk, IfErr, OnOk, string_bytes};
    ghost use Rattle.tendril_errors.specs.declared.refusal.Refusal.{Refusal};

    type Command: LineCommand;

    type Reply: Drop;

    /// What commands read and change, for contracts.
    ghost Cells: { Type 0 };

    /// The cells of a table.
    ghost cells: { Self → Cells };

    /// The cells of an empty table.
    ghost no_cells: { Cells };

    /// How many commands the table has capacity for.
    ghost room: { Self → ℕ };

    /// `step class old command reply new`: from the cells `old` the command leads to the cells `new`, with this reply.
    /// `class` sorts characters.
    ghost step: { (ℕ → ℕ) → Cells → Self.Command → Self.Reply → Cells → Type 0 };

    /// The reply to a command that returned this error.
    ghost refused: { Refusal → Self.Reply };

    /// The line of a reply.
    ghost printed: { Self.Reply → List ℕ };

    /// Returns an empty table. Allocates nothing.
    fn empty(alloc: Global) -> Self
        ensures { cells result ≡ no_cells };

    /// Returns the allocator that the table was created with.
    fn allocator(&self) -> Global;

    /// Reserves capacity for what `more` commands may add. The only error is Memory.
    fn reserve(&mut self, more: usize) -> Result<(), Refusal>
        ensures room { OnOk result (more ≤ room self.new) }
        ensures cells { cells self.new ≡ cells self.old }
        ensures refusal { IfErr result (λ r. r ≡ Refusal.Memory) };

    /// Carries out one command and returns its reply. The table must have capacity for what it may add.
    fn step<C: Classifier>(&mut self, command: &Self::Command, classifier: &C) -> Self::Reply
        requires { 1 ≤ room self.old }
        ensures step { step (C.class classifier.now) (cells self.old) command.now result (cells self.new) }
        ensures room { room self.old ≤ room self.new + 1 };

    /// Returns the reply for this error.
    fn refused(refusal: Refusal) -> Self::Reply
        ensures { result ≡ refused refusal };

    /// Returns a reply's line, without its line feed. The only error is Memory.
    fn print(alloc: Global, reply: &Self::Reply) -> Result<String, Refusal>
        ensures printed { IfOk result (λ text. string_bytes text ≡ printed reply.now) }
        ensures refusal { IfErr result (λ r. r ≡ Refusal.Memory) };
}

/// Carries out commands in order, as `run` does on texts, and returns one reply per command.
///
/// Capacity for all replies and for what commands may add is reserved before the first command. If that fails,
/// `run_commands` returns Memory and changes nothing.
pub fn run_commands<T: CommandTable, C: Classifier>(
    table: &mut T,
    commands: &[T::Command],
    classifier: &C,
) -> Result<Vec<T::Reply>, Refusal>
    ensures run { IfOk result (λ replies. Chain (T.step (C.class classifier.now))
        (T.cells table.old) commands.now replies.items (T.cells table.new)) }
    ensures refusal { IfErr result (λ r. r ≡ Refusal.Memory) }
    ensures err { OnErr result (T.cells table.new ≡ T.cells table.old) }
{
    run_behind(table, commands, classifier, &Open)
}

/// Like `run_commands`, and calls the gate before each command.
pub(crate) fn run_behind<T: CommandTable, C: Classifier, G: Gate>(
    table: &mut T,
    commands: &[T::Command],
    classifier: &C,
    gate: &G,
) -> Result<Vec<T::Reply>, Refusal>
    ensures { Worked (T.step (C.class classifier.now)) (λ v. v.items)
        (T.cells table.old) commands.now (T.cells table.new) result }
{
    let mut replies = Vec::new(table.allocator());
    replies.reserve(commands.len())?;
    table.reserve(commands.len())?;
    for (place, command) in commands.iter().enumerate() {
        gate.before(place);
        let reply = table.step(command, classifier);
        replies.push_reserved(reply);
    }
    Ok(replies)
}
