//! Lines of a script that are commands on a table.
ghost use Rattle.std.specs.Prelude.{◌≡◌};
ghost use Rattle.tendril_errors.specs.declared.refusal.Refusal.TheVariants.{Memory};
ghost use Rattle.tendril_run.specs.TableAnswers.{TableReplies};
ghost use Rattle.tendril_run.specs.WhiteSpace.{class};

use crate::classifier::WhiteSpace;
use crate::command_table::CommandTable;
use std::alloc::Global;
use tendril_lines::parse;
use tendril_script::Lines;
use tendril_text::block::Refusal;

/// Carries out the lines of a script: commands on one table. A line that is no command prints `malformed`.
#[derive(Drop)]
pub struct TableLines<T> {
    table: T,
}

impl<T: CommandTable> TableLines<T> {
    /// Begins with an empty table. Allocates nothing.
    pub fn new(alloc: Global) -> Self
        ensures { T.cells result.table ≡ T.no_cells }
    {
        TableLines {
            table: T::empty(alloc),
        }
    }

    // Returns the reply to one command, after reserving capacity for what it may add.
    fn reply(&mut self, command: &T::Command) -> T::Reply
        ensures { TableReplies (T.step class) (T.refused Memory)
            (T.cells self.old.table) command.now result (T.cells self.new.table) }
    {
        match self.table.reserve(1) {
            Ok(()) => self.table.step(command, &WhiteSpace),
            Err(refusal) => T::refused(refusal),
        }
    }
}

impl<T: CommandTable> Lines for TableLines<T> {
    ghost use Rattle.tendril_errors.specs.declared.refusal.Refusal.TheVariants.{Memory};
    ghost use Rattle.tendril_run.specs.TableAnswers.{TableAnswers};
    ghost use Rattle.tendril_run.specs.WhiteSpace.{class};

    ghost State = { T.Cells };

    ghost state = { λ lines. T.cells lines.table };

    ghost answers = { TableAnswers T.Command.spelling (T.step class) (T.refused Memory) T.printed };

    fn answer(&mut self, alloc: Global, line: &[u8]) -> Result<String, Refusal> {
        match parse::<T::Command>(alloc, line)? {
            Some(command) => T::print(alloc, &self.reply(&command)),
            None => Ok(String::from_str(alloc, "malformed")?),
        }
    }
}
