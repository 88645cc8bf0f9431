//! Commands on tables of texts, in one thread or in many.
//!
//! In contracts a table is a list of independent cells, though its texts may share blocks. A command changes the cell
//! that it names, adds one, or both; all others stay as they are.
#![tactic(auto)]

mod change;
mod classifier;
mod command_table;
mod gate;
mod slot;
mod table;
mod table_lines;
mod text;
mod workers;

pub use classifier::{Classifier, WhiteSpace};
pub use command_table::{CommandTable, run_commands};
pub use gate::Gate;
pub use slot::Slot;
pub use table::{Table, run};
pub use table_lines::TableLines;
pub use tendril_lines::{
    ByteEdit, ByteList, Change, Command, Comparison, Conversion, Edit, Kind, Reply, UnitList,
    parse_line, print_reply,
};
pub use workers::{Job, Outcome, run_tables};
