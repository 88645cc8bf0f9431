//! Commands on tables of texts and ropes, and the lines of a script that has them.
//!
//! Contracts see a table as two lists of independent cells, but not what its texts and ropes share: each command
//! changes the cell that it names, or adds one, and leaves all others.
#![tactic(auto)]

mod command;
mod line;
mod one_rope;
mod reply;
mod table;

pub use command::{RopeCommand, RopeReply};
pub use line::parse_rope_line;
pub use reply::print_rope_reply;
pub use table::{RopeTable, run_ropes};
