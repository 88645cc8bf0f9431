//! Commands on a table of texts and their replies, and the lines of both.
//!
//! `tendril_run` carries out the commands.
#![tactic(auto)]

mod byte_list;
mod change;
mod command;
mod hexadecimal;
mod kind;
mod line;
mod line_command;
mod numbers;
mod reply;
mod shape;
mod split;
mod unit_list;

pub use byte_list::ByteList;
pub use change::{ByteEdit, Change, Conversion, Edit};
pub use command::{Command, Comparison, Reply};
pub use hexadecimal::{byte, bytes, hex_of};
pub use kind::Kind;
pub use line::parse_line;
pub use line_command::{LineCommand, parse};
pub use numbers::{long_number, number, scalar};
pub use reply::print_reply;
pub use shape::{Value, Values, Word};
pub use split::split_words;
pub use unit_list::{UnitList, hex_of_units, units};
