//! The loop of a program that carries out a script line by line, and prints the answer to each line.
//!
//! Each program has its own `Lines`, which carries out a line. What all of them share is here: reading, splitting into
//! lines, writing in chunks, what is written before a failed allocation, read or write, and the error's line.
#![tactic(auto)]

mod arguments;
mod input;
mod lines;
mod output;
mod program;
mod refusals;
mod script;

pub use arguments::{asks_to_run, words_of};
pub use input::run_input;
pub use lines::Lines;
pub use output::{flush, write_bytes};
pub use program::{Program, run_program, run_words};
pub use refusals::refuse;
pub use script::run_script;
