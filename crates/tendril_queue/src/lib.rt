//! A queue of texts, from which a tokenizer reads its input while pieces of it come in.
#![tactic(auto)]

mod eat;
mod lines;
mod queue;

pub use crate::eat::EatResult;
pub use crate::queue::TextQueue;
