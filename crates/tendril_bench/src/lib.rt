//! Code as users write it, proved from the contracts of `tendril` alone: two formats and code that is generic over the
//! format; callers of texts and streams; a sink; and a text that another thread changes.
#![tactic(auto)]

pub mod broken;
pub mod callers;
pub mod doubled;
pub mod fields;
pub mod join;
pub mod lent;
pub mod lines;
pub mod pairs;
pub mod parts;
pub mod push;
pub mod resume;
pub mod sets;
pub mod two;
pub mod units;
pub mod whole;
pub mod worker;
pub mod writing;
