//! Tests of texts and streams that run for long, whose memory is watched, or that use threads; and what these share
//! with the tests that aren't proved.
#![tactic(auto)]

pub mod characters;
pub mod line;
pub mod made;
pub mod notes;
#[cfg(test)]
mod tests;
