//! What the players of sessions share: rows and where they are, bytes and numbers in lines, and how a player is called.
#![tactic(auto)]

pub mod place;
pub mod player;
pub mod words;
