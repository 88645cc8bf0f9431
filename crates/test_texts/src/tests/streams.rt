//! Streams in pieces.

mod broken;
mod cuttings;
mod slow;
