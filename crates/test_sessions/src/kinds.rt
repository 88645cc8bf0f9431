//! Tables of texts, and tables of texts and ropes.

use crate::lined::Lined;
use crate::own::reply_by_texts;
use crate::rope_lines::reply_by_ropes;
use crate::slots::write_slots;
use rope::{Rope, RopeReply, RopeTable};
use std::alloc::{AllocError, Global};
use tendril_block::{Atomicity, Refusal};
use tendril_lines::Reply;
use tendril_run::Table;

impl<A: Atomicity> Lined for Table<A> {
    fn got_no_memory(reply: &Reply) -> bool {
        matches!(reply, Reply::Refused(Refusal::Memory))
    }

    fn reply_by_texts(
        &mut self,
        alloc: Global,
        verb: &str,
        words: &str,
    ) -> Result<Option<String>, Refusal> {
        reply_by_texts(alloc, self, verb, words)
    }

    fn write_to(&self, notes: &mut Vec<u8>) -> Result<(), AllocError> {
        write_slots(self, notes)
    }
}

impl<A: Atomicity> Lined for RopeTable<A> {
    fn got_no_memory(reply: &RopeReply) -> bool {
        matches!(reply, RopeReply::Plain(Reply::Refused(Refusal::Memory)))
    }

    fn reply_by_texts(
        &mut self,
        alloc: Global,
        verb: &str,
        words: &str,
    ) -> Result<Option<String>, Refusal> {
        reply_by_ropes(alloc, self, verb, words)
    }

    fn write_to(&self, notes: &mut Vec<u8>) -> Result<(), AllocError> {
        write_slots(self.slots(), notes)?;
        notes.extend_from_slice(&(self.ropes() as u64).to_le_bytes())?;
        for number in 0..self.ropes() {
            match self.rope(number) {
                Some(rope) => write_rope(rope, notes)?,
                None => notes.push(b'-')?,
            }
        }
        Ok(())
    }
}

/// The maximal length of a rope whose bytes are noted.
const LONG: u64 = 4096;

// Appends a rope: the number of its pieces, its length, and its bytes.
fn write_rope<A: Atomicity>(rope: &Rope<A>, notes: &mut Vec<u8>) -> Result<(), AllocError> {
    notes.push(b'r')?;
    notes.extend_from_slice(&(rope.piece_count() as u64).to_le_bytes())?;
    notes.extend_from_slice(&rope.len64().to_le_bytes())?;
    if rope.len64() <= LONG {
        for piece in rope.pieces() {
            notes.extend_from_slice(piece.as_byte_slice())?;
        }
    }
    Ok(())
}
