//! The player's own lines on ropes.
//!
//! | Line | What it does | Reply |
//! |---|---|---|
//! | `pieces R` | | the rope's pieces as `ab\|c`, or `-` for the empty rope |
//! | `marks R` | | for each piece `shared`, or `own` if it isn't shared |
//! | `count R` | | the number of pieces |
//! | `split R N` | splits N bytes off a clone of the rope | the pieces of both, as `ab\|c and d` |
//! | `decode H H ..` | decodes these bytes, piece by piece, to a rope | its pieces |

use rope::{Rope, RopeTable, decode_rope};
use std::alloc::Global;
use tendril_block::{Atomicity, Refusal};
use tendril_lines::{Reply, bytes, print_reply};
use tendril_text::Tendril;
use tendril_text::fmt::Bytes;
use test_rows::words::number;

/// The reply to such a line, None for another line.
pub fn reply_by_ropes<A: Atomicity>(
    alloc: Global,
    table: &RopeTable<A>,
    verb: &str,
    words: &str,
) -> Result<Option<String>, Refusal> {
    let reply = match verb {
        "pieces" => pieces(alloc, rope_at(table, words)?)?,
        "marks" => marks(alloc, rope_at(table, words)?)?,
        "count" => {
            let count = rope_at(table, words)?.piece_count();
            format!(in alloc; "{count}")?
        }
        "split" => split(alloc, table, words)?,
        "decode" => decode::<A>(alloc, words)?,
        _ => return Ok(None),
    };
    Ok(Some(reply))
}

// The rope whose number a word spells.
fn rope_at<'a, A: Atomicity>(table: &'a RopeTable<A>, word: &str) -> Result<&'a Rope<A>, Refusal> {
    match table.rope(number(word)? as usize) {
        Some(rope) => Ok(rope),
        None => Err(Refusal::NoSuchSlot),
    }
}

fn pieces<A: Atomicity>(alloc: Global, rope: &Rope<A>) -> Result<String, Refusal> {
    let mut reply = String::new(alloc);
    for (index, piece) in rope.pieces().enumerate() {
        reply.push_str(if index == 0 { "" } else { "|" })?;
        reply.push_str(piece.as_str())?;
    }
    if rope.is_empty() {
        reply.push_str("-")?;
    }
    Ok(reply)
}

fn marks<A: Atomicity>(alloc: Global, rope: &Rope<A>) -> Result<String, Refusal> {
    let mut reply = String::new(alloc);
    for (index, piece) in rope.pieces().enumerate() {
        reply.push_str(if index == 0 { "" } else { "|" })?;
        reply.push_str(if piece.is_shared() { "shared" } else { "own" })?;
    }
    Ok(reply)
}

fn split<A: Atomicity>(
    alloc: Global,
    table: &RopeTable<A>,
    words: &str,
) -> Result<String, Refusal> {
    let (word, count) = words.split_once(' ').ok_or(Refusal::Invalid)?;
    let count = count.parse::<u64>().map_err(|_| Refusal::Invalid)?;
    let mut rest = rope_at(table, word)?.clone()?;
    match rest.try_split_to(count) {
        Ok(front) => {
            let front = pieces(alloc, &front)?;
            let rest = pieces(alloc, &rest)?;
            Ok(format!(in alloc; "{front} and {rest}")?)
        }
        Err(Refusal::Memory) => Err(Refusal::Memory),
        Err(refusal) => print_reply(alloc, &Reply::Refused(refusal)),
    }
}

fn decode<A: Atomicity>(alloc: Global, words: &str) -> Result<String, Refusal> {
    let mut given: Vec<Tendril<Bytes, A>> = Vec::new(alloc);
    for word in words.split(' ') {
        let piece = bytes(alloc, word.as_bytes())?.ok_or(Refusal::Invalid)?;
        let piece = Tendril::<Bytes, A>::from_slice(alloc, piece.as_slice())?;
        given.push(piece)?;
    }
    match decode_rope(alloc, given) {
        Ok(rope) => pieces(alloc, &rope),
        // The decoder got no memory for the rope.
        Err(Refusal::SinkRefused) => Err(Refusal::Memory),
        Err(refusal) => Err(refusal),
    }
}
