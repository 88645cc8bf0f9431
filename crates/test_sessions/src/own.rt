//! The player's own lines: they read what no command shows, and create texts that no command creates.
//!
//! | Line | What it does | Reply |
//! |---|---|---|
//! | `shared S` | | whether the text is shared: `yes` or `no` |
//! | `has S` | | the text's bytes, a run of one byte as `61*5` |
//! | `asked` | | how many characters were classified since the last `asked` |
//! | `room N` | creates a text of bytes with capacity for N | `slot S` |
//! | `fill H N` | creates a text of N times this byte | `slot S` |
//! | `clones S N` | creates N clones of a text and drops them all | how many were equal to it |
//! | `line H` | reads these bytes as a line | `malformed`, or `a command` |
//! | `silent N` | reserves N slots; after that no command but `text` may allocate | `ok` |

use crate::calls;
use crate::lined::{Lined, Player};
use crate::slots::{equal_clones, filled, is_shared, text_of};
use std::alloc::Global;
use std::fmt::Write;
use tendril_block::{Atomicity, Refusal};
use tendril_lines::{bytes, parse};
use tendril_run::{Slot, Table};
use tendril_text::Tendril;
use test_rows::words::{Runs, number};

/// The reply to a line of the player's own, None for another line.
pub fn own_reply<T: Lined>(
    alloc: Global,
    player: &mut Player<T>,
    line: &str,
) -> Result<Option<String>, Refusal> {
    let (verb, words) = line.split_once(' ').unwrap_or((line, ""));
    let reply = match verb {
        "asked" => asked(alloc, player)?,
        "line" => line_of::<T>(alloc, words)?,
        "silent" => silent(alloc, player, words)?,
        _ => return player.table.reply_by_texts(alloc, verb, words),
    };
    Ok(Some(reply))
}

/// The reply to such a line that reads texts or creates one.
pub fn reply_by_texts<A: Atomicity>(
    alloc: Global,
    table: &mut Table<A>,
    verb: &str,
    words: &str,
) -> Result<Option<String>, Refusal> {
    let reply = match verb {
        "shared" => shared(alloc, table, words)?,
        "has" => has(alloc, table, words)?,
        "room" => room(alloc, table, words)?,
        "fill" => fill(alloc, table, words)?,
        "clones" => clones(alloc, table, words)?,
        _ => return calls::reply(alloc, table, verb, words),
    };
    Ok(Some(reply))
}

/// The slot whose number a word spells.
pub fn slot_of<'a, A: Atomicity>(table: &'a Table<A>, word: &str) -> Result<&'a Slot<A>, Refusal> {
    match table.slot(number(word)? as usize) {
        Some(slot) => Ok(slot),
        None => Err(Refusal::NoSuchSlot),
    }
}

/// Appends a slot. The reply is its number.
pub fn add<A: Atomicity>(
    alloc: Global,
    table: &mut Table<A>,
    slot: Slot<A>,
) -> Result<String, Refusal> {
    let number = table.len();
    let reply = format!(in alloc; "slot {number}")?;
    match table.push(slot) {
        Ok(()) => Ok(reply),
        Err((refusal, _)) => Err(refusal),
    }
}

fn shared<A: Atomicity>(alloc: Global, table: &Table<A>, word: &str) -> Result<String, Refusal> {
    let reply = if is_shared(slot_of(table, word)?) {
        "yes"
    } else {
        "no"
    };
    Ok(String::from_str(alloc, reply)?)
}

fn has<A: Atomicity>(alloc: Global, table: &Table<A>, word: &str) -> Result<String, Refusal> {
    let (_, bytes) = text_of(slot_of(table, word)?);
    Ok(format!(in alloc; "{}", Runs(bytes))?)
}

fn asked<T: Lined>(alloc: Global, player: &Player<T>) -> Result<String, Refusal> {
    let mut reply = String::with_capacity(alloc, 10)?;
    write!(reply, "{}", player.class.take_calls()).map_err(|_| Refusal::Memory)?;
    Ok(reply)
}

fn room<A: Atomicity>(alloc: Global, table: &mut Table<A>, word: &str) -> Result<String, Refusal> {
    let text = Tendril::with_capacity(alloc, number(word)?)?;
    add(alloc, table, Slot::Bytes(text))
}

fn fill<A: Atomicity>(alloc: Global, table: &mut Table<A>, words: &str) -> Result<String, Refusal> {
    let (byte, count) = words.split_once(' ').ok_or(Refusal::Invalid)?;
    let byte = u8::from_str_radix(byte, 16).map_err(|_| Refusal::Invalid)?;
    let text = filled(alloc, byte, number(count)?)?;
    add(alloc, table, Slot::Bytes(text))
}

fn clones<A: Atomicity>(alloc: Global, table: &Table<A>, words: &str) -> Result<String, Refusal> {
    let (slot, count) = words.split_once(' ').ok_or(Refusal::Invalid)?;
    let equal = match slot_of(table, slot)? {
        Slot::Bytes(text) => equal_clones(alloc, text, number(count)?)?,
        _ => return Err(Refusal::WrongFormat),
    };
    Ok(format!(in alloc; "{equal}")?)
}

fn line_of<T: Lined>(alloc: Global, digits: &str) -> Result<String, Refusal> {
    let line = bytes(alloc, digits.as_bytes())?.ok_or(Refusal::Invalid)?;
    let reply = match parse::<T::Command>(alloc, line.as_slice())? {
        Some(_) => "a command",
        None => "malformed",
    };
    Ok(String::from_str(alloc, reply)?)
}

fn silent<T: Lined>(alloc: Global, player: &mut Player<T>, word: &str) -> Result<String, Refusal> {
    let reply = String::from_str(alloc, "ok")?;
    player.silence(number(word)? as usize)?;
    Ok(reply)
}
