//! Lines for public calls of texts that no command makes. Each works on a clone of its text and appends its result as a
//! slot, so that after an error the table is as before.
//!
//! A string is in quotation marks.
//!
//! | Line | What it does | Reply |
//! |---|---|---|
//! | `from_strs "A" "B"`, .. | creates a text by the call of this name | `slot S` |
//! | `from_string "A" N` | as `from_string "A"`, of a string with capacity for N bytes | `slot S` |
//! | `from_slice_of S` | creates a text of a slot's bytes by `from_slice` | `slot S` |
//! | `sent "A"`, `sent "A" N` | creates a text, in the second case with capacity for N bytes, and sends it there and back | `slot S` |
//! | `sent_after_clone "A"` | as `sent "A"`, after a clone was made and dropped | `slot S` |
//! | `extend_strs S "A" "B"`, .. | extends by the call of this name; `extend_tendrils S S S` by texts | `slot S` |
//! | `until S "SET"`, `after S "SET"` | what `pop_front_until` returns, and what it leaves | `slot S` |
//! | `split S N`, `left S N` | what `try_split_to` returns, and what it leaves | `slot S` |
//! | `truncate S N`, `compact S`, `to_compact S` | a text after the call of this name, or what it returns | `slot S` |
//! | `trimmed S`, `into_trimmed S` | a text without the white space at its ends | `slot S` |
//! | `take S`, `lower S`, `push_str S "A"`, `push_char S "A"`, `write_str S "A"` | changes a text of UTF-8 | `slot S` |
//! | `write S "A"`, `write_all S "A"`, `push_without_validating S "A"`, `reverse S` | changes a text of bytes | `slot S` |
//! | `into_send S`, `send_clone S` | sends a text there and back, itself or by a clone | `slot S` |
//! | `view S O N`, `view_whole S`, `view_ascii S` | a text of a view | `slot S` |
//! | `string S`, `view_str S`, `debug S`, `display S` | | what is printed |
//! | `chars S`, `runs S`, `parts S "SET"` | | the items of `into_chars`, `into_char_runs`, `split_at_any` |
//! | `fields S "A"`, `once S "A"` | | all fields by `pop_field`; both sides by `split_once`, or `none` |
//! | `find S "SET"`, `peek S`, `eq_str S "A"`, `starts_with S "A"`, `len S` | | what the call returns |
//! | `skip_prefix S "A"` | | what the call returns, and what is left of the text |
//! | `block "A"`, `block_own "A"`, `block_mut "A"`, `block_grow "A"`, `block_sole "A"`, `block_full "A"` | holds a block outside of texts | its bytes |

mod blocks;
mod fields;
mod items;
mod making;
mod parts;
mod reading;

use crate::own::add;
use std::alloc::Global;
use std::fmt::Display;
use tendril_block::{Atomicity, Refusal};
use tendril_run::{Slot, Table};
use tendril_text::fmt::{Bytes, UTF8};
use tendril_text::{ByteSet, Tendril};
use test_rows::words::number;

/// Returns the reply to a line for a call, or None for another line. An error other than Memory is a reply.
pub fn reply<A: Atomicity>(
    alloc: Global,
    table: &mut Table<A>,
    verb: &str,
    words: &str,
) -> Result<Option<String>, Refusal> {
    match answer(alloc, table, verb, words) {
        Err(Refusal::Memory) => Err(Refusal::Memory),
        Err(refusal) => print(alloc, format_args!("refused {refusal}")),
        answered => answered,
    }
}

fn answer<A: Atomicity>(
    alloc: Global,
    table: &mut Table<A>,
    verb: &str,
    words: &str,
) -> Result<Option<String>, Refusal> {
    if let Some(reply) = reading::reply(alloc, table, verb, words)? {
        return Ok(Some(reply));
    }
    if let Some(reply) = blocks::reply::<A>(alloc, verb, words)? {
        return Ok(Some(reply));
    }
    match made(alloc, table, verb, words)? {
        Some(Slot::Gone) => print(alloc, "none"),
        Some(slot) => Ok(Some(add(alloc, table, slot)?)),
        None => Ok(None),
    }
}

// The text that a line creates.
fn made<A: Atomicity>(
    alloc: Global,
    table: &Table<A>,
    verb: &str,
    words: &str,
) -> Result<Option<Slot<A>>, Refusal> {
    if let Some(text) = making::string(alloc, verb, words)? {
        return Ok(Some(Slot::Utf8(text)));
    }
    if let Some(text) = making::bytes(alloc, verb, words)? {
        return Ok(Some(Slot::Bytes(text)));
    }
    match verb {
        "from_tendrils" => items::of_texts(alloc, table, words),
        "from_slice_of" => making::of_slot(alloc, table, words),
        _ if verb.starts_with("extend_") => items::extend(alloc, table, verb, words),
        _ => parts::part(table, verb, words),
    }
}

fn print<D: Display + Drop>(alloc: Global, value: D) -> Result<Option<String>, Refusal> {
    Ok(Some(format!(in alloc; "{value}")?))
}

// The number of a slot, and the words after it.
fn slot_and_words(words: &str) -> Result<(usize, &str), Refusal> {
    let (slot, rest) = words.split_once(' ').unwrap_or((words, ""));
    Ok((number(slot)? as usize, rest))
}

// The set of these bytes. They must be ASCII.
fn set_of(bytes: &[u8]) -> Result<ByteSet, Refusal> {
    if bytes.is_ascii() {
        Ok(ByteSet::new(bytes))
    } else {
        Err(Refusal::Invalid)
    }
}

// The first string of a line.
fn string_of(words: &str) -> &str {
    words.split('"').nth(1).unwrap_or("")
}

// The number after the first string of a line, 0 if there is none.
fn capacity_of(words: &str) -> Result<u32, Refusal> {
    match words.split_once("\" ") {
        Some((_, capacity)) => number(capacity),
        None => Ok(0),
    }
}

fn strings_of(alloc: Global, words: &str) -> Result<Vec<&str>, Refusal> {
    let mut strings = Vec::new(alloc);
    for (index, piece) in words.split('"').enumerate() {
        if index % 2 == 1 {
            strings.push(piece)?;
        }
    }
    Ok(strings)
}

fn str_text<A: Atomicity>(table: &Table<A>, number: usize) -> Result<&Tendril<UTF8, A>, Refusal> {
    match table.slot(number) {
        Some(Slot::Utf8(text)) => Ok(text),
        Some(Slot::Gone) | None => Err(Refusal::NoSuchSlot),
        Some(_) => Err(Refusal::WrongFormat),
    }
}

fn byte_text<A: Atomicity>(table: &Table<A>, number: usize) -> Result<&Tendril<Bytes, A>, Refusal> {
    match table.slot(number) {
        Some(Slot::Bytes(text)) => Ok(text),
        Some(Slot::Gone) | None => Err(Refusal::NoSuchSlot),
        Some(_) => Err(Refusal::WrongFormat),
    }
}
