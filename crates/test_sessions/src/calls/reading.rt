//! Calls that read a text.

use crate::calls::{fields, print, set_of, slot_and_words, str_text, string_of};
use std::alloc::Global;
use std::fmt::Write;
use tendril_block::{Atomicity, Refusal};
use tendril_fmt::fmt::UTF8;
use tendril_run::{Slot, Table};
use tendril_text::{ByteSet, SetResult, Tendril};

/// What is printed for a line that reads a text.
pub fn reply<A: Atomicity>(
    alloc: Global,
    table: &Table<A>,
    verb: &str,
    words: &str,
) -> Result<Option<String>, Refusal> {
    match verb {
        "debug" => debug(alloc, table, words),
        "view_str" => view_str(alloc, table, words),
        "string"
        | "display"
        | "chars"
        | "runs"
        | "parts"
        | "fields"
        | "once"
        | "find"
        | "eq_str"
        | "starts_with"
        | "skip_prefix"
        | "peek"
        | "len" => read_string(alloc, table, verb, words),
        _ => Ok(None),
    }
}

fn debug<A: Atomicity>(
    alloc: Global,
    table: &Table<A>,
    words: &str,
) -> Result<Option<String>, Refusal> {
    let (number, _) = slot_and_words(words)?;
    match table.slot(number) {
        Some(Slot::Utf8(text)) => print(alloc, format_args!("{text:?}")),
        Some(Slot::Bytes(text)) => print(alloc, format_args!("{text:?}")),
        _ => Err(Refusal::WrongFormat),
    }
}

// The bytes of a text as a string, if they are UTF-8.
fn view_str<A: Atomicity>(
    alloc: Global,
    table: &Table<A>,
    words: &str,
) -> Result<Option<String>, Refusal> {
    let (number, _) = slot_and_words(words)?;
    match table.slot(number) {
        Some(Slot::Bytes(text)) => {
            let view = text.try_reinterpret_view::<UTF8>()?;
            print(alloc, format_args!("{:?}", view.as_str()))
        }
        Some(Slot::Ascii(text)) => print(
            alloc,
            format_args!("{:?}", text.as_superset::<UTF8>().as_str()),
        ),
        _ => Err(Refusal::WrongFormat),
    }
}

fn read_string<A: Atomicity>(
    alloc: Global,
    table: &Table<A>,
    verb: &str,
    words: &str,
) -> Result<Option<String>, Refusal> {
    let (number, words) = slot_and_words(words)?;
    let text = str_text(table, number)?;
    let string = string_of(words);
    match verb {
        "string" => {
            let value = text.to_string_value()?;
            print(alloc, format_args!("{value:?}"))
        }
        "display" => print(
            alloc,
            format_args!("{text}|{text:>8}|{text:-<8}|{text:_^8.2}"),
        ),
        "eq_str" => yes_or_no(alloc, text.eq_str(string)),
        "starts_with" => yes_or_no(alloc, text.starts_with(string)),
        "skip_prefix" => skip_prefix(alloc, text.clone()?, string),
        "peek" => print(alloc, format_args!("{:?}", text.peek_front_char())),
        "len" => print(
            alloc,
            format_args!("{} {} {}", text.len(), text.len32(), text.is_empty()),
        ),
        "find" => find(alloc, text, string.as_bytes()),
        "fields" | "once" => fields::reply(alloc, text, verb, string),
        _ => list(alloc, text.clone()?, verb, string),
    }
}

fn yes_or_no(alloc: Global, holds: bool) -> Result<Option<String>, Refusal> {
    print(alloc, if holds { "yes" } else { "no" })
}

// Whether a text had the prefix, and what is left of it.
fn skip_prefix<A: Atomicity>(
    alloc: Global,
    mut text: Tendril<UTF8, A>,
    prefix: &str,
) -> Result<Option<String>, Refusal> {
    let skipped = if text.skip_prefix(prefix) {
        "yes"
    } else {
        "no"
    };
    print(alloc, format_args!("{skipped} {:?}", text.as_str()))
}

// The index of the first byte of a set.
fn find<A: Atomicity>(
    alloc: Global,
    text: &Tendril<UTF8, A>,
    set: &[u8],
) -> Result<Option<String>, Refusal> {
    let found = match set {
        [byte] => text.find_byte(*byte),
        _ => text.find_any(&set_of(set)?),
    };
    print(alloc, format_args!("{found:?}"))
}

// The items of an iterator over a text.
fn list<A: Atomicity>(
    alloc: Global,
    text: Tendril<UTF8, A>,
    verb: &str,
    set: &str,
) -> Result<Option<String>, Refusal> {
    let mut reply = String::new(alloc);
    match verb {
        "chars" => list_chars(&mut reply, text)?,
        "runs" => list_runs(&mut reply, text)?,
        _ => list_parts(&mut reply, text, &set_of(set.as_bytes())?)?,
    }
    Ok(Some(reply))
}

// The separator before an item.
fn gap(reply: &str) -> &'static str {
    if reply.is_empty() { "" } else { " " }
}

fn list_chars<A: Atomicity>(reply: &mut String, text: Tendril<UTF8, A>) -> Result<(), Refusal> {
    for character in text.into_chars() {
        let gap = gap(reply.as_str());
        write!(reply, "{gap}{character:?}")?;
    }
    Ok(())
}

fn list_runs<A: Atomicity>(reply: &mut String, text: Tendril<UTF8, A>) -> Result<(), Refusal> {
    for run in text.into_char_runs(char::is_whitespace) {
        let (run, is_space) = run?;
        let gap = gap(reply.as_str());
        write!(reply, "{gap}{:?} {is_space}", run.as_str())?;
    }
    Ok(())
}

fn list_parts<A: Atomicity>(
    reply: &mut String,
    text: Tendril<UTF8, A>,
    set: &ByteSet,
) -> Result<(), Refusal> {
    for part in text.split_at_any(set) {
        write_part(reply, &part?)?;
    }
    Ok(())
}

fn write_part<A: Atomicity>(reply: &mut String, part: &SetResult<UTF8, A>) -> Result<(), Refusal> {
    let gap = gap(reply.as_str());
    match part {
        SetResult::FromSet(character) => write!(reply, "{gap}{character:?}")?,
        SetResult::NotFromSet(text) => write!(reply, "{gap}{:?}", text.as_str())?,
    }
    Ok(())
}
