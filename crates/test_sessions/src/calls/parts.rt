//! Calls that split a text, send it, view it or change it.

use crate::calls::{byte_text, set_of, slot_and_words, str_text, string_of};
use std::fmt::{self, Write};
use std::io;
use tendril_block::{Atomicity, Refusal};
use tendril_fmt::fmt::{ASCII, Bytes, UTF8};
use tendril_run::{Slot, Table};
use tendril_text::{SendTendril, Tendril};
use test_rows::words::number as number_of;

/// Returns what the call of this name makes of a clone of a text, `Slot::Gone` for nothing.
pub fn part<A: Atomicity>(
    table: &Table<A>,
    verb: &str,
    words: &str,
) -> Result<Option<Slot<A>>, Refusal> {
    match verb {
        "until"
        | "after"
        | "take"
        | "lower"
        | "push_char"
        | "push_str"
        | "write_str"
        | "split"
        | "left"
        | "truncate"
        | "compact"
        | "to_compact"
        | "trimmed"
        | "into_trimmed" => string_part(table, verb, words),
        "write"
        | "write_all"
        | "push_without_validating"
        | "reverse"
        | "into_send"
        | "send_clone" => { byte_part(table, verb, words) }
        "view" | "view_whole" | "view_ascii" => view(table, verb, words),
        _ => Ok(None),
    }
}

fn string_part<A: Atomicity>(
    table: &Table<A>,
    verb: &str,
    words: &str,
) -> Result<Option<Slot<A>>, Refusal> {
    let (number, words) = slot_and_words(words)?;
    let mut text = str_text(table, number)?.clone()?;
    let string = string_of(words);
    match verb {
        "until" => {
            return match pop_until(&mut text, string)? {
                Some(front) => Ok(Some(Slot::Utf8(front))),
                None => Ok(Some(Slot::Gone)),
            };
        }
        "after" => {
            pop_until(&mut text, string)?;
        }
        "split" => return Ok(Some(Slot::Utf8(text.try_split_to(number_of(words)?)?))),
        "left" => {
            text.try_split_to(number_of(words)?)?;
        }
        "take" => return Ok(Some(Slot::Utf8(text.take()))),
        "to_compact" => return Ok(Some(Slot::Utf8(text.to_compact()?))),
        "compact" => text.compact()?,
        "truncate" => text.try_truncate(number_of(words)?)?,
        "trimmed" => return Ok(Some(Slot::Utf8(text.trimmed()?))),
        "into_trimmed" => return Ok(Some(Slot::Utf8(text.into_trimmed()))),
        _ => change_string(&mut text, verb, string)?,
    }
    Ok(Some(Slot::Utf8(text)))
}

// The bytes before the first byte of a set.
fn pop_until<A: Atomicity>(
    text: &mut Tendril<UTF8, A>,
    set: &str,
) -> Result<Option<Tendril<UTF8, A>>, Refusal> {
    text.pop_front_until(&set_of(set.as_bytes())?)
}

fn change_string<A: Atomicity>(
    text: &mut Tendril<UTF8, A>,
    verb: &str,
    string: &str,
) -> Result<(), Refusal> {
    match verb {
        "lower" => text.make_ascii_lowercase(),
        "push_char" => text.push_char(string.chars().next().unwrap_or('?')),
        "push_str" => text.push_slice(string),
        _ => write_str(text, string),
    }
}

// `fmt::Error` doesn't say why: it is reported as Memory.
fn write_str<A: Atomicity>(text: &mut Tendril<UTF8, A>, string: &str) -> Result<(), Refusal> {
    match text.write_str(string) {
        Ok(()) => Ok(()),
        Err(fmt::Error) => Err(Refusal::Memory),
    }
}

fn byte_part<A: Atomicity>(
    table: &Table<A>,
    verb: &str,
    words: &str,
) -> Result<Option<Slot<A>>, Refusal> {
    let (number, words) = slot_and_words(words)?;
    let mut text = byte_text(table, number)?.clone()?;
    match verb {
        "into_send" => return Ok(Some(Slot::Bytes(received(sent(text)?)?))),
        "send_clone" => return Ok(Some(Slot::Bytes(received(sent(text)?.clone()?)?))),
        "reverse" => text.bytes_mut(|bytes: &mut [u8]| bytes.reverse())?,
        _ => push_bytes(&mut text, verb, string_of(words).as_bytes())?,
    }
    Ok(Some(Slot::Bytes(text)))
}

fn push_bytes<A: Atomicity>(
    text: &mut Tendril<Bytes, A>,
    verb: &str,
    bytes: &[u8],
) -> Result<(), Refusal> {
    match verb {
        "push_without_validating" => text.push_bytes_without_validating(bytes),
        "write" => match io::Write::write(text, bytes) {
            Ok(count) if count == bytes.len() => Ok(()),
            Ok(_) => Err(Refusal::Invalid),
            Err(error) => Err(Refusal::from(error)),
        },
        _ => io::Write::write_all(text, bytes).map_err(Refusal::from),
    }
}

// A call that gets no memory must return the text.
fn sent<A: Atomicity>(text: Tendril<Bytes, A>) -> Result<SendTendril<Bytes>, Refusal> {
    let before = text.clone()?;
    match text.into_send() {
        Ok(sent) => Ok(sent),
        Err((refusal, back)) if back == before => Err(refusal),
        Err(_) => Err(Refusal::Invalid),
    }
}

// A call that gets no memory must return the text, which can be received then.
fn received<A: Atomicity>(text: SendTendril<Bytes>) -> Result<Tendril<Bytes, A>, Refusal> {
    match Tendril::from_send(text) {
        Ok(text) => Ok(text),
        Err((Refusal::Memory, back)) => match Tendril::from_send(back) {
            Ok(text) => Ok(text),
            Err((refusal, _)) => Err(refusal),
        },
        Err((refusal, _)) => Err(refusal),
    }
}

// A text of bytes or of ASCII, created from a view of a string.
fn view<A: Atomicity>(
    table: &Table<A>,
    verb: &str,
    words: &str,
) -> Result<Option<Slot<A>>, Refusal> {
    let (number, words) = slot_and_words(words)?;
    let text = str_text(table, number)?;
    match verb {
        "view" => {
            let (offset, count) = words.split_once(' ').unwrap_or((words, ""));
            let part = text
                .as_bytes()
                .try_subtendril(number_of(offset)?, number_of(count)?)?;
            Ok(Some(Slot::Bytes(part)))
        }
        "view_whole" => Ok(Some(Slot::Bytes(text.as_bytes().to_tendril()?))),
        _ => Ok(Some(Slot::Ascii(text.try_as_subset::<ASCII>()?.to_tendril()?))),
    }
}
