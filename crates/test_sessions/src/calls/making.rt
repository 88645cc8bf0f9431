//! Calls that create a text.

use crate::calls::{capacity_of, slot_and_words, string_of, strings_of};
use std::alloc::Global;
use tendril_block::{Atomicity, Refusal};
use tendril_run::{Slot, Table};
use tendril_text::fmt::{Bytes, Format, UTF8};
use tendril_text::{Tendril, slice_to_tendril, str_to_tendril};

/// A text of strings or characters, by the call of this name.
pub fn string<A: Atomicity>(
    alloc: Global,
    verb: &str,
    words: &str,
) -> Result<Option<Tendril<UTF8, A>>, Refusal> {
    let string = string_of(words);
    let made = match verb {
        "from_slice" => Tendril::<UTF8, A>::from_slice(alloc, string),
        "from_str" => Tendril::<UTF8, A>::from_str(alloc, string),
        "str_to_tendril" => round_trip(str_to_tendril(alloc, string)?),
        "from_string" => Tendril::<UTF8, A>::from_string(alloc, roomy_string(alloc, words)?),
        "from_chars" => Tendril::<UTF8, A>::from_chars(alloc, string.chars()),
        "from_char" => Tendril::<UTF8, A>::from_char(alloc, string.chars().next().unwrap_or('?')),
        "format" => Tendril::<UTF8, A>::format(alloc, &string),
        "from_strs" => return of_strings(alloc, words),
        _ => return Ok(None),
    };
    Ok(Some(made?))
}

// The string of a line, with the line's capacity.
fn roomy_string(alloc: Global, words: &str) -> Result<String, Refusal> {
    let mut string = String::with_capacity(alloc, capacity_of(words)? as usize)?;
    string.push_str(string_of(words))?;
    Ok(string)
}

fn of_strings<A: Atomicity>(
    alloc: Global,
    words: &str,
) -> Result<Option<Tendril<UTF8, A>>, Refusal> {
    let strings = strings_of(alloc, words)?;
    Ok(Some(Tendril::<UTF8, A>::from_strs(alloc, strings.iter().copied())?))
}

/// A text of bytes, by the call of this name.
pub fn bytes<A: Atomicity>(
    alloc: Global,
    verb: &str,
    words: &str,
) -> Result<Option<Tendril<Bytes, A>>, Refusal> {
    let bytes = string_of(words).as_bytes();
    let made = match verb {
        "slice_to_tendril" => round_trip(slice_to_tendril(alloc, bytes)?),
        "sent" => round_trip(roomy_text::<A>(alloc, words)?),
        "sent_after_clone" => round_trip(cloned(Tendril::<Bytes, A>::from_slice(alloc, bytes)?)?),
        "from_byte_slice" => Tendril::<Bytes, A>::from_slice(alloc, bytes),
        "from_byte_slice_without_validating" => {
            Tendril::from_byte_slice_without_validating(alloc, bytes)
        }
        "from_bytes" => Tendril::<Bytes, A>::from_bytes(alloc, bytes.iter().copied()),
        "from_byte_refs" => Tendril::<Bytes, A>::from_byte_refs(alloc, bytes.iter()),
        "from_slices" => return of_slices(alloc, words),
        _ => return Ok(None),
    };
    Ok(Some(made?))
}

// A text of a line's bytes, with the line's capacity if it has one.
fn roomy_text<A: Atomicity>(alloc: Global, words: &str) -> Result<Tendril<Bytes, A>, Refusal> {
    let mut text = Tendril::with_capacity(alloc, capacity_of(words)?)?;
    text.push_slice(string_of(words).as_bytes())?;
    Ok(text)
}

// A text after a clone of it was dropped.
fn cloned<A: Atomicity>(text: Tendril<Bytes, A>) -> Result<Tendril<Bytes, A>, Refusal> {
    drop(text.clone()?);
    Ok(text)
}

// Makes a text sendable and converts it back. It is the only reference to its block, so this allocates nothing.
fn round_trip<F: Format, A: Atomicity, B: Atomicity>(
    text: Tendril<F, A>,
) -> Result<Tendril<F, B>, Refusal> {
    match text.into_send() {
        Ok(sent) => Tendril::from_send(sent).map_err(|_| Refusal::Invalid),
        Err(_) => Err(Refusal::Invalid),
    }
}

/// A text of the bytes of a slot, by `from_slice`.
pub fn of_slot<A: Atomicity>(
    alloc: Global,
    table: &Table<A>,
    words: &str,
) -> Result<Option<Slot<A>>, Refusal> {
    let (number, _) = slot_and_words(words)?;
    match table.slot(number) {
        Some(Slot::Utf8(text)) => {
            let copy = Tendril::<UTF8, A>::from_slice(alloc, text.as_str())?;
            Ok(Some(Slot::Utf8(copy)))
        }
        Some(Slot::Bytes(text)) => {
            let copy = Tendril::<Bytes, A>::from_slice(alloc, text.as_byte_slice())?;
            Ok(Some(Slot::Bytes(copy)))
        }
        _ => Err(Refusal::WrongFormat),
    }
}

fn of_slices<A: Atomicity>(
    alloc: Global,
    words: &str,
) -> Result<Option<Tendril<Bytes, A>>, Refusal> {
    let strings = strings_of(alloc, words)?;
    let slices = strings.iter().map(|string| string.as_bytes());
    Ok(Some(Tendril::<Bytes, A>::from_slices(alloc, slices)?))
}
