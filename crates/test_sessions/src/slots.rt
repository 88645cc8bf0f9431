//! The texts of slots.

use std::alloc::{AllocError, Global};
use tendril_block::{Atomicity, Refusal};
use tendril_run::{Slot, Table};
use tendril_text::Tendril;
use tendril_text::fmt::Bytes;

/// The first letter of a slot's format, `-` for a dropped slot, and its bytes.
pub fn text_of<A: Atomicity>(slot: &Slot<A>) -> (u8, &[u8]) {
    match slot {
        Slot::Bytes(text) => (b'b', text.as_byte_slice()),
        Slot::Ascii(text) => (b'a', text.as_byte_slice()),
        Slot::Utf8(text) => (b'u', text.as_byte_slice()),
        Slot::Wtf8(text) => (b'w', text.as_byte_slice()),
        Slot::Latin1(text) => (b'l', text.as_byte_slice()),
        Slot::Gone => (b'-', b""),
    }
}

/// Whether a slot's text is shared.
pub fn is_shared<A: Atomicity>(slot: &Slot<A>) -> bool {
    match slot {
        Slot::Bytes(text) => text.is_shared(),
        Slot::Ascii(text) => text.is_shared(),
        Slot::Utf8(text) => text.is_shared(),
        Slot::Wtf8(text) => text.is_shared(),
        Slot::Latin1(text) => text.is_shared(),
        Slot::Gone => false,
    }
}

/// A text of one byte, `count` times.
pub fn filled<A: Atomicity>(
    alloc: Global,
    byte: u8,
    count: u32,
) -> Result<Tendril<Bytes, A>, Refusal> {
    let mut text: Tendril<Bytes, A> = Tendril::new(alloc);
    text.push_uninitialized(count)?;
    text.bytes_mut(|bytes: &mut [u8]| bytes.fill(byte))?;
    Ok(text)
}

/// Appends all slots: their number, and of each its letter, its length and its bytes.
pub fn write_slots<A: Atomicity>(table: &Table<A>, notes: &mut Vec<u8>) -> Result<(), AllocError> {
    notes.extend_from_slice(&(table.len() as u64).to_le_bytes())?;
    for number in 0..table.len() {
        let (letter, bytes) = match table.slot(number) {
            Some(slot) => text_of(slot),
            None => (b'-', b"".as_slice()),
        };
        notes.push(letter)?;
        notes.extend_from_slice(&(bytes.len() as u64).to_le_bytes())?;
        notes.extend_from_slice(bytes)?;
    }
    Ok(())
}

/// Creates `count` clones of a text and holds them all. Returns how many are equal to it.
pub fn equal_clones<A: Atomicity>(
    alloc: Global,
    text: &Tendril<Bytes, A>,
    count: u32,
) -> Result<usize, Refusal> {
    let mut clones = Vec::new(alloc);
    for _ in 0..count {
        clones.push(text.clone()?)?;
    }
    Ok(clones.iter().filter(|clone| *clone == text).count())
}
