//! A million bytes with many faults.

use crate::notes::Notes;
use std::alloc::Global;
use std::test::Fail;
use tendril::{ByteTendril, StrTendril};

const LEN: u32 = 1_000_000;

// Decodes a million bytes. Every `distance`-th is broken. Returns how many texts are sent, and how many of
// these are U+FFFD.
fn count_texts(alloc: Global, distance: usize) -> (u32, u32) {
    let mut piece: ByteTendril = ByteTendril::new(alloc);
    let grown = piece.push_uninitialized(LEN);
    let written = piece.bytes_mut(|bytes: &mut [u8]| {
        for (place, byte) in bytes.iter_mut().enumerate() {
            let is_last = place.checked_rem(distance) == Some(distance.wrapping_sub(1));
            *byte = if is_last { 0xFF } else { b'a' };
        }
    });
    let mut texts = 0u32;
    let mut replaced = 0u32;
    let answer = piece.decode_utf8_lossy(|text: StrTendril| {
        texts = texts.saturating_add(1);
        if text.eq_str("\u{FFFD}") {
            replaced = replaced.saturating_add(1);
        }
    });
    if grown.is_err() || written.is_err() || !matches!(answer, Ok(None)) {
        return (0, 0);
    }
    (texts, replaced)
}

#[test]
fn a_million_bytes_of_which_many_are_broken(rt: HostRuntime) -> Result<(), Fail> {
    let mut notes = Notes::new();
    let all = count_texts(rt.alloc(), 1);
    notes.holds(0, all == (1_000_000, 1_000_000), "each byte is replaced");
    // 127 times 7874 is 999998: two letters follow the last broken byte.
    let some = count_texts(rt.alloc(), 127);
    notes.holds(1, some == (15749, 7874), "each 127th byte is replaced");
    notes.end()
}
