//! What the join of each pair of surrogates changes.

use crate::notes::Notes;
use std::test::Fail;
use tendril::fmt::{Fixup, Format, WTF8};

// The fixup of two texts, if they are valid.
fn fixup_of(left: &[u8], right: &[u8]) -> Option<Fixup> {
    if WTF8::validate(left) && WTF8::validate(right) {
        Some(WTF8::fixup(left, right))
    } else {
        None
    }
}

// Whether the surrogates of a character past FFFF, joined, are its encoding.
fn is_met(code: u32, character: char) -> bool {
    let (high, low) = (code.saturating_sub(0x1_0000) / 0x400, code % 0x400);
    let left = [
        0xED,
        (0xA0 + high / 0x40 % 0x10) as u8,
        (0x80 + high % 0x40) as u8,
    ];
    let right = [0xED, (0xB0 + low / 0x40) as u8, (0x80 + low % 0x40) as u8];
    let mut insert_bytes = [0; 4];
    character.encode_utf8(&mut insert_bytes);
    let expected = Fixup {
        drop_left: 3,
        drop_right: 3,
        insert_len: 4,
        insert_bytes,
    };
    fixup_of(&left, &right) == Some(expected)
}

#[test]
fn every_pair_is_joined_to_its_character(_rt: HostRuntime) -> Result<(), Fail> {
    let mut notes = Notes::new();
    for code in 0x1_0000..0x11_0000 {
        if let Some(character) = char::from_u32(code) {
            notes.holds(
                code as usize,
                is_met(code, character),
                "the pair is joined to its character",
            );
        }
    }
    notes.end()
}
