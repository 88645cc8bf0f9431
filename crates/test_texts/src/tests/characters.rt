//! The encoding of each character in each format, against Unicode's table.

use crate::characters::is_encoded_as;
use crate::notes::Notes;
use std::test::Fail;
use tendril::fmt::{ASCII, CharFormat, Latin1, UTF8};

// Whether these are the bytes of the scalar by Unicode's table 3-6, which spreads its bits over them.
fn is_spread(character: char, bytes: &[u8]) -> bool {
    let code = character as u32;
    match *bytes {
        [a] => code < 0x80 && a as u32 == code,
        [a, b] => {
            (0x80..0x800).contains(&code)
                && a as u32 == 0xC0 + code / 0x40
                && b as u32 == 0x80 + code % 0x40
        }
        [a, b, c] => {
            (0x800..0x1_0000).contains(&code)
                && a as u32 == 0xE0 + code / 0x1000
                && b as u32 == 0x80 + code / 0x40 % 0x40
                && c as u32 == 0x80 + code % 0x40
        }
        [a, b, c, d] => {
            0x1_0000 <= code
                && a as u32 == 0xF0 + code / 0x4_0000
                && b as u32 == 0x80 + code / 0x1000 % 0x40
                && c as u32 == 0x80 + code / 0x40 % 0x40
                && d as u32 == 0x80 + code % 0x40
        }
        _ => false,
    }
}

fn has_its_bytes(character: char) -> bool {
    match UTF8::encode_char(character) {
        Some(encoded) => {
            let bytes = encoded.as_slice();
            is_spread(character, bytes) && is_encoded_as::<UTF8>(character, bytes)
        }
        None => false,
    }
}

// Whether the format encodes the characters below the limit in one byte each, and no others.
fn is_of_one_byte<F: CharFormat>(character: char, limit: u32) -> bool {
    let code = character as u32;
    if code < limit {
        is_encoded_as::<F>(character, &[(code % 0x100) as u8])
    } else {
        F::encode_char(character).is_none()
    }
}

#[test]
fn every_scalar_has_its_bytes(_rt: HostRuntime) -> Result<(), Fail> {
    let mut notes = Notes::new();
    for code in 0..0x11_0000 {
        if let Some(character) = char::from_u32(code) {
            let row = code as usize;
            notes.holds(
                row,
                has_its_bytes(character),
                "the character has its bytes in UTF-8",
            );
            notes.holds(
                row,
                is_of_one_byte::<ASCII>(character, 0x80),
                "the character has its byte in ASCII, or none",
            );
            notes.holds(
                row,
                is_of_one_byte::<Latin1>(character, 0x100),
                "the character has its byte in Latin-1, or none",
            );
        }
    }
    notes.end()
}
