//! Which bytes are valid in UTF-8 and WTF-8.

use crate::notes::Notes;
use crate::tests::table::{is_utf8, is_wtf8};
use std::test::Fail;
use tendril::fmt::{Format, UTF8, WTF8};

/// The bytes next to the bounds in the table's rows.
const BORDERS: [u8; 20] = [
    0x00, 0x41, 0x7F, 0x80, 0x8F, 0x90, 0x9F, 0xA0, 0xBF, 0xC0, 0xC1, 0xC2, 0xDF, 0xE0, 0xED, 0xEF,
    0xF0, 0xF4, 0xF5, 0xFF,
];

// Writes the bytes of the list with this number.
fn write_list(bytes: &mut [u8], number: u32) {
    let mut left = number;
    for byte in bytes.iter_mut() {
        *byte = BORDERS[(left % 20) as usize];
        left /= 20;
    }
}

// Whether the formats agree with the table on the list with this number.
fn is_by_the_table(len: usize, number: u32) -> bool {
    let mut buffer = [0; 4];
    match buffer.get_mut(..len) {
        Some(bytes) => {
            write_list(bytes, number);
            UTF8::validate(bytes) == is_utf8(bytes) && WTF8::validate(bytes) == is_wtf8(bytes)
        }
        None => false,
    }
}

#[test]
fn what_the_table_accepts(_rt: HostRuntime) -> Result<(), Fail> {
    let mut notes = Notes::new();
    for (len, lists) in [(0, 1), (1, 20), (2, 400), (3, 8000), (4, 160000)] {
        for number in 0..lists {
            notes.holds(
                number as usize,
                is_by_the_table(len, number),
                "UTF-8 and WTF-8 accept what the table has",
            );
        }
    }
    notes.end()
}
