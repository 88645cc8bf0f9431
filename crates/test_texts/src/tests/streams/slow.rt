//! A slow decoder that reads Unicode's table.

use crate::line::Line;
use crate::tests::utf8_table::{Front, front_of};

/// The ten bytes of short streams: each begins or continues some row of the table.
const BYTES: [u8; 10] = [0x41, 0x80, 0x90, 0xA0, 0xBF, 0xC2, 0xE0, 0xED, 0xF0, 0xF4];

/// Writes the bytes of the stream with this number.
pub(crate) fn write_stream(bytes: &mut [u8], number: u32) {
    let mut left = number;
    for byte in bytes.iter_mut() {
        *byte = BYTES[(left % 10) as usize];
        left /= 10;
    }
}

/// What must be sent for a whole stream.
pub(crate) fn slow_decode(bytes: &[u8]) -> Line {
    let mut line = Line::new();
    let mut rest = bytes;
    for _ in 0..bytes.len() {
        let len = match front_of(rest) {
            Front::Character(len) => {
                line.push(rest.get(..len).unwrap_or(b"too long"));
                len
            }
            Front::Broken(len) => {
                line.push_error("invalid byte sequence");
                line.push("\u{FFFD}".as_bytes());
                len
            }
            Front::Empty => break,
            Front::Open => {
                line.push_error("incomplete byte sequence at end of stream");
                line.push("\u{FFFD}".as_bytes());
                break;
            }
        };
        rest = rest.get(len..).unwrap_or(b"");
    }
    line
}
