//! All streams of at most four bytes out of a set of ten, cut into pieces in every way.

use crate::line::Line;
use crate::notes::Notes;
use crate::tests::streams::slow::{slow_decode, write_stream};
use std::alloc::Global;
use std::test::Fail;
use tendril::stream::{TendrilSink, Utf8LossyDecoder};
use tendril::{ByteTendril, slice_to_tendril};

/// The length of streams, the number of such streams, and the number of ways in which each is cut.
const SIZES: [(usize, u32, u32); 5] = [
    (0, 1, 1),
    (1, 10, 1),
    (2, 100, 2),
    (3, 1000, 4),
    (4, 10000, 8),
];

// Decodes the bytes. Bit i of `cuts`, from the lowest, says whether a piece ends after byte i.
fn decode_cut(alloc: Global, bytes: &[u8], cuts: u32) -> Line {
    let mut decoder: Utf8LossyDecoder<Line> = Utf8LossyDecoder::new(alloc, Line::new());
    let mut start = 0;
    let mut left = cuts;
    for end in 1..=bytes.len() {
        if left % 2 == 1 || end == bytes.len() {
            let piece = bytes.get(start..end).unwrap_or(b"");
            let piece: ByteTendril = slice_to_tendril(alloc, piece).unwrap_or(ByteTendril::new(
                alloc,
            ));
            let _ = decoder.process(piece);
            start = end;
        }
        left /= 2;
    }
    decoder.finish().unwrap_or(Line::new())
}

#[test]
fn short_streams_in_every_cutting(rt: HostRuntime) -> Result<(), Fail> {
    let mut notes = Notes::new();
    for (len, streams, cuttings) in SIZES {
        for number in 0..streams {
            let mut buffer = [0; 4];
            let bytes = buffer.get_mut(..len).unwrap_or(&mut []);
            write_stream(bytes, number);
            let expected = slow_decode(bytes);
            for cuts in 0..cuttings {
                let line = decode_cut(rt.alloc(), bytes, cuts);
                let same = line.as_slice() == expected.as_slice();
                notes.holds(
                    number as usize,
                    same,
                    "the pieces are decoded as the table says",
                );
                notes.holds(number as usize, !line.had_empty, "no text is empty");
            }
        }
    }
    notes.end()
}
