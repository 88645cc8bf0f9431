//! Decodes the input up to the first malformed sequence.
ghost use Rattle.std.specs.Prelude.{◌≤◌};

use crate::offset::{last_settled, last_settled_in_whole};
use crate::program::NAME;
use std::alloc::Global;
use std::borrow::CowStr;
use std::io::{Read, Write};
use tendril_encoding::Kept;
use tendril_script::refuse;
use tendril_stream::{Counted, CountedRead, PieceDecoding, TendrilSink, read_once};
use tendril_text::block::Refusal;
use tendril_text::{ByteTendril, StrTendril};
use tendril_transcode::{Joined, write_text};

/// The maximal number of reads, as without `--strict`.
const MOST_READS: u64 = 1_000_000_000;

/// The status for a malformed sequence.
const MALFORMED: u8 = 1;

/// The texts up to the first error, and whether there was one.
#[derive(Drop)]
struct Front {
    text: Joined,
    ended: bool,
}

impl TendrilSink<StrTendril> for Front {
    type Output = Front;

    fn process(&mut self, text: StrTendril) -> Result<(), Refusal> {
        if self.ended {
            return Ok(());
        }
        self.text.process(text)
    }

    fn error(&mut self, _words: CowStr<'static>) -> Result<(), Refusal> {
        self.ended = true;
        Ok(())
    }

    fn finish(self) -> Result<Front, Refusal> {
        Ok(self)
    }
}

/// A sink of pieces. It decodes them up to the first malformed sequence, and knows where that begins.
#[derive(Drop)]
struct StrictDecoder {
    alloc: Global,
    kept: Kept,
    front: Front,
    // How many bytes came in the pieces so far.
    read: u64,
    // After the first `settled` of them the decoder last kept nothing: the next character, or malformed sequence,
    // begins there.
    settled: u64,
}

impl StrictDecoder {
    fn new(alloc: Global, kept: Kept) -> Self {
        StrictDecoder {
            alloc,
            kept,
            front: Front {
                text: Joined::new(alloc),
                ended: false,
            },
            read: 0,
            settled: 0,
        }
    }

    // Notes the last place of a piece after which nothing was kept. `before` is what was kept before the piece, which
    // is decoded already.
    fn settle(&mut self, before: Kept, piece: &[u8]) -> Result<(), Refusal> {
        let last = if self.front.ended {
            last_settled(self.alloc, before, piece)?
        } else if self.kept.keeps_nothing() {
            Some(piece.len())
        } else {
            last_settled_in_whole(self.alloc, before, piece)?
        };
        if let Some(count) = last {
            self.settled = self.read.saturating_add(count as u64);
        }
        Ok(())
    }
}

impl TendrilSink<ByteTendril> for StrictDecoder {
    type Output = StrictDecoder;

    fn process(&mut self, piece: ByteTendril) -> Result<(), Refusal> {
        let before = self.kept.copy(self.alloc);
        let bytes = piece.clone()?;
        self.kept.decode_piece(self.alloc, &mut self.front, piece)?;
        self.settle(before, bytes.as_byte_slice())?;
        self.read = self.read.saturating_add(bytes.len() as u64);
        Ok(())
    }

    fn error(&mut self, _words: CowStr<'static>) -> Result<(), Refusal> {
        self.front.ended = true;
        Ok(())
    }

    fn finish(mut self) -> Result<StrictDecoder, Refusal> {
        PieceDecoding::<ByteTendril, StrTendril>::decode_end(
            &mut self.kept,
            self.alloc,
            &mut self.front,
        )?;
        Ok(self)
    }
}

/// Decodes the input and writes UTF-8, up to the first malformed sequence, and returns the program's status: 0; 1 for a
/// malformed sequence, whose offset in the input is printed to `err`, or after an error, which is printed to `err`.
///
/// The offset counts the bytes before the sequence.
pub fn recode_strictly<R: Read, W: Write, E: Write>(
    alloc: Global,
    kept: Kept,
    input: &mut R,
    out: &mut W,
    err: &mut E,
) -> u8
    ensures { result ≤ 1 }
{
    match decode_front(
        StrictDecoder::new(alloc, kept),
        &mut Counted::new(input),
        out,
    ) {
        Ok(None) => 0,
        Ok(Some(offset)) => {
            let _ = writeln!(err, "{NAME}: malformed sequence at offset {offset}");
            MALFORMED
        }
        Err(refusal) => refuse(NAME, refusal, err),
    }
}

// Decodes the input up to its end or the first malformed sequence, and returns the offset of that.
fn decode_front<R: CountedRead, W: Write>(
    mut decoder: StrictDecoder,
    reader: &mut R,
    out: &mut W,
) -> Result<Option<u64>, Refusal> {
    for _ in 0..MOST_READS {
        let at_end = read_once(decoder.alloc, &mut decoder, reader)?;
        if at_end {
            decoder = decoder.finish()?;
        }
        write_text(&decoder.front.text, out)?;
        decoder.front.text.clear();
        if decoder.front.ended {
            return Ok(Some(decoder.settled));
        }
        if at_end {
            return Ok(None);
        }
    }
    Err(Refusal::TooManyReads)
}
