//! Where a malformed sequence begins.
ghost use Rattle.std.specs.Prelude.{◌≤◌, IfOk, IfSome, length};

use std::alloc::Global;
use std::borrow::CowStr;
use tendril_encoding::Kept;
use tendril_stream::{PieceDecoding, TendrilSink};
use tendril_text::block::Refusal;
use tendril_text::{ByteTendril, StrTendril};

/// How many of the last bytes of a piece are searched first. No character, and no byte order mark, has more.
const TAIL: usize = 4;

/// A sink that notes whether there was an error, and drops the texts.
#[derive(Drop)]
struct Faults {
    some: bool,
}

impl TendrilSink<StrTendril> for Faults {
    type Output = ();

    fn process(&mut self, _text: StrTendril) -> Result<(), Refusal> {
        Ok(())
    }

    fn error(&mut self, _words: CowStr<'static>) -> Result<(), Refusal> {
        self.some = true;
        Ok(())
    }

    fn finish(self) -> Result<(), Refusal> {
        Ok(())
    }
}

/// Returns the largest number of leading bytes of the piece after which a decoder that began it with `kept` keeps
/// nothing, before the first malformed sequence. None: there is no such number.
pub fn last_settled(alloc: Global, mut kept: Kept, piece: &[u8]) -> Result<Option<usize>, Refusal>
    ensures { IfOk result (λ last. IfSome last (λ count. count ≤ length piece.now)) }
{
    let mut faults = Faults { some: false };
    let mut last = None;
    for (before, byte) in piece.iter().enumerate() {
        let one = ByteTendril::from_slice(alloc, &[*byte])?;
        kept.decode_piece(alloc, &mut faults, one)?;
        if faults.some {
            break;
        }
        if kept.keeps_nothing() {
            last = Some(before + 1);
        }
    }
    Ok(last)
}

/// The same for a piece without a malformed sequence. It decodes most of the piece at once.
pub fn last_settled_in_whole(
    alloc: Global,
    kept: Kept,
    piece: &[u8],
) -> Result<Option<usize>, Refusal>
    ensures { IfOk result (λ last. IfSome last (λ count. count ≤ length piece.now)) }
{
    let front = piece.len().saturating_sub(TAIL);
    let mut later = kept.copy(alloc);
    let most = ByteTendril::from_slice(alloc, &piece[..front])?;
    later.decode_piece(alloc, &mut Faults { some: false }, most)?;
    match last_settled(alloc, later, &piece[front..])? {
        Some(count) => Ok(Some(front + count)),
        None => last_settled(alloc, kept, piece),
    }
}
