//! Prefixes of a text, each with the bytes that end it.
ghost use Rattle.std.specs.Prelude.{◌≤◌, ◌+◌, length, take, drop};
ghost use Rattle.tendril_text.specs.Pieces.{TakesPiece};

use crate::tendril::Tendril;
use tendril_block::{Atomicity, MAX_LEN, Refusal};
use tendril_fmt::cuts::Piece;
use tendril_fmt::fmt::Format;

impl<F: Format, A: Atomicity> Tendril<F, A> {
    // Removes a prefix and its ending from the text, and returns the prefix.
    pub(crate) fn take_piece(&mut self, piece: Piece) -> Result<Self, Refusal>
        requires short { length self.old.bytes ≤ MAX_LEN }
        requires within { piece.len + piece.ending ≤ length self.old.bytes }
        requires front_valid { F.valid (take piece.len self.old.bytes) }
        requires cut_valid { F.valid (drop piece.len self.old.bytes) }
        requires rest_valid { F.valid (drop (piece.len + piece.ending) self.old.bytes) }
        ensures { TakesPiece piece.len piece.ending self.old result self.new }
    {
        let front = self.take_front(piece.len as u32)?;
        self.pop_front(piece.ending as u32);
        Ok(front)
    }
}
