//! Ropes.
//!
//! Contracts see a `Rope<A>` as its bytes and its pieces: the texts, none of them empty, that have these bytes. The
//! pieces are part of its value: from the bytes alone a contract couldn't say that a slice copies nothing, or how many
//! pieces it has.
ghost use Rattle.std.specs.Prelude.{◌≡◌, ◌↔◌, [], length, IfErr, IfOk, IsTrue};

mod compare;
mod lines;
mod part;
mod pieces;
mod place;
mod pop;
mod print;
mod push;
mod search;
mod sink;
mod split;
mod whole;

pub use lines::RopeLines;
use std::alloc::Global;
use std::collections::VecDeque;
use std::marker::Model;
use tendril_text::block::Refusal;
use tendril_text::fmt::UTF8;
use tendril_text::{Atomicity, NonAtomic, Tendril};

/// The greatest length of a rope, in bytes.
pub const MAX_TOTAL: u64 = u64::MAX;

/// A text in UTF-8 of at most 18446744073709551615 bytes, in pieces that share their bytes with other ropes and texts.
///
/// ```
/// let mut rope = Rope::new(alloc);
/// rope.push_tendril(StrTendril::from_slice(alloc, "one, ")?)?;
/// rope.push_tendril(StrTendril::from_slice(alloc, "two")?)?;
/// assert_eq!(rt; rope.sub_rope(3, 4)?.to_tendril()?.as_str(), ", tw");
/// ```
#[derive(Drop)]
pub struct Rope<A: Atomicity = NonAtomic> {
    pieces: VecDeque<Tendril<UTF8, A>>,
    // For each piece, `start` plus the offset where it ends, modulo 2 ^ 64. A pop changes the start, but no such sum.
    ends: VecDeque<u64>,
    start: u64,
    total: u64,
}

impl<A: Atomicity> Model for Rope<A> {
    ghost use Rattle.rope_text.specs.Ropes.{RopeText, IsRope};
    ghost use Rattle.tendril_text.specs.TextLists.{bytes_of_all};

    ghost Value = { RopeText };

    ghost view = { λ r. record { bytes = bytes_of_all r.pieces.items; pieces = r.pieces.items } };

    ghost invariant = { λ r. IsRope r.pieces.items r.start r.ends.items r.total };
}

impl<A: Atomicity> Rope<A> {
    /// Returns the empty rope. Allocates nothing.
    ///
    /// ```
    /// let rope: Rope = Rope::new(alloc);
    /// assert_eq!(rt; rope.is_empty(), true);
    /// ```
    pub fn new(alloc: Global) -> Self
        ensures bytes { result.bytes ≡ [] }
        ensures pieces { result.pieces ≡ [] }
    {
        Rope {
            pieces: VecDeque::new(alloc),
            ends: VecDeque::new(alloc),
            start: 0,
            total: 0,
        }
    }

    // The empty rope, with capacity for `pieces` pieces.
    #[inline(always)]
    pub(super) fn with_capacity(alloc: Global, pieces: usize) -> Result<Self, Refusal>
        ensures bytes { IfOk result (λ r. r.bytes ≡ []) }
        ensures pieces { IfOk result (λ r. r.pieces ≡ []) }
        ensures refusal { IfErr result (λ r. r ≡ Refusal.Memory) }
    {
        Ok(Rope {
            pieces: VecDeque::with_capacity(alloc, pieces)?,
            ends: VecDeque::with_capacity(alloc, pieces)?,
            start: 0,
            total: 0,
        })
    }

    /// Returns the number of bytes.
    ///
    /// ```
    /// let mut rope = Rope::new(alloc);
    /// rope.push_tendril(StrTendril::from_slice(alloc, "é")?)?;
    /// assert_eq!(rt; rope.len64(), 2);
    /// ```
    pub fn len64(&self) -> u64
        ensures { result ≡ length self.now.bytes }
    {
        self.total
    }

    /// Returns whether the rope has no bytes, and so no pieces.
    ///
    /// ```
    /// let mut rope = Rope::new(alloc);
    /// rope.push_tendril(StrTendril::new(alloc))?;
    /// assert_eq!(rt; rope.is_empty(), true);
    /// ```
    pub fn is_empty(&self) -> bool
        ensures bytes { IsTrue result ↔ (self.now.bytes ≡ []) }
        ensures pieces { IsTrue result ↔ (self.now.pieces ≡ []) }
    {
        self.total == 0
    }
}
