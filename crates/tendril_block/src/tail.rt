//! What is appended to a block.
ghost use Rattle.std.specs.Prelude.{◌≡◌, ◌+◌, ◌≤◌, length, IfSome};
ghost use Rattle.tendril_block.specs.Tail.{tail_bytes, tail_room};

use tendril_errors::MAX_LEN;

/// What is appended to the bytes that a block keeps.
#[derive(Clone, Copy)]
pub enum Tail<'a> {
    /// Two slices, one after the other.
    Parts(&'a [u8], &'a [u8]),
    /// `count` zeros.
    Zeros(usize),
    /// No bytes, but spare capacity for `count`.
    Room(usize),
}

impl Tail<'_> {
    /// The number of bytes that are appended, which must be at most `MAX_LEN`.
    pub fn len(&self) -> usize
        requires { length (tail_bytes self.now) ≤ MAX_LEN }
        ensures { result ≡ length (tail_bytes self.now) }
    {
        match self {
            Tail::Parts(middle, more) => middle.len() + more.len(),
            Tail::Zeros(count) => *count,
            Tail::Room(_) => 0,
        }
    }

    /// The capacity that `kept` bytes and this tail need, or `None` if it overflows.
    pub(crate) fn total(&self, kept: usize) -> Option<usize>
        ensures { IfSome result (λ total. total ≡ kept + tail_room self.now) }
    {
        match self {
            Tail::Parts(middle, more) => kept.checked_add(middle.len())?.checked_add(more.len()),
            Tail::Zeros(count) | Tail::Room(count) => kept.checked_add(*count),
        }
    }
}
