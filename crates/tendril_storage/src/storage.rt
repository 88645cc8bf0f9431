//! Where a text's bytes are stored: inline, or in a view of a block.
ghost use Rattle.std.specs.Prelude.{◌≡◌, ◌≤◌, ◌+◌, ◌++◌, [], length, take};
ghost use Rattle.tendril_block.specs.Tail.{tail_bytes};

mod clear;
mod compact;
mod grow_over;
mod make;
mod over;
mod part;
mod replace;
mod reserve;

use std::alloc::Global;
use std::cell::Cell;
use std::marker::Model;
use tendril_block::words::WORD_LEN;
use tendril_block::{Atomicity, INLINE_LEN, LocalBlock, MAX_LEN, Tail};

// Three words: the inline bytes are aligned to 8, so that a copy moves whole words.
pub(crate) enum Held<B> {
    Inline {
        len: u64,
        buffer: [u8; INLINE_LEN],
    },
    View {
        // Set by clones, slices and pops, cleared by writes and `compact`. Contracts don't mention it.
        shared: Cell<bool>,
        block: B,
        offset: u32,
        len: u32,
    },
}

/// The fields of `Held::View`.
#[derive(Drop)]
pub(crate) struct BlockView<B> {
    pub(crate) shared: Cell<bool>,
    pub(crate) block: B,
    pub(crate) offset: u32,
    pub(crate) len: u32,
}

// Implemented by hand, so that each place that drops a text has one call, not a branch for each variant.
impl<B: Drop> Drop for Held<B> {
    #[inline]
    fn drop(self) {
        match self {
            Held::Inline { len: _, buffer: _ } => {}
            Held::View {
                shared: _,
                block,
                offset: _,
                len: _,
            } => drop(block),
        }
    }
}

impl<B: Drop> Held<B> {
    ghost use Rattle.std.specs.Prelude.{MatchResult};
    ghost use Rattle.tendril_storage.specs.Storages.{IsInline, IsView};

    // Returns the view, or how many bytes are inline and their buffer.
    pub(crate) fn into_view(self) -> Result<BlockView<B>, (u64, [u8; INLINE_LEN])>
        ensures { MatchResult result (IsView self) (λ p. IsInline self p.0 p.1) }
    {
        match self {
            Held::View {
                shared,
                block,
                offset,
                len,
            } => Ok(BlockView {
                shared,
                block,
                offset,
                len,
            }),
            Held::Inline { len, buffer } => Err((len, buffer)),
        }
    }
}

const _: () = prove!(size_of::<Held<LocalBlock>>() == 24);

const _: () = prove!(align_of::<Held<LocalBlock>>() == 8);

// Inline bytes are one word.
const _: () = prove!(INLINE_LEN == WORD_LEN);

/// The bytes of a text, of any format.
#[derive(Drop)]
pub struct Storage<A: Atomicity> {
    pub(crate) held: Held<A::Block>,
    pub(crate) alloc: Global,
}

impl<A: Atomicity> Model for Storage<A> {
    ghost use Rattle.tendril_storage.specs.Texts.{Text};

    ghost Value = { Text };

    ghost use Rattle.tendril_storage.specs.Storages.{held_bytes, held_copied, IsHeld};

    ghost view = { λ s. record { bytes = held_bytes A.bytes_of s.held; copied = held_copied A.copied s.held } };

    ghost invariant = { λ s. IsHeld A.bytes_of s.held };
}

impl<A: Atomicity> Storage<A> {
    /// Returns a storage without bytes. Allocates nothing.
    pub fn new(alloc: Global) -> Self
        ensures bytes { result.bytes ≡ [] }
        ensures copied { result.copied ≡ 0 }
    {
        Storage {
            held: Held::Inline {
                len: 0,
                buffer: [0; INLINE_LEN],
            },
            alloc,
        }
    }

    /// Borrows the bytes.
    pub fn as_slice(&self) -> &[u8]
        ensures value { result.now ≡ self.now.bytes }
        ensures short { length self.now.bytes ≤ MAX_LEN }
    {
        match &self.held {
            Held::Inline { len, buffer } => &buffer[..*len as usize],
            Held::View {
                block,
                offset,
                len,
                ..
            } => {
                let start = *offset as usize;
                let end = start + *len as usize;
                &A::bytes(block)[start..end]
            }
        }
    }

    /// Returns the number of bytes.
    pub fn len32(&self) -> u32
        ensures { result ≡ length self.now.bytes }
    {
        self.as_slice().len() as u32
    }

    /// Whether the block may be shared: clones, slices and pops that leave more than 8 bytes in the block set this,
    /// writes and `compact` clear it.
    pub fn is_shared(&self) -> bool {
        match &self.held {
            Held::Inline { .. } => false,
            Held::View { shared, .. } => shared.get(),
        }
    }

    /// Returns where the bytes are stored: `inline`, or in a block that is `shared` or `owned`.
    pub fn storage_kind(&self) -> &'static str {
        match &self.held {
            Held::Inline { .. } => "inline",
            Held::View { shared, .. } if shared.get() => "shared",
            Held::View { .. } => "owned",
        }
    }

    /// Returns the allocator of new blocks.
    pub fn allocator(&self) -> Global {
        self.alloc
    }
}

// Copies bytes into a buffer, from `at` on.
fn put(buffer: &mut [u8; INLINE_LEN], at: usize, bytes: &[u8])
    requires { at + length bytes.now ≤ INLINE_LEN }
    ensures { take (at + length bytes.now) buffer.new ≡ take at buffer.old ++ bytes.now }
{
    buffer[at..at + bytes.len()].copy_from_slice(bytes);
}

// Copies a tail into a buffer, from `at` on.
fn put_tail(buffer: &mut [u8; INLINE_LEN], at: usize, tail: Tail)
    requires { at + length (tail_bytes tail) ≤ INLINE_LEN }
    ensures { take (at + length (tail_bytes tail.entry)) buffer.new ≡ take at buffer.old ++ tail_bytes tail.entry }
{
    match tail {
        Tail::Parts(middle, more) => {
            put(buffer, at, middle);
            put(buffer, at + middle.len(), more);
        }
        Tail::Zeros(count) => put(buffer, at, &[0; INLINE_LEN][..count]),
        Tail::Room(_) => {}
    }
}
