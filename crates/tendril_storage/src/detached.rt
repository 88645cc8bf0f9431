//! Bytes that share nothing, so that they may be sent to another thread: inline, or moved out of their block.
ghost use Rattle.std.specs.Prelude.{◌≡◌, ◌<◌, ◌≤◌, ◌+◌, ◌^◌, IfOk, IfErr, length, take, drop};
ghost use Rattle.tendril_errors.specs.Outcomes.{MemoryMay};

use crate::storage::{BlockView, Held, Storage};
use std::alloc::Global;
use std::marker::Model;
use tendril_block::words::word_of;
use tendril_block::{Atomicity, INLINE_LEN, MAX_LEN, Refusal, Sole};

// Two words, where a text has three.
#[derive(Drop)]
enum Kept {
    Inline { len: u32, buffer: [u8; INLINE_LEN] },
    // With the length beside it, no node is read when a text is taken back: it may be in the cache of another core.
    Alone { len: u32, sole: Sole },
}

const _: () = prove!(size_of::<Kept>() == 16);

/// The bytes of a text, shared with no other. Up to 8 are stored inline.
#[derive(Drop)]
pub struct Detached {
    kept: Kept,
    alloc: Global,
}

impl Model for Detached {
    ghost use Rattle.std.specs.Prelude.{ℕ, List};
    ghost use Rattle.tendril_storage.specs.Detached.{kept_bytes, IsKept};

    ghost Value = { List ℕ };

    ghost view = { λ a. kept_bytes a.kept };

    ghost invariant = { λ a. IsKept a.kept };
}

impl Detached {
    /// Borrows the bytes.
    pub fn as_slice(&self) -> &[u8]
        ensures value { result.now ≡ self.now }
        ensures short { length self.now ≤ MAX_LEN }
    {
        match &self.kept {
            Kept::Inline { len, buffer } => &buffer[..*len as usize],
            Kept::Alone { sole, .. } => sole.as_slice(),
        }
    }

    /// Returns a copy. Returns `Memory` if an allocation fails, which is possible only for more than 8 bytes.
    pub fn copy(&self) -> Result<Self, Refusal>
        ensures bytes { IfOk result (λ a. a ≡ self.now) }
        ensures refusal { IfErr result (MemoryMay (length self.now)) }
    {
        let kept = match &self.kept {
            Kept::Inline { len, buffer } => Kept::Inline {
                len: *len,
                buffer: *buffer,
            },
            Kept::Alone { len, sole } => Kept::Alone {
                sole: Sole::copy(self.alloc, sole.as_slice())?,
                len: *len,
            },
        };
        Ok(Detached {
            kept,
            alloc: self.alloc,
        })
    }

    fn short(alloc: Global, bytes: &[u8]) -> Self
        requires { length bytes.now ≤ INLINE_LEN }
        ensures { result ≡ bytes.now }
    {
        Detached {
            kept: Kept::Inline {
                len: bytes.len() as u32,
                buffer: word_of(bytes).to_le_bytes(),
            },
            alloc,
        }
    }

    fn long(alloc: Global, sole: Sole, len: u32) -> Self
        requires long { INLINE_LEN < len }
        requires len { len ≡ length sole }
        ensures { result ≡ sole }
    {
        Detached {
            kept: Kept::Alone { len, sole },
            alloc,
        }
    }
}

impl<A: Atomicity> Storage<A> {
    /// Detaches the bytes from their block. They are moved out of it if this is its only reference and they are all of
    /// its bytes; else they are copied. Returns `Memory` and the storage if the allocation of the copy fails.
    #[inline(always)]
    pub fn into_detached(self) -> Result<Detached, (Refusal, Self)>
        ensures bytes { IfOk result (λ a. a ≡ self.bytes) }
        ensures refusal { IfErr result (λ e. MemoryMay (length self.bytes) e.0) }
        ensures back { IfErr result (λ e. e.1 ≡ self) }
    {
        let Storage { held, alloc } = self;
        let view = match held.into_view() {
            Ok(view) => view,
            // The words are copied as they are: `short` branches on the number of bytes.
            Err(inline) => {
                let len = inline.0 as u32;
                let buffer = inline.1;
                return Ok(Detached {
                    kept: Kept::Inline { len, buffer },
                    alloc,
                });
            }
        };
        if view.len as usize <= INLINE_LEN {
            return Ok(Detached::short(alloc, Self::bytes_of(&view)));
        }
        let view = match Self::into_whole(alloc, view) {
            Ok(detached) => return Ok(detached),
            Err(view) => view,
        };
        match Sole::copy(alloc, Self::bytes_of(&view)) {
            Ok(sole) => Ok(Detached::long(alloc, sole, view.len)),
            Err(refusal) => Err((refusal, Self::from_view(alloc, view))),
        }
    }

    // Borrows the bytes of a view from its block, so that the view itself needn't be in memory.
    #[inline(always)]
    fn bytes_of(view: &BlockView<A::Block>) -> &[u8]
        requires { view.now.offset + view.now.len ≤ length (A.bytes_of view.now.block) }
        ensures { result.now ≡ take view.now.len (drop view.now.offset (A.bytes_of view.now.block)) }
    {
        let start = view.offset as usize;
        let end = start + view.len as usize;
        &A::bytes(&view.block)[start..end]
    }

    // Moves the bytes out of their block if they are all of its bytes and this is its only reference; else returns the
    // view.
    #[inline(always)]
    fn into_whole(alloc: Global, view: BlockView<A::Block>) -> Result<Detached, BlockView<A::Block>>
        requires long { INLINE_LEN < view.len }
        requires within { view.offset + view.len ≤ length (A.bytes_of view.block) }
        ensures bytes { IfOk result (λ a. a ≡ take view.len (drop view.offset (A.bytes_of view.block))) }
        ensures back { IfErr result (λ v. v ≡ view) }
    {
        if view.offset != 0 || view.len as usize != A::bytes(&view.block).len() {
            return Err(view);
        }
        let BlockView {
            shared,
            block,
            offset,
            len,
        } = view;
        match A::into_sole(block) {
            Ok(sole) => Ok(Detached::long(alloc, sole, len)),
            Err(block) => Err(BlockView {
                shared,
                block,
                offset,
                len,
            }),
        }
    }

    fn from_view(alloc: Global, view: BlockView<A::Block>) -> Self
        requires within { view.offset + view.len ≤ length (A.bytes_of view.block) }
        requires fits { view.offset + view.len < 2 ^ 32 }
        ensures bytes { result.bytes ≡ take view.len (drop view.offset (A.bytes_of view.block)) }
        ensures copied { result.copied ≡ A.copied view.block }
    {
        let BlockView {
            shared,
            block,
            offset,
            len,
        } = view;
        Storage {
            held: Held::View {
                shared,
                block,
                offset,
                len,
            },
            alloc,
        }
    }

    /// Stores the bytes in a block of this kind, or inline. With the kinds of `tendril_block` it allocates nothing, and
    /// returns no error.
    #[inline(always)]
    pub fn from_detached(detached: Detached) -> Result<Self, (Refusal, Detached)>
        ensures bytes { IfOk result (λ s. s.bytes ≡ detached) }
        ensures copied { IfOk result (λ s. s.copied ≡ length detached) }
        ensures refusal { IfErr result (λ e. MemoryMay (length detached) e.0) }
        ensures back { IfErr result (λ e. e.1 ≡ detached) }
    {
        let Detached { kept, alloc } = detached;
        match kept {
            Kept::Inline { len, buffer } => Ok(Storage {
                held: Held::Inline {
                    len: len as u64,
                    buffer,
                },
                alloc,
            }),
            Kept::Alone { len, sole } => match A::from_sole(sole) {
                Ok(block) => Ok(Self::viewed(alloc, block, len)),
                Err((refusal, sole)) => Err((refusal, Detached::long(alloc, sole, len))),
            },
        }
    }
}
