//! Few bytes, stored in the value itself, with their number in one byte.
ghost use Rattle.std.specs.Prelude.{◌≡◌, ◌+◌, ◌≤◌, ◌++◌, [], length, take, drop};
ghost use Rattle.std.specs.List.{refill};
ghost use Rattle.tendril_block.specs.Tail.{tail_bytes, tail_room};
ghost use Rattle.std.specs.Borrow.{Lends, Array, u8 as byte, sem};

use crate::tail::Tail;
use crate::words::copy_few;
use std::alloc::Global;
use std::marker::Model;

/// The most bytes that are stored in the counted node itself, so that one allocation holds both.
pub const NODE_CAPACITY: usize = 40;

/// At most `NODE_CAPACITY` bytes. The array's bytes after them have no meaning.
// With the length in one byte a node has 56 bytes. With a length of 8 bytes it would have 64, for which `malloc` takes
// 80. The six bytes `gap` put the array at an offset of `Stored` that 8 divides, since a node is moved in words: a load
// of a word from the parts of two that were just written would stall the processor.
#[derive(Drop)]
pub(crate) struct InlineBytes {
    len: u8,
    gap: [u8; 6],
    cells: Cells,
    alloc: Global,
}

impl Model for InlineBytes {
    ghost use Rattle.std.specs.Prelude.{◌≡◌, ◌≤◌, ℕ, List, length, take};
    ghost use Rattle.tendril_block.specs.declared.inline_bytes.TheConstants.{NODE_CAPACITY};

    ghost Value = { List ℕ };

    ghost view = { λ f. take f.len f.cells.bytes };

    ghost invariant = { λ f. (f.len ≤ NODE_CAPACITY) × (length f.cells.bytes ≡ NODE_CAPACITY) };
}

// The array is in a struct of its own, so that a contract can say what it is after a borrow of its first bytes.
#[derive(Drop)]
struct Cells {
    bytes: [u8; NODE_CAPACITY],
}

impl Cells {
    ghost use Rattle.tendril_block.specs.contracts.inline_bytes.Cells.{the_row};
    ghost use Rattle.tendril_block.specs.Cells.{with_front};

    // The first `len` bytes.
    fn front_mut(&mut self, len: usize) -> &mut [u8]
        requires { len ≤ NODE_CAPACITY }
        ensures* lends { sem 𝓛 (Lends the_row (Array byte 0) self.entry result (with_front self.old)) }
        ensures bytes { result.now ≡ take len self.old.bytes }
    {
        &mut self.bytes[..len]
    }

    // Overwrites the bytes from `start` on.
    #[inline(always)]
    fn write(&mut self, start: usize, bytes: &[u8])
        requires { start + length bytes.now ≤ NODE_CAPACITY }
        ensures front { take (start + length bytes.now) self.new.bytes ≡ take start self.old.bytes ++ bytes.now }
        ensures len { length self.new.bytes ≡ NODE_CAPACITY }
    {
        copy_few(&mut self.front_mut(start + bytes.len())[start..], bytes);
    }
}

impl InlineBytes {
    ghost use Rattle.tendril_block.specs.contracts.inline_bytes.InlineBytes.{the_row};

    /// No bytes.
    pub(crate) fn new(alloc: Global) -> Self
        ensures { result ≡ [] }
    {
        InlineBytes {
            len: 0,
            gap: [0; 6],
            cells: Cells {
                bytes: [0; NODE_CAPACITY],
            },
            alloc,
        }
    }

    pub(crate) fn len(&self) -> usize
        ensures len { result ≡ length self.now }
        ensures fits { result ≤ NODE_CAPACITY }
    {
        self.len as usize
    }

    pub(crate) fn allocator(&self) -> Global {
        self.alloc
    }

    pub(crate) fn as_slice(&self) -> &[u8]
        ensures bytes { result.now ≡ self.now }
        ensures fits { length result.now ≤ NODE_CAPACITY }
    {
        &self.cells.bytes[..self.len as usize]
    }

    pub(crate) fn as_mut_slice(&mut self) -> &mut [u8]
        ensures* lends { sem 𝓛 (Lends the_row (Array byte 0) self.entry result (refill (length self.old) self.old)) }
        ensures bytes { result.now ≡ self.old }
    {
        self.cells.front_mut(self.len as usize)
    }

    /// Appends bytes.
    #[inline(always)]
    pub(crate) fn push(&mut self, more: &[u8])
        requires { length self.old + length more.now ≤ NODE_CAPACITY }
        ensures { self.new ≡ self.old ++ more.now }
    {
        let len = self.len as usize;
        self.cells.write(len, more);
        self.len = (len + more.len()) as u8;
    }

    /// Appends a tail.
    pub(crate) fn push_tail(&mut self, tail: Tail)
        requires { length self.old + tail_room tail ≤ NODE_CAPACITY }
        ensures { self.new ≡ self.old ++ tail_bytes tail.entry }
    {
        match tail {
            Tail::Parts(middle, more) => {
                self.push(middle);
                self.push(more);
            }
            Tail::Zeros(count) => self.push(&[0; NODE_CAPACITY][..count]),
            Tail::Room(_) => {}
        }
    }

    pub(crate) fn truncate(&mut self, len: usize)
        ensures { self.new ≡ take len self.old }
    {
        if len < self.len as usize {
            self.len = len as u8;
        }
    }

    /// Moves the `len` bytes from `start` on to the front, and drops the others.
    pub(crate) fn keep_part(&mut self, start: usize, len: usize)
        requires { start + len ≤ length self.old }
        ensures { self.new ≡ take len (drop start self.old) }
    {
        let mut part = InlineBytes::new(self.alloc);
        part.push(&self.as_slice()[start..start + len]);
        *self = part;
    }
}

const _: () = prove!(size_of::<InlineBytes>() == 47);
