//! Where the bytes of a block are stored: few in the counted node itself, more in a vector.
ghost use Rattle.std.specs.Prelude.{◌≡◌, ◌+◌, ◌≤◌, ◌++◌, length, take, drop, min, true, false, IfOk, IfErr, OnOk};
ghost use Rattle.std.specs.Prelude.{OnErr, vec_len, vec_capacity};
ghost use Rattle.tendril_block.specs.Tail.{tail_bytes, tail_room};
ghost use Rattle.tendril_block.specs.Stored.{stored_bytes, HasRoom};

use crate::inline_bytes::{InlineBytes, NODE_CAPACITY};
use crate::tail::Tail;
use std::alloc::Global;
use tendril_errors::Refusal;

#[derive(Drop)]
pub(crate) enum Stored {
    Small(InlineBytes),
    Large(Vec<u8>),
}

const _: () = prove!(size_of::<Stored>() == 48);

impl Stored {
    /// A copy of these bytes in a vector with at least this capacity.
    pub(crate) fn in_vector(alloc: Global, bytes: &[u8], capacity: usize) -> Result<Self, Refusal>
        ensures bytes { IfOk result (λ s. stored_bytes s ≡ bytes.now) }
        ensures refusal { IfErr result (λ r. r ≡ Refusal.Memory) }
    {
        let mut copy = Vec::with_capacity(alloc, capacity.max(bytes.len()))?;
        append_reserved(&mut copy, bytes);
        Ok(Stored::Large(copy))
    }

    pub(crate) fn as_slice(&self) -> &[u8]
        ensures { result.now ≡ stored_bytes self.now }
    {
        match self {
            Stored::Small(few) => few.as_slice(),
            Stored::Large(bytes) => bytes.as_slice(),
        }
    }

    pub(crate) fn allocator(&self) -> Global {
        match self {
            Stored::Small(few) => few.allocator(),
            Stored::Large(bytes) => *bytes.allocator(),
        }
    }

    /// Makes the capacity at least `count` bytes.
    pub(crate) fn make_room(&mut self, count: usize) -> Result<(), Refusal>
        ensures bytes { stored_bytes self.new ≡ stored_bytes self.old }
        ensures ok { OnOk result (HasRoom self.new count) }
        ensures refusal { IfErr result (λ r. r ≡ Refusal.Memory) }
    {
        match self {
            Stored::Small(_) if count <= NODE_CAPACITY => {}
            Stored::Small(few) => {
                let bytes = spilled(few, count)?;
                *self = Stored::Large(bytes);
            }
            Stored::Large(bytes) => bytes.reserve(count.saturating_sub(bytes.len()))?,
        }
        Ok(())
    }

    /// Appends bytes.
    pub(crate) fn append(&mut self, more: &[u8]) -> Result<(), Refusal>
        ensures bytes { OnOk result (stored_bytes self.new ≡ stored_bytes self.old ++ more.now) }
        ensures refusal { IfErr result (λ r. r ≡ Refusal.Memory) }
        ensures err { OnErr result (stored_bytes self.new ≡ stored_bytes self.old) }
    {
        if self.append_few(more) {
            return Ok(());
        }
        match self {
            Stored::Small(few) => {
                let count = few.len().checked_add(more.len()).ok_or(Refusal::Memory)?;
                let mut bytes = spilled(few, count)?;
                append_reserved(&mut bytes, more);
                *self = Stored::Large(bytes);
            }
            Stored::Large(bytes) => bytes.extend_from_slice(more)?,
        }
        Ok(())
    }

    /// Appends few bytes to few, if they fit into the node; returns whether it did.
    #[inline(always)]
    pub(crate) fn append_few(&mut self, more: &[u8]) -> bool
        ensures bytes { result ≡ true → stored_bytes self.new ≡ stored_bytes self.old ++ more.now }
        ensures unchanged { result ≡ false → self.new ≡ self.old }
    {
        match self {
            Stored::Small(few) if more.len() <= NODE_CAPACITY - few.len() => {
                few.push(more);
                true
            }
            _ => false,
        }
    }

    /// Appends bytes if there are exactly `at` bytes, in a vector with enough spare capacity; returns whether it did.
    #[inline(always)]
    pub(crate) fn append_at(&mut self, at: usize, more: &[u8]) -> bool
        ensures bytes { result ≡ true → stored_bytes self.new ≡ stored_bytes self.old ++ more.now }
        ensures at { result ≡ true → length (stored_bytes self.old) ≡ at }
        ensures unchanged { result ≡ false → stored_bytes self.new ≡ stored_bytes self.old }
    {
        match self {
            Stored::Large(bytes) if bytes.len() == at && more.len() <= bytes.capacity() - at => {
                append_reserved(bytes, more);
                true
            }
            _ => false,
        }
    }

    /// Replaces all bytes from `keep` on by a tail, for which there is capacity.
    pub(crate) fn replace_end(&mut self, keep: usize, tail: Tail)
        requires { HasRoom self.old (min keep (length (stored_bytes self.old)) + tail_room tail) }
        ensures { stored_bytes self.new ≡ take keep (stored_bytes self.old) ++ tail_bytes tail.entry }
    {
        match self {
            Stored::Small(few) => {
                few.truncate(keep);
                few.push_tail(tail);
            }
            Stored::Large(bytes) => {
                bytes.truncate(keep);
                append_tail(bytes, tail);
            }
        }
    }

    pub(crate) fn truncate(&mut self, len: usize)
        ensures { stored_bytes self.new ≡ take len (stored_bytes self.old) }
    {
        match self {
            Stored::Small(few) => few.truncate(len),
            Stored::Large(bytes) => bytes.truncate(len),
        }
    }

    /// Moves the `len` bytes from `start` on to the front and drops the others, if they don't overlap the place that
    /// they are moved to and the capacity is at least `room`; returns whether it did.
    pub(crate) fn keep_part(&mut self, start: usize, len: usize, room: usize) -> bool
        requires { start + len ≤ length (stored_bytes self.old) }
        ensures bytes { result ≡ true → stored_bytes self.new ≡ take len (drop start (stored_bytes self.old)) }
        ensures room { result ≡ true → HasRoom self.new room }
        ensures unchanged { result ≡ false → stored_bytes self.new ≡ stored_bytes self.old }
    {
        if start < len {
            return false;
        }
        match self {
            Stored::Small(few) if room <= NODE_CAPACITY => few.keep_part(start, len),
            Stored::Large(bytes) if room <= bytes.capacity() => keep_range(bytes, start, len),
            _ => return false,
        }
        true
    }
}

// Moves the `len` bytes from `start` on to the front, and drops the others.
fn keep_range(bytes: &mut Vec<u8>, start: usize, len: usize)
    requires within { start + len ≤ length bytes.old.items }
    requires disjoint { len ≤ start }
    ensures items { bytes.new.items ≡ take len (drop start bytes.old.items) }
    ensures capacity { vec_capacity bytes.new ≡ vec_capacity bytes.old }
{
    copy_to_front(bytes.as_mut_slice(), start, len);
    bytes.truncate(len);
}

// Copies the `len` bytes from `start` on over the first ones. The two ranges are disjoint, so it is one plain copy.
fn copy_to_front(bytes: &mut [u8], start: usize, len: usize)
    requires within { start + len ≤ length bytes.old }
    requires disjoint { len ≤ start }
    ensures { take len bytes.new ≡ take len (drop start bytes.old) }
{
    let (front, back) = bytes.split_at_mut(start);
    front[..len].copy_from_slice(&back[..len]);
}

// A vector with these few bytes and a capacity of at least `count`.
fn spilled(few: &InlineBytes, count: usize) -> Result<Vec<u8>, Refusal>
    ensures bytes { IfOk result (λ v. (v.items ≡ few.now) × (count ≤ vec_capacity v)) }
    ensures refusal { IfErr result (λ r. r ≡ Refusal.Memory) }
{
    let mut bytes = Vec::with_capacity(few.allocator(), count.max(2 * NODE_CAPACITY))?;
    append_reserved(&mut bytes, few.as_slice());
    Ok(bytes)
}

// Appends a tail to a vector that has the capacity for it.
fn append_tail(bytes: &mut Vec<u8>, tail: Tail)
    requires { vec_len bytes.old + tail_room tail ≤ vec_capacity bytes.old }
    ensures { bytes.new.items ≡ bytes.old.items ++ tail_bytes tail.entry }
{
    match tail {
        Tail::Parts(middle, more) => {
            append_reserved(bytes, middle);
            append_reserved(bytes, more);
        }
        Tail::Zeros(count) => {
            let filled = bytes.resize(bytes.len() + count, 0);
            prove!(filled.is_ok());
        }
        Tail::Room(_) => {}
    }
}

// Appends bytes to a vector that has the capacity for them.
fn append_reserved(bytes: &mut Vec<u8>, more: &[u8])
    requires { vec_len bytes.old + length more.now ≤ vec_capacity bytes.old }
    ensures items { bytes.new.items ≡ bytes.old.items ++ more.now }
    ensures len { vec_len bytes.new ≡ vec_len bytes.old + length more.now }
    ensures capacity { vec_capacity bytes.old ≤ vec_capacity bytes.new }
{
    let appended = bytes.extend_from_slice(more);
    prove!(appended.is_ok());
}
