//! Dropping all bytes.
ghost use Rattle.std.specs.Prelude.{◌≡◌, ◌≤◌, [], true};

use crate::storage::replace::try_replace_in_block;
use crate::storage::{Held, Storage};
use tendril_block::{Atomicity, Tail};

impl<A: Atomicity> Storage<A> {
    /// Drops all bytes. The block is kept for the next ones if this is its only reference.
    pub fn clear(&mut self)
        ensures bytes { self.new.bytes ≡ [] }
        ensures copied { self.new.copied ≤ self.old.copied }
    {
        if !self.try_clear_in_place() {
            *self = Self::new(self.alloc);
        }
    }

    fn try_clear_in_place(&mut self) -> bool
        ensures bytes { result ≡ true → self.new.bytes ≡ [] }
        ensures copied { self.new.copied ≡ self.old.copied }
    {
        match &mut self.held {
            Held::Inline { .. } => false,
            Held::View {
                shared,
                block,
                offset,
                len,
            } => {
                if !try_replace_in_block::<A>(block, 0, Tail::Room(0)) {
                    return false;
                }
                *offset = 0;
                *len = 0;
                shared.set(false);
                true
            }
        }
    }
}
