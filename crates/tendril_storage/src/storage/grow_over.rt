//! Extending a view over the bytes that follow it in its block.
ghost use Rattle.std.specs.Prelude.{◌≡◌, ◌≤◌, ◌+◌, ◌++◌, length, take, drop, true, false};

use crate::storage::{Held, Storage};
use tendril_block::words::same_bytes;
use tendril_block::{Atomicity, MAX_LEN};

impl<A: Atomicity> Storage<A> {
    /// Extends the view over the next bytes of the block, if they equal `more`; returns whether it did. It compares
    /// them, wherever `more` is stored, and copies nothing.
    #[tactic(auto, using(crate::proofs::Views::grows))]
    #[inline(always)]
    pub fn try_grow_over(&mut self, more: &[u8]) -> bool
        requires fits { length self.old.bytes + length more.now ≤ MAX_LEN }
        ensures bytes { result ≡ true → self.new.bytes ≡ self.old.bytes ++ more.now }
        ensures copied { self.new.copied ≡ self.old.copied }
        ensures unchanged { result ≡ false → self.new ≡ self.old }
    {
        match &mut self.held {
            Held::Inline { .. } => false,
            Held::View {
                block,
                offset,
                len,
                ..
            } => {
                let end = *offset as usize + *len as usize;
                if more.len() > MAX_LEN as usize - end || !stands_at::<A>(block, end, more) {
                    return false;
                }
                *len += more.len() as u32;
                true
            }
        }
    }
}

// Whether a block has the bytes `more` from `at` on.
#[inline(always)]
fn stands_at<A: Atomicity>(block: &A::Block, at: usize, more: &[u8]) -> bool
    requires { at ≤ length (A.bytes_of block.now) }
    ensures within { result ≡ true → at + length more.now ≤ length (A.bytes_of block.now) }
    ensures bytes { result ≡ true → take (length more.now) (drop at (A.bytes_of block.now)) ≡ more.now }
{
    let all = A::bytes(block);
    more.len() <= all.len() - at && same_bytes(&all[at..at + more.len()], more)
}
