//! The trait of all kinds of blocks, however their references are counted.
ghost use Rattle.std.specs.Prelude.{◌≡◌, ℕ, ◌+◌, ◌-◌, ◌≤◌, ◌++◌, List, length, take, drop, true, false, IfOk, IfErr};
ghost use Rattle.std.specs.Prelude.{IfSome, ◌⊎◌};
ghost use Rattle.std.specs.Borrow.{LendsSo, LendsSoOk, sem};
ghost use Rattle.tendril_block.specs.contracts.body.Body.{the_row as body_row};
ghost use Rattle.tendril_block.specs.Tail.{tail_bytes};

use crate::body::Body;
use crate::sole::Sole;
use crate::tail::Tail;
use std::alloc::Global;
use tendril_errors::Refusal;

/// `MIN_CAP` of the Rust crate, in bytes. Nothing here uses it: `copy` creates blocks with a capacity of at least 40.
pub const MIN_CAP: u32 = 16;

/// The greatest number of references to one block.
pub const MAX_HOLDERS: u64 = 4294967295;

/// How the references to a block are counted.
///
/// Every call but `make`, `copy`, `make_mut` and `compact` takes constant time.
pub trait Atomicity {
    /// One reference to a block, as large as a pointer.
    type Block: Drop;

    /// The bytes of a block.
    ghost bytes_of: { Self.Block → List ℕ };

    /// How many bytes were copied for this reference. No call returns it.
    ghost copied: { Self.Block → ℕ };

    /// A block of these bytes, with one reference.
    fn make(bytes: Vec<u8>) -> Result<Self::Block, (Refusal, Vec<u8>)>
        ensures bytes { IfOk result (λ b. bytes_of b ≡ bytes.items) }
        ensures copied { IfOk result (λ b. copied b ≡ length bytes.items) }
        ensures refusal { IfErr result (λ e. e.0 ≡ Refusal.Memory) }
        ensures back { IfErr result (λ e. e.1.items ≡ bytes.items) };

    /// A block with a copy of these bytes and at least this capacity, with one reference. Takes one allocation if
    /// length and capacity are at most 40 (`NODE_CAPACITY`), else two.
    fn copy(alloc: Global, bytes: &[u8], capacity: usize) -> Result<Self::Block, Refusal>
        ensures bytes { IfOk result (λ b. bytes_of b ≡ bytes.now) }
        ensures copied { IfOk result (λ b. copied b ≡ length bytes.now) }
        ensures refusal { IfErr result (λ r. r ≡ Refusal.Memory) };

    /// One more reference to the block.
    fn share(block: &Self::Block) -> Result<Self::Block, Refusal>
        ensures bytes { IfOk result (λ b. bytes_of b ≡ bytes_of block.now) }
        ensures copied { IfOk result (λ b. copied b ≡ 0) }
        ensures refusal { IfErr result (λ r. r ≡ Refusal.Count) };

    /// The bytes.
    fn bytes(block: &Self::Block) -> &[u8]
        ensures { result.now ≡ bytes_of block.now };

    /// Borrows the body mutably, if this is the only reference.
    fn alone_mut(block: &mut Self::Block) -> Option<&mut Body>
        // After the borrow, the block has the bytes that were left in the body; bytes copied into it count in `copied`.
        ensures* lends { sem 𝓛 (LendsSo Self.Block.row body_row block.entry result
            (λ n w. IfSome result (λ b.
            (bytes_of n ≡ w.bytes) × (copied n ≡ copied block.old + (w.took - b.now.took))))
            (λ n. (bytes_of n ≡ bytes_of block.old) × (copied n ≡ copied block.old))) }
        ensures bytes { IfSome result (λ b. b.now.bytes ≡ bytes_of block.old) };

    /// Borrows the body mutably, after replacing the block by a copy if there are other references.
    fn make_mut(block: &mut Self::Block) -> Result<&mut Body, Refusal>
        // As `alone_mut`, but after a copy `copied` begins at the block's length. On an error, the bytes are as before.
        ensures* lends { sem 𝓛 (LendsSoOk Self.Block.row body_row block.entry result
            (λ n w. IfOk result (λ b. (bytes_of n ≡ w.bytes)
            × ((copied n ≡ copied block.old + (w.took - b.now.took))
            ⊎ (copied n ≡ length (bytes_of block.old) + (w.took - b.now.took)))))
            (λ n. (bytes_of n ≡ bytes_of block.old)
            × ((copied n ≡ copied block.old) ⊎ (copied n ≡ length (bytes_of block.old))))) }
        ensures bytes { IfOk result (λ b. b.now.bytes ≡ bytes_of block.old) }
        ensures refusal { IfErr result (λ r. r ≡ Refusal.Memory) };

    /// Moves the `keep` bytes from `start` on to the front of the block and appends a tail, if this is the only
    /// reference, the two ranges don't overlap and the capacity is enough; returns whether it did. Each byte of the
    /// block then counts as copied once, as in a new block. Takes time linear in the block's new length.
    fn compact(block: &mut Self::Block, start: usize, keep: usize, tail: Tail) -> bool
        requires { start + keep ≤ length (bytes_of block.old) }
        ensures bytes { result ≡ true →
            bytes_of block.new ≡ take keep (drop start (bytes_of block.old)) ++ tail_bytes tail.entry }
        ensures copied { result ≡ true → copied block.new ≡ length (bytes_of block.new) }
        ensures bytes_kept { result ≡ false → bytes_of block.new ≡ bytes_of block.old }
        ensures copied_kept { result ≡ false → copied block.new ≡ copied block.old };

    /// Takes the bytes out of the block, or returns the block if there are other references.
    fn into_sole(block: Self::Block) -> Result<Sole, Self::Block>
        ensures bytes { IfOk result (λ s. s ≡ bytes_of block) }
        ensures back { IfErr result (λ b. b ≡ block) };

    /// A block of these bytes, with one reference. The kinds of this crate allocate nothing and return no error.
    fn from_sole(sole: Sole) -> Result<Self::Block, (Refusal, Sole)>
        ensures bytes { IfOk result (λ b. bytes_of b ≡ sole) }
        ensures copied { IfOk result (λ b. copied b ≡ length sole) }
        ensures refusal { IfErr result (λ e. e.0 ≡ Refusal.Memory) }
        ensures back { IfErr result (λ e. e.1 ≡ sole) };
}
