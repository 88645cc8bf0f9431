//! In which threads the references to a node may be, and how each of them changes the node's count.
ghost use Rattle.std.specs.Prelude.{◌≡◌, ◌+◌, ◌<◌, Bool};
ghost use Rattle.std.specs.Borrow.{sem};
ghost use Rattle.tendril_block.specs.Owned.{Stepper, holds, left, seen_by, peeks, token_of, joins, joined_to, Joining};
ghost use Rattle.tendril_block.specs.Owned.{limit, Crosses};
ghost use base.Fml.{Share};

/// A kind of references, used only as a type. Each function is one operation on a node's count.
pub trait Threading {
    /// Whether the references may be in any threads, or are all in one.
    ghost any_thread: { Bool };

    /// Subtracts 1 and returns the count before: the machine's `Subtract`. A thread that finds 1 then owns all that the
    /// invariant owned, and must free the node.
    unsafe fn subtract(word: *mut u64) -> u64
        ghost g: { Stepper }
        requires* { sem 𝓛 (holds any_thread g word) }
        ensures* { sem 𝓛 (left any_thread g word result) };

    /// Loads the count. A load of 1 is the machine's `Alone`: the reference then owns all that the invariant owned.
    unsafe fn alone(word: *mut u64) -> u64
        ghost g: { Stepper }
        requires* { sem 𝓛 (holds any_thread g word) }
        ensures* { sem 𝓛 (seen_by any_thread g word result) };

    /// Loads the count, without a step of the machine: another thread may change it at once.
    unsafe fn peek(word: *mut u64) -> u64
        ghost g: { Stepper × Share }
        requires* { sem 𝓛 (peeks any_thread g word) }
        ensures* { sem 𝓛 (token_of g) };

    /// Compares and exchanges: stores `next` if the count is still `seen`. Returns the count that it found, which is
    /// `seen` exactly if it stored `next`. The store is the machine's step `Add`.
    unsafe fn add(word: *mut u64, seen: u64, next: u64) -> u64
        ghost g: { Joining }
        requires below { seen < limit g.0.0 }
        requires next { next ≡ seen + 1 }
        requires* holder { sem 𝓛 (joins any_thread g word) }
        ensures* { sem 𝓛 (joined_to any_thread g seen word result) };

    /// If any thread may own the kind's values, the references may be in any threads.
    ghost crosses: { Crosses Self.row any_thread };
}
