//! Reference counting of a block as an abstract machine, and what holds after every list of its steps.
#![tactic(auto)]

ghost use Rattle.std.specs.Prelude.{◌≡◌, ◌⊎◌, ℕ, ◌∷◌, List, length};
ghost use Rattle.tendril_count.specs.Machine.{CountStep, IsEndOfWrite, IsLimit, IsCounted, IsFreedOnce, IsOnesDuty};
ghost use Rattle.tendril_count.specs.Machine.{IsWriter, IsAlone, after, happens};

/// Does nothing at run time: a call gives a proof what holds of a counted block after every list of steps that begins
/// with `Make`, in whatever order threads take them, for every limit from 1 to 4294967295.
///
/// Its count is the number of its references, surplus ones included, and at most twice the limit; at most `limit`
/// references aren't surplus. It is freed at most once, and never while a reference exists. Without references it is
/// freed, or exactly one thread has the duty to free it; with references no thread has. A reference that writes is the
/// only one, and only the steps that end its write change anything.
pub fn interleavings()
    ensures counted { (limit thread : ℕ) (steps : List CountStep) → IsLimit limit
        → IsCounted limit (after limit thread steps) }
    ensures freed_once { (limit thread : ℕ) (steps : List CountStep) → IsLimit limit
        → IsFreedOnce (after limit thread steps) }
    ensures duty { (limit thread : ℕ) (steps : List CountStep) → IsLimit limit → IsOnesDuty (after limit thread steps) }
    ensures writer { (limit thread : ℕ) (steps : List CountStep) (k t : ℕ) → IsLimit limit →
        IsWriter (after limit thread steps) k t → IsAlone (after limit thread steps) }
    ensures none_added { (limit thread : ℕ) (steps : List CountStep) (k t : ℕ) (s : CountStep) → IsLimit limit →
        IsWriter (after limit thread steps) k t →
        (happens limit (after limit thread steps) s ≡ after limit thread steps) ⊎ IsEndOfWrite s k }
{}
