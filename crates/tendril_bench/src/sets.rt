//! A set of bytes in a constant.
ghost use Rattle.std.specs.Prelude.{◌≡◌, ◌↔◌, ◌⊎◌, ℕ, true};
ghost use Rattle.tendril.specs.Sets.{has_byte};

use tendril::{ByteSet, Members};

const ENDS: ByteSet = ByteSet {
    members: Members::Two(b',', b'\n'),
};

/// The set of comma and line feed.
pub fn ends() -> ByteSet
    ensures { (b : ℕ) → (has_byte result b ≡ true) ↔ ((b ≡ 44) ⊎ (b ≡ 10)) }
{
    ENDS
}
