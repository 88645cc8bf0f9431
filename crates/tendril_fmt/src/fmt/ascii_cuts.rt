//! The formats whose texts may be cut before and after an ASCII byte.

use crate::fmt::format::Format;

/// A format in which an ASCII byte is never part of a longer sequence: a text may be cut before and after it.
///
/// So a text can be searched for such a byte, and split there, without decoding what comes before it. The formats of
/// this crate have this property. A format that pairs its bytes doesn't.
pub trait CutsAtAscii: Format {
    ghost use Rattle.std.specs.Prelude.{ℕ, ◌+◌, ◌<◌, List, length, take, drop, slice_index};

    /// The slice before an ASCII byte and the slice from it on are valid.
    ghost ascii_cut: { (bytes : List ℕ) (place : ℕ) → Self.valid bytes → place < length bytes
        → slice_index bytes place < 128
        → Self.valid (take place bytes) × Self.valid (drop place bytes) };

    /// The slice after an ASCII byte is valid.
    ghost after_ascii: { (bytes : List ℕ) (place : ℕ) → Self.valid bytes → place < length bytes
        → slice_index bytes place < 128 → Self.valid (drop (place + 1) bytes) };
}
