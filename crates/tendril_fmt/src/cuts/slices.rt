//! Which slices of a valid text are valid.
ghost use Rattle.std.specs.Prelude.{◌≤◌, ◌+◌, ◌↔◌, length, take, drop, IsTrue};

use crate::fmt::Format;

/// Whether a slice of valid bytes is valid.
#[inline(always)]
pub fn is_slice_valid<F: Format>(bytes: &[u8], offset: usize, count: usize) -> bool
    requires valid { F.valid bytes.now }
    requires within { offset + count ≤ length bytes.now }
    ensures { IsTrue result ↔ F.valid (take count (drop offset bytes.now)) }
{
    F::validate_subseq(&bytes[offset..offset + count])
}

/// Whether both sides of a split of valid bytes are valid.
pub fn are_parts_valid<F: Format>(bytes: &[u8], count: usize) -> bool
    requires valid { F.valid bytes.now }
    requires within { count ≤ length bytes.now }
    ensures { IsTrue result ↔ (F.valid (take count bytes.now) × F.valid (drop count bytes.now)) }
{
    is_front_valid::<F>(bytes, count) && is_end_valid::<F>(bytes, count)
}

/// Whether a suffix of valid bytes is valid.
#[inline(always)]
pub fn is_end_valid<F: Format>(bytes: &[u8], offset: usize) -> bool
    requires valid { F.valid bytes.now }
    requires within { offset ≤ length bytes.now }
    ensures { IsTrue result ↔ F.valid (drop offset bytes.now) }
{
    F::validate_suffix(&bytes[offset..])
}

/// Whether a prefix of valid bytes is valid.
#[inline(always)]
pub fn is_front_valid<F: Format>(bytes: &[u8], count: usize) -> bool
    requires valid { F.valid bytes.now }
    requires within { count ≤ length bytes.now }
    ensures { IsTrue result ↔ F.valid (take count bytes.now) }
{
    F::validate_prefix(&bytes[..count])
}
