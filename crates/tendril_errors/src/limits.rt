//! The limits on lengths, which errors depend on.

/// The most bytes that a text stores inline, without a block.
pub const INLINE_LEN: usize = 8;

/// The greatest length of a text, in bytes.
pub const MAX_LEN: u32 = 4294967295;
