//! How far off the next broken sequence of a stream is expected.
ghost use Rattle.std.specs.Prelude.{◌≡◌, ◌≤◌};

/// After less text than this between two broken sequences, the next one is expected to be near.
pub const FEW_BEFORE: u32 = 16;

// After this much text no broken sequence is expected to be near.
const MANY_BEFORE: u32 = 1024;

// After this much text none is expected in the next 4096 bytes.
const MOST_BEFORE: u32 = 2048;

/// The length of the last text before a broken sequence: an estimate of how far off the next one is.
#[derive(Clone, Copy, Debug)]
pub struct LastText {
    /// In bytes.
    pub len: u32,
}

impl LastText {
    /// Returns the value for the start of a stream: no text yet, and no broken sequence expected near.
    ///
    /// ```
    /// let mut last = LastText::none();
    /// let mut piece = ByteTendril::from_slice(alloc, b"text")?;
    /// let (text, _) = piece.pop_text_after(&mut last)?;
    /// assert_eq!(rt; text.is_some_and(|text| text.eq_str("text")), true);
    /// ```
    pub fn none() -> Self
        ensures { result.len ≡ MANY_BEFORE }
    {
        LastText { len: MANY_BEFORE }
    }

    /// The number of bytes to search first for the next broken sequence.
    #[inline(always)]
    pub fn first_window(self) -> usize
        ensures { 4 ≤ result }
    {
        match self.len {
            0..FEW_BEFORE => 16,
            FEW_BEFORE..MANY_BEFORE => 128,
            MANY_BEFORE..MOST_BEFORE => 1024,
            _ => 4096,
        }
    }
}
