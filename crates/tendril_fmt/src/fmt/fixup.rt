//! What joining two texts changes where they meet.
ghost use Rattle.std.specs.Prelude.{◌≡◌, ◌↔◌, IsTrue};

/// How many bytes a join drops at the end of the left text and at the beginning of the right one, and the bytes that
/// it inserts between them: the first `insert_len` of `insert_bytes`.
///
/// The default drops and inserts nothing.
#[derive(Clone, Copy, Debug, Default, PartialEq, Eq)]
pub struct Fixup {
    pub drop_left: u32,
    pub drop_right: u32,
    pub insert_len: u32,
    pub insert_bytes: [u8; 4],
}

impl Fixup {
    /// Whether it drops and inserts nothing: then the join is concatenation.
    pub fn is_nothing(&self) -> bool
        ensures { IsTrue result
            ↔ ((self.now.drop_left ≡ 0) × (self.now.insert_len ≡ 0) × (self.now.drop_right ≡ 0)) }
    {
        self.drop_left == 0 && self.insert_len == 0 && self.drop_right == 0
    }
}
