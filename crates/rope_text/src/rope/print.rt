//! Printing ropes.
ghost use Rattle.std.specs.Prelude.{Some};

use crate::rope::Rope;
use std::fmt::{self, Display, Formatter, Write};
use tendril_text::Atomicity;

/// Prints the pieces in order, without padding.
///
/// ```
/// let mut rope = Rope::new(alloc);
/// rope.push_tendril(StrTendril::from_slice(alloc, "one")?)?;
/// assert_eq!(rt; format_tendril!(in alloc; "{rope}!")?.as_str(), "one!");
/// ```
impl<A: Atomicity> Display for Rope<A> {
    ghost output = { λ r. Some r.bytes };

    ghost styled_output = { λ r style. Some r.bytes };

    fn fmt<W: Write>(&self, f: &mut Formatter<W>) -> fmt::Result {
        for index in 0..self.pieces.len() {
            f.write_str(self.pieces[index].as_str())?;
        }
        Ok(())
    }
}
