//! std's `extend` and `collect` for texts.

use crate::items::pushable::Pushable;
use crate::tendril::Tendril;
use std::alloc::{AllocError, Global};
use tendril_block::Atomicity;
use tendril_fmt::fmt::Format;

/// `extend` appends the items up to the first whose push returns an error. The items before it stay appended.
///
/// Every error is `AllocError`; `extend_chars` and the other `extend_` calls return the exact one.
///
/// ```
/// let mut text = StrTendril::from_slice(alloc, "a")?;
/// text.extend(['b', 'c'])?;
/// assert_eq!(rt; text.as_str(), "abc");
/// ```
impl<F: Format, A: Atomicity, P: Pushable<F, A>> Extend<P> for Tendril<F, A> {
    ghost use Rattle.std.specs.Prelude.{◌≡◌};
    ghost use Rattle.tendril_text.specs.Items.{joined};

    ghost extend_gives = { λ old items new. new.bytes ≡ joined P.bytes F.join old.bytes items };

    fn extend<I: IntoIterator<Item = P>>(&mut self, items: I) -> Result<(), AllocError> {
        self.extend_with(items).map_err(|_| AllocError)
    }
}

/// `collect` returns a text of the items, joined in order.
///
/// Every error is `AllocError`; `from_chars` and the other `from_` calls return the exact one.
impl<F: Format, A: Atomicity, P: Pushable<F, A>> FromIterator<P> for Tendril<F, A> {
    ghost use Rattle.std.specs.Prelude.{◌≡◌, []};
    ghost use Rattle.tendril_text.specs.Items.{joined};

    type Alloc = Global;

    ghost from_iter_gives = { λ items text. text.bytes ≡ joined P.bytes F.join [] items };

    fn from_iter<I: IntoIterator<Item = P>>(alloc: Global, items: I) -> Result<Self, AllocError> {
        Self::from_items(alloc, items).map_err(|_| AllocError)
    }
}
