//! Texts.
//!
//! Contracts see a `Tendril<F, A>` as its bytes and the number of bytes that were copied for it. They don't see
//! sharing: a call on one text never changes the bytes of another.

mod compact;
mod compare;
mod convert;
mod field;
mod make;
mod part;
mod pop;
mod print;
mod push;
mod read;
mod send;
mod trim;
mod units;
mod view;
mod write;

pub use field::Field;
pub use make::{slice_to_tendril, str_to_tendril};
pub use send::SendTendril;
use std::marker::{Model, PhantomData};
use tendril_block::{Atomicity, NonAtomic};
use tendril_fmt::fmt::{Bytes, Format, UTF8};
use tendril_storage::Storage;
pub use view::View;

/// A text that is valid in the format `F`, of at most 4294967295 bytes.
///
/// It takes 24 bytes. Up to 8 bytes of text are stored in it; a longer text is in a block on the heap that its clones
/// and slices share. A block of `Atomic` may be shared between threads, one of `NonAtomic` stays on its thread.
///
/// ```
/// let text = StrTendril::from_slice(alloc, "shared by its slices")?;
/// let slice = text.try_subtendril(0, 9)?; // copies nothing
/// assert_eq!(rt; slice.as_str(), "shared by");
/// ```
#[derive(Drop)]
pub struct Tendril<F: Format, A: Atomicity = NonAtomic> {
    storage: Storage<A>,
    format: PhantomData<F>,
}

/// A text of any bytes, over `NonAtomic` blocks.
pub type ByteTendril = Tendril<Bytes>;

/// A text in UTF-8, over `NonAtomic` blocks. Over `Atomic` ones it is `Tendril<UTF8, Atomic>`.
pub type StrTendril = Tendril<UTF8>;

impl<F: Format, A: Atomicity> Model for Tendril<F, A> {
    ghost use Rattle.tendril_storage.specs.Texts.{Text};

    ghost Value = { Text };

    ghost view = { λ t. t.storage };

    ghost invariant = { λ t. F.valid t.storage.bytes };
}
