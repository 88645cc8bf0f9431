//! Printing texts, and printing values into texts.
ghost use Rattle.std.specs.Prelude.{Some, IfErr, IfSome, OnOk};
ghost use Rattle.std.specs.Fmt.{styled_text};
ghost use Rattle.tendril_text.specs.Writes.{IsGrowthRefusal, IsPrinted, Prints, TakesPiece};

use crate::tendril::Tendril;
use std::alloc::Global;
use std::fmt::{self, Debug, Display, Formatter, Write};
use tendril_block::{Atomicity, Refusal};
use tendril_fmt::fmt::{Bytes, UTF8};
use tendril_storage::Storage;

/// Prints the text as a `str` prints, with width and fill. Allocates nothing.
///
/// ```
/// let text = StrTendril::from_slice(alloc, "ab")?;
/// assert_eq!(rt; format_tendril!(in alloc; "{text:>4}|")?.as_str(), "  ab|");
/// ```
impl<A: Atomicity> Display for Tendril<UTF8, A> {
    ghost output = { λ t. Some t.bytes };

    ghost styled_output = { λ t style. Some (styled_text style t.bytes) };

    fn fmt<W: Write>(&self, f: &mut Formatter<W>) -> fmt::Result {
        Display::fmt(&self.as_str(), f)
    }
}

/// Prints the format, where the bytes are stored (`inline`, `owned` or `shared`), and the text in quotes.
///
/// ```
/// let text = StrTendril::from_slice(alloc, "foobar")?;
/// assert_eq!(rt; format_tendril!(in alloc; "{text:?}")?.as_str(), "Tendril<UTF8>(inline: \"foobar\")");
/// ```
impl<A: Atomicity> Debug for Tendril<UTF8, A> {
    fn fmt<W: Write>(&self, f: &mut Formatter<W>) -> fmt::Result {
        debug::<UTF8, A, &str, W>(&self.storage, &self.as_str(), f)
    }
}

/// Prints the format, where the bytes are stored (`inline`, `owned` or `shared`), and the bytes as a slice.
impl<A: Atomicity> Debug for Tendril<Bytes, A> {
    fn fmt<W: Write>(&self, f: &mut Formatter<W>) -> fmt::Result {
        debug::<Bytes, A, &[u8], W>(&self.storage, &self.as_byte_slice(), f)
    }
}

/// Prints the format, where the bytes are stored, and `text`: `Tendril<UTF8>(inline: "foobar")`.
pub(crate) fn debug<F: Default + Debug + Drop, A: Atomicity, T: Debug, W: Write>(
    storage: &Storage<A>,
    text: &T,
    f: &mut Formatter<W>,
) -> fmt::Result {
    let format = F::default();
    let kind = storage.storage_kind();
    write!(f, "Tendril<{format:?}>({kind}: ")?;
    text.fmt(f)?;
    f.write_str(")")
}

impl<A: Atomicity> Tendril<UTF8, A> {
    /// Returns the text that a value prints.
    ///
    /// Returns `TooLong` if it would have more than 4294967295 bytes, or `Memory` if an allocation fails. If the
    /// value's `Display` fails and no push has, it is the text printed so far. `print` also returns what `Display`
    /// returned, so that its contract can say what the text is.
    ///
    /// ```
    /// let text = StrTendril::format(alloc, &42)?;
    /// assert_eq!(rt; text.as_str(), "42");
    /// ```
    pub fn format<T: Display>(alloc: Global, value: &T) -> Result<Self, Refusal>
        ensures refusal { IfErr result IsGrowthRefusal }
    {
        Self::print(alloc, value).0
    }

    /// Returns the text that a value prints, and what the value's `Display` returned.
    ///
    /// The first is `TooLong` if the text would have more than 4294967295 bytes, or `Memory` if an allocation fails. A
    /// value's `Display` doesn't see an error of a push: what it prints afterwards is discarded. If it fails itself,
    /// the text is what was printed so far.
    ///
    /// ```
    /// let (text, printed) = StrTendril::print(alloc, &42);
    /// assert_eq!(rt; text?.as_str(), "42");
    /// assert_eq!(rt; printed.is_ok(), true);
    /// ```
    pub fn print<T: Display>(alloc: Global, value: &T) -> (Result<Self, Refusal>, fmt::Result)
        ensures whole { OnOk result.1 (IfSome (T.output value.now) (λ bytes. Prints bytes result.0)) }
        ensures refusal { IfErr result.0 IsGrowthRefusal }
    {
        let (Printer { text, refused }, answered) = Printer::print_value(alloc, value);
        let text = match refused {
            None => Ok(text),
            Some(Refusal::TooLong) => Err(Refusal::TooLong),
            Some(_) => Err(Refusal::Memory), // a push of UTF-8 returns no other error
        };
        (text, answered)
    }
}

// A text that is printed into, and the first error of its pushes.
#[derive(Drop)]
struct Printer<A: Atomicity> {
    text: Tendril<UTF8, A>,
    refused: Option<Refusal>,
}

impl<A: Atomicity> Printer<A> {
    // Returns what a value prints, and what its `Display` returned.
    fn print_value<T: Display>(alloc: Global, value: &T) -> (Self, fmt::Result)
        ensures { OnOk result.1 (IfSome (T.output value.now)
            (λ bytes. IsPrinted bytes result.0.text.bytes result.0.refused)) }
    {
        let mut formatter = Formatter::new(Printer {
            text: Tendril::new(alloc),
            refused: None,
        });
        let printed = formatter.write(value);
        (formatter.into_inner(), printed)
    }
}

// Returns Ok even if a push fails. So a `Display` that returns Ok has printed its whole text, and `refused` has the
// error of the first push that failed.
impl<A: Atomicity> fmt::Write for Printer<A> {
    ghost write_str_gives = { λ p piece q. TakesPiece p.text.bytes p.refused piece q.text.bytes q.refused };

    fn write_str(&mut self, text: &str) -> fmt::Result {
        if self.refused.is_none() {
            self.refused = self.text.push_slice(text).err();
        }
        Ok(())
    }
}
