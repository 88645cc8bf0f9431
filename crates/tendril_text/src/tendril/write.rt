//! Writing over a text's bytes, and appending by std's `Write` traits.
ghost use Rattle.std.specs.Prelude.{◌≡◌, ◌<◌, ◌≤◌, ◌+◌, ◌++◌, length, map, max, Some, IfOk, IfErr, OnOk, OnErr, IsOk};
ghost use Rattle.std.specs.Char.{to_ascii_lowercase};
ghost use Rattle.std.specs.Fn.{CalledAtMut};
ghost use Rattle.std.specs.Io.{WritesAtMost};
ghost use Rattle.std.specs.Io.KnownBytes.{Appends, Keeps, WriteAppends};
ghost use Rattle.std.specs.IoError.{error_kind};
ghost use Rattle.tendril_text.specs.Writes.{WriteRefused};
ghost use Rattle.tendril_errors.specs.Outcomes.{MemoryMay, NoneMust, Outcome};
ghost use Rattle.tendril_storage.specs.Edits.{TakesAtMut};

use crate::tendril::Tendril;
use std::io::ErrorKind;
use std::{fmt, io};
use tendril_block::{Atomicity, INLINE_LEN, MAX_LEN, Refusal};
use tendril_fmt::fmt::{Bytes, UTF8};

impl<A: Atomicity> Tendril<Bytes, A> {
    /// Passes the bytes to `edit`, which may write over them, and returns what it returns.
    ///
    /// They are written in place if no other text shares their block; else they are copied before `edit` is called.
    /// Returns `Memory` if the allocation of the copy fails, which is possible only for more than 8 bytes; then `edit`
    /// isn't called and nothing has changed.
    ///
    /// ```
    /// let mut text = ByteTendril::from_slice(alloc, b"abc")?;
    /// text.bytes_mut(|bytes| bytes[0] = b'x')?;
    /// assert_eq!(rt; text.as_byte_slice(), b"xbc".as_slice());
    /// ```
    pub fn bytes_mut<R, E: FnMut(&mut [u8]) -> R>(&mut self, mut edit: E) -> Result<R, Refusal>
        requires { TakesAtMut E.FnMut edit self.old.bytes }
        ensures bytes { IfOk result (λ r. (last : E) × CalledAtMut E.FnMut edit self.old.bytes r last self.new.bytes) }
        ensures len { length self.new.bytes ≡ length self.old.bytes }
        ensures copied { self.new.copied ≤ max self.old.copied (length self.old.bytes) }
        ensures refusal { IfErr result (MemoryMay (length self.old.bytes)) }
        ensures err { OnErr result (self.new ≡ self.old) }
    {
        self.bytes_mut_with(&mut edit)
    }

    /// Passes the bytes to a borrowed closure, as `bytes_mut` does, so that contracts see the closure's final state.
    ///
    /// Returns `Memory` if the allocation of a copy fails; then `edit` isn't called.
    ///
    /// ```
    /// let mut text = ByteTendril::from_slice(alloc, b"abc")?;
    /// let mut edit = |bytes: &mut [u8]| bytes.reverse();
    /// text.bytes_mut_with(&mut edit)?;
    /// assert_eq!(rt; text.as_byte_slice(), b"cba".as_slice());
    /// ```
    pub fn bytes_mut_with<R, E: FnMut(&mut [u8]) -> R>(
        &mut self,
        edit: &mut E,
    ) -> Result<R, Refusal>
        requires { TakesAtMut E.FnMut edit.old self.old.bytes }
        ensures bytes { IfOk result (λ r. CalledAtMut E.FnMut edit.old self.old.bytes r edit.new self.new.bytes) }
        ensures len { length self.new.bytes ≡ length self.old.bytes }
        ensures copied { self.new.copied ≤ max self.old.copied (length self.old.bytes) }
        ensures refusal { IfErr result (MemoryMay (length self.old.bytes)) }
        ensures err { OnErr result ((self.new ≡ self.old) × (edit.new ≡ edit.old)) }
        ensures callable { E.IsAlwaysCallable edit.old → E.IsAlwaysCallable edit.new }
    {
        self.storage.write_over(edit)
    }
}

impl<A: Atomicity> Tendril<UTF8, A> {
    /// Converts ASCII uppercase letters to lowercase.
    ///
    /// They are written in place if no other text shares their block, else in a copy. Returns `Memory` if the
    /// allocation of the copy fails; then nothing has changed. A text without uppercase letters doesn't change, and
    /// nothing is allocated.
    ///
    /// ```
    /// let mut text = StrTendril::from_slice(alloc, "<DIV É>")?;
    /// text.make_ascii_lowercase()?;
    /// assert_eq!(rt; text.as_str(), "<div É>");
    /// ```
    pub fn make_ascii_lowercase(&mut self) -> Result<(), Refusal>
        ensures outcome { Outcome NoneMust (MemoryMay (length self.old.bytes))
            (λ _ t. t.bytes ≡ map to_ascii_lowercase self.old.bytes) self.old result self.new }
        ensures copied { self.new.copied ≤ max self.old.copied (length self.old.bytes) }
        ensures unchanged { map to_ascii_lowercase self.old.bytes ≡ self.old.bytes
            → IsOk result × (self.new ≡ self.old) }
    {
        let mut bytes = self.as_byte_slice().iter();
        if !bytes.any(|byte| byte.is_ascii_uppercase()) {
            return Ok(());
        }
        self.storage
            .write_over(&mut |bytes: &mut [u8]| bytes.make_ascii_lowercase())?;
        Ok(())
    }
}

/// `write_str` appends the whole string, as `push_slice` does, or returns an error and changes nothing.
///
/// ```
/// let mut text = StrTendril::new(alloc);
/// std::fmt::Write::write_str(&mut text, "written")?;
/// assert_eq!(rt; text.as_str(), "written");
/// ```
impl<A: Atomicity> fmt::Write for Tendril<UTF8, A> {
    ghost write_str_gives = { λ t bytes u. u.bytes ≡ t.bytes ++ bytes };

    fn write_str(&mut self, text: &str) -> fmt::Result
        ensures ok { IsOk result → self.new.bytes ≡ self.old.bytes ++ text.now }
        ensures short { OnOk result (length self.old.bytes + length text.now ≤ MAX_LEN) }
        ensures copied { self.new.copied ≤ max self.old.copied (length self.old.bytes) + length text.now + 4 }
        ensures refused { OnErr result (INLINE_LEN < length self.old.bytes + length text.now) }
        ensures err { OnErr result (self.new ≡ self.old) }
    {
        self.push_slice(text).map_err(|_| fmt::Error)
    }
}

/// `write` and `write_all` append all bytes, as `push_slice` does, or return an error and change nothing.
///
/// The error is `FileTooLarge` if the text would have more than 4294967295 bytes, else `OutOfMemory`.
///
/// ```
/// let mut text = ByteTendril::new(alloc);
/// std::io::Write::write_all(&mut text, b"written")?;
/// assert_eq!(rt; text.as_byte_slice(), b"written".as_slice());
/// ```
impl<A: Atomicity> io::Write for Tendril<Bytes, A> {
    ghost contents = { λ t. Some t.bytes };

    fn write(&mut self, bytes: &[u8]) -> io::Result<usize>
        ensures bound { WritesAtMost result bytes.now }
        ensures bytes { WriteAppends (Some self.old.bytes) (Some self.new.bytes) result bytes.now }
        ensures count { IfOk result (λ n. n ≡ length bytes.now) }
        ensures ok { OnOk result (self.new.bytes ≡ self.old.bytes ++ bytes.now) }
        ensures short { OnOk result (length self.old.bytes + length bytes.now ≤ MAX_LEN) }
        ensures copied { self.new.copied ≤ max self.old.copied (length self.old.bytes) + length bytes.now + 4 }
        ensures refused { IfErr result (λ e. WriteRefused (length self.old.bytes + length bytes.now) (error_kind e)) }
        ensures err { OnErr result (self.new ≡ self.old) }
    {
        match self.push_slice(bytes) {
            Ok(()) => Ok(bytes.len()),
            Err(Refusal::TooLong) => Err(ErrorKind::FileTooLarge.into()),
            Err(_) => Err(ErrorKind::OutOfMemory.into()),
        }
    }

    fn write_all(&mut self, bytes: &[u8]) -> io::Result<()>
        ensures bytes { OnOk result (Appends (Some self.old.bytes) (Some self.new.bytes) bytes.now) }
        ensures short { OnOk result (length self.old.bytes + length bytes.now ≤ MAX_LEN) }
        ensures copied { self.new.copied ≤ max self.old.copied (length self.old.bytes) + length bytes.now + 4 }
        ensures refused { IfErr result (λ e. WriteRefused (length self.old.bytes + length bytes.now) (error_kind e)) }
        ensures err { OnErr result (self.new ≡ self.old) }
    {
        self.write(bytes)?;
        Ok(())
    }

    fn flush(&mut self) -> io::Result<()>
        ensures bytes { Keeps (Some self.old.bytes) (Some self.new.bytes) }
        ensures ok { IsOk result }
        ensures unchanged { self.new ≡ self.old }
    {
        Ok(()) // nothing is buffered
    }
}
