//! Reading into a text.
ghost use Rattle.std.specs.Prelude.{◌≡◌, ◌<◌, ◌≤◌, List, ◌++◌, length, take, OnOk, IfErr};
ghost use Rattle.std.specs.Io.KnownBytes.{IsAtEnd};
ghost use Rattle.tendril_stream.specs.Readings.{Adds, Fills, MakesReads};
ghost use Rattle.tendril_stream.specs.Reads.{OneRead, given};

use crate::counted_read::{CountedRead, ReadFault};
use crate::reading::read_into;
use tendril_errors::{MAX_LEN, Refusal};
use tendril_text::fmt::Bytes;
use tendril_text::{Atomicity, Tendril};

/// The buffer of the first read, in bytes.
const FIRST: u32 = 32;

/// The largest buffer of a read, in bytes.
const LARGEST: u32 = 65536;

/// Reading to the end into a text, for every `CountedRead`.
pub trait ReadExt: CountedRead {
    ghost use Rattle.std.specs.Prelude.{OnOk};
    ghost use Rattle.std.specs.Io.KnownBytes.{IsAtEnd};
    ghost use Rattle.tendril_stream.specs.Readings.{Adds};

    /// Reads to the end, appends the bytes to the text, and returns how many were read.
    ///
    /// Makes at most `max_reads` reads, interrupted ones included. Returns `TooLong` if the text has 4294967295 bytes
    /// before a read, else `TooManyReads` after `max_reads` reads that didn't reach the end, `Memory` if an allocation
    /// fails, or `Io` if a read fails. After an error the text keeps the bytes that were read.
    ///
    /// The first read has a buffer of 32 bytes. Whenever a buffer is full the next one is twice as large, up to 65536
    /// bytes.
    ///
    /// ```
    /// let mut text = ByteTendril::from_slice(alloc, b"ab")?;
    /// assert_eq!(rt; Counted::new(b"cde".as_slice()).read_to_tendril(&mut text, 10)?, 3);
    /// assert_eq!(rt; text.as_byte_slice(), b"abcde".as_slice());
    /// ```
    fn read_to_tendril<A: Atomicity>(
        &mut self,
        text: &mut Tendril<Bytes, A>,
        max_reads: u64,
    ) -> Result<usize, Refusal>
        ensures adds { Adds Self.history Self.remaining max_reads self.old self.new text.old text.new result }
        ensures end { OnOk result (IsAtEnd (Self.remaining self.new)) };
}

impl<R: CountedRead> ReadExt for R {
    fn read_to_tendril<A: Atomicity>(
        &mut self,
        text: &mut Tendril<Bytes, A>,
        max_reads: u64,
    ) -> Result<usize, Refusal>
        ensures adds { Adds R.history R.remaining max_reads self.old self.new text.old text.new result }
        ensures end { OnOk result (IsAtEnd (R.remaining self.new)) }
    {
        let start = text.len32();
        let (filled, answer) = fill(self, text, max_reads);
        let len = text.as_byte_slice().len() as u32;
        text.pop_back(len - filled);
        answer?;
        Ok((filled - start) as usize)
    }
}

// Reads to the reader's end, and appends the bytes to the text. Returns how many bytes the text had, plus those that
// were read: the bytes after them are spare, and the caller removes them.
fn fill<A: Atomicity, R: CountedRead>(
    reader: &mut R,
    text: &mut Tendril<Bytes, A>,
    max_reads: u64,
) -> (u32, Result<(), Refusal>)
    ensures within { result.0 ≤ length text.new.bytes }
    ensures read { (these : List OneRead) × MakesReads R.history R.remaining reader.old these reader.new
        × (take result.0 text.new.bytes ≡ text.old.bytes ++ given these) × Fills max_reads these result.1 result.0 }
    ensures end { OnOk result.1 (IsAtEnd (R.remaining reader.new)) }
{
    let mut filled = text.len32();
    let mut offered = FIRST;
    let mut made = 0;
    loop {
        if filled == MAX_LEN {
            return (filled, Err(Refusal::TooLong));
        }
        if made == max_reads {
            return (filled, Err(Refusal::TooManyReads));
        }
        if let Err(refusal) = make_room(text, filled, &mut offered) {
            return (filled, Err(refusal));
        }
        made += 1;
        match read_into(reader, text, filled as usize) {
            Ok(Ok(0)) => return (filled, Ok(())),
            Ok(Ok(count)) => filled += count as u32,
            Ok(Err(ReadFault::Interrupted)) => {}
            Ok(Err(ReadFault::Failed)) => return (filled, Err(Refusal::Io)),
            Err(refusal) => return (filled, Err(refusal)),
        }
    }
}

// If the text has only `filled` bytes, appends `offered` zeros to read into, as far as its greatest length permits, and
// doubles `offered` for the next time, up to `LARGEST`.
fn make_room<A: Atomicity>(
    text: &mut Tendril<Bytes, A>,
    filled: u32,
    offered: &mut u32,
) -> Result<(), Refusal>
    requires within { filled ≤ length text.old.bytes }
    requires short { filled < MAX_LEN }
    requires some { (1 ≤ offered.old) × (offered.old ≤ LARGEST) }
    ensures front { take filled text.new.bytes ≡ take filled text.old.bytes }
    ensures within { filled ≤ length text.new.bytes }
    ensures short { length text.new.bytes ≤ MAX_LEN }
    ensures room { OnOk result (filled < length text.new.bytes) }
    ensures some { (1 ≤ offered.new) × (offered.new ≤ LARGEST) }
    ensures refusal { IfErr result (λ r. r ≡ Refusal.Memory) }
{
    if filled < text.len32() {
        return Ok(());
    }
    text.push_uninitialized((*offered).min(MAX_LEN - filled))?;
    *offered = LARGEST.min(2 * *offered);
    Ok(())
}
