//! Writes into texts.
ghost use Rattle.std.specs.Prelude.{◌≡◌, ◌<◌, ◌≤◌, ◌++◌, ◌∷◌, [], length, max, slice_set, IfErr, OnOk, OnErr};
ghost use Rattle.std.specs.Fmt.{decimal};

use std::fmt::Write;
use std::{fmt, io};
use tendril::block::Refusal;
use tendril::fmt::{Bytes, UTF8};
use tendril::{Atomicity, Tendril};

/// Sets one byte of a text. The only error is Memory.
pub fn set_byte<A: Atomicity>(
    text: &mut Tendril<Bytes, A>,
    index: u32,
    byte: u8,
) -> Result<(), Refusal>
    requires { index < length text.old.bytes }
    ensures bytes { OnOk result (text.new.bytes ≡ slice_set text.old.bytes index byte) }
    ensures copied { text.new.copied ≤ max text.old.copied (length text.old.bytes) }
    ensures refusal { IfErr result (λ r. (r ≡ Refusal.Memory) × (8 < length text.old.bytes)) }
    ensures err { OnErr result (text.new ≡ text.old) }
{
    text.bytes_mut(|bytes| bytes[index as usize] = byte)
}

/// Appends a number and a line feed to a text.
pub fn print_line<A: Atomicity>(text: &mut Tendril<UTF8, A>, number: u64) -> fmt::Result
    ensures { OnOk result (text.new.bytes ≡ text.old.bytes ++ (decimal number ++ 10 ∷ [])) }
{
    writeln!(text, "{number}")
}

/// Appends bytes to a text twice, by `io::Write`.
pub fn write_twice<A: Atomicity>(text: &mut Tendril<Bytes, A>, bytes: &[u8]) -> io::Result<()>
    ensures { OnOk result (text.new.bytes ≡ text.old.bytes ++ bytes.now ++ bytes.now) }
{
    io::Write::write_all(text, bytes)?;
    io::Write::write_all(text, bytes)
}
