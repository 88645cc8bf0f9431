//! Errors that end a program.
ghost use Rattle.std.specs.Prelude.{◌≡◌, ◌++◌, OnErr, OnOk};
ghost use Rattle.std.specs.Io.KnownBytes.{Appends};
ghost use Rattle.tendril_script.specs.Writing.{AppendsFront, complaint};

use crate::output::write_bytes;
use itoa::Buffer;
use std::io::Write;
use tendril_errors::Refusal;

const REFUSED: u8 = 1;

/// Prints the line of an error that ends the program with this name, and returns status 1.
///
/// A failed write of the line is ignored. Nothing is allocated, since memory may have run out.
pub fn refuse<E: Write>(program: &str, refusal: Refusal, err: &mut E) -> u8
    ensures status { result ≡ 1 }
    ensures told { AppendsFront (E.contents err.old) (E.contents err.new) (complaint program.now refusal) }
{
    let _ = write_complaint(program, refusal, err);
    REFUSED
}

fn write_complaint<E: Write>(program: &str, refusal: Refusal, err: &mut E) -> Result<(), Refusal>
    ensures { AppendsFront (E.contents err.old) (E.contents err.new) (complaint program.now refusal) }
{
    let mut buffer = Buffer::new();
    let number = buffer.format(refusal.number());
    let name = refusal.name();
    write_both(program, ": refused ", err)?;
    write_both(number, " ", err)?;
    write_both(name, "\n", err)
}

// Writes one text after the other.
fn write_both<W: Write>(first: &str, second: &str, out: &mut W) -> Result<(), Refusal>
    ensures ok { OnOk result (Appends (W.contents out.old) (W.contents out.new) (first.now ++ second.now)) }
    ensures err { OnErr result (AppendsFront (W.contents out.old) (W.contents out.new) (first.now ++ second.now)) }
{
    write_bytes(out, first.as_bytes())?;
    write_bytes(out, second.as_bytes())
}
