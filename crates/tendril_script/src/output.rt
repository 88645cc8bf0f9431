//! Writes whose contracts say what a failed write has written.
ghost use Rattle.std.specs.Prelude.{◌≡◌, OnOk, OnErr, IfErr};
ghost use Rattle.std.specs.Io.KnownBytes.{Appends, Keeps};
ghost use Rattle.tendril_script.specs.Writing.{AppendsFront};

use std::io::{ErrorKind, Write};
use tendril_errors::Refusal;

/// Writes all bytes, and repeats an interrupted write.
///
/// The only error is Io, for any failed write; the writer then has a prefix of the bytes, which std's `write_all`
/// doesn't specify.
pub fn write_bytes<W: Write>(out: &mut W, bytes: &[u8]) -> Result<(), Refusal>
    ensures ok { OnOk result (Appends (W.contents out.old) (W.contents out.new) bytes.now) }
    ensures err { OnErr result (AppendsFront (W.contents out.old) (W.contents out.new) bytes.now) }
    ensures refusal { IfErr result (λ r. r ≡ Refusal.Io) }
{
    let mut rest = bytes;
    for _ in 0..u64::MAX {
        if rest.is_empty() {
            return Ok(());
        }
        match out.write(rest) {
            Ok(0) => return Err(Refusal::Io),
            Ok(count) => rest = &rest[count..],
            Err(error) => {
                if error.kind() != ErrorKind::Interrupted {
                    return Err(Refusal::Io);
                }
            }
        }
    }
    Err(Refusal::Io)
}

/// Flushes a writer. The only error is Io.
pub fn flush<W: Write>(out: &mut W) -> Result<(), Refusal>
    ensures same { Keeps (W.contents out.old) (W.contents out.new) }
    ensures refusal { IfErr result (λ r. r ≡ Refusal.Io) }
{
    out.flush().map_err(|_| Refusal::Io)
}
