//! Decodes the input in an encoding.
ghost use Rattle.std.specs.Prelude.{◌≡◌, ◌≤◌, false};
ghost use Rattle.std.specs.Io.KnownBytes.{Keeps};
ghost use Rattle.tendril_encoding.specs.Choices.{start_for};
ghost use Rattle.tendril_encoding.specs.States.{any};
ghost use Rattle.tendril_transcode.specs.Transcodings.{BeginsStream};
ghost use Rattle.recode_cli.specs.Recodings.{RecodingEnded, Recodes};

use crate::program::NAME;
use crate::strict::recode_strictly;
use std::alloc::Global;
use std::io::{Read, Write};
use tendril_encoding::{BomHandling, Encoding, Kept};
use tendril_script::refuse;
use tendril_stream::Counted;
use tendril_transcode::transcode;

/// How to decode the input.
#[derive(Clone, Copy, PartialEq, Eq, Debug)]
pub struct Recoding {
    pub encoding: Encoding,
    pub bom: BomHandling,
    /// Whether the first malformed sequence is an error.
    pub strict: bool,
}

/// Decodes the input and writes UTF-8, and returns the program's status: 0, or 1 after an error, which is printed to
/// `err`.
pub fn recode<R: Read, W: Write, E: Write>(
    alloc: Global,
    how: Recoding,
    input: &mut R,
    out: &mut W,
    err: &mut E,
) -> u8
    ensures status { result ≤ 1 }

    // For a reader and a writer whose bytes are known: the decoding of all bytes is written.
    ensures recoded { how.strict ≡ false → result ≡ 0 → Recodes (start_for how.encoding how.bom)
        (R.remaining input.old) (W.contents out.old) (W.contents out.new) }
    ensures silent { how.strict ≡ false → result ≡ 0 → Keeps (E.contents err.old) (E.contents err.new) }

    // Or an error is printed, and a prefix of the decoding is written.
    ensures stopped { how.strict ≡ false → result ≡ 1 → RecodingEnded (start_for how.encoding how.bom)
        (R.remaining input.old) (W.contents out.old) (W.contents out.new) (E.contents err.old) (E.contents err.new) }
{
    let kept = Kept::new(alloc, how.encoding, how.bom);
    if how.strict {
        return recode_strictly(alloc, kept, input, out, err);
    }
    recode_from(alloc, kept, input, out, err)
}

// Decodes the input from what a decoder keeps at the start of a stream.
fn recode_from<R: Read, W: Write, E: Write>(
    alloc: Global,
    kept: Kept,
    input: &mut R,
    out: &mut W,
    err: &mut E,
) -> u8
    requires { BeginsStream any kept }
    ensures status { result ≤ 1 }
    ensures recoded { result ≡ 0
        → Recodes kept (R.remaining input.old) (W.contents out.old) (W.contents out.new) }
    ensures silent { result ≡ 0 → Keeps (E.contents err.old) (E.contents err.new) }
    ensures stopped { result ≡ 1 → RecodingEnded kept (R.remaining input.old)
        (W.contents out.old) (W.contents out.new) (E.contents err.old) (E.contents err.new) }
{
    match transcode(alloc, kept, &mut Counted::new(input), out) {
        Ok(()) => 0,
        Err(refusal) => refuse(NAME, refusal, err),
    }
}
