//! The program, over any reader and writers.
ghost use Rattle.std.specs.Prelude.{◌≡◌, ◌≤◌};
ghost use Rattle.std.specs.Io.KnownBytes.{Keeps};

use crate::list::list;
use crate::nearest::nearest;
use crate::recode::{Recoding, recode};
use crate::request::{Options, Request, USAGE, parse};
use std::alloc::Global;
use std::env;
use std::io::{self, ErrorKind, Read, Write};
use std::rt::Env;
use tendril_encoding::{BomHandling, Encoding};
use tendril_script::{refuse, write_bytes};
use tendril_text::block::Refusal;

/// The program's name, with which its lines on standard error begin.
pub const NAME: &str = "recode";

/// The status for words that ask for nothing that the program can do.
pub const MISUSED: u8 = 2;

/// Runs the program with the system's arguments, and returns its status.
pub fn program_with_arguments<S: Env + AllocGlobal, R: Read, W: Write, E: Write>(
    system: &S,
    input: &mut R,
    out: &mut W,
    err: &mut E,
) -> u8
    ensures status { result ≤ 2 }
    ensures misused { result ≡ 2 → Keeps (W.contents out.old) (W.contents out.new) }
{
    let alloc = system.alloc();
    let arguments: Vec<String> = match words_of(system) {
        Ok(arguments) => arguments,
        Err(error) if error.kind() == ErrorKind::OutOfMemory => {
            return refuse(NAME, Refusal::Memory, err);
        }
        Err(_) => {
            let _ = writeln!(err, "{NAME}: an argument isn't UTF-8\n\nUsage: {USAGE}");
            return MISUSED;
        }
    };
    let Ok(words) = arguments
        .iter()
        .map(|word| word.as_str())
        .collect::<Vec<&str>>(alloc)
    else {
        return refuse(NAME, Refusal::Memory, err);
    };
    program(alloc, words.as_slice(), input, out, err)
}

fn words_of<S: Env + AllocGlobal>(system: &S) -> io::Result<Vec<String>> {
    Ok(env::args(system)?.collect(system.alloc())?)
}

/// Runs what the arguments ask for, and returns the program's status. The first argument is its name.
///
/// 0: done. 1: an error, which is printed to `err`. 2: the words ask for nothing that the program can do; what is wrong
/// is printed to `err`, and nothing is read or written.
pub fn program<R: Read, W: Write, E: Write>(
    alloc: Global,
    words: &[&str],
    input: &mut R,
    out: &mut W,
    err: &mut E,
) -> u8
    ensures status { result ≤ 2 }
    ensures misused { result ≡ 2 → Keeps (W.contents out.old) (W.contents out.new) }
{
    match parse(alloc, words) {
        Ok(Request::List) => match list(alloc, out) {
            Ok(()) => 0,
            Err(refusal) => refuse(NAME, refusal, err),
        },
        Ok(Request::Recode(options)) => recode_by(alloc, options, input, out, err),
        Err(error) if error.kind() == clap::error::ErrorKind::OutOfMemory => refuse(
            NAME,
            Refusal::Memory,
            err,
        ),
        Err(error) => {
            let _ = write!(err, "{error}");
            MISUSED
        }
    }
}

// Decodes the input in the encoding of a label. The default for a byte order mark is that of
// `LossyDecoder::new_encoding`: UTF-8 keeps it, and in a stream in another encoding it decides the encoding.
fn recode_by<R: Read, W: Write, E: Write>(
    alloc: Global,
    options: Options,
    input: &mut R,
    out: &mut W,
    err: &mut E,
) -> u8
    ensures status { result ≤ 2 }
    ensures misused { result ≡ 2 → Keeps (W.contents out.old) (W.contents out.new) }
{
    let Some(encoding) = Encoding::for_label(options.label.as_bytes()) else {
        return unknown_label(alloc, options.label, err);
    };
    let bom = match options.bom {
        Some(bom) => bom,
        None if encoding == Encoding::Utf8 => BomHandling::Keep,
        None => BomHandling::Sniff,
    };
    let how = Recoding {
        encoding,
        bom,
        strict: options.strict,
    };
    recode(alloc, how, input, out, err)
}

// Prints that no encoding has the label, and which labels are like it.
fn unknown_label<E: Write>(alloc: Global, label: &str, err: &mut E) -> u8
    ensures { result ≤ 2 }
{
    let Ok(names) = nearest(alloc, label) else {
        return refuse(NAME, Refusal::Memory, err);
    };
    let _ = writeln!(
        err,
        "{NAME}: no encoding has the label '{label}'; the nearest: {names}"
    );
    MISUSED
}
