//! The program, over any reader and writers.
ghost use Rattle.std.specs.Prelude.{◌≡◌, ◌≤◌, ◌↔◌, ◌⊎◌, map, IsTrue};
ghost use Rattle.std.specs.Io.KnownBytes.{IsAtEnd, Keeps};
ghost use Rattle.tendril_script.specs.Words.{AskToRun};
ghost use Rattle.tendril_script.specs.Writing.{AppendsFront};
ghost use Rattle.tendril_cli.specs.Decodings.{DecodesAll, DecodingEnded};
ghost use Rattle.tendril_cli.specs.Endings.{Ended, usage};
ghost use Rattle.tendril_cli.specs.Sessions.{Ran};
ghost use Rattle.tendril_cli.specs.Words.{AskToDecode};
ghost use Rattle.tendril_transcode.specs.Transcodings.{most_reads};

use std::alloc::Global;
use std::io::{Read, Write};
use std::rt::Env;
use tendril_run::{Table, TableLines};
use tendril_script::{Program, run_program, run_words};
use tendril_stream::{Counted, KeptUtf8};
use tendril_text::NonAtomic;
use tendril_text::block::Refusal;
use tendril_transcode::transcode;

/// The program `tendril`: it runs scripts on a table of texts, or decodes.
pub struct Texts;

impl Program for Texts {
    ghost use Rattle.tendril_transcode.specs.Transcodings.{most_reads};
    ghost use Rattle.tendril_cli.specs.Decodings.{DecodesAll, DecodingHalts};
    ghost use Rattle.tendril_cli.specs.Endings.{program_name, usage};
    ghost use Rattle.tendril_cli.specs.Words.{AskToDecode};

    type Runner = TableLines<Table<NonAtomic>>;

    ghost name = { program_name };

    ghost usage = { usage };

    ghost asks = { AskToDecode };

    ghost serves = { DecodesAll };

    ghost stops = { DecodingHalts most_reads };

    fn name() -> &'static str {
        "tendril"
    }

    fn usage() -> &'static str {
        "usage: tendril run | tendril decode\n"
    }

    fn serve<R: Read, W: Write>(
        alloc: Global,
        words: &[&str],
        input: &mut R,
        out: &mut W,
    ) -> Option<Result<(), Refusal>> {
        if !asks_to_decode(words) {
            return None;
        }
        Some(transcode(alloc, KeptUtf8::new(), &mut Counted::new(input), out))
    }
}

// Whether the words ask to decode: the only word is `decode`.
fn asks_to_decode(words: &[&str]) -> bool
    ensures { IsTrue result ↔ AskToDecode (map (λ word. word.now) words.now) }
{
    match words {
        [word] => *word == "decode",
        _ => false,
    }
}

/// Runs the program with the arguments after its name, and returns its status.
///
/// An argument that isn't UTF-8, or has more than 16 bytes, is the empty word, which asks for nothing.
pub fn program_with_arguments<S: Env + AllocGlobal, R: Read, W: Write, E: Write>(
    system: &S,
    input: &mut R,
    out: &mut W,
    err: &mut E,
) -> u8
    ensures status { result ≤ 2 }
    ensures ran { result ≡ 0 → Ran (R.remaining input.old) (W.contents out.old) (W.contents out.new)
        ⊎ DecodesAll (R.remaining input.old) (W.contents out.old) (W.contents out.new) }
    ensures silent { result ≡ 0 → Keeps (E.contents err.old) (E.contents err.new) }
    ensures refused { result ≡ 1 → Ended (R.remaining input.old)
        (W.contents out.old) (W.contents out.new) (E.contents err.old) (E.contents err.new)
        ⊎ DecodingEnded most_reads (R.remaining input.old)
        (W.contents out.old) (W.contents out.new) (E.contents err.old) (E.contents err.new) }
    ensures misused { result ≡ 2 → Keeps (W.contents out.old) (W.contents out.new) }
    ensures told { result ≡ 2 → AppendsFront (E.contents err.old) (E.contents err.new) usage }
{
    let mut lines = TableLines::new(system.alloc());
    run_program::<S, Texts, R, W, E>(system, &mut lines, input, out, err)
}

/// Runs what the words ask for, and returns the program's status.
///
/// For no word, or `run`, it runs the lines of the input on one table and prints the replies (status 0). After a failed
/// read, write or allocation it prints `tendril: refused N Name` to `err` (status 1); the replies so far stay written,
/// in whole lines unless a write failed. For `decode` it decodes the input and writes the text (status 0), or prints an
/// error (status 1). For other words it prints the usage to `err` (status 2).
#[tactic(auto, using(crate::proofs::WordLemmas::runs_only))]
pub fn program<R: Read, W: Write, E: Write>(
    alloc: Global,
    words: &[&str],
    input: &mut R,
    out: &mut W,
    err: &mut E,
) -> u8
    ensures usage { (result ≡ 2) ↔ ((AskToRun (map (λ word. word.now) words.now) → ⊥)
        × (AskToDecode (map (λ word. word.now) words.now) → ⊥)) }
    ensures status { result ≤ 2 }

    // For a reader and writers whose bytes are known: what the words ask for is written.
    ensures ran { AskToRun (map (λ word. word.now) words.now) → result ≡ 0
        → Ran (R.remaining input.old) (W.contents out.old) (W.contents out.new) }
    ensures decoded { AskToDecode (map (λ word. word.now) words.now) → result ≡ 0
        → DecodesAll (R.remaining input.old) (W.contents out.old) (W.contents out.new) }
    ensures silent { result ≡ 0 → Keeps (E.contents err.old) (E.contents err.new) }

    // Or an error is printed. The replies to the first lines are written, in whole lines unless a write failed; for
    // `decode`, a prefix of the decoding.
    ensures refused { AskToRun (map (λ word. word.now) words.now) → result ≡ 1 → Ended (R.remaining input.old)
        (W.contents out.old) (W.contents out.new) (E.contents err.old) (E.contents err.new) }
    ensures stopped { AskToDecode (map (λ word. word.now) words.now) → result ≡ 1
        → DecodingEnded most_reads (R.remaining input.old)
        (W.contents out.old) (W.contents out.new) (E.contents err.old) (E.contents err.new) }

    // Or the words ask for nothing.
    ensures misused { result ≡ 2 → Keeps (W.contents out.old) (W.contents out.new) }
    ensures told { result ≡ 2 → AppendsFront (E.contents err.old) (E.contents err.new) usage }

    // Nothing is written before the input's end.
    ensures reads_first { AskToRun (map (λ word. word.now) words.now)
        → Keeps (W.contents out.old) (W.contents out.new) ⊎ IsAtEnd (R.remaining input.new) }
{
    run_words::<Texts, R, W, E>(alloc, &mut TableLines::new(alloc), words, input, out, err)
}
