//! The program, over any reader and writers.
ghost use Rattle.std.specs.Prelude.{◌≡◌, ◌≤◌, ◌↔◌, ◌⊎◌, map};
ghost use Rattle.std.specs.Io.KnownBytes.{IsAtEnd, Keeps};
ghost use Rattle.tendril_script.specs.Words.{AskToRun};
ghost use Rattle.tendril_script.specs.Writing.{AppendsFront};
ghost use Rattle.rope_cli.specs.RopeEndings.{RopesEnded, rope_usage};
ghost use Rattle.rope_cli.specs.RopeSessions.{RopesRan};

use rope::RopeTable;
use std::alloc::Global;
use std::io::{Read, Write};
use std::rt::Env;
use tendril_run::TableLines;
use tendril_script::{Program, run_program, run_words};
use tendril_text::NonAtomic;
use tendril_text::block::Refusal;

/// The program `rope`: it runs scripts on a table of texts and ropes.
pub struct Ropes;

impl Program for Ropes {
    ghost use Rattle.rope_cli.specs.RopeEndings.{rope_program_name, rope_usage};

    type Runner = TableLines<RopeTable<NonAtomic>>;

    ghost name = { rope_program_name };

    ghost usage = { rope_usage };

    ghost asks = { λ _. ⊥ };

    ghost serves = { λ _ _ _. ⊥ };

    ghost stops = { λ _ _ _ _. ⊥ };

    fn name() -> &'static str {
        "rope"
    }

    fn usage() -> &'static str {
        "usage: rope run\n"
    }

    fn serve<R: Read, W: Write>(
        _alloc: Global,
        _words: &[&str],
        _input: &mut R,
        _out: &mut W,
    ) -> Option<Result<(), Refusal>> {
        None
    }
}

/// Runs the program with the arguments after its name, and returns its status.
///
/// An argument that isn't UTF-8, or has more than 16 bytes, is the empty word, which asks for nothing.
pub fn program_with_arguments<S: Env + AllocGlobal, R: Read, W: Write, E: Write>(
    system: &S,
    input: &mut R,
    out: &mut W,
    err: &mut E,
) -> u8
    ensures status { result ≤ 2 }
    ensures ran { result ≡ 0 → RopesRan (R.remaining input.old) (W.contents out.old) (W.contents out.new) }
    ensures silent { result ≡ 0 → Keeps (E.contents err.old) (E.contents err.new) }
    ensures refused { result ≡ 1 → RopesEnded (R.remaining input.old)
        (W.contents out.old) (W.contents out.new) (E.contents err.old) (E.contents err.new) }
    ensures misused { result ≡ 2 → Keeps (W.contents out.old) (W.contents out.new) }
    ensures told { result ≡ 2 → AppendsFront (E.contents err.old) (E.contents err.new) rope_usage }
    ensures reads_first { Keeps (W.contents out.old) (W.contents out.new) ⊎ IsAtEnd (R.remaining input.new) }
{
    let mut lines = TableLines::new(system.alloc());
    run_program::<S, Ropes, R, W, E>(system, &mut lines, input, out, err)
}

/// Runs what the words ask for, and returns the program's status.
///
/// For no word, or `run`, it runs the lines of the input on one table and prints the replies (status 0). After a failed
/// read, write or allocation it prints `rope: refused N Name` to `err` (status 1); the replies so far stay written, in
/// whole lines unless a write failed. For other words it prints the usage to `err` (status 2).
pub fn program<R: Read, W: Write, E: Write>(
    alloc: Global,
    words: &[&str],
    input: &mut R,
    out: &mut W,
    err: &mut E,
) -> u8
    ensures usage { (result ≡ 2) ↔ (AskToRun (map (λ word. word.now) words.now) → ⊥) }
    ensures status { result ≤ 2 }

    // For a reader and writers whose bytes are known: the replies to all lines are written.
    ensures ran { result ≡ 0 → RopesRan (R.remaining input.old) (W.contents out.old) (W.contents out.new) }
    ensures silent { result ≡ 0 → Keeps (E.contents err.old) (E.contents err.new) }

    // Or an error is printed. The replies to the first lines are written, in whole lines unless a write failed.
    ensures refused { result ≡ 1 → RopesEnded (R.remaining input.old)
        (W.contents out.old) (W.contents out.new) (E.contents err.old) (E.contents err.new) }

    // Or the words ask for nothing.
    ensures misused { result ≡ 2 → Keeps (W.contents out.old) (W.contents out.new) }
    ensures told { result ≡ 2 → AppendsFront (E.contents err.old) (E.contents err.new) rope_usage }

    // Nothing is written before the input's end.
    ensures reads_first { Keeps (W.contents out.old) (W.contents out.new) ⊎ IsAtEnd (R.remaining input.new) }
{
    run_words::<Ropes, R, W, E>(alloc, &mut TableLines::new(alloc), words, input, out, err)
}
