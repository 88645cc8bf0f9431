//! Programs: what their words ask for, their status, and what they print on errors.
ghost use Rattle.std.specs.Prelude.{◌≡◌, ◌≤◌, ◌↔◌, ◌⊎◌, ℕ, List, IfErr, OnOk, map};
ghost use Rattle.std.specs.Io.KnownBytes.{IsAtEnd, Keeps};
ghost use Rattle.tendril_script.specs.Endings.{EndedBy, RunEnded};
ghost use Rattle.tendril_script.specs.Sessions.{RanFrom};
ghost use Rattle.tendril_script.specs.Words.{AskToRun};
ghost use Rattle.tendril_script.specs.Writing.{AppendsFront, complaint};

use crate::arguments::{asks_to_run, words_of};
use crate::input::run_input;
use crate::lines::Lines;
use crate::output::write_bytes;
use crate::refusals::refuse;
use std::alloc::Global;
use std::io::{Read, Write};
use std::rt::Env;
use tendril_errors::Refusal;

const DONE: u8 = 0;

const MISUSED: u8 = 2;

/// A program: its name, its usage, what it does for words of its own, and what carries out the lines of a script.
pub trait Program {
    ghost use Rattle.std.specs.Prelude.{◌≡◌, ℕ, List, Option, None, IfSome, IfErr, OnOk, map};
    ghost use Rattle.tendril_errors.specs.declared.refusal.Refusal.{Refusal};

    /// Carries out the lines of a script.
    type Runner: Lines;

    /// The program's name.
    ghost name: { List ℕ };

    /// The program's usage line.
    ghost usage: { List ℕ };

    /// Which words are the program's own.
    ghost asks: { List (List ℕ) → Type 0 };

    /// What the program does for its own words: the reader's remaining bytes, and the writer's bytes before and after.
    ghost serves: { Option (List ℕ) → Option (List ℕ) → Option (List ℕ) → Type 0 };

    /// What an error leaves of `serves`.
    ghost stops: { Option (List ℕ) → Option (List ℕ) → Option (List ℕ) → Refusal → Type 0 };

    /// Returns the program's name, with which its lines on standard error begin.
    fn name() -> &'static str
        ensures { result.now ≡ name };

    /// Returns the line that is printed for words that ask for nothing.
    fn usage() -> &'static str
        ensures { result.now ≡ usage };

    /// Does what the program's own words ask for. For other words, reads and writes nothing and returns None.
    fn serve<R: Read, W: Write>(
        alloc: Global,
        words: &[&str],
        input: &mut R,
        out: &mut W,
    ) -> Option<Result<(), Refusal>>
        ensures known { IfSome result (λ _. asks (map (λ word. word.now) words.now)) }
        ensures unknown { result ≡ None → asks (map (λ word. word.now) words.now) → ⊥ }
        ensures untouched { result ≡ None → (input.new ≡ input.old) × (out.new ≡ out.old) }
        ensures served { IfSome result (λ ended. OnOk ended (serves
            (R.remaining input.old) (W.contents out.old) (W.contents out.new))) }
        ensures stopped { IfSome result (λ ended. IfErr ended (stops
            (R.remaining input.old) (W.contents out.old) (W.contents out.new))) };
}

/// Runs a program with the arguments after its name, as `run_words` does with words, and returns its status.
///
/// An argument that isn't UTF-8, or has more than 16 bytes, is the empty word. Without memory for the words it prints
/// `NAME: refused 2 Memory` to `err`, and the status is 1.
#[tactic(auto, using(crate::proofs::EndingLemmas::refused_first))]
pub fn run_program<S: Env + AllocGlobal, P: Program, R: Read, W: Write, E: Write>(
    system: &S,
    runner: &mut P::Runner,
    input: &mut R,
    out: &mut W,
    err: &mut E,
) -> u8
    ensures status { result ≤ 2 }
    ensures ran { result ≡ 0
        → RanFrom P.Runner.answers (P.Runner.state runner.old)
        (R.remaining input.old) (W.contents out.old) (W.contents out.new)
        ⊎ P.serves (R.remaining input.old) (W.contents out.old) (W.contents out.new) }
    ensures silent { result ≡ 0 → Keeps (E.contents err.old) (E.contents err.new) }
    ensures refused { result ≡ 1 → RunEnded P.Runner.answers P.name (P.Runner.state runner.old) (R.remaining input.old)
        (W.contents out.old) (W.contents out.new) (E.contents err.old) (E.contents err.new)
        ⊎ EndedBy (P.stops (R.remaining input.old) (W.contents out.old) (W.contents out.new)) P.name
        (E.contents err.old) (E.contents err.new) }
    ensures misused { result ≡ 2 → Keeps (W.contents out.old) (W.contents out.new) }
    ensures told { result ≡ 2 → AppendsFront (E.contents err.old) (E.contents err.new) P.usage }
    ensures reads_first { ((words : List (List ℕ)) → P.asks words → ⊥)
        → Keeps (W.contents out.old) (W.contents out.new) ⊎ IsAtEnd (R.remaining input.new) }
{
    let alloc = system.alloc();
    let arguments = match words_of(system) {
        Ok(arguments) => arguments,
        Err(refusal) => return refuse(P::name(), refusal, err),
    };
    let Ok(words) = arguments
        .iter()
        .map(|word| word.as_str())
        .collect::<Vec<&str>>(alloc)
    else {
        return refuse(P::name(), Refusal::Memory, err);
    };
    run_words::<P, R, W, E>(alloc, runner, words.as_slice(), input, out, err)
}

/// Runs what the words ask a program for, and returns its status.
///
/// Words of the program's own: what it does for them. Otherwise, for no word or `run`, the lines of the input are
/// carried out, and what they print is written. The status is 0 then. After an error it is 1: `NAME: refused N Name` is
/// printed to `err`, and what was written before stays; of a script that is whole lines, unless a write failed. All
/// other words print the usage to `err`, and the status is 2.
pub fn run_words<P: Program, R: Read, W: Write, E: Write>(
    alloc: Global,
    runner: &mut P::Runner,
    words: &[&str],
    input: &mut R,
    out: &mut W,
    err: &mut E,
) -> u8
    // The words are the program's own, or they aren't.
    ensures decides { P.asks (map (λ word. word.now) words.now) ⊎ (P.asks (map (λ word. word.now) words.now) → ⊥) }
    ensures usage { (result ≡ 2) ↔ ((AskToRun (map (λ word. word.now) words.now) → ⊥)
        × (P.asks (map (λ word. word.now) words.now) → ⊥)) }
    ensures status { result ≤ 2 }

    // What the words ask for is done.
    ensures ran { (P.asks (map (λ word. word.now) words.now) → ⊥) → result ≡ 0
        → RanFrom P.Runner.answers (P.Runner.state runner.old)
        (R.remaining input.old) (W.contents out.old) (W.contents out.new) }
    ensures served { P.asks (map (λ word. word.now) words.now) → result ≡ 0
        → P.serves (R.remaining input.old) (W.contents out.old) (W.contents out.new) }
    ensures silent { result ≡ 0 → Keeps (E.contents err.old) (E.contents err.new) }

    // Or an error is printed.
    ensures refused { (P.asks (map (λ word. word.now) words.now) → ⊥) → result ≡ 1
        → RunEnded P.Runner.answers P.name (P.Runner.state runner.old) (R.remaining input.old)
        (W.contents out.old) (W.contents out.new) (E.contents err.old) (E.contents err.new) }
    ensures stopped { P.asks (map (λ word. word.now) words.now) → result ≡ 1
        → EndedBy (P.stops (R.remaining input.old) (W.contents out.old) (W.contents out.new)) P.name
        (E.contents err.old) (E.contents err.new) }

    // Or the words ask for nothing.
    ensures misused { result ≡ 2 → Keeps (W.contents out.old) (W.contents out.new) }
    ensures told { result ≡ 2 → AppendsFront (E.contents err.old) (E.contents err.new) P.usage }

    // Nothing is written before the input's end.
    ensures reads_first { (P.asks (map (λ word. word.now) words.now) → ⊥)
        → Keeps (W.contents out.old) (W.contents out.new) ⊎ IsAtEnd (R.remaining input.new) }
{
    if let Some(served) = P::serve(alloc, words, input, out) {
        return status_of(P::name(), served, err);
    }
    if asks_to_run(words) {
        return status_of(P::name(), run_input(alloc, runner, input, out), err);
    }
    misuse(P::usage(), err)
}

// The status for this result of a program. An error is printed.
fn status_of<E: Write>(program: &str, ended: Result<(), Refusal>, err: &mut E) -> u8
    ensures done { OnOk ended ((result ≡ 0) × Keeps (E.contents err.old) (E.contents err.new)) }
    ensures refused { IfErr ended (λ r. (result ≡ 1)
        × AppendsFront (E.contents err.old) (E.contents err.new) (complaint program.now r)) }
{
    match ended {
        Ok(()) => DONE,
        Err(refusal) => refuse(program, refusal, err),
    }
}

// Prints the usage, and returns the status for words that ask for nothing. A failed write of it is ignored.
fn misuse<E: Write>(usage: &str, err: &mut E) -> u8
    ensures status { result ≡ 2 }
    ensures told { AppendsFront (E.contents err.old) (E.contents err.new) usage.now }
{
    let _ = write_bytes(err, usage.as_bytes());
    MISUSED
}
