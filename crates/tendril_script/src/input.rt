//! Reads a script and runs it.
ghost use Rattle.std.specs.Prelude.{◌≡◌, ◌⊎◌, IfSome, IfOk, IfErr, OnOk};
ghost use Rattle.std.specs.Io.KnownBytes.{IsAtEnd, Keeps};
ghost use Rattle.tendril_script.specs.Endings.{EndsProgram, RunStops};
ghost use Rattle.tendril_script.specs.Sessions.{RanTo, lines};

use crate::lines::Lines;
use crate::script::run_script;
use std::alloc::Global;
use std::io::{Read, Write};
use tendril_errors::Refusal;

/// Reads a script to its end, then runs its lines as `run_script` does. A failed read is Memory or Io.
#[tactic(auto, using(crate::proofs::EndingLemmas::stops_of))]
pub fn run_input<L: Lines, R: Read, W: Write>(
    alloc: Global,
    runner: &mut L,
    input: &mut R,
    out: &mut W,
) -> Result<(), Refusal>
    ensures ok { OnOk result (RanTo L.answers (L.state runner.old) (L.state runner.new)
        (R.remaining input.old) (W.contents out.old) (W.contents out.new)) }
    ensures refusal { IfErr result EndsProgram }
    ensures stops { IfErr result (λ r. IfSome (R.remaining input.old) (λ script. RunStops L.answers
        (L.state runner.old) (lines script) (L.state runner.new) (W.contents out.old) (W.contents out.new) r)) }
    ensures reads_first { Keeps (W.contents out.old) (W.contents out.new) ⊎ IsAtEnd (R.remaining input.new) }
{
    let script = read_script(alloc, input)?;
    run_script(alloc, runner, script.as_slice(), out)
}

fn read_script<R: Read>(alloc: Global, input: &mut R) -> Result<Vec<u8>, Refusal>
    ensures ok { IfOk result (λ v. IfSome (R.remaining input.old) (λ script. v.items ≡ script)) }
    ensures end { OnOk result (IsAtEnd (R.remaining input.new)) }
    ensures refusal { IfErr result EndsProgram }
{
    let mut script = Vec::new(alloc);
    input.read_to_end(&mut script)?;
    Ok(script)
}
