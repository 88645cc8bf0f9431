//! Runs a script line by line.
ghost use Rattle.std.specs.Prelude.{◌≡◌, Some, IfOk, IfErr, OnOk, OnErr, [], ◌∷◌, ◌++◌, map};
ghost use Rattle.std.specs.Io.KnownBytes.{Appends};
ghost use Rattle.tendril_script.specs.Endings.{RunStops};
ghost use Rattle.tendril_script.specs.HeldBack.{Passes, PrintsLines, PrintsSome};
ghost use Rattle.tendril_script.specs.Sessions.{LineStops, WritesLine, WritesLines, lines};
ghost use Rattle.tendril_script.specs.Writing.{AppendsFront};

use crate::lines::Lines;
use crate::output::{flush, write_bytes};
use std::alloc::{AllocError, Global};
use std::io::Write;
use tendril_errors::Refusal;

// Output is written when at least this many bytes are held back.
const CHUNK: usize = 8192;

const NEWLINE: u8 = b'\n';

/// Runs the lines of a script, and writes one line for each that isn't empty, in chunks.
///
/// It stops at the first failed allocation or write. After a failed allocation it writes what the lines before printed,
/// in whole lines, and returns Memory. It returns Io for a failed write, also for one after a failed allocation.
pub fn run_script<L: Lines, W: Write>(
    alloc: Global,
    runner: &mut L,
    script: &[u8],
    out: &mut W,
) -> Result<(), Refusal>
    ensures ok { OnOk result (WritesLines L.answers
        (L.state runner.old) (lines script.now) (L.state runner.new) (W.contents out.old) (W.contents out.new)) }
    ensures refusal { IfErr result (RunStops L.answers
        (L.state runner.old) (lines script.now) (L.state runner.new) (W.contents out.old) (W.contents out.new)) }
{
    let Ok(lines) = split_lines(alloc, script) else {
        return Err(Refusal::Memory);
    };
    let mut held = Vec::new(alloc);
    let ran = run_lines(alloc, runner, lines.as_slice(), &mut held, out);
    write_held(&mut held, out)?;
    flush(out)?;
    ran
}

// The lines of a script, without their line feeds.
fn split_lines(alloc: Global, script: &[u8]) -> Result<Vec<&[u8]>, AllocError>
    ensures { IfOk result (λ v. map (λ line. line.now) v.items ≡ lines script.now) }
{
    script.split(|byte| *byte == NEWLINE).collect(alloc)
}

// Runs lines, and writes what they print, except what is still held back at the end.
fn run_lines<L: Lines, W: Write>(
    alloc: Global,
    runner: &mut L,
    lines: &[&[u8]],
    held: &mut Vec<u8>,
    out: &mut W,
) -> Result<(), Refusal>
    ensures ok { OnOk result (PrintsLines L.answers
        (L.state runner.old) (map (λ line. line.now) lines.now) (L.state runner.new)
        (W.contents out.old) (W.contents out.new) held.old.items held.new.items) }
    ensures refusal { IfErr result (PrintsSome L.answers
        (L.state runner.old) (map (λ line. line.now) lines.now) (L.state runner.new)
        (W.contents out.old) (W.contents out.new) held.old.items held.new.items) }
{
    for line in lines {
        run_line(alloc, runner, line, held)?;
        write_chunk(held, out)?;
    }
    Ok(())
}

// Writes what is held back, if it is at least a chunk.
fn write_chunk<W: Write>(held: &mut Vec<u8>, out: &mut W) -> Result<(), Refusal>
    ensures ok { OnOk result (Passes (W.contents out.old) (W.contents out.new) held.old.items [] held.new.items) }
    ensures err { OnErr result (AppendsFront (W.contents out.old) (W.contents out.new) held.old.items) }
    ensures none_held { OnErr result (held.new.items ≡ []) }
    ensures refusal { IfErr result (λ r. r ≡ Refusal.Io) }
{
    if held.len() < CHUNK {
        return Ok(());
    }
    write_held(held, out)
}

// Writes what is held back. After a failed write nothing is held back: a prefix of it may have been written.
fn write_held<W: Write>(held: &mut Vec<u8>, out: &mut W) -> Result<(), Refusal>
    ensures ok { OnOk result (Appends (W.contents out.old) (W.contents out.new) held.old.items) }
    ensures err { OnErr result (AppendsFront (W.contents out.old) (W.contents out.new) held.old.items) }
    ensures none_held { held.new.items ≡ [] }
    ensures refusal { IfErr result (λ r. r ≡ Refusal.Io) }
{
    let written = write_bytes(out, held.as_slice());
    held.clear();
    written
}

// Runs one line, and appends what it prints to what is held back.
fn run_line<L: Lines>(
    alloc: Global,
    runner: &mut L,
    line: &[u8],
    held: &mut Vec<u8>,
) -> Result<(), Refusal>
    ensures ok { OnOk result (WritesLine L.answers
        (L.state runner.old) line.now (L.state runner.new) (Some held.old.items) (Some held.new.items)) }
    ensures err { OnErr result (held.new.items ≡ held.old.items) }
    ensures stopped { OnErr result (LineStops L.answers (L.state runner.old) line.now (L.state runner.new)) }
    ensures refusal { IfErr result (λ r. r ≡ Refusal.Memory) }
{
    if line.is_empty() {
        return Ok(());
    }
    let text = runner.answer(alloc, line)?;
    append_line(held, text.as_bytes())?;
    Ok(())
}

// Appends a text and a line feed to what is held back; on Memory, appends nothing.
fn append_line(held: &mut Vec<u8>, text: &[u8]) -> Result<(), Refusal>
    ensures ok { OnOk result (held.new.items ≡ held.old.items ++ (text.now ++ NEWLINE ∷ [])) }
    ensures err { OnErr result (held.new.items ≡ held.old.items) }
    ensures refusal { IfErr result (λ r. r ≡ Refusal.Memory) }
{
    let len = held.len();
    if held.extend_from_slice(text).is_err() {
        return Err(Refusal::Memory);
    }
    if held.push(NEWLINE).is_err() {
        held.truncate(len);
        return Err(Refusal::Memory);
    }
    Ok(())
}
