//! Decoding by slices into a sink.
ghost use Rattle.std.specs.Prelude.{◌≡◌, ◌+◌, ◌*◌, ◌≤◌, ◌++◌, true, length, OnOk, IfErr};
ghost use Rattle.tendril_errors.specs.declared.limits.TheConstants.{MAX_LEN};
ghost use Rattle.tendril_decode.specs.Machines.{broken_marks, invalid, state_after, told_from};
ghost use Rattle.tendril_encoding.specs.Sends.{FeedsNew, NewStops, text_told};
ghost use Rattle.tendril_stream.specs.Sinks.{Piece, RefusesCall};

use std::alloc::Global;
use tendril_decode::Decode;
use tendril_errors::Refusal;
use tendril_stream::{TendrilSink, replace, send};
use tendril_text::fmt::UTF8;
use tendril_text::{Atomicity, Tendril};

/// How many bytes are decoded at once: what they decode to has less than 4 GiB.
pub(crate) const PART: usize = 1 << 30;

const INVALID: &str = "invalid sequence";

/// Decodes bytes after those that led to the state, and sends what they output to the sink.
pub(crate) fn feed<M: Decode, S: TendrilSink<Tendril<UTF8, A>>, A: Atomicity>(
    alloc: Global,
    sink: &mut S,
    state: &mut M,
    buffer: &mut [u8],
    input: &[u8],
) -> Result<(), Refusal>
    requires fits { M.fits state.old ≡ true }
    requires room { (n : _) → n ≤ length input.now → n ≤ PART → 3 * n + 4 ≤ length buffer.old }
    requires small { length buffer.old ≤ MAX_LEN }
    ensures fits { M.fits state.new ≡ true }
    ensures told { OnOk result (FeedsNew S.takes sink.old (told_from M.machine state.old input.now) sink.new) }
    ensures state { OnOk result (state_after M.machine state.old input.now ≡ state.new) }
    ensures err { IfErr result (λ r. NewStops S.takes S.refuses sink.old (told_from M.machine state.old input.now) r
        sink.new) }
{
    let mut at = 0;
    while at < input.len() {
        let end = at + (input.len() - at).min(PART);
        let part = state.decode(&input[at..end], buffer);
        let text = unsafe { std::str::from_utf8_unchecked(&buffer[..part.written]) };
        send_part(alloc, sink, text, part.broken)?;
        at += part.read;
    }
    Ok(())
}

/// Decodes the end of a stream, and sends what it outputs to the sink.
pub(crate) fn end_slices<M: Decode, S: TendrilSink<Tendril<UTF8, A>>, A: Atomicity>(
    alloc: Global,
    sink: &mut S,
    state: &mut M,
) -> Result<(), Refusal>
    requires { M.fits state.old ≡ true }
    ensures fits { M.fits state.new ≡ true }
    ensures told { OnOk result (FeedsNew S.takes sink.old ((M.machine).ends state.old) sink.new) }
    ensures err { IfErr result (λ r. NewStops S.takes S.refuses sink.old ((M.machine).ends state.old) r sink.new) }
{
    let mut out = [0; 4];
    loop {
        let part = state.end(&mut out);
        let text = unsafe { std::str::from_utf8_unchecked(&out[..part.written]) };
        send_part(alloc, sink, text, part.broken)?;
        if !part.broken {
            return Ok(());
        }
    }
}

// Sends a text to the sink, and what follows it.
fn send_part<S: TendrilSink<Tendril<UTF8, A>>, A: Atomicity>(
    alloc: Global,
    sink: &mut S,
    text: &str,
    broken: bool,
) -> Result<(), Refusal>
    requires { length text.now ≤ MAX_LEN }
    ensures ok { OnOk result (FeedsNew S.takes sink.old (text_told text.now ++ broken_marks broken) sink.new) }
    ensures err { IfErr result (λ r. NewStops S.takes S.refuses sink.old (text_told text.now ++ broken_marks broken) r
        sink.new) }
{
    send_text(alloc, sink, text)?;
    if broken {
        return send_invalid(alloc, sink);
    }
    Ok(())
}

// Sends a text to the sink, if it isn't empty.
fn send_text<S: TendrilSink<Tendril<UTF8, A>>, A: Atomicity>(
    alloc: Global,
    sink: &mut S,
    text: &str,
) -> Result<(), Refusal>
    requires { length text.now ≤ MAX_LEN }
    ensures ok { OnOk result (FeedsNew S.takes sink.old (text_told text.now) sink.new) }
    ensures err { IfErr result (λ r. NewStops S.takes S.refuses sink.old (text_told text.now) r sink.new) }
{
    if text.is_empty() {
        return Ok(());
    }
    let _utf8 = text.as_bytes();
    let text = Tendril::<UTF8, A>::from_slice(alloc, text)?;
    send(sink, text)
}

// Sends a malformed sequence to the sink: an error, and U+FFFD.
fn send_invalid<S: TendrilSink<Tendril<UTF8, A>>, A: Atomicity>(
    alloc: Global,
    sink: &mut S,
) -> Result<(), Refusal>
    ensures ok { OnOk result (FeedsNew S.takes sink.old invalid sink.new) }
    ensures err { IfErr result (λ r. NewStops S.takes S.refuses sink.old invalid r sink.new) }
{
    replace(sink, alloc, INVALID)
}
