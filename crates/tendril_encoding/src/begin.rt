//! The start of a stream, where a byte order mark may decide the encoding.
ghost use Rattle.std.specs.Prelude.{◌≡◌, ◌≤◌, length, IsAscii, IsOk, OnOk, IfOk, IfErr};
ghost use Rattle.tendril_errors.specs.declared.limits.TheConstants.{MAX_LEN};
ghost use Rattle.tendril_encoding.specs.Known.{FitsKnown, IsStartKnown, after_known, out_known};
ghost use Rattle.tendril_encoding.specs.Marks.{seen_bytes};
ghost use Rattle.tendril_encoding.specs.Sends.{FeedsNew, NewStops};
ghost use Rattle.tendril_encoding.specs.Starts.{Begins};
ghost use Rattle.tendril_encoding.specs.States.{out_sniff};

use crate::kept::Sniffing;
use crate::known::{Chosen, Known};
use crate::mark::Seen;
use crate::search::{Found, find_mark};
use std::alloc::Global;
use tendril_errors::Refusal;
use tendril_stream::TendrilSink;
use tendril_text::fmt::{Bytes, UTF8};
use tendril_text::{Atomicity, Tendril};

/// Looks for a mark at the start of a piece. Returns the search if the piece ends within a mark; else the encoding is
/// decided, what was seen in earlier pieces is sent if it is no mark, and a mark is removed from the piece.
pub(crate) fn begin<S: TendrilSink<Tendril<UTF8, A>>, A: Atomicity>(
    alloc: Global,
    sink: &mut S,
    known: &mut Known,
    buffer: &mut Vec<u8>,
    sniffing: Sniffing,
    piece: &mut Tendril<Bytes, A>,
) -> Result<Option<Sniffing>, Refusal>
    requires fits { FitsKnown known.old.chosen }
    requires start { IsStartKnown known.old.chosen }
    requires buffer { length buffer.old.items ≤ MAX_LEN }
    ensures fits { FitsKnown known.new.chosen }
    ensures buffer { length buffer.new.items ≤ MAX_LEN }
    ensures ok { IfOk result (λ left. Begins S.takes sink.old known.old sniffing piece.old left sink.new known.new
        piece.new) }
    ensures err { IfErr result (λ r. NewStops S.takes S.refuses sink.old
        (out_sniff sniffing.marks known.old sniffing.seen piece.old.bytes) r sink.new) }
    ensures ascii { sniffing.seen ≡ Seen.Nothing → IsAscii piece.old.bytes → IsOk result }
{
    match find_mark(sniffing.marks, sniffing.seen, piece.as_byte_slice()) {
        Found::Waits(seen) => {
            return Ok(Some(Sniffing {
                marks: sniffing.marks,
                seen,
            }));
        }
        Found::Marked(mark, count) => {
            *known = Known::marked(mark);
            piece.pop_front(count);
        }
        Found::Plain => {
            decode_seen::<S, A>(alloc, sink, &mut known.chosen, buffer, sniffing.seen)?;
        }
    }
    Ok(None)
}

/// Decodes the bytes that were seen, and that are no mark.
pub(crate) fn decode_seen<S: TendrilSink<Tendril<UTF8, A>>, A: Atomicity>(
    alloc: Global,
    sink: &mut S,
    chosen: &mut Chosen,
    buffer: &mut Vec<u8>,
    seen: Seen,
) -> Result<(), Refusal>
    requires fits { FitsKnown chosen.old }
    requires start { IsStartKnown chosen.old }
    requires buffer { length buffer.old.items ≤ MAX_LEN }
    ensures fits { FitsKnown chosen.new }
    ensures buffer { length buffer.new.items ≤ MAX_LEN }
    ensures ok { OnOk result (FeedsNew S.takes sink.old (out_known chosen.old (seen_bytes seen)) sink.new
        × (chosen.new ≡ after_known chosen.old (seen_bytes seen))) }
    ensures nothing { seen ≡ Seen.Nothing → IsOk result }
    ensures err { IfErr result (λ r. NewStops S.takes S.refuses sink.old
        (out_known chosen.old (seen_bytes seen)) r sink.new) }
{
    if let Seen::Nothing = seen {
        return Ok(());
    }
    let text = Tendril::<Bytes, A>::from_slice(alloc, seen.bytes())?;
    chosen.decode(alloc, sink, buffer, text)
}
