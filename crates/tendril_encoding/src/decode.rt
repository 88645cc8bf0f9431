//! Decoding of pieces in an encoding that a byte order mark may decide.
ghost use Rattle.std.specs.Prelude.{◌≡◌, ◌≤◌, length, OnOk, IfErr};
ghost use Rattle.tendril_errors.specs.declared.limits.TheConstants.{MAX_LEN};
ghost use Rattle.tendril_encoding.specs.States.{FitsState, any};
ghost use Rattle.tendril_stream.specs.Decoders.{FeedsEnd, FeedsPiece, StopsInEnd, StopsInPiece};

use crate::begin::{begin, decode_seen};
use crate::kept::State;
use std::alloc::Global;
use tendril_errors::Refusal;
use tendril_stream::TendrilSink;
use tendril_text::fmt::{Bytes, UTF8};
use tendril_text::{Atomicity, Tendril};

/// Decodes a piece, and sends its texts and errors to the sink.
pub(crate) fn decode<S: TendrilSink<Tendril<UTF8, A>>, A: Atomicity>(
    alloc: Global,
    sink: &mut S,
    state: &mut State,
    buffer: &mut Vec<u8>,
    mut piece: Tendril<Bytes, A>,
) -> Result<(), Refusal>
    requires fits { FitsState state.old }
    requires buffer { length buffer.old.items ≤ MAX_LEN }
    ensures fits { FitsState state.new }
    ensures buffer { length buffer.new.items ≤ MAX_LEN }
    ensures ok { OnOk result (FeedsPiece any S.takes sink.old state.old piece sink.new
        × (state.new ≡ (any).after state.old piece.bytes)) }
    ensures err { IfErr result (λ r. StopsInPiece any S.takes S.refuses sink.old state.old piece r sink.new) }
{
    let Some(sniffing) = state.sniffing else {
        return state.known.chosen.decode(alloc, sink, buffer, piece);
    };
    state.sniffing = None;
    if let Some(left) = begin(alloc, sink, &mut state.known, buffer, sniffing, &mut piece)? {
        state.sniffing = Some(left);
        return Ok(());
    }
    state.known.chosen.decode(alloc, sink, buffer, piece)
}

/// Sends what the end of the stream adds to the sink.
pub(crate) fn end<S: TendrilSink<Tendril<UTF8, A>>, A: Atomicity>(
    alloc: Global,
    sink: &mut S,
    state: &mut State,
    buffer: &mut Vec<u8>,
) -> Result<(), Refusal>
    requires fits { FitsState state.old }
    requires buffer { length buffer.old.items ≤ MAX_LEN }
    ensures fits { FitsState state.new }
    ensures buffer { length buffer.new.items ≤ MAX_LEN }
    ensures ok { OnOk result (FeedsEnd any S.takes sink.old state.old sink.new) }
    ensures err { IfErr result (λ r. StopsInEnd any S.takes S.refuses sink.old state.old r sink.new) }
{
    let Some(sniffing) = state.sniffing else {
        return state.known.chosen.end(alloc, sink);
    };
    state.sniffing = None;
    decode_seen::<S, A>(alloc, sink, &mut state.known.chosen, buffer, sniffing.seen)?;
    state.known.chosen.end(alloc, sink)
}
