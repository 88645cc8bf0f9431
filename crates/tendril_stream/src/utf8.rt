//! UTF-8 as a decoding of pieces.
ghost use Rattle.std.specs.Prelude.{◌≡◌, ◌==◌, ◌<◌, ◌≤◌, [], ◌++◌, length, OnOk, IfOk, IfErr};
ghost use Rattle.tendril_lossy.specs.Lossy.{due_open, kept};
ghost use Rattle.tendril_stream.specs.Decoders.{FeedsEnd, FeedsPiece, ResumesPiece, StopsInEnd, StopsInPiece};
ghost use Rattle.tendril_stream.specs.Decodings.{PieceMay, utf8};
ghost use Rattle.tendril_stream.specs.Sinks.{Feeds, IsSentOf, Stops};

use crate::piece_decoding::PieceDecoding;
use crate::sending::{SendsToSink, replace, send};
use crate::sink::TendrilSink;
use std::alloc::Global;
use std::marker::Model;
use tendril_errors::Refusal;
use tendril_text::fmt::{Bytes, UTF8};
use tendril_text::{Atomicity, IncompleteUtf8, LastText, Tendril};

const INVALID: &str = "invalid byte sequence";

const INCOMPLETE: &str = "incomplete byte sequence at end of stream";

/// The decoding of UTF-8: keeps the bytes of a character that the pieces so far cut off.
#[derive(Drop)]
pub struct KeptUtf8 {
    held: IncompleteUtf8,
    // The length of the last text, kept from piece to piece: how far apart faults are changes little within a stream.
    last: LastText,
}

impl Model for KeptUtf8 {
    ghost use Rattle.std.specs.Prelude.{ℕ, List};

    ghost Value = { List ℕ };

    ghost view = { λ k. k.held };
}

impl KeptUtf8 {
    /// Returns the decoding at the start of a stream, where no bytes are kept.
    ///
    /// ```
    /// let decoder: Utf8LossyDecoder<Accumulate> = Decoder::over(alloc, KeptUtf8::new(), Accumulate::new(alloc));
    /// let events = decoder.one(ByteTendril::from_slice(alloc, b"abc")?)?;
    /// assert_eq!(rt; events.len(), 1);
    /// ```
    pub fn new() -> Self
        ensures { result ≡ [] }
    {
        KeptUtf8 {
            held: IncompleteUtf8::none(),
            last: LastText::none(),
        }
    }

    /// Whether no bytes are kept.
    ///
    /// ```
    /// let kept = KeptUtf8::new();
    /// assert_eq!(rt; kept.is_empty(), true);
    /// ```
    pub fn is_empty(&self) -> bool
        ensures { result ≡ (length self.now == 0) }
    {
        self.held.kept().is_empty()
    }

    /// Returns a copy, with which the same stream can be decoded again from here.
    ///
    /// ```
    /// let kept = KeptUtf8::new();
    /// assert_eq!(rt; kept.copy().is_empty(), true);
    /// ```
    pub fn copy(&self) -> Self
        ensures { result ≡ self.now }
    {
        KeptUtf8 {
            held: self.held,
            last: self.last,
        }
    }
}

impl<A: Atomicity> PieceDecoding<Tendril<Bytes, A>, Tendril<UTF8, A>> for KeptUtf8 {
    ghost use Rattle.std.specs.Prelude.{◌≡◌, ◌++◌, OnOk, IfErr};
    ghost use Rattle.tendril_lossy.specs.Lossy.{kept};
    ghost use Rattle.tendril_stream.specs.Decoders.{FeedsEnd, FeedsPiece, StopsInEnd, StopsInPiece};
    ghost use Rattle.tendril_stream.specs.Decodings.{utf8};
    ghost use Rattle.tendril_stream.specs.Utf8Laws.{is_utf8};

    ghost decoding = { utf8 };

    ghost is_decoding = { is_utf8 };

    fn decode_piece<S: TendrilSink<Tendril<UTF8, A>>>(
        &mut self,
        alloc: Global,
        sink: &mut S,
        piece: Tendril<Bytes, A>,
    ) -> Result<(), Refusal>
        ensures ok { OnOk result (FeedsPiece utf8 S.takes sink.old self.old piece sink.new
            × (self.new ≡ kept (self.old ++ piece.bytes))) }
        ensures err { IfErr result (λ r. StopsInPiece utf8 S.takes S.refuses sink.old self.old piece r sink.new) }
    {
        feed(sink, alloc, &mut self.held, &mut self.last, piece)
    }

    fn decode_end<S: TendrilSink<Tendril<UTF8, A>>>(
        &mut self,
        alloc: Global,
        sink: &mut S,
    ) -> Result<(), Refusal>
        ensures ok { OnOk result (FeedsEnd utf8 S.takes sink.old self.old sink.new) }
        ensures err { IfErr result (λ r. StopsInEnd utf8 S.takes S.refuses sink.old self.old r sink.new) }
    {
        flush(sink, alloc, &self.held)
    }
}

// Completes the kept bytes from the start of a piece. Returns false if the piece ends within their character too, and
// true if that was sent, as a text or as broken, or if no bytes were kept.
fn resume<S: TendrilSink<Tendril<UTF8, A>>, A: Atomicity>(
    sink: &mut S,
    alloc: Global,
    kept: &mut IncompleteUtf8,
    piece: &mut Tendril<Bytes, A>,
) -> Result<bool, Refusal>
    ensures ok { IfOk result (λ done. ResumesPiece S.takes sink.old kept.old piece.old done sink.new kept.new
        piece.new) }
    ensures err { IfErr result (λ r.
        Stops S.takes S.refuses (IsSentOf piece.old) (PieceMay piece.old) sink.old
        (due_open (kept.old ++ piece.old.bytes)) r sink.new) }
{
    if kept.kept().is_empty() {
        return Ok(true);
    }
    let Some(completed) = kept.complete_from(piece) else {
        return Ok(false);
    };
    match completed {
        Ok(text) => send(sink, Tendril::from_short_str(alloc, text.as_str()))?,
        Err(_) => replace(sink, alloc, INVALID)?,
    }
    Ok(true)
}

// Decodes the kept bytes and a piece that follows them.
fn feed<S: TendrilSink<Tendril<UTF8, A>>, A: Atomicity>(
    sink: &mut S,
    alloc: Global,
    held: &mut IncompleteUtf8,
    last: &mut LastText,
    mut piece: Tendril<Bytes, A>,
) -> Result<(), Refusal>
    ensures ok { OnOk result (FeedsPiece utf8 S.takes sink.old held.old piece sink.new
        × (held.new ≡ kept (held.old ++ piece.bytes))) }
    ensures err { IfErr result (λ r. StopsInPiece utf8 S.takes S.refuses sink.old held.old piece r sink.new) }
{
    if !resume(sink, alloc, held, &mut piece)? {
        return Ok(());
    }
    *held = piece.decode_into::<SendsToSink, S>(last, sink)?;
    Ok(())
}

// At the end of the stream: sends an error and U+FFFD for the kept bytes, if there are any.
fn flush<S: TendrilSink<Tendril<UTF8, A>>, A: Atomicity>(
    sink: &mut S,
    alloc: Global,
    held: &IncompleteUtf8,
) -> Result<(), Refusal>
    ensures ok { OnOk result (FeedsEnd utf8 S.takes sink.old held.now sink.new) }
    ensures err { IfErr result (λ r. StopsInEnd utf8 S.takes S.refuses sink.old held.now r sink.new) }
{
    if held.kept().is_empty() {
        return Ok(());
    }
    replace(sink, alloc, INCOMPLETE)
}
