//! A sink that hands on whole lines.
ghost use Rattle.std.specs.Prelude.{◌≡◌, ◌<◌, [], false, length, IfErr, OnOk};
ghost use Rattle.tendril_stream.specs.Lines.{ComposesLines, SendsLast, SendsLines, StopsInLines};
ghost use Rattle.tendril_stream.specs.Sinks.{Piece, RefusesCall};
ghost use Rattle.tendril_fmt.specs.Cuts.{LacksFeed};

use crate::line_start::LineStart;
use crate::sending::send;
use crate::sink::TendrilSink;
use crate::tracks::Tracks;
use std::alloc::Global;
use std::borrow::CowStr;
use tendril_errors::Refusal;
use tendril_text::fmt::UTF8;
use tendril_text::{Atomicity, NonAtomic, Tendril};

// All calls fail after an error, as a decoder's do, since the line that wasn't sent is lost.
/// A sink of texts that sends each whole line to another sink, with its line ending, wherever the stream was cut.
///
/// A line ends with an LF, which is sent with it (and the CR before it, if there is one); the last line may have none.
/// So the lines joined are the texts that came in; `Tendril::without_line_ending` takes the ending off. A line of more
/// than 8 bytes that lies in one text shares its block; one that is cut is joined. An error in the stream is passed on
/// when it comes: before the line in which it lies.
///
/// A call returns `SinkRefused` if the sink returns any error, `TooLong` or `Memory` if the parts of a line can't be
/// joined, or `Count` if a text's block has as many references as it can have. All calls after an error return
/// `Failed`.
///
/// ```
/// let mut lines = Lines::new(alloc, Accumulate::new(alloc));
/// lines.process(StrTendril::from_slice(alloc, "one\ntw")?)?; // "one\n"
/// lines.process(StrTendril::from_slice(alloc, "o\nthree")?)?; // "two\n"
/// assert_eq!(rt; lines.finish()?.len(), 3); // "three"
/// ```
#[derive(Drop)]
pub struct Lines<S: TendrilSink<Tendril<UTF8, A>>, A: Atomicity = NonAtomic> {
    /// The sink that the lines are sent to.
    pub inner_sink: S,
    line: LineStart<A>,
    failed: bool,
}

impl<S: TendrilSink<Tendril<UTF8, A>>, A: Atomicity> Lines<S, A> {
    /// Returns a sink that sends whole lines to the given one. Allocates nothing.
    ///
    /// ```
    /// let lines: Lines<Accumulate> = Lines::new(alloc, Accumulate::new(alloc));
    /// let events = lines.one(StrTendril::from_slice(alloc, "a\nb\n")?)?;
    /// assert_eq!(rt; events.len(), 2);
    /// ```
    pub fn new(alloc: Global, inner_sink: S) -> Self
        ensures sink { result.inner_sink ≡ inner_sink }
        ensures line { result.line.bytes ≡ [] }
        ensures failed { result.failed ≡ false }
    {
        Lines {
            inner_sink,
            line: LineStart::new(alloc),
            failed: false,
        }
    }

    /// Borrows the sink that the lines are sent to.
    ///
    /// ```
    /// let mut lines: Lines<Accumulate> = Lines::new(alloc, Accumulate::new(alloc));
    /// lines.process(StrTendril::from_slice(alloc, "a\nb")?)?;
    /// assert_eq!(rt; lines.inner_sink().events().len(), 1);
    /// ```
    pub fn inner_sink(&self) -> &S
        ensures { result.now ≡ self.now.inner_sink }
    {
        &self.inner_sink
    }

    /// Borrows the start of the next line, which hasn't been sent: what came in after the last LF.
    ///
    /// ```
    /// let mut lines: Lines<Accumulate> = Lines::new(alloc, Accumulate::new(alloc));
    /// lines.process(StrTendril::from_slice(alloc, "a\nb")?)?;
    /// assert_eq!(rt; lines.line().as_str(), "b");
    /// ```
    pub fn line(&self) -> &Tendril<UTF8, A>
        ensures text { result.now ≡ self.now.line }
        ensures lacks { LacksFeed self.now.line.bytes }
    {
        self.line.text()
    }
}

impl<S: TendrilSink<Tendril<UTF8, A>>, A: Atomicity> TendrilSink<Tendril<UTF8, A>> for Lines<S, A> {
    ghost use Rattle.std.specs.Prelude.{◌≡◌, ◌⊎◌, true, false};
    ghost use Rattle.tendril_errors.specs.declared.refusal.Refusal.TheVariants.{Failed};
    ghost use Rattle.tendril_stream.specs.Lines.{TakesForLines, RefusesForLines, FinishesLines, EndStopsLines};

    type Output = S::Output;

    ghost takes = { λ d e n. (d.failed ≡ false) × (n.failed ≡ false)
        × TakesForLines S.takes d.inner_sink d.line e n.inner_sink n.line };

    ghost refuses = { λ d e r n. (n.failed ≡ true)
        × (((d.failed ≡ true) × (r ≡ Failed) × (n.inner_sink ≡ d.inner_sink))
        ⊎ ((d.failed ≡ false) × RefusesForLines S.takes S.refuses d.inner_sink d.line e r n.inner_sink)) };

    ghost finishes = { λ d out. (d.failed ≡ false) × FinishesLines S.takes S.finishes d.inner_sink d.line out };

    ghost ends = { λ d r. ((d.failed ≡ true) × (r ≡ Failed))
        ⊎ ((d.failed ≡ false) × EndStopsLines S.takes S.refuses S.ends d.inner_sink d.line r) };

    fn process(&mut self, text: Tendril<UTF8, A>) -> Result<(), Refusal> {
        if self.failed {
            return Err(Refusal::Failed);
        }
        let sent = send_lines(&mut self.inner_sink, &mut self.line, text);
        self.failed = sent.is_err();
        sent
    }

    fn error(&mut self, words: CowStr<'static>) -> Result<(), Refusal> {
        if self.failed {
            return Err(Refusal::Failed);
        }
        let passed = self.inner_sink.error(words);
        self.failed = passed.is_err();
        passed.map_err(|_| Refusal::SinkRefused)
    }

    fn finish(self) -> Result<S::Output, Refusal> {
        let mut sink = self.inner_sink;
        let line = self.line.into_text();
        if self.failed {
            return Err(Refusal::Failed);
        }
        send_last(&mut sink, line)?;
        sink.finish().map_err(|_| Refusal::SinkRefused)
    }
}

// Sends each line that a text completes, and keeps what follows the last one.
fn send_lines<S: TendrilSink<Tendril<UTF8, A>>, A: Atomicity>(
    sink: &mut S,
    line: &mut LineStart<A>,
    text: Tendril<UTF8, A>,
) -> Result<(), Refusal>
    ensures ok { OnOk result (SendsLines S.takes sink.old line.old text sink.new line.new) }
    ensures err { IfErr result (λ r. StopsInLines S.takes S.refuses sink.old line.old text r sink.new) }
{
    let mut rest = text;
    'lines: while let Some(count) = rest.first_line_len() {
        let next = line.complete(&mut rest, count)?;
        send(sink, next)?;
    }
    line.keep(rest)
}

// Sends what is kept at the end, unless it is empty.
fn send_last<S: TendrilSink<Tendril<UTF8, A>>, A: Atomicity>(
    sink: &mut S,
    line: Tendril<UTF8, A>,
) -> Result<(), Refusal>
    ensures ok { OnOk result (SendsLast S.takes sink.old line.bytes line sink.new) }
    ensures err { IfErr result (λ r. (0 < length line.bytes) × RefusesCall S.refuses sink.old (Piece line) r sink.new) }
{
    if line.is_empty() {
        return Ok(());
    }
    send(sink, line)
}

/// States for proofs that lines don't depend on where a stream is cut; it does nothing at run time.
///
/// If `finish` returns Ok, the sink was sent the lines of all texts joined, each whole, and the last one, if that has
/// no LF; and `after` holds of the sink and the list of what these lines and the errors send.
pub fn line_laws<S: Tracks<Tendril<UTF8, A>>, A: Atomicity>()
    ensures { ComposesLines S.takes S.after }
{}
