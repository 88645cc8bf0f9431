//! A sink of texts that reads CSV records.
ghost use Rattle.std.specs.Prelude.{◌≡◌, ◌<◌, ◌++◌, [], codes, length, OnOk, OnErr};
ghost use Rattle.tendril.specs.Fmt.Parts.{IsFrontOf};
ghost use Rattle.use_csv.specs.Spelled.{ReaderStep, partial_bytes, spelled_so_far};

use crate::partial::PartialRecord;
use crate::record::{Record, RecordSink};
use std::alloc::Global;
use std::borrow::CowStr;
use tendril::block::Refusal;
use tendril::stream::{TendrilSink, Tracks};
use tendril::{ByteSet, SetResult, StrTendril};

/// The state of the reader before its next byte.
#[derive(Clone, Copy, Debug, PartialEq, Eq)]
enum State {
    RecordStart,
    /// After a carriage return that ended a record.
    AfterReturn,
    FieldStart,
    Plain,
    Quoted,
    /// After a quote in a quoted field: it closes the quotes, unless another quote follows.
    AfterQuote,
}

/// A sink that reads the records of the texts sent to it: as RFC 4180, and where that isn't specific as Python's `csv`.
///
/// A long field shares the block of its text, unless it has a doubled quote, or came in several texts that aren't
/// adjacent in one block.
#[derive(Drop)]
pub struct CsvReader<K: RecordSink> {
    sink: K,
    alloc: Global,
    state: State,
    partial: PartialRecord,
    ends: ByteSet,
    quote: ByteSet,
}

impl<K: RecordSink> CsvReader<K> {
    /// Creates a reader that was sent nothing.
    pub fn new(alloc: Global, sink: K) -> Self
        ensures sink { result.sink ≡ sink }
        ensures partial { partial_bytes result.partial ≡ [] }
    {
        CsvReader {
            sink,
            alloc,
            state: State::RecordStart,
            partial: PartialRecord::new(alloc),
            ends: ByteSet::new(b",\r\n"),
            quote: ByteSet::new(b"\""),
        }
    }

    /// Returns the sink of the records.
    pub fn sink(&self) -> &K
        ensures { result.now ≡ self.now.sink }
    {
        &self.sink
    }

    // Takes a run of a field's bytes, or one byte between fields.
    fn take_part(&mut self, rest: &mut StrTendril) -> Result<(), Refusal>
        requires { 0 < length rest.old.bytes }
        ensures { ReaderStep (K.records self.old.sink) self.old.partial rest.old.bytes
            result (K.records self.new.sink) self.new.partial rest.new.bytes }
    {
        match self.state {
            State::AfterReturn => self.take_after_return(rest),
            State::RecordStart | State::FieldStart => self.take_start(rest),
            State::Plain => self.take_plain(rest),
            State::Quoted => self.take_quoted(rest),
            State::AfterQuote => self.take_after_quote(rest),
        }
    }

    // Takes the line feed after a carriage return, or the first bytes of a record.
    fn take_after_return(&mut self, rest: &mut StrTendril) -> Result<(), Refusal>
        requires { 0 < length rest.old.bytes }
        ensures { ReaderStep (K.records self.old.sink) self.old.partial rest.old.bytes
            result (K.records self.new.sink) self.new.partial rest.new.bytes }
    {
        self.state = State::RecordStart;
        if rest.skip_prefix("\n") {
            return Ok(());
        }
        self.take_start(rest)
    }

    // Takes the quote that opens a field, or the first bytes of a field without quotes.
    fn take_start(&mut self, rest: &mut StrTendril) -> Result<(), Refusal>
        requires { 0 < length rest.old.bytes }
        ensures { ReaderStep (K.records self.old.sink) self.old.partial rest.old.bytes
            result (K.records self.new.sink) self.new.partial rest.new.bytes }
    {
        if rest.skip_prefix("\"") {
            self.state = State::Quoted;
            return Ok(());
        }
        self.take_plain(rest)
    }

    // Takes the bytes before the next comma or line end, or one of these.
    fn take_plain(&mut self, rest: &mut StrTendril) -> Result<(), Refusal>
        requires { 0 < length rest.old.bytes }
        ensures { ReaderStep (K.records self.old.sink) self.old.partial rest.old.bytes
            result (K.records self.new.sink) self.new.partial rest.new.bytes }
    {
        match rest.pop_except_from(&self.ends)? {
            None => Ok(()),
            Some(SetResult::NotFromSet(part)) => {
                self.state = State::Plain;
                self.partial.push_text(part)
            }
            Some(SetResult::FromSet(',')) => {
                self.state = State::FieldStart;
                self.partial.end_field()
            }
            Some(SetResult::FromSet('\r')) => self.end_record(State::AfterReturn),
            Some(SetResult::FromSet('\n')) => self.end_record(State::RecordStart),
            // The set has no other character.
            Some(SetResult::FromSet(other)) => self.partial.push_char(other),
        }
    }

    // Takes the bytes before the next quote, or that quote.
    fn take_quoted(&mut self, rest: &mut StrTendril) -> Result<(), Refusal>
        requires { 0 < length rest.old.bytes }
        ensures { ReaderStep (K.records self.old.sink) self.old.partial rest.old.bytes
            result (K.records self.new.sink) self.new.partial rest.new.bytes }
    {
        match rest.pop_except_from(&self.quote)? {
            None => Ok(()),
            Some(SetResult::NotFromSet(part)) => self.partial.push_text(part),
            Some(SetResult::FromSet('"')) => {
                self.state = State::AfterQuote;
                Ok(())
            }
            // The set has no other character.
            Some(SetResult::FromSet(other)) => self.partial.push_char(other),
        }
    }

    // Takes the second of two quotes, which belongs to the field, or the bytes after a quoted field.
    fn take_after_quote(&mut self, rest: &mut StrTendril) -> Result<(), Refusal>
        requires { 0 < length rest.old.bytes }
        ensures takes { ReaderStep (K.records self.old.sink) self.old.partial rest.old.bytes
            result (K.records self.new.sink) self.new.partial rest.new.bytes }
        ensures second { OnOk result (IsFrontOf (codes "\"") rest.old.bytes →
            spelled_so_far (K.records self.new.sink) self.new.partial ++ rest.new.bytes
            ≡ spelled_so_far (K.records self.old.sink) self.old.partial ++ rest.old.bytes) }
    {
        if rest.skip_prefix("\"") {
            self.state = State::Quoted;
            return self.partial.push_char('"');
        }
        self.take_plain(rest)
    }

    // Sends the record that was read. A blank line is a record without fields.
    fn end_record(&mut self, next: State) -> Result<(), Refusal>
        ensures ok { OnOk result (spelled_so_far (K.records self.new.sink) self.new.partial
            ≡ spelled_so_far (K.records self.old.sink) self.old.partial) }
        ensures err { OnErr result (K.records self.new.sink ≡ K.records self.old.sink) }
    {
        if self.state == State::RecordStart {
            self.state = next;
            let fields = Vec::new(self.alloc);
            return self.sink.take_record(Record { fields });
        }
        self.state = next;
        let record = self.partial.end()?;
        self.sink.take_record(record)
    }
}

impl<K: RecordSink> TendrilSink<StrTendril> for CsvReader<K> {
    ghost use Rattle.std.specs.Prelude.{◌≡◌, ◌++◌};
    ghost use Rattle.tendril.specs.Fmt.Parts.{IsFrontOf};
    ghost use Rattle.tendril.specs.SentBytes.{sent_bytes};
    ghost use Rattle.use_csv.specs.Spelled.{record_bytes, spelled_so_far, unmarked};

    type Output = K;

    ghost takes = { λ a e b. unmarked (spelled_so_far (K.records b.sink) b.partial)
        ≡ unmarked (spelled_so_far (K.records a.sink) a.partial ++ sent_bytes e) };

    ghost refuses = { λ a e r b. IsFrontOf (unmarked (record_bytes (K.records b.sink)))
        (unmarked (spelled_so_far (K.records a.sink) a.partial ++ sent_bytes e)) };

    ghost finishes = { λ a out. record_bytes (K.records out) ≡ spelled_so_far (K.records a.sink) a.partial };

    #[tactic(auto, using(crate::proofs::Fronts::front_of_step))]
    fn process(&mut self, text: StrTendril) -> Result<(), Refusal> {
        let mut rest = text;
        'parts: while !rest.is_empty() {
            self.take_part(&mut rest)?;
        }
        Ok(())
    }

    fn error(&mut self, _words: CowStr<'static>) -> Result<(), Refusal> {
        Ok(())
    }

    fn finish(self) -> Result<K, Refusal> {
        let CsvReader {
            mut sink,
            state,
            mut partial,
            ..
        } = self;
        let is_at_start = state == State::RecordStart || state == State::AfterReturn;
        if is_at_start && partial.is_empty() {
            return Ok(sink);
        }
        let record = partial.end()?;
        sink.take_record(record)?;
        Ok(sink)
    }
}

/// The sent records and the incomplete one spell the UTF-8 of the decoded characters, without quotes and line ends.
impl<K: RecordSink> Tracks<StrTendril> for CsvReader<K> {
    ghost use Rattle.std.specs.Prelude.{◌≡◌, [], encode_utf8_all};
    ghost use Rattle.tendril.specs.Lossy.{characters};
    ghost use Rattle.use_csv.specs.Follows.{unmarked_on};
    ghost use Rattle.use_csv.specs.Spelled.{spelled_so_far, unmarked};

    ghost after = { λ a told. unmarked (spelled_so_far (K.records a.sink) a.partial)
        ≡ unmarked (encode_utf8_all (characters told)) };

    ghost goes_on = { λ told a e b is_sent was call. unmarked_on [] told e
        (spelled_so_far (K.records a.sink) a.partial) (spelled_so_far (K.records b.sink) b.partial) is_sent was call };
}
