//! A sink of texts that splits them into tokens.
ghost use Rattle.std.specs.Prelude.{◌≡◌, ◌<◌, ◌≤◌, ◌+◌, ◌++◌, [], length, slice_index};
ghost use Rattle.std.specs.Prelude.{IfOk, IsFalse, IsTrue, OnOk, OnErr};
ghost use Rattle.use_tokens.specs.Spelled.{TokenizerStep, TokensSpell, untaken};

use crate::joined::{append, begun_text, joined};
use crate::markup::Markup;
use crate::state::State;
use crate::token::{Token, TokenKind, TokenSink};
use std::alloc::Global;
use std::borrow::CowStr;
use std::mem;
use tendril::StrTendril;
use tendril::block::Refusal;
use tendril::stream::{TendrilSink, Tracks};
use tendril_queue::TextQueue;

/// A sink that splits the texts sent to it into tokens, as the first states of HTML's tokenization do.
///
/// A token of text ends at the latest where a sent text ends, as in html5ever; markup is one token, even across texts.
/// Tokens of more than 8 bytes share the block of their text, except markup across texts that aren't adjacent in one
/// block.
#[derive(Drop)]
pub struct Tokenizer<K: TokenSink> {
    sink: K,
    alloc: Global,
    // What was sent and isn't processed yet.
    input: TextQueue,
    state: State,
}

impl<K: TokenSink> Tokenizer<K> {
    /// Creates a tokenizer that was sent nothing.
    pub fn new(alloc: Global, sink: K) -> Self
        ensures sink { result.sink ≡ sink }
        ensures input { result.input.bytes ≡ [] }
        ensures state { result.state ≡ State.Outside }
    {
        Tokenizer {
            sink,
            alloc,
            input: TextQueue::new(alloc),
            state: State::Outside,
        }
    }

    /// Returns the sink of the tokens.
    pub fn sink(&self) -> &K
        ensures { result.now ≡ self.now.sink }
    {
        &self.sink
    }

    // Takes the next token or incomplete markup off a text, or off the next one of the input if the text is empty.
    // Returns false if that needs more input.
    fn take_part(&mut self, text: &mut StrTendril) -> Result<bool, Refusal>
        ensures { TokenizerStep (K.tokens self.old.sink) self.old.state text.old.bytes self.old.input
            result (K.tokens self.new.sink) self.new.state text.new.bytes self.new.input }
    {
        if !self.refill(text) {
            return Ok(false);
        }
        if matches!(&self.state, State::Outside) {
            return self.take_text(text);
        }
        match mem::replace(&mut self.state, State::Outside) {
            State::Outside => unreachable!(),
            State::Inside { markup, begun } => self.take_markup(begun, markup, text, 0),
        }
    }

    // Replaces an empty text by the next one of the input. Returns false if there is none.
    fn refill(&mut self, text: &mut StrTendril) -> bool
        ensures bytes { text.new.bytes ++ self.new.input.bytes ≡ text.old.bytes ++ self.old.input.bytes }
        ensures len { length text.new.bytes + length self.new.input.bytes
            ≡ length text.old.bytes + length self.old.input.bytes }
        ensures some { IsTrue result → 0 < length text.new.bytes }
        ensures none { IsFalse result → text.new.bytes ≡ [] }
        ensures sink { self.new.sink ≡ self.old.sink }
        ensures state { self.new.state ≡ self.old.state }
    {
        if !text.is_empty() {
            return true;
        }
        let Some(next) = self.input.pop_front() else {
            return false;
        };
        *text = next;
        true
    }

    // Takes the bytes before the next `<` in a text, or what begins with the `<`.
    fn take_text(&mut self, text: &mut StrTendril) -> Result<bool, Refusal>
        requires outside { self.old.state ≡ State.Outside }
        requires some { 0 < length text.old.bytes }
        ensures { TokenizerStep (K.tokens self.old.sink) self.old.state text.old.bytes self.old.input
            result (K.tokens self.new.sink) self.new.state text.new.bytes self.new.input }
    {
        let _is_utf8 = text.as_str();
        match text.find_byte(b'<') {
            Some(0) => self.take_open(text),
            Some(count) => {
                let front = text.split_to(count)?;
                self.send_text(front)
            }
            None => {
                let front = text.take();
                self.send_text(front)
            }
        }
    }

    // Takes markup, up to its end or that of the text, or only the `<` if it begins no markup.
    fn take_open(&mut self, text: &mut StrTendril) -> Result<bool, Refusal>
        requires outside { self.old.state ≡ State.Outside }
        requires some { 0 < length text.old.bytes }
        requires open { slice_index text.old.bytes 0 ≡ 60 }
        ensures { TokenizerStep (K.tokens self.old.sink) self.old.state text.old.bytes self.old.input
            result (K.tokens self.new.sink) self.new.state text.new.bytes self.new.input }
    {
        if text.len32() == 1 {
            return self.take_last_open(text);
        }
        match Markup::opened_by(text.as_byte_slice()[1]) {
            Some(markup) => self.take_markup(StrTendril::new(self.alloc), markup, text, 2),
            None => {
                let open = text.split_to(1)?;
                self.send_text(open)
            }
        }
    }

    // Takes a `<` at the end of a text, if the next text is there: it decides whether the `<` begins markup. Else the
    // `<` returns to the input.
    fn take_last_open(&mut self, text: &mut StrTendril) -> Result<bool, Refusal>
        requires outside { self.old.state ≡ State.Outside }
        requires some { 0 < length text.old.bytes }
        ensures { TokenizerStep (K.tokens self.old.sink) self.old.state text.old.bytes self.old.input
            result (K.tokens self.new.sink) self.new.state text.new.bytes self.new.input }
    {
        let begun = text.take();
        let Some(next) = self.input.pop_front() else {
            self.input.push_front(begun)?;
            return Ok(false);
        };
        *text = next;
        match Markup::opened_by(text.as_byte_slice()[0]) {
            Some(markup) => self.take_markup(begun, markup, text, 1),
            None => self.send_text(begun),
        }
    }

    // Takes markup up to its end or that of the text. `begun` are its bytes in earlier texts. The first `start` bytes
    // of this text belong to it in any case.
    fn take_markup(
        &mut self,
        mut begun: StrTendril,
        markup: Markup,
        text: &mut StrTendril,
        start: usize,
    ) -> Result<bool, Refusal>
        requires outside { self.old.state ≡ State.Outside }
        requires some { 0 < length text.old.bytes }
        requires within { start ≤ length text.old.bytes }
        ensures ok { OnOk result (TokensSpell (K.tokens self.old.sink)
            (begun.bytes ++ (text.old.bytes ++ self.old.input.bytes))
            (K.tokens self.new.sink) (untaken self.new.state text.new.bytes self.new.input)) }
        ensures shorter { IfOk result (λ more. length text.new.bytes + length self.new.input.bytes
            < length text.old.bytes + length self.old.input.bytes) }
        ensures more { IfOk result IsTrue }
        ensures err { OnErr result (K.tokens self.new.sink ≡ K.tokens self.old.sink) }
    {
        match markup.scan(text.as_byte_slice(), start) {
            (last, Some(count)) => {
                let end = text.split_to(count as u32)?;
                append(&mut begun, end)?;
                let kind = TokenKind::of_markup(last, &begun)?;
                self.send(kind, begun)?;
            }
            (markup, None) => {
                append(&mut begun, text.take())?;
                self.state = State::Inside { markup, begun };
            }
        }
        Ok(true)
    }

    // Sends a token, unless its source is empty. Inlined, as is what makes a token, so that its words go from registers
    // to the sink.
    #[inline(always)]
    fn send(&mut self, kind: TokenKind, source: StrTendril) -> Result<(), Refusal>
        ensures ok { OnOk result (TokensSpell (K.tokens self.old.sink) source.bytes (K.tokens self.new.sink) []) }
        ensures state { self.new.state ≡ self.old.state }
        ensures input { self.new.input ≡ self.old.input }
        ensures err { OnErr result (K.tokens self.new.sink ≡ K.tokens self.old.sink) }
    {
        if source.is_empty() {
            return Ok(());
        }
        self.sink.process_token(Token { kind, source })
    }

    // Sends a token of text, and returns true.
    #[inline(always)]
    fn send_text(&mut self, source: StrTendril) -> Result<bool, Refusal>
        ensures ok { OnOk result (TokensSpell (K.tokens self.old.sink) source.bytes (K.tokens self.new.sink) []) }
        ensures more { IfOk result IsTrue }
        ensures state { self.new.state ≡ self.old.state }
        ensures input { self.new.input ≡ self.old.input }
        ensures err { OnErr result (K.tokens self.new.sink ≡ K.tokens self.old.sink) }
    {
        self.send(TokenKind::Text, source)?;
        Ok(true)
    }
}

impl<K: TokenSink> TendrilSink<StrTendril> for Tokenizer<K> {
    ghost use Rattle.std.specs.Prelude.{◌<◌, ◌++◌, [], length};
    ghost use Rattle.tendril.specs.SentBytes.{sent_bytes};
    ghost use Rattle.use_tokens.specs.Spelled.{TokensSpell, TokensSpellPrefix, pending};

    type Output = K;

    ghost takes = { λ a e b. TokensSpell (K.tokens a.sink) (pending a.state a.input ++ sent_bytes e)
        (K.tokens b.sink) (pending b.state b.input) };

    ghost refuses = { λ a e r b. TokensSpellPrefix (K.tokens a.sink) (pending a.state a.input ++ sent_bytes e)
        (K.tokens b.sink) };

    ghost finishes = { λ a out. TokensSpell (K.tokens a.sink) (pending a.state a.input) (K.tokens out) [] };

    ghost ends = { λ a r. 0 < length (pending a.state a.input) };

    fn process(&mut self, text: StrTendril) -> Result<(), Refusal> {
        self.input.push_back(text)?;
        let mut text = StrTendril::new(self.alloc);
        'parts: while self.take_part(&mut text)? {}
        Ok(())
    }

    fn error(&mut self, _words: CowStr<'static>) -> Result<(), Refusal> {
        Ok(())
    }

    fn finish(self) -> Result<K, Refusal> {
        let mut sink = self.sink;
        let source = joined(begun_text(self.alloc, self.state), self.input)?;
        if source.is_empty() {
            return Ok(sink);
        }
        let kind = TokenKind::Cut;
        sink.process_token(Token { kind, source })?;
        Ok(sink)
    }
}

/// The sources of the sent tokens, followed by the pending bytes, are the UTF-8 of the decoded characters.
impl<K: TokenSink> Tracks<StrTendril> for Tokenizer<K> {
    ghost use Rattle.std.specs.Prelude.{◌≡◌, ◌++◌, [], encode_utf8_all};
    ghost use Rattle.tendril.specs.Lossy.{characters};
    ghost use Rattle.use_tokens.specs.Follows.{spelled_on};
    ghost use Rattle.use_tokens.specs.Spelled.{pending, joined_sources};

    ghost after = { λ a told. joined_sources (K.tokens a.sink) ++ pending a.state a.input
        ≡ encode_utf8_all (characters told) };

    ghost goes_on = { λ told a e b is_sent was call. spelled_on [] told e (K.tokens a.sink) (pending a.state a.input)
        (K.tokens b.sink) (pending b.state b.input) is_sent was call };
}
