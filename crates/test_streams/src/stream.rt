//! Lines that decode and read.
//!
//! | Line | Effect and reply |
//! |---|---|
//! | `piece H` | the decoder processes a piece of these bytes: what was sent to its sink, and the error |
//! | `send` | the decoder processes the session's text, which is empty then: as `piece` |
//! | `error` | the caller sends an error `noise`: as `piece` |
//! | `end` | the decoder's end: as `piece` |
//! | `refusing K` | the sink returns an error from its call number K |
//! | `calls` | how many calls the sink had |
//! | `give H`, `interrupt`, `fail` | what the reader does next |
//! | `read N` | reads into the decoder, in at most N reads: what was sent to its sink, and the error |
//! | `collect N` | reads into the session's text: how many bytes, or the error, and then the text |
//! | `reads` | how many reads the last reading took |
//! | `decode N` | decodes the reader by `decode_reader`: all events, or the error |
//! | `pieces H H ..` | decodes these pieces by `decode_pieces`: all events |
//! | `file NAME N` | decodes a file: its text |
//! | `text H` | the session's text has these bytes |
//! | `hold N`, `release N` | clones of the session's text: N more, N fewer |
//! | `held` | the bytes of these clones |
//! | `lossy` | decodes the session's text by `decode_utf8_lossy`: the texts, which the session keeps, and what is kept or left |
//! | `lossy dropping` | as `lossy`, but each text is dropped at once: their number |
//! | `pop` | pops a text from the front of the session's text: the text, how that ended, and what is left |
//! | `kept H` | these bytes as an `IncompleteUtf8` |
//! | `complete K H` | completes kept bytes K from H: the text or the broken bytes, the remainder, and what is kept |
//! | `hand K H` | as `complete`, from a piece: the text that is sent |
//!
//! A long text is written by its bytes. After one that shares its block there is `shared`.

mod decoding;
mod incomplete;
mod joined;
mod reading;
mod recorder;
mod reply;
mod rows;
mod script;
mod text;

use recorder::{Calls, Recorder, Sent};
use reply::Reply;
pub use rows::play_streams;
use script::{Script, Step};
use std::alloc::Global;
use std::cell::Cell;
use std::fs::Files;
use std::rc::Rc;
use tendril_block::{Atomicity, Refusal};
use tendril_stream::Utf8LossyDecoder;
use tendril_text::Tendril;
use tendril_text::fmt::{Bytes, UTF8};
use test_rows::words::{number, read_bytes};

type Decoder<A> = Utf8LossyDecoder<Recorder<A>, A>;

/// The state of a session: a decoder, until its end, and what else its lines use.
#[derive(Drop)]
pub struct Stream<A: Atomicity> {
    alloc: Global,
    decoder: Option<Decoder<A>>,
    /// What was sent to the decoder's sink, after the decoder's end.
    ended: Vec<Sent<A>>,
    /// How many events were printed.
    printed: usize,
    calls: Rc<Cell<Calls>>,
    script: Script,
    text: Tendril<Bytes, A>,
    clones: Vec<Tendril<Bytes, A>>,
    texts: Vec<Tendril<UTF8, A>>,
}

impl<A: Atomicity> Stream<A> {
    pub fn new(alloc: Global) -> Result<Self, Refusal> {
        let calls = Rc::new(alloc, Cell::new(Calls::NONE))?;
        let recorder = Recorder::new(alloc, calls.clone()?);
        Ok(Stream {
            alloc,
            decoder: Some(Utf8LossyDecoder::new(alloc, recorder)),
            ended: Vec::new(alloc),
            printed: 0,
            calls,
            script: Script::new(alloc),
            text: Tendril::new(alloc),
            clones: Vec::new(alloc),
            texts: Vec::new(alloc),
        })
    }

    /// Carries out a line. If it gets no memory, nothing has changed but what was read, and the line can be carried out
    /// again.
    pub fn answer(
        &mut self,
        files: &impl Files,
        line: &str,
        reply: &mut Reply,
    ) -> Result<(), Refusal> {
        match self.carry_out(files, line, reply) {
            Err(Refusal::Invalid) => reply.item("malformed"),
            outcome => outcome,
        }
    }

    // Returns Invalid for a line that isn't in the table above.
    fn carry_out(
        &mut self,
        files: &impl Files,
        line: &str,
        reply: &mut Reply,
    ) -> Result<(), Refusal> {
        let (verb, words) = line.split_once(' ').unwrap_or((line, ""));
        match verb {
            "piece" => self.piece(words, reply),
            "refusing" => self.refusing(number(words)?, reply),
            "give" => self.give(words, reply),
            "read" => self.read(number(words)?, reply),
            "collect" => self.collect(number(words)?, reply),
            "decode" => self.decode(number(words)?, reply),
            "pieces" => self.pieces(words, reply),
            "file" => self.file(files, words, reply),
            "text" => self.set_text(words, reply),
            "hold" => self.hold(number(words)?, reply),
            "release" => self.release(number(words)?, reply),
            "kept" => self.kept(words, reply),
            "complete" => self.complete(words, reply),
            "hand" => self.hand(words, reply),
            _ => self.carry_out_word(line, reply),
        }
    }

    // Carries out a line that names no bytes and no number.
    fn carry_out_word(&mut self, line: &str, reply: &mut Reply) -> Result<(), Refusal> {
        match line {
            "send" => self.send(reply),
            "error" => self.error(reply),
            "end" => self.end(reply),
            "calls" => reply.item(self.calls.get().count),
            "interrupt" => self.step(Step::Interrupt, reply),
            "fail" => self.step(Step::Fail, reply),
            "reads" => reply.item(self.script.reads),
            "held" => self.held(reply),
            "lossy" => self.lossy(reply),
            "lossy dropping" => self.lossy_dropping(reply),
            "pop" => self.pop(reply),
            _ => Err(Refusal::Invalid),
        }
    }

    // The bytes that the words spell.
    fn bytes(&self, words: &str) -> Result<Vec<u8>, Refusal> {
        read_bytes(self.alloc, words)?.ok_or(Refusal::Invalid)
    }

    // A text of these bytes.
    fn text_of(&self, words: &str) -> Result<Tendril<Bytes, A>, Refusal> {
        Tendril::<Bytes, A>::from_slice(self.alloc, self.bytes(words)?.as_slice())
    }
}
