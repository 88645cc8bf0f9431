//! A sink that stores what is sent to it, and may return an error from one of its calls.

use std::alloc::Global;
use std::borrow::CowStr;
use std::cell::Cell;
use std::rc::Rc;
use tendril_block::{Atomicity, Refusal};
use tendril_stream::TendrilSink;
use tendril_text::Tendril;
use tendril_text::fmt::UTF8;

/// What one call sent to the sink.
#[derive(Drop)]
pub enum Sent<A: Atomicity> {
    Text(Tendril<UTF8, A>),
    Error(Words),
}

/// The words of an error.
#[derive(Clone, Copy)]
pub enum Words {
    Invalid,
    Incomplete,
    /// The words of the line `error`.
    Noise,
    Other,
}

impl Words {
    fn new(words: &str) -> Self {
        match words {
            "invalid byte sequence" => Words::Invalid,
            "incomplete byte sequence at end of stream" => Words::Incomplete,
            "noise" => Words::Noise,
            _ => Words::Other,
        }
    }

    pub fn as_str(self) -> &'static str {
        match self {
            Words::Invalid => "invalid byte sequence",
            Words::Incomplete => "incomplete byte sequence at end of stream",
            Words::Noise => "noise",
            Words::Other => "other words",
        }
    }
}

/// The calls of a sink, its end included. They can be read even after the sink was dropped.
#[derive(Clone, Copy)]
pub struct Calls {
    pub count: u32,
    /// Whether there was no memory to store what a call sent.
    pub is_out_of_memory: bool,
}

impl Calls {
    pub const NONE: Self = Calls {
        count: 0,
        is_out_of_memory: false,
    };
}

/// A sink that stores what is sent. Call number `refused` returns Memory and stores nothing; there is no call number 0.
#[derive(Drop)]
pub struct Recorder<A: Atomicity> {
    pub sent: Vec<Sent<A>>,
    pub refused: u32,
    calls: Rc<Cell<Calls>>,
}

impl<A: Atomicity> Recorder<A> {
    pub fn new(alloc: Global, calls: Rc<Cell<Calls>>) -> Self {
        Recorder {
            sent: Vec::new(alloc),
            refused: 0,
            calls,
        }
    }

    fn call(&mut self) -> Result<(), Refusal> {
        let mut calls = self.calls.get();
        calls.count = calls.count.saturating_add(1);
        self.calls.set(calls);
        if calls.count == self.refused {
            return Err(Refusal::Memory);
        }
        Ok(())
    }

    fn push(&mut self, sent: Sent<A>) -> Result<(), Refusal> {
        if self.sent.push(sent).is_ok() {
            return Ok(());
        }
        let mut calls = self.calls.get();
        calls.is_out_of_memory = true;
        self.calls.set(calls);
        Err(Refusal::Memory)
    }
}

impl<A: Atomicity> TendrilSink<Tendril<UTF8, A>> for Recorder<A> {
    type Output = Vec<Sent<A>>;

    fn process(&mut self, text: Tendril<UTF8, A>) -> Result<(), Refusal> {
        self.call()?;
        self.push(Sent::Text(text))
    }

    fn error(&mut self, words: CowStr<'static>) -> Result<(), Refusal> {
        self.call()?;
        self.push(Sent::Error(Words::new(words.as_str())))
    }

    fn finish(mut self) -> Result<Vec<Sent<A>>, Refusal> {
        self.call()?;
        Ok(self.sent)
    }
}
