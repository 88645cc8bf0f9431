//! Lines over a reader, and those that decode by one call.

use crate::stream::joined::text_of_file;
use crate::stream::reply::Reply;
use crate::stream::script::{Script, Step};
use crate::stream::{Decoder, Stream};
use std::fs::Files;
use std::mem;
use tendril_block::{Atomicity, Refusal};
use tendril_stream::{
    Counted, Event, ReadExt, Stopped, decode_pieces, decode_reader, read_decoded,
};
use test_rows::words::{Hex, number};

impl<A: Atomicity> Stream<A> {
    pub(super) fn give(&mut self, words: &str, reply: &mut Reply) -> Result<(), Refusal> {
        let bytes = self.bytes(words)?;
        self.step(Step::Give(bytes), reply)
    }

    pub(super) fn step(&mut self, step: Step, reply: &mut Reply) -> Result<(), Refusal> {
        self.script.push(step)?;
        reply.item("ok")
    }

    // The reader, which continues the last reading or begins with its first step.
    fn take_script(&mut self) -> Script {
        self.script.begin();
        mem::replace(&mut self.script, Script::new(self.alloc))
    }

    pub(super) fn read(&mut self, max_reads: u32, reply: &mut Reply) -> Result<(), Refusal> {
        let Some(decoder) = self.decoder.take() else {
            return reply.item("no decoder");
        };
        let mut script = self.take_script();
        let max_reads = u64::from(max_reads.saturating_sub(script.reads));
        let answer = read_decoded(
            self.alloc,
            decoder,
            &mut Counted::new(&mut script),
            max_reads,
        );
        self.script = script;
        match answer {
            Ok(sent) => {
                self.ended = sent;
                self.script.end();
                self.print(Ok(()), reply)
            }
            Err(stopped) => self.stopped(stopped, reply),
        }
    }

    fn stopped(&mut self, stopped: Stopped<Decoder<A>>, reply: &mut Reply) -> Result<(), Refusal> {
        let Stopped { refusal, sink } = stopped;
        self.decoder = sink;
        if refusal == Refusal::Memory {
            return Err(Refusal::Memory);
        }
        self.script.end();
        self.print(Err(refusal), reply)
    }

    pub(super) fn collect(&mut self, max_reads: u32, reply: &mut Reply) -> Result<(), Refusal> {
        let mut script = self.take_script();
        let max_reads = u64::from(max_reads.saturating_sub(script.reads));
        let before = script.len;
        let answer = Counted::new(&mut script).read_to_tendril(&mut self.text, max_reads);
        self.script = script;
        match answer {
            Ok(count) => reply.item(count.saturating_add(before))?,
            Err(Refusal::Memory) => return Err(Refusal::Memory),
            Err(refusal) => reply.refusal(refusal)?,
        }
        self.script.end();
        reply.item(Hex(self.text.as_byte_slice()))
    }

    // Decodes pieces by one call. If its sink runs out of memory, the line can be carried out again.
    pub(super) fn pieces(&mut self, words: &str, reply: &mut Reply) -> Result<(), Refusal> {
        let mut pieces = Vec::new(self.alloc);
        for word in words.split(' ') {
            pieces.push(self.text_of(word)?)?;
        }
        match decode_pieces(self.alloc, pieces) {
            Ok(events) => print_events(&events, reply),
            Err(_) => Err(Refusal::Memory),
        }
    }

    // Decodes a reader by one call. The reader then begins with its first step again.
    pub(super) fn decode(&mut self, max_reads: u32, reply: &mut Reply) -> Result<(), Refusal> {
        let mut script = self.take_script();
        let mut reader = Counted::new(&mut script);
        let answer = decode_reader::<A, _>(self.alloc, &mut reader, u64::from(max_reads));
        self.script = script;
        self.script.end();
        match answer {
            Ok(events) => print_events(&events, reply),
            Err(stopped) => decode_stopped(stopped.refusal, reply),
        }
    }

    pub(super) fn file(
        &mut self,
        files: &impl Files,
        words: &str,
        reply: &mut Reply,
    ) -> Result<(), Refusal> {
        let (path, max_reads) = words.split_once(' ').unwrap_or((words, ""));
        let max_reads = u64::from(number(max_reads)?);
        match text_of_file::<A>(files, self.alloc, path, max_reads) {
            Ok(text) => reply.text(&text),
            Err(refusal) => decode_stopped(refusal, reply),
        }
    }
}

fn print_events<A: Atomicity>(events: &[Event<A>], reply: &mut Reply) -> Result<(), Refusal> {
    for event in events.iter() {
        match event {
            Event::Text(text) => reply.text(text)?,
            Event::Error(words) => reply.item(words.as_str())?,
        }
    }
    Ok(())
}

// The sinks of these calls return an error only when they are out of memory.
fn decode_stopped(refusal: Refusal, reply: &mut Reply) -> Result<(), Refusal> {
    match refusal {
        Refusal::Memory | Refusal::SinkRefused => Err(Refusal::Memory),
        refusal => reply.refusal(refusal),
    }
}
