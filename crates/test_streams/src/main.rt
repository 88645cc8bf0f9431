//! Plays sessions of decoders and readers: files of rows `LINE => REPLY`. It prints each row whose reply differs, and
//! how much was played.
//!
//! - `play FILE..` plays each file over two kinds of block.
//! - `refuse FILE N` allocates N times, so that the allocation that fails can be chosen by its number, then plays the
//!   file. It prints how many rows got no memory.
#![tactic(auto)]

mod stream;

use std::fs::Files;
use std::io;
use std::process::ExitCode;
use std::rt::Env;
use stream::play_streams;
use tendril_block::AtomicUpTo;
use tendril_text::{Atomic, NonAtomic};
use test_rows::place::Counts;
use test_rows::player::{Plays, arguments, play_files, status_of};

const USAGE: &str = "test_streams play FILE.. | refuse FILE N";

/// Plays lines that decode and read.
#[derive(Clone, Copy)]
struct Streams;

impl Plays for Streams {
    fn play_text(
        &self,
        rt: &(impl Files + Print + AllocGlobal),
        file: &str,
        text: &str,
    ) -> io::Result<Counts> {
        if text.starts_with("# over three holders") {
            return play_streams::<AtomicUpTo<3>>(rt, file, text);
        }
        let mut counts = play_streams::<NonAtomic>(rt, file, text)?;
        counts.add_again(play_streams::<Atomic>(rt, file, text)?);
        Ok(counts)
    }
}

fn main(rt: HostRuntime) -> ExitCode {
    ExitCode::from(status_of(&rt, run(&rt), USAGE))
}

// Returns whether each reply was the expected one, or None for unknown words.
fn run(rt: &(impl Env + Files + Print + Eprint + AllocGlobal)) -> io::Result<Option<bool>> {
    let mut words = arguments(rt)?;
    match words.next() {
        Some(way) => play_files(rt, &Streams, way.as_str(), words),
        None => Ok(None),
    }
}
