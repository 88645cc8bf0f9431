//! Plays sessions of tables: files of rows `LINE => REPLY`. It prints each row whose reply differs, and how much was
//! played.
//!
//! - `play FILE..` plays each file over two kinds of block.
//! - `refuse FILE N` allocates N times, so that the allocation that fails can be chosen by its number, then plays the
//!   file row by row. It prints how many rows got no memory.
//! - `worker FILE` plays the file's only session in a worker, and prints how the job ended.
#![tactic(auto)]

mod calls;
mod class;
mod kinds;
mod lined;
mod notes;
mod own;
mod rope_lines;
mod rows;
mod slots;
mod worker;

use rope::RopeTable;
use rows::{play_rows, play_twice};
use std::fs::Files;
use std::io;
use std::process::ExitCode;
use std::rt::Env;
use std::thread::Threads;
use tendril_block::AtomicUpTo;
use tendril_run::Table;
use tendril_text::{Atomic, NonAtomic};
use test_rows::place::Counts;
use test_rows::player::{Plays, arguments, play_files, status_of, told};
use worker::play_in_worker;

type Three = AtomicUpTo<3>;

const USAGE: &str = "test_sessions play FILE.. | refuse FILE N | worker FILE";

/// Plays commands, and lines over texts.
#[derive(Clone, Copy)]
struct Sessions;

impl Plays for Sessions {
    fn play_text(
        &self,
        rt: &(impl Files + Print + AllocGlobal),
        file: &str,
        text: &str,
    ) -> io::Result<Counts> {
        match text.lines().next() {
            Some("# over three holders") => play_rows::<Table<Three>>(rt, file, text),
            Some("# with ropes") => {
                play_twice::<RopeTable<NonAtomic>, RopeTable<Atomic>>(rt, file, text)
            }
            Some("# with ropes over three holders") => {
                play_rows::<RopeTable<Three>>(rt, file, text)
            }
            _ => play_twice::<Table<NonAtomic>, Table<Atomic>>(rt, file, text),
        }
    }
}

fn main(rt: HostRuntime) -> ExitCode {
    ExitCode::from(status_of(&rt, run(&rt), USAGE))
}

// Returns whether each reply was the expected one, or None for unknown words.
fn run(
    rt: &(impl Env + Files + Print + Eprint + AllocGlobal + Threads),
) -> io::Result<Option<bool>> {
    let mut words = arguments(rt)?;
    match words.next() {
        Some(way) if way.as_str() == "worker" => match words.next() {
            Some(file) => {
                let right = told(rt, file.as_str(), play_in_worker(rt, file.as_str()))?;
                Ok(Some(right))
            }
            None => Ok(None),
        },
        Some(way) => play_files(rt, &Sessions, way.as_str(), words),
        None => Ok(None),
    }
}
