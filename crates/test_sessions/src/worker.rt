//! A session in one worker, in which an allocation may fail.

use crate::class::Counting;
use crate::lined::Lined;
use crate::slots::write_slots;
use std::alloc::Global;
use std::fs::Files;
use std::sync::Arc;
use std::sync::atomic::{AtomicBool, Ordering};
use std::thread::Threads;
use std::{fs, io};
use tendril_block::Refusal;
use tendril_lines::{Command, parse};
use tendril_run::{CommandTable, Gate, Job, Outcome, Reply, Table, run, run_tables};
use tendril_text::Atomic;
use test_rows::place::{Place, Row, compare, wrong};
use test_rows::player::out_of_memory;

/// Notes that the worker began a command.
#[derive(Drop)]
struct Begun(Arc<AtomicBool>);

impl Gate for Begun {
    fn before(&self, _command: usize) {
        self.0.store(true, Ordering::SeqCst);
    }
}

type Work = Job<Counting, Begun>;

/// Rows with their index in the file.
type Rows<'a> = Vec<(usize, Row<'a>)>;

/// The state before the worker was started.
#[derive(Drop)]
struct Before {
    table: Vec<u8>,
    begun: Arc<AtomicBool>,
}

impl Before {
    // Whether the table is as before, and no command was begun.
    fn is_as_it_was(&self, alloc: Global, table: &Table<Atomic>) -> io::Result<bool> {
        let mut now = Vec::new(alloc);
        write_slots(table, &mut now)?;
        Ok(now == self.table && !self.has_begun())
    }

    fn has_begun(&self) -> bool {
        self.begun.load(Ordering::SeqCst)
    }
}

/// Plays a file's only session, and prints how its job ended. The first row creates slot 0 before the worker is
/// started. Returns whether all is as expected.
pub fn play_in_worker(
    rt: &(impl Files + Print + AllocGlobal + Threads),
    file: &str,
) -> io::Result<bool> {
    let text = fs::read_to_string(rt, file)?;
    let place = Place::first(file);
    let begun = Arc::new(rt.alloc(), AtomicBool::new(false))?;
    let mut before = Before {
        table: Vec::new(rt.alloc()),
        begun: begun.clone()?,
    };
    let mut job = Job {
        table: Table::new(rt.alloc()),
        commands: Vec::new(rt.alloc()),
        class: Counting::new(),
        gate: Begun(begun),
    };
    let mut rows: Rows = Vec::new(rt.alloc());
    for (index, line) in text.as_str().lines().enumerate() {
        if let Some(row) = Row::read(line) {
            add_row(rt.alloc(), index, row, &mut job, &mut rows)?;
        }
    }
    write_slots(&job.table, &mut before.table)?;
    match start(rt, place, rows.as_slice(), &before, job)? {
        Some(ending) => {
            println!(rt; "{file}: {ending}")?;
            Ok(true)
        }
        None => wrong(rt, place, "the job", "another outcome"),
    }
}

// Carries out the first row, and adds the commands of the others to the job.
fn add_row<'a>(
    alloc: Global,
    index: usize,
    row: Row<'a>,
    job: &mut Work,
    rows: &mut Rows<'a>,
) -> io::Result<()> {
    if job.table.len() > 0 {
        add(alloc, index, row, rows, &mut job.commands)?;
        return Ok(());
    }
    let mut commands = Vec::new(alloc);
    add(alloc, index, row, rows, &mut commands)?;
    rows.clear();
    match run(&mut job.table, commands.as_slice(), &job.class) {
        Ok(_) if job.table.len() == 1 => Ok(()),
        _ => Err(out_of_memory(Refusal::Memory)),
    }
}

// Adds a row and its command.
fn add<'a>(
    alloc: Global,
    index: usize,
    row: Row<'a>,
    rows: &mut Rows<'a>,
    commands: &mut Vec<Command>,
) -> io::Result<()> {
    match parse::<Command>(alloc, row.line.as_bytes()).map_err(out_of_memory)? {
        Some(command) => commands.push(command)?,
        None => return Err(io::Error::from(io::ErrorKind::InvalidData)),
    }
    rows.push((index, row))?;
    Ok(())
}

// How a job ended, None if that isn't permitted.
fn start(
    rt: &(impl Print + AllocGlobal + Threads),
    place: Place,
    rows: &[(usize, Row)],
    before: &Before,
    job: Work,
) -> io::Result<Option<&'static str>> {
    let mut jobs = Vec::new(rt.alloc());
    jobs.push(job)?;
    match run_tables(rt, rt.alloc(), jobs) {
        Ok(mut outcomes) => match outcomes.pop() {
            Some(outcome) => ended(rt, place, rows, before, outcome),
            None => Ok(None),
        },
        Err((_, jobs)) => handed_back(rt, place, rows, before, jobs),
    }
}

fn ended(
    rt: &(impl Print + AllocGlobal),
    place: Place,
    rows: &[(usize, Row)],
    before: &Before,
    outcome: Outcome,
) -> io::Result<Option<&'static str>> {
    let (as_expected, ending) = match outcome {
        Outcome::Done(_, replies) => return done(rt, place, rows, replies.as_slice()),
        Outcome::Refused(table, refusal) => (
            refusal == Refusal::Memory && before.is_as_it_was(rt.alloc(), &table)?,
            "no memory for the replies",
        ),
        Outcome::NotStarted => (!before.has_begun(), "not started"),
    };
    Ok(if as_expected { Some(ending) } else { None })
}

// `run_tables` returned the job. It must be as before, and be done when it is started again.
fn handed_back(
    rt: &(impl Print + AllocGlobal + Threads),
    place: Place,
    rows: &[(usize, Row)],
    before: &Before,
    jobs: Vec<Work>,
) -> io::Result<Option<&'static str>> {
    let came_back = match jobs.as_slice() {
        [job] => {
            job.commands.len() == rows.len() && before.is_as_it_was(rt.alloc(), &job.table)?
        }
        _ => false,
    };
    if !came_back {
        return Ok(None);
    }
    let Ok(mut outcomes) = run_tables(rt, rt.alloc(), jobs) else {
        return Ok(None);
    };
    match outcomes.pop() {
        Some(Outcome::Done(_, replies)) => {
            Ok(done(rt, place, rows, replies.as_slice())?.map(|_| "handed back"))
        }
        _ => Ok(None),
    }
}

// All replies must be the expected ones, up to one for a command that got no memory.
fn done(
    rt: &(impl Print + AllocGlobal),
    place: Place,
    rows: &[(usize, Row)],
    replies: &[Reply],
) -> io::Result<Option<&'static str>> {
    let refused = replies.iter().position(got_no_memory);
    let count = refused.unwrap_or(replies.len());
    let mut right = replies.len() == rows.len();
    for ((index, row), reply) in rows.iter().zip(replies).take(count) {
        let reply = Table::<Atomic>::print(rt.alloc(), reply).map_err(out_of_memory)?;
        right = compare(rt, place.down(*index), *row, reply.as_str())? && right;
    }
    let ending = match refused {
        Some(_) => "no memory for a command",
        None => "done",
    };
    Ok(if right { Some(ending) } else { None })
}

fn got_no_memory(reply: &Reply) -> bool {
    Table::<Atomic>::got_no_memory(reply)
}
