//! Where a row is, and what is printed about it.

use std::fmt::Display;
use std::io;

/// A row of a file.
#[derive(Clone, Copy)]
pub struct Place<'a> {
    pub file: &'a str,
    pub line: usize,
}

impl<'a> Place<'a> {
    /// The first row of a file.
    pub fn first(file: &'a str) -> Self {
        Place { file, line: 1 }
    }

    /// The place that is `lines` further down.
    pub fn down(self, lines: usize) -> Self {
        Place {
            line: self.line.saturating_add(lines),
            ..self
        }
    }

    /// Where the session after this one begins.
    pub fn after(self, session: &str) -> Self {
        self.down(session.lines().count().saturating_add(1))
    }
}

/// A row: `LINE => REPLY`, or `repeat N LINE => REPLY` for N such rows.
#[derive(Clone, Copy)]
pub struct Row<'a> {
    pub line: &'a str,
    pub expected: &'a str,
    pub times: u32,
}

impl<'a> Row<'a> {
    /// Reads a row. Returns None if it has no reply.
    pub fn read(row: &'a str) -> Option<Self> {
        let (line, expected) = row.split_once(" => ")?;
        let (times, line) = repeated(line).unwrap_or((1, line));
        Some(Row {
            line,
            expected,
            times,
        })
    }
}

fn repeated(line: &str) -> Option<(u32, &str)> {
    let (times, line) = line.strip_prefix("repeat ")?.split_once(' ')?;
    Some((times.parse::<u32>().ok()?, line))
}

/// How much of a file was played.
#[derive(Clone, Copy)]
pub struct Counts {
    sessions: usize,
    rows: usize,
    refused: usize,
    wrong: usize,
}

impl Counts {
    pub fn none() -> Self {
        Counts {
            sessions: 0,
            rows: 0,
            refused: 0,
            wrong: 0,
        }
    }

    pub fn add_session(&mut self) {
        self.sessions = self.sessions.saturating_add(1);
    }

    pub fn add_row(&mut self) {
        self.rows = self.rows.saturating_add(1);
    }

    /// A row got no memory.
    pub fn add_refused(&mut self) {
        self.refused = self.refused.saturating_add(1);
    }

    /// A row's reply differed from the expected one.
    pub fn add_wrong(&mut self) {
        self.wrong = self.wrong.saturating_add(1);
    }

    /// Adds the counts of rows without memory and of wrong rows of the second play.
    pub fn add_again(&mut self, again: Counts) {
        self.refused = self.refused.saturating_add(again.refused);
        self.wrong = self.wrong.saturating_add(again.wrong);
    }

    pub fn all_right(&self) -> bool {
        self.wrong == 0
    }

    /// Prints how much was played.
    pub fn print_played(&self, rt: &impl Print, file: &str) -> io::Result<()> {
        println!(rt; "{file}: {} sessions, {} rows", self.sessions, self.rows)
    }

    /// Prints how many rows got no memory.
    pub fn print_refused(&self, rt: &impl Print, file: &str) -> io::Result<()> {
        println!(rt; "{file}: {} refused", self.refused)
    }
}

/// Returns whether the reply is the expected one, and prints both if not.
pub fn compare(rt: &impl Print, place: Place, row: Row, reply: &str) -> io::Result<bool> {
    if reply == row.expected {
        return Ok(true);
    }
    print_place(rt, place)?;
    println!(rt; "    {} => {reply}", row.line)?;
    println!(rt; "    expected {}", row.expected)?;
    Ok(false)
}

/// Prints what is wrong with a row. Returns false, as `compare` does for a wrong reply.
pub fn wrong<D: Display + Drop>(
    rt: &impl Print,
    place: Place,
    row: &str,
    why: D,
) -> io::Result<bool> {
    print_place(rt, place)?;
    println!(rt; "    {row}: {why}")?;
    Ok(false)
}

fn print_place(rt: &impl Print, place: Place) -> io::Result<()> {
    println!(rt; "{}:{}", place.file, place.line)
}
