//! A reader that does what lines say.

use std::alloc::{AllocError, Global};
use std::io::{self, Error, ErrorKind, Read};

/// What a read does.
#[derive(Drop)]
pub enum Step {
    Interrupt,
    Fail,
    /// Gives these bytes, in several reads if one read isn't offered as many.
    Give(Vec<u8>),
}

/// A reader that takes one step after another, and then is at its end.
#[derive(Drop)]
pub struct Script {
    steps: Vec<Step>,
    /// How many steps were taken.
    taken: usize,
    /// How many bytes of the next step were given already.
    given: usize,
    /// How many reads there were.
    pub reads: u32,
    /// How many bytes were read.
    pub len: usize,
    is_done: bool,
}

impl Script {
    pub fn new(alloc: Global) -> Self {
        Script {
            steps: Vec::new(alloc),
            taken: 0,
            given: 0,
            reads: 0,
            len: 0,
            is_done: false,
        }
    }

    pub fn push(&mut self, step: Step) -> Result<(), AllocError> {
        self.steps.push(step)?;
        Ok(())
    }

    /// Begins with the first step again, if the last reading has ended.
    pub fn begin(&mut self) {
        if self.is_done {
            self.taken = 0;
            self.given = 0;
            self.reads = 0;
            self.len = 0;
            self.is_done = false;
        }
    }

    /// Ends the reading.
    pub fn end(&mut self) {
        self.is_done = true;
    }

    fn take_step(&mut self) {
        self.taken = self.taken.saturating_add(1);
        self.given = 0;
    }
}

impl Read for Script {
    fn read(&mut self, buf: &mut [u8]) -> io::Result<usize> {
        self.reads = self.reads.saturating_add(1);
        match self.steps.get(self.taken) {
            None => Ok(0),
            Some(Step::Interrupt) => {
                self.take_step();
                Err(Error::from(ErrorKind::Interrupted))
            }
            Some(Step::Fail) => {
                self.take_step();
                Err(Error::from(ErrorKind::BrokenPipe))
            }
            Some(Step::Give(bytes)) => {
                let left = bytes.get(self.given..).unwrap_or(&[]);
                let count = left.len().min(buf.len());
                buf[..count].copy_from_slice(&left[..count]);
                if count == left.len() {
                    self.take_step();
                } else {
                    self.given = self.given.saturating_add(count);
                }
                self.len = self.len.saturating_add(count);
                Ok(count)
            }
        }
    }
}
