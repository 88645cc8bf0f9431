//! What is counted: the requests and bytes of each path.
ghost use Rattle.std.specs.Prelude.{◌≡◌, ◌+◌, length, IfOk, OnOk};
ghost use Rattle.use_logs.specs.Totals.{lines_of, requests_of, sizes_of};

use crate::Text;
use crate::batch::Batch;
use crate::record::Record;
use crate::traffic::{Traffic, sum};
use std::alloc::Global;
use std::collections::HashMap;
use tendril::block::Refusal;

/// The traffic of each path, and the numbers of malformed lines and of broken sequences that were replaced.
#[derive(Drop)]
pub struct Tally {
    pub paths: HashMap<Text, Traffic>,
    pub malformed: u64,
    pub replaced: u64,
}

impl Tally {
    /// Creates a tally of no lines.
    pub fn new(alloc: Global) -> Self
        ensures { lines_of result ≡ 0 }
    {
        Tally {
            paths: HashMap::new(alloc),
            malformed: 0,
            replaced: 0,
        }
    }

    /// Counts each line of a batch, and returns the tally.
    pub fn count_all(self, batch: Batch) -> anyhow::Result<Tally>
        ensures lines { IfOk result (λ all. lines_of all ≡ lines_of self + length batch.lines.items) }
        ensures replaced { IfOk result (λ all. all.replaced ≡ self.replaced + batch.replaced) }
    {
        let mut tally = self;
        tally.replaced = sum(tally.replaced, batch.replaced)?;
        for line in batch.lines {
            tally.count_line(line)?;
        }
        Ok(tally)
    }

    /// Counts a line.
    pub fn count_line(&mut self, line: Text) -> anyhow::Result<()>
        ensures lines { OnOk result (lines_of self.new ≡ lines_of self.old + 1) }
        ensures replaced { self.new.replaced ≡ self.old.replaced }
    {
        match read_request(line)? {
            Some((path, bytes)) => self.add(path, Traffic { requests: 1, bytes }),
            None => {
                self.malformed = sum(self.malformed, 1)?;
                Ok(())
            }
        }
    }

    /// Adds what another tally counted.
    pub fn merge(&mut self, other: Tally) -> anyhow::Result<()>
        ensures requests { OnOk result (requests_of self.new ≡ requests_of self.old + requests_of other) }
        ensures bytes { OnOk result (sizes_of self.new ≡ sizes_of self.old + sizes_of other) }
        ensures malformed { OnOk result (self.new.malformed ≡ self.old.malformed + other.malformed) }
        ensures replaced { OnOk result (self.new.replaced ≡ self.old.replaced + other.replaced) }
    {
        let Tally {
            paths,
            malformed,
            replaced,
        } = other;
        self.malformed = sum(self.malformed, malformed)?;
        self.replaced = sum(self.replaced, replaced)?;
        for (path, traffic) in paths {
            self.add(path, traffic)?;
        }
        Ok(())
    }

    // Adds traffic of a path. A new path is compacted, since it is kept longer than its line.
    fn add(&mut self, mut path: Text, more: Traffic) -> anyhow::Result<()>
        ensures sums { OnOk result ((requests_of self.new ≡ requests_of self.old + more.requests)
            × (sizes_of self.new ≡ sizes_of self.old + more.bytes)) }
        ensures malformed { self.new.malformed ≡ self.old.malformed }
        ensures replaced { self.new.replaced ≡ self.old.replaced }
    {
        if let Some(traffic) = self.paths.get_mut(&path) {
            *traffic = traffic.plus(more)?;
            return Ok(());
        }
        path.compact()?;
        self.paths.insert(path, more)?;
        Ok(())
    }
}

// The path of a line, and how many bytes were sent; None if it is malformed.
fn read_request(line: Text) -> Result<Option<(Text, u64)>, Refusal> {
    let Some(record) = Record::from_line(line.without_line_ending())? else {
        return Ok(None);
    };
    let Some(bytes) = record.size_if_well_formed() else {
        return Ok(None);
    };
    Ok(Some((record.path()?, bytes)))
}
