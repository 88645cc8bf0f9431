//! Reads CSV on standard input to its end, then prints each record: how many fields it has, and each field in quotes.
#![tactic(auto)]

mod partial;
mod print;
mod read;
mod reader;
mod record;

use anyhow::Context;
use print::print_records;
use read::read_records;
use record::Record;
use std::io::{self, BufWriter, Write};
use tendril::stream::Counted;

/// The maximal number of reads.
const MOST_READS: u64 = 1_000_000_000;

fn main(rt: HostRuntime) -> anyhow::Result<()> {
    let alloc = rt.alloc();
    let records: Vec<Record> = Vec::new(alloc);
    let mut input = Counted::new(rt.stdin());
    let records = read_records(alloc, records, &mut input, MOST_READS).context("standard input")?;
    // `rt.stdout()` has no buffer: each write to it is a system call.
    let mut out = BufWriter::new(alloc, io::writer(&rt))?;
    print_records(&mut out, records.as_slice())?;
    out.flush()?;
    Ok(())
}
