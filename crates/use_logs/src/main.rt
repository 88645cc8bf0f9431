//! Reads a log on standard input, and prints the paths that were requested most.
#![tactic(auto)]

mod batch;
mod count;
mod record;
mod report;
mod tally;
mod traffic;

use count::count_log;
use report::print_report;
use std::io::{self, BufWriter, Write};
use tendril::fmt::UTF8;
use tendril::stream::Counted;
use tendril::{Atomic, Tendril};

/// A text that may go to another thread.
type Text = Tendril<UTF8, Atomic>;

fn main(rt: HostRuntime) -> anyhow::Result<()> {
    let alloc = rt.alloc();
    let mut input = Counted::new(rt.stdin());
    let tally = count_log(&rt, alloc, &mut input)?;
    // `rt.stdout()` has no buffer: each write to it is a system call.
    let mut out = BufWriter::new(alloc, io::writer(&rt))?;
    print_report(alloc, &mut out, &tally)?;
    out.flush()?;
    Ok(())
}
