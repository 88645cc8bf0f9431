//! Counts a log in two threads.

use crate::batch::Batch;
use crate::tally::Tally;
use anyhow::Context;
use std::alloc::Global;
use std::thread::{JoinHandle, Threads};
use std::{mem, thread};
use tendril::stream::{CountedRead, Lines, TendrilSink, Utf8LossyDecoder, read_once};

/// The number of reads, of at most 4096 bytes each, whose lines are counted together.
const READS: u64 = 64;

/// Reads a log to its end, while two threads count its lines.
///
/// Returns an error if a read fails, a thread can't be started, a sum doesn't fit into 64 bits, memory runs out, or a
/// block has as many references as it can have.
pub fn count_log<R: Threads, I: CountedRead>(
    rt: &R,
    alloc: Global,
    input: &mut I,
) -> anyhow::Result<Tally> {
    let mut decoder = Utf8LossyDecoder::new(alloc, Lines::new(alloc, Batch::new(alloc)));
    let mut older = start(rt, Tally::new(alloc), Batch::new(alloc))?;
    let mut newer = start(rt, Tally::new(alloc), Batch::new(alloc))?;
    for reads in 1..u64::MAX {
        if read_once(alloc, &mut decoder, input).context("standard input")? {
            break;
        }
        if reads % READS == 0 {
            let sink = &mut decoder.inner_sink_mut().inner_sink;
            let batch = mem::replace(sink, Batch::new(alloc));
            let tally = older.join(rt)?;
            older = newer;
            newer = start(rt, tally, batch)?;
        }
    }
    let mut tally = older.join(rt)?;
    tally.merge(newer.join(rt)?)?;
    tally.count_all(decoder.finish()?)
}

// Starts a thread that counts a batch.
fn start<R: Threads>(
    rt: &R,
    tally: Tally,
    batch: Batch,
) -> anyhow::Result<JoinHandle<anyhow::Result<Tally>>> {
    thread::spawn(rt, move || tally.count_all(batch)).context("a thread can't be started")
}
