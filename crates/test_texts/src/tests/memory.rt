//! The memory of the process.

use crate::notes::Notes;
use std::fs::{self, Files};
use std::test::Fail;
use tendril::{ByteTendril, Tendril, slice_to_tendril};

// The resident memory of the process in pages, as Linux reports it, else 0.
fn resident_pages(rt: &(impl Files + AllocGlobal)) -> u64 {
    match fs::read_to_string(rt, "/proc/self/statm") {
        Ok(text) => match text.split(' ').nth(1) {
            Some(pages) => pages.parse::<u64>().unwrap_or(0),
            None => 0,
        },
        Err(_) => 0,
    }
}

// Pushes and pops alternately.
fn turn(notes: &mut Notes, queue: &mut ByteTendril, times: usize) {
    for row in 0..times {
        notes.done(row, queue.push_slice(b"01234567"));
        notes.done(row, queue.try_pop_front(8));
    }
}

#[test]
fn a_queue_holds_no_more_memory_the_longer_it_runs(rt: HostRuntime) -> Result<(), Fail> {
    let mut notes = Notes::new();
    let made = slice_to_tendril(rt.alloc(), &[b'x'; 128]);
    let mut queue: ByteTendril = notes.or(0, made, Tendril::new(rt.alloc()));
    turn(&mut notes, &mut queue, 1000);
    let before = resident_pages(&rt);
    turn(&mut notes, &mut queue, 1_000_000);
    notes.same(1, queue.len32(), 128);
    notes.holds(2, before > 0, "Linux reports the resident pages");
    // All pushed bytes together would be some 2000 pages.
    let more = resident_pages(&rt).saturating_sub(before);
    notes.holds(3, more <= 200, "a million turns add at most 200 pages");
    notes.end()
}
