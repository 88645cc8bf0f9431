//! One block with references in many threads.

use super::sent::Anything;
use crate::notes::Notes;
use std::alloc::Global;
use std::sync::Arc;
use std::sync::atomic::{AtomicU64, Ordering};
use std::test::Fail;
use std::thread;
use std::thread::{PromisedHandle, Threads, yield_now};
use tendril::block::{Atomic, AtomicUpTo, Atomicity, Refusal};

const TWENTY: &[u8] = b"01234567890123456789";

type ThreeHolders = AtomicUpTo<3>;

fn made<A: Atomicity>(alloc: Global) -> Result<A::Block, Fail> {
    let bytes = Vec::from_slice(alloc, TWENTY)?;
    Ok(A::make(bytes).ok().ok_or("make")?)
}

fn share_often(mine: <Atomic as Atomicity>::Block) -> bool {
    (0..1000).all(|_| Atomic::share(&mine).is_ok())
}

// Starts a thread that has its own reference.
fn start_sharer(
    rt: &impl Threads,
    notes: &mut Notes,
    block: &<Atomic as Atomicity>::Block,
    threads: &mut Vec<PromisedHandle<bool, Anything>>,
) {
    let Ok(mine) = Atomic::share(block) else {
        notes.holds(0, false, "the block is shared");
        return;
    };
    match thread::spawn_with(rt, Anything, move || share_often(mine)) {
        Ok(thread) => notes.holds(1, threads.push(thread).is_ok(), "a thread is kept"),
        Err(_) => notes.holds(1, false, "a thread is started"),
    }
}

#[test]
fn eight_threads_share_and_drop(rt: HostRuntime) -> Result<(), Fail> {
    let mut last = made::<Atomic>(rt.alloc())?;
    let mut notes = Notes::new();
    let mut threads = Vec::new(rt.alloc());
    for _ in 0..8 {
        start_sharer(&rt, &mut notes, &last, &mut threads);
    }
    notes.same(2, threads.len(), 8);
    for thread in threads {
        notes.holds(3, thread.join(&rt), "each share succeeds");
    }
    notes.same(4, Atomic::bytes(&last), TWENTY);
    notes.holds(
        5,
        Atomic::alone_mut(&mut last).is_some(),
        "one reference is left",
    );
    check_sole(&mut notes, last);
    notes.end()
}

fn check_sole(notes: &mut Notes, last: <Atomic as Atomicity>::Block) {
    match Atomic::into_sole(last).map(Atomic::from_sole) {
        Ok(Ok(block)) => notes.same(6, Atomic::bytes(&block), TWENTY),
        _ => notes.holds(6, false, "the block is taken and made anew"),
    }
}

// Waits until three threads are done, so that each keeps its reference until then.
fn wait_for_three(done: &AtomicU64) -> bool {
    for _ in 0..10_000_000 {
        if done.load(Ordering::SeqCst) == 3 {
            return true;
        }
        yield_now();
    }
    false
}

// Tries to share a block with all its references. Returns whether each try returned Count while all three were held.
fn is_refused_often(mine: &<ThreeHolders as Atomicity>::Block, done: &AtomicU64) -> bool {
    let all_were_refused = (0..1000).all(|_| ThreeHolders::share(mine).err()
        == Some(Refusal::Count));
    done.fetch_add(1, Ordering::SeqCst);
    wait_for_three(done) && all_were_refused
}

// The reference, if all its tries to share returned Count.
fn kept(
    mine: <ThreeHolders as Atomicity>::Block,
    done: Arc<AtomicU64, Global>,
) -> Option<<ThreeHolders as Atomicity>::Block> {
    if is_refused_often(&mine, &done) {
        Some(mine)
    } else {
        None
    }
}

#[test]
fn three_threads_with_three_references_share_no_more(rt: HostRuntime) -> Result<(), Fail> {
    let first = made::<ThreeHolders>(rt.alloc())?;
    let second = ThreeHolders::share(&first)?;
    let third = ThreeHolders::share(&first)?;
    let done = Arc::new(rt.alloc(), AtomicU64::new(0))?;
    let mut threads = Vec::new(rt.alloc());
    for mine in [first, second, third] {
        let done = Arc::try_clone(&done)?;
        threads.push(thread::spawn_with(&rt, Anything, move || kept(mine, done))?)?;
    }
    let mut last = None;
    for thread in threads {
        last = Some(
            thread
                .join(&rt)
                .ok_or("a share that wasn't refused, or no end of waiting")?,
        );
    }
    let mut last = last.ok_or("a thread")?;
    let mut notes = Notes::new();
    notes.holds(
        0,
        ThreeHolders::alone_mut(&mut last).is_some(),
        "one reference is left",
    );
    notes.end()
}
