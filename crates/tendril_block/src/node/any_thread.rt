//! References in any threads: atomic operations on the node's count keep its invariant.
ghost use Rattle.std.specs.Prelude.{true, refl};

use crate::node::threading::Threading;
use atomic_table::exchange;
use std::marker::Brand;
use std::sync::atomic::Ordering::SeqCst;
use std::sync::atomic::raw;

/// References in any threads.
pub struct AnyThread;

impl Threading for AnyThread {
    ghost any_thread = { true };

    unsafe fn subtract(word: *mut u64) -> u64 {
        unsafe { raw::fetch_sub::<Brand>(word, 1, SeqCst) }
    }

    unsafe fn alone(word: *mut u64) -> u64 {
        unsafe { raw::load::<Brand>(word, SeqCst) }
    }

    unsafe fn peek(word: *mut u64) -> u64 {
        unsafe { raw::load::<Brand>(word, SeqCst) }
    }

    unsafe fn add(word: *mut u64, seen: u64, next: u64) -> u64 {
        unsafe { exchange::<Brand>(word, seen, next) }
    }

    ghost crosses = { λ _. refl };
}
