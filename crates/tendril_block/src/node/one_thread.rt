//! References that stay in one thread: plain loads and stores of the node's count keep its invariant.
ghost use Rattle.std.specs.Prelude.{false, []};
ghost use base.Fml.{ftok};
ghost use base.Mask.{every};

use crate::node::threading::Threading;
use std::marker::{Model, PhantomData};

/// References that stay in one thread.
pub struct OneThread {
    // A raw pointer is not `Send`.
    stays: PhantomData<*const u8>,
}

// A value would own its thread's token, which can't leave the thread. So the type isn't `Send`.
impl Model for OneThread {
    ghost also_owns = { λ _. ftok every };
}

impl Threading for OneThread {
    ghost any_thread = { false };

    unsafe fn subtract(word: *mut u64) -> u64 {
        let found = unsafe { *word };
        unsafe {
            *word = found - 1;
        }
        found
    }

    unsafe fn alone(word: *mut u64) -> u64 {
        unsafe { *word }
    }

    unsafe fn peek(word: *mut u64) -> u64 {
        unsafe { *word }
    }

    unsafe fn add(word: *mut u64, seen: u64, next: u64) -> u64 {
        let found = unsafe { *word };
        if found == seen {
            unsafe {
                *word = next;
            }
        }
        found
    }

    ghost crosses = { λ s. absurd ((s (record { stays = record {} }) []).1) };
}
