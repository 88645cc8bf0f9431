//! Blocks whose references may be in any threads, and blocks whose references stay in one.

use crate::atomicity::MAX_HOLDERS;
use crate::holder::{CountedBy, Holder};
use crate::node::any_thread::AnyThread;
use crate::node::one_thread::OneThread;

/// Blocks of at most N references, in any threads, counted atomically. N = 0 means 1, and a greater N than
/// `MAX_HOLDERS` means `MAX_HOLDERS`.
pub type AtomicUpTo<const N: u64> = CountedBy<AnyThread, N>;

/// One reference to a block that may be in any threads.
pub type SharedBlock<const N: u64> = Holder<AnyThread, N>;

/// Blocks of at most `MAX_HOLDERS` references, in any threads.
pub type Atomic = AtomicUpTo<MAX_HOLDERS>;

/// Blocks of at most `MAX_HOLDERS` references, in one thread, counted without atomics.
pub type NonAtomic = CountedBy<OneThread, MAX_HOLDERS>;

/// One reference to a block that stays in one thread.
pub type LocalBlock = Holder<OneThread, MAX_HOLDERS>;

const _: () = prove!(size_of::<SharedBlock<3>>() == 8);

const _: () = prove!(size_of::<LocalBlock>() == 8);
