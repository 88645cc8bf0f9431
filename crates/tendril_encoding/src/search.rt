//! The search for a byte order mark at the start of a stream.
ghost use Rattle.tendril_encoding.specs.Starts.{Finds};

use crate::mark::{Mark, Marks, Seen, Sniffed};

/// What bytes at the start of a stream show of a mark.
#[derive(Clone, Copy, PartialEq, Eq, Debug)]
pub enum Found {
    /// They end within a mark: these bytes of it are there.
    Waits(Seen),
    /// A mark ends after this many of them.
    Marked(Mark, u32),
    /// They begin no mark.
    Plain,
}

/// Looks for a mark in the bytes that follow those that were seen. Reads at most three.
pub(crate) fn find_mark(marks: Marks, start: Seen, bytes: &[u8]) -> Found
    ensures { Finds marks start bytes.now result }
{
    let mut seen = start;
    for i in 0..bytes.len() {
        match seen.sniff(marks, bytes[i]) {
            Sniffed::Waits(more) => seen = more,
            Sniffed::Marked(mark) => return Found::Marked(mark, i as u32 + 1),
            Sniffed::Plain => return Found::Plain,
        }
    }
    Found::Waits(seen)
}
