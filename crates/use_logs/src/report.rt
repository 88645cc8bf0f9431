//! Prints the paths that were requested most.

use crate::Text;
use crate::tally::Tally;
use crate::traffic::Traffic;
use std::alloc::Global;
use std::io::{self, Write};

/// The number of paths that are printed.
const MOST: usize = 10;

/// Prints the paths with the most requests, and the numbers of malformed lines and of replaced sequences.
pub fn print_report<W: Write>(alloc: Global, out: &mut W, tally: &Tally) -> io::Result<()> {
    let mut rows: Vec<(&Text, &Traffic)> = tally.paths.iter().collect(alloc)?;
    rows.sort_by(|left, right| right.1.cmp(left.1).then_with(|| left.0.cmp(right.0)))?;
    for (path, traffic) in rows.iter().take(MOST) {
        writeln!(out, "{} {} {path}", traffic.requests, traffic.bytes)?;
    }
    writeln!(out, "malformed {}", tally.malformed)?;
    writeln!(out, "replaced {}", tally.replaced)
}
