//! The list of encodings.

use std::alloc::{AllocError, Global};
use std::io::Write;
use tendril_encoding::{Encoding, labels};
use tendril_script::{flush, write_bytes};
use tendril_text::block::Refusal;

/// Prints a line for each encoding: its name, a colon, and its labels.
pub fn list<W: Write>(alloc: Global, out: &mut W) -> Result<(), Refusal> {
    for encoding in Encoding::all() {
        let line = line_of(alloc, *encoding)?;
        write_bytes(out, line.as_bytes())?;
    }
    flush(out)
}

fn line_of(alloc: Global, encoding: Encoding) -> Result<String, AllocError> {
    let mut line = format!(in alloc; "{}:", encoding.name())?;
    for row in labels() {
        if row.encoding == encoding {
            line.push(' ')?;
            line.push_str(row.label)?;
        }
    }
    line.push('\n')?;
    Ok(line)
}
