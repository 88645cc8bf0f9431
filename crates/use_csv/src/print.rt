//! Prints records, one per line.

use crate::record::Record;
use std::io::{self, Write};

/// Prints each record: the number of its fields, and each field in quotes.
pub fn print_records<W: Write>(out: &mut W, records: &[Record]) -> io::Result<()> {
    for record in records {
        print(out, record)?;
    }
    Ok(())
}

fn print<W: Write>(out: &mut W, record: &Record) -> io::Result<()> {
    write!(out, "{}", record.fields.len())?;
    for field in record.fields.iter() {
        write!(out, " {:?}", field.as_str())?;
    }
    writeln!(out)
}
