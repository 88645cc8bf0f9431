//! The parts of a text between commas.

use tendril::{ByteSet, str_to_tendril};

/// Prints the parts of a text between commas.
pub fn print_parts(rt: &HostRuntime) -> anyhow::Result<()> {
    let text = str_to_tendril(rt.alloc(), "one,two and three,four")?;
    let commas = ByteSet::new(b",");
    for part in text.into_split(&commas) {
        println!(rt; "{}", part?)?;
    }
    Ok(())
}
