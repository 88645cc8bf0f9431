//! Reads a file into a rope, and prints its length and its first line.
#![tactic(auto)]

use anyhow::Context;
use rope_text::{Rope, rope_from_file};
use std::env;
use std::process::ExitCode;

fn main(rt: HostRuntime) -> anyhow::Result<ExitCode> {
    let Some(path) = env::args(&rt)?.nth(1) else {
        eprintln!(rt; "usage: use_rope FILE")?;
        return Ok(ExitCode::from(2));
    };
    let path = path.as_str();
    let rope = rope_from_file(&rt, rt.alloc(), path, u64::MAX).context(path)?;
    describe(&rt, rope)?;
    Ok(ExitCode::SUCCESS)
}

fn describe(rt: &HostRuntime, mut rope: Rope) -> anyhow::Result<()> {
    println!(rt; "{} bytes in {} pieces", rope.len64(), rope.piece_count())?;
    if let Some(line) = rope.pop_line()? {
        println!(rt; "{line}")?;
    }
    Ok(())
}
