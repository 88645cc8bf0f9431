//! Splits HTML on standard input into tokens, and prints them all at its end.
#![tactic(auto)]

mod joined;
mod markup;
mod print;
mod state;
mod token;
mod tokenize;
mod tokenizer;

use anyhow::Context;
use print::print_tokens;
use std::io::{self, BufWriter, Write};
use tendril::stream::Counted;
use token::Token;
use tokenize::tokenize;

/// The maximal number of reads.
const MOST_READS: u64 = 1_000_000_000;

fn main(rt: HostRuntime) -> anyhow::Result<()> {
    let alloc = rt.alloc();
    let tokens: Vec<Token> = Vec::new(alloc);
    let mut input = Counted::new(rt.stdin());
    let tokens = tokenize(alloc, tokens, &mut input, MOST_READS).context("standard input")?;
    // `rt.stdout()` has no buffer: each write to it is a system call.
    let mut out = BufWriter::new(alloc, io::writer(&rt))?;
    print_tokens(&mut out, tokens.as_slice())?;
    out.flush()?;
    Ok(())
}
