//! Counts the words of standard input, then prints the parts of a text, the fields of a header and what a sink counted.
#![tactic(auto)]

mod fields;
mod parts;
mod sink;

use fields::print_fields;
use parts::print_parts;
use sink::print_counts;
use std::alloc::Global;
use std::collections::BTreeMap;
use std::io::Read;
use tendril::StrTendril;
use tendril::block::Refusal;

fn main(rt: HostRuntime) -> anyhow::Result<()> {
    let mut input = String::new(rt.alloc());
    rt.stdin().read_to_string(&mut input)?;
    let counts = count(rt.alloc(), StrTendril::from_string(rt.alloc(), input)?)?;
    for (word, times) in counts.iter() {
        println!(rt; "{word}: {times}")?;
    }
    print_parts(&rt)?;
    print_fields(&rt)?;
    print_counts(&rt)
}

// The number of occurrences of each word. Long words share the text's block.
fn count(alloc: Global, text: StrTendril) -> Result<BTreeMap<StrTendril, u64>, Refusal> {
    let mut counts = BTreeMap::new(alloc);
    for run in text.into_char_runs(char::is_whitespace) {
        let (run, is_space) = run?;
        if !is_space {
            let times = counts.get(&run).copied().unwrap_or(0u64);
            counts.insert(run, times.saturating_add(1))?;
        }
    }
    Ok(counts)
}
