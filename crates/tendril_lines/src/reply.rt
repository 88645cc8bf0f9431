//! The lines of replies.
ghost use Rattle.std.specs.Prelude.{◌≡◌, ◌++◌, IfOk, IfErr, string_bytes, codes};
ghost use Rattle.std.specs.Fmt.{decimal};
ghost use Rattle.tendril_lines.specs.Names.{comparison_name};
ghost use Rattle.tendril_lines.specs.Printed.{printed};

use crate::command::{Comparison, Reply};
use crate::hexadecimal::hex_of;
use crate::unit_list::hex_of_units;
use std::alloc::{AllocError, Global};
use tendril_errors::Refusal;

/// Returns a reply's line, without its line feed: `ok`, `slot N`, `char C`, `run N K`, `none`, `less`, `equal`,
/// `greater`, `differ`, a format's name with the bytes in lower-case digits or `-`, `units` with the units in such
/// digits, or `refused N Name`. The only error is `Memory`.
pub fn print_reply(alloc: Global, reply: &Reply) -> Result<String, Refusal>
    ensures printed { IfOk result (λ text. string_bytes text ≡ printed reply.now) }
    ensures refusal { IfErr result (λ r. r ≡ Refusal.Memory) }
{
    Ok(match reply {
        Reply::Done => String::from_str(alloc, "ok")?,
        Reply::Made(slot) => format!(in alloc; "slot {slot}")?,
        Reply::Char(None) | Reply::Run(None) => String::from_str(alloc, "none")?,
        Reply::Char(Some(character)) => {
            let number = *character as u32;
            format!(in alloc; "char {number}")?
        }
        Reply::Run(Some((slot, class))) => run_text(alloc, *slot, *class)?,
        Reply::Compared(comparison) => String::from_str(alloc, name_of_comparison(*comparison))?,
        Reply::Text(kind, bytes) => {
            let name = kind.name();
            let digits = hex_of(alloc, bytes.as_slice())?;
            format!(in alloc; "{name} {digits}")?
        }
        Reply::Units(units) => {
            let digits = hex_of_units(alloc, units.as_slice())?;
            format!(in alloc; "units {digits}")?
        }
        Reply::Refused(refusal) => format!(in alloc; "refused {refusal}")?,
    })
}

fn run_text(alloc: Global, slot: usize, class: u32) -> Result<String, AllocError>
    ensures { IfOk result (λ text. string_bytes text ≡ codes "run " ++ decimal slot ++ codes " " ++ decimal class) }
{
    format!(in alloc; "run {slot} {class}")
}

fn name_of_comparison(comparison: Comparison) -> &'static str
    ensures { result.now ≡ comparison_name comparison }
{
    match comparison {
        Comparison::Less => "less",
        Comparison::Equal => "equal",
        Comparison::Greater => "greater",
        Comparison::Differ => "differ",
    }
}
