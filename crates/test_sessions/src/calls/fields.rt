//! Calls that split a text at a separator.
ghost use Rattle.std.specs.Prelude.{◌<◌, IfOk};

use crate::calls::print;
use std::alloc::Global;
use std::fmt::Write;
use tendril_block::{Atomicity, Refusal};
use tendril_fmt::fmt::UTF8;
use tendril_text::Tendril;

/// What is printed for `fields`, all fields of a text by `pop_field`, and for `once`, both sides by `split_once`.
pub fn reply<A: Atomicity>(
    alloc: Global,
    text: &Tendril<UTF8, A>,
    verb: &str,
    separator: &str,
) -> Result<Option<String>, Refusal> {
    let byte = byte_of(separator)?;
    if verb == "once" {
        return once(alloc, text, byte);
    }
    let mut reply = String::new(alloc);
    write_fields(&mut reply, text.clone()?, byte)?;
    Ok(Some(reply))
}

// The separator, which must be one ASCII byte.
fn byte_of(separator: &str) -> Result<u8, Refusal>
    ensures { IfOk result (λ byte. byte < 128) }
{
    match separator.as_bytes() {
        [byte] if *byte < 128 => Ok(*byte),
        _ => Err(Refusal::Invalid),
    }
}

fn write_fields<A: Atomicity>(
    reply: &mut String,
    mut text: Tendril<UTF8, A>,
    byte: u8,
) -> Result<(), Refusal>
    requires { byte < 128 }
{
    // A text of n bytes has at most n + 1 fields.
    for _ in 0..=text.len() {
        let field = text.pop_field(byte)?;
        write!(reply, "{:?}", field.text.as_str())?;
        if field.is_last {
            break;
        }
        write!(reply, " ")?;
    }
    Ok(())
}

fn once<A: Atomicity>(
    alloc: Global,
    text: &Tendril<UTF8, A>,
    byte: u8,
) -> Result<Option<String>, Refusal>
    requires { byte < 128 }
{
    match text.split_once(byte)? {
        Some((front, back)) => print(
            alloc,
            format_args!("{:?} {:?}", front.as_str(), back.as_str()),
        ),
        None => print(alloc, "none"),
    }
}
