//! The lines of commands.
ghost use Rattle.std.specs.Prelude.{◌≡◌, ◌↔◌, Some, IfOk, IfErr, IsSomeAnd};
ghost use Rattle.rope_run.specs.RopeLines.{IsRopeLine, OnRopes, rope_words_of};
ghost use Rattle.tendril_lines.specs.Shapes.{Spells, shape_of};
ghost use Rattle.tendril_lines.specs.declared.shape.Values.TheVariants.{Empty, One, Three, Two};

use crate::command::RopeCommand;
use std::alloc::Global;
use tendril_errors::Refusal;
use tendril_lines::{Command, LineCommand, Value, Values, Word, parse};

/// Returns the command of a line, given without its line feed, or `None` if it is no command's line.
///
/// The words of a line are separated by one space each. A rope or a slot is a decimal number up to 4294967295 without
/// leading zeros, the offset and the number of bytes of `rsub` are such numbers up to 18446744073709551615: `rope`,
/// `rpush R S`, `rjoin R R`, `rlen R`, `rpop R`, `rsub R O N`, `rtake R`, `rdrop R`, and every line of `parse_line`.
///
/// Allocates the list of words, once, and the bytes or units of the command. The only error is `Memory`.
pub fn parse_rope_line(alloc: Global, line: &[u8]) -> Result<Option<RopeCommand>, Refusal>
    ensures found { IfOk result (λ found. (c : _) → (found ≡ Some c) ↔ IsRopeLine c line.now) }
    ensures refusal { IfErr result (λ r. r ≡ Refusal.Memory) }
{
    parse::<RopeCommand>(alloc, line)
}

impl LineCommand for RopeCommand {
    ghost use Rattle.rope_run.specs.RopeLines.{rope_words_of};

    ghost spelling = { rope_words_of };

    fn shape(verb: &[u8]) -> Option<&'static [Word]> {
        shape(verb)
    }

    fn from_values(verb: &[u8], values: Values) -> Option<Self> {
        from_values(verb, values)
    }
}

// The kinds of the words after a verb.
fn shape(verb: &[u8]) -> Option<&'static [Word]>
    ensures { (c : _) → verb.now ≡ (rope_words_of c).0
        → IsSomeAnd result (λ shape. shape.now ≡ shape_of (rope_words_of c).1) }
{
    use Word::{Long, Slot};
    match verb {
        b"rope" => Some(&[]),
        b"rlen" | b"rpop" | b"rtake" | b"rdrop" => Some(&[Slot]),
        b"rpush" | b"rjoin" => Some(&[Slot, Slot]),
        b"rsub" => Some(&[Slot, Long, Long]),
        _ => <Command as LineCommand>::shape(verb),
    }
}

// The command of a verb and the values of the words after it.
fn from_values(verb: &[u8], values: Values) -> Option<RopeCommand>
    ensures { (c : _) → (result ≡ Some c) ↔ Spells (rope_words_of c) verb.now values }
{
    if let Some(command) = on_ropes(verb, &values) {
        return Some(command);
    }
    let command = <Command as LineCommand>::from_values(verb, values)?;
    Some(RopeCommand::OnSlots(command))
}

// The command on ropes of a verb and the values of the words after it.
fn on_ropes(verb: &[u8], values: &Values) -> Option<RopeCommand>
    ensures { (c : _) → (result ≡ Some c) ↔ OnRopes c × Spells (rope_words_of c) verb.now values.now }
{
    match values {
        Values::Empty => of_none(verb),
        Values::One(value) => of_one(verb, value),
        Values::Two(first, second) => of_two(verb, first, second),
        Values::Three(first, second, third) => of_three(verb, first, second, third),
    }
}

fn of_none(verb: &[u8]) -> Option<RopeCommand>
    ensures { (c : _) → (result ≡ Some c) ↔ OnRopes c × Spells (rope_words_of c) verb.now Empty }
{
    match verb {
        b"rope" => Some(RopeCommand::RopeNew),
        _ => None,
    }
}

fn of_one(verb: &[u8], value: &Value) -> Option<RopeCommand>
    ensures { (c : _) → (result ≡ Some c) ↔ OnRopes c × Spells (rope_words_of c) verb.now (One value.now) }
{
    let Value::Slot(rope) = value else {
        return None;
    };
    match verb {
        b"rlen" => Some(RopeCommand::RopeLen(*rope)),
        b"rpop" => Some(RopeCommand::RopePopChar(*rope)),
        b"rtake" => Some(RopeCommand::RopeTake(*rope)),
        b"rdrop" => Some(RopeCommand::RopeDrop(*rope)),
        _ => None,
    }
}

fn of_two(verb: &[u8], first: &Value, second: &Value) -> Option<RopeCommand>
    ensures { (c : _) → (result ≡ Some c)
        ↔ OnRopes c × Spells (rope_words_of c) verb.now (Two first.now second.now) }
{
    let Value::Slot(first) = first else {
        return None;
    };
    let Value::Slot(second) = second else {
        return None;
    };
    match verb {
        b"rpush" => Some(RopeCommand::RopePush(*first, *second)),
        b"rjoin" => Some(RopeCommand::RopeAppend(*first, *second)),
        _ => None,
    }
}

fn of_three(verb: &[u8], rope: &Value, offset: &Value, count: &Value) -> Option<RopeCommand>
    ensures { (c : _) → (result ≡ Some c)
        ↔ OnRopes c × Spells (rope_words_of c) verb.now (Three rope.now offset.now count.now) }
{
    let Value::Slot(rope) = rope else {
        return None;
    };
    let Value::Long(offset) = offset else {
        return None;
    };
    let Value::Long(count) = count else {
        return None;
    };
    match verb {
        b"rsub" => Some(RopeCommand::RopeSub(*rope, *offset, *count)),
        _ => None,
    }
}
