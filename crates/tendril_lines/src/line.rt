//! The lines of commands.
ghost use Rattle.std.specs.Prelude.{◌≡◌, ◌↔◌, Some, IfOk, IfErr, IsSomeAnd};
ghost use Rattle.tendril_lines.specs.Lines.{IsLine, words_of};
ghost use Rattle.tendril_lines.specs.Shapes.{Spells, shape_of};
ghost use Rattle.tendril_lines.specs.declared.shape.Value.TheVariants.{Byte, Bytes, Character, Format, Number, Slot};
ghost use Rattle.tendril_lines.specs.declared.shape.Value.TheVariants.{Units16};
ghost use Rattle.tendril_lines.specs.declared.shape.Values.TheVariants.{One, Two, Three};

use crate::byte_list::ByteList;
use crate::change::ByteEdit::{PushZeros, WriteByte};
use crate::change::Change;
use crate::change::Conversion::{Reinterpret, ToSubset, ToSuperset};
use crate::change::Edit::{Clear, PopBack, PopFront, Reserve};
use crate::command::Command;
use crate::kind::Kind;
use crate::line_command::{LineCommand, parse};
use crate::shape::{Value, Values, Word};
use crate::unit_list::UnitList;
use std::alloc::Global;
use tendril_errors::Refusal;

/// Returns the command of a line, given without its line feed, or `None` if it is no command's line.
///
/// The words of a line are separated by one space each. A slot, an offset or a length is a decimal number up to
/// 4294967295 without leading zeros; bytes are hexadecimal digits in either case, or `-` for none:
/// `new F`, `from F H`, `push S H`, `join S S`, `char S C`, `zeros S N`, `slice S O L`, `front S N`, `back S N`,
/// `pop S`, `run S`, `clone S`, `clear S`, `reserve S N`, `as S F`, `up S F`, `down S F`, `set S I H` (one byte),
/// `cmp S S`, `text S`, `send S`, `drop S`, `from16 U` (four digits a 16-bit unit, or `-`), `units S`.
///
/// The only error is `Memory`.
pub fn parse_line(alloc: Global, line: &[u8]) -> Result<Option<Command>, Refusal>
    ensures found { IfOk result (λ found. (c : _) → (found ≡ Some c) ↔ IsLine c line.now) }
    ensures refusal { IfErr result (λ r. r ≡ Refusal.Memory) }
{
    parse::<Command>(alloc, line)
}

impl LineCommand for Command {
    ghost use Rattle.tendril_lines.specs.Lines.{words_of};

    ghost spelling = { words_of };

    fn shape(verb: &[u8]) -> Option<&'static [Word]> {
        shape(verb)
    }

    fn from_values(verb: &[u8], values: Values) -> Option<Self> {
        match values {
            Values::Empty => None,
            Values::One(value) => of_one(verb, value),
            Values::Two(first, second) => of_two(verb, first, second),
            Values::Three(first, second, third) => of_three(verb, first, second, third),
        }
    }
}

// The kinds of the words after a verb.
fn shape(verb: &[u8]) -> Option<&'static [Word]>
    ensures { (c : _) → verb.now ≡ (words_of c).0
        → IsSomeAnd result (λ shape. shape.now ≡ shape_of (words_of c).1) }
{
    use Word::{Byte, Bytes, Character, Format, Number, Slot, Units16};
    match verb {
        b"pop" | b"run" | b"clone" | b"clear" | b"text" | b"send" | b"drop" | b"units" => Some(&[
            Slot,
        ]),
        b"new" => Some(&[Format]),
        b"from16" => Some(&[Units16]),
        b"join" | b"cmp" => Some(&[Slot, Slot]),
        b"zeros" | b"front" | b"back" | b"reserve" => Some(&[Slot, Number]),
        b"char" => Some(&[Slot, Character]),
        b"as" | b"up" | b"down" => Some(&[Slot, Format]),
        b"push" => Some(&[Slot, Bytes]),
        b"from" => Some(&[Format, Bytes]),
        b"slice" => Some(&[Slot, Number, Number]),
        b"set" => Some(&[Slot, Number, Byte]),
        _ => None,
    }
}

// The command of a verb and one word.
fn of_one(verb: &[u8], value: Value) -> Option<Command>
    ensures { (c : _) → (result ≡ Some c) ↔ Spells (words_of c) verb.now (One value) }
{
    match value {
        Value::Slot(slot) => of_slot(verb, slot),
        Value::Format(kind) => of_format(verb, kind),
        Value::Units16(units) => of_units(verb, units),
        _ => None,
    }
}

// The command of a verb and two words.
fn of_two(verb: &[u8], first: Value, second: Value) -> Option<Command>
    ensures { (c : _) → (result ≡ Some c) ↔ Spells (words_of c) verb.now (Two first second) }
{
    match (first, second) {
        (Value::Slot(first), Value::Slot(second)) => of_slots(verb, first, second),
        (Value::Slot(slot), Value::Number(count)) => of_slot_and_number(verb, slot, count),
        (Value::Slot(slot), Value::Character(c)) => of_slot_and_character(verb, slot, c),
        (Value::Slot(slot), Value::Format(kind)) => of_slot_and_format(verb, slot, kind),
        (Value::Slot(slot), Value::Bytes(bytes)) => of_slot_and_bytes(verb, slot, bytes),
        (Value::Format(kind), Value::Bytes(bytes)) => of_format_and_bytes(verb, kind, bytes),
        _ => None,
    }
}

// The command of a verb and three words.
fn of_three(verb: &[u8], first: Value, second: Value, third: Value) -> Option<Command>
    ensures { (c : _) → (result ≡ Some c) ↔ Spells (words_of c) verb.now (Three first second third) }
{
    match (first, second) {
        (Value::Slot(slot), Value::Number(number)) => of_slot_number_and(verb, slot, number, third),
        _ => None,
    }
}

fn of_slot_number_and(verb: &[u8], slot: usize, number: u32, third: Value) -> Option<Command>
    ensures { (c : _) → (result ≡ Some c)
        ↔ Spells (words_of c) verb.now (Three (Slot slot) (Number number) third) }
{
    match third {
        Value::Number(length) => of_slot_and_numbers(verb, slot, number, length),
        Value::Byte(byte) => of_slot_and_byte(verb, slot, number, byte),
        _ => None,
    }
}

fn of_slot(verb: &[u8], slot: usize) -> Option<Command>
    ensures { (c : _) → (result ≡ Some c) ↔ Spells (words_of c) verb.now (One (Slot slot)) }
{
    match verb {
        b"pop" => Some(Command::PopChar(slot)),
        b"run" => Some(Command::PopRun(slot)),
        b"clone" => Some(Command::Clone(slot)),
        b"clear" => Some(Command::Change(slot, Change::Edit(Clear))),
        b"text" => Some(Command::Text(slot)),
        b"send" => Some(Command::Change(slot, Change::ThroughSend)),
        b"drop" => Some(Command::Change(slot, Change::Drop)),
        b"units" => Some(Command::Units(slot)),
        _ => None,
    }
}

fn of_format(verb: &[u8], kind: Kind) -> Option<Command>
    ensures { (c : _) → (result ≡ Some c) ↔ Spells (words_of c) verb.now (One (Format kind)) }
{
    match verb {
        b"new" => Some(Command::New(kind)),
        _ => None,
    }
}

fn of_units(verb: &[u8], units: UnitList) -> Option<Command>
    ensures { (c : _) → (result ≡ Some c) ↔ Spells (words_of c) verb.now (One (Units16 units)) }
{
    match verb {
        b"from16" => Some(Command::FromUnits(units)),
        _ => None,
    }
}

fn of_slots(verb: &[u8], first: usize, second: usize) -> Option<Command>
    ensures { (c : _) → (result ≡ Some c) ↔ Spells (words_of c) verb.now (Two (Slot first) (Slot second)) }
{
    match verb {
        b"join" => Some(Command::PushTendril(first, second)),
        b"cmp" => Some(Command::Compare(first, second)),
        _ => None,
    }
}

fn of_slot_and_number(verb: &[u8], slot: usize, count: u32) -> Option<Command>
    ensures { (c : _) → (result ≡ Some c) ↔ Spells (words_of c) verb.now (Two (Slot slot) (Number count)) }
{
    match verb {
        b"zeros" => Some(Command::Change(slot, Change::EditBytes(PushZeros(count)))),
        b"front" => Some(Command::Change(slot, Change::Edit(PopFront(count)))),
        b"back" => Some(Command::Change(slot, Change::Edit(PopBack(count)))),
        b"reserve" => Some(Command::Change(slot, Change::Edit(Reserve(count)))),
        _ => None,
    }
}

fn of_slot_and_character(verb: &[u8], slot: usize, character: char) -> Option<Command>
    ensures { (c : _) → (result ≡ Some c) ↔ Spells (words_of c) verb.now (Two (Slot slot) (Character character)) }
{
    match verb {
        b"char" => Some(Command::Change(slot, Change::PushChar(character))),
        _ => None,
    }
}

fn of_slot_and_format(verb: &[u8], slot: usize, kind: Kind) -> Option<Command>
    ensures { (c : _) → (result ≡ Some c) ↔ Spells (words_of c) verb.now (Two (Slot slot) (Format kind)) }
{
    match verb {
        b"as" => Some(Command::Change(slot, Change::Convert(Reinterpret(kind)))),
        b"up" => Some(Command::Change(slot, Change::Convert(ToSuperset(kind)))),
        b"down" => Some(Command::Change(slot, Change::Convert(ToSubset(kind)))),
        _ => None,
    }
}

fn of_slot_and_bytes(verb: &[u8], slot: usize, bytes: ByteList) -> Option<Command>
    ensures { (c : _) → (result ≡ Some c) ↔ Spells (words_of c) verb.now (Two (Slot slot) (Bytes bytes)) }
{
    match verb {
        b"push" => Some(Command::PushBytes(slot, bytes)),
        _ => None,
    }
}

fn of_format_and_bytes(verb: &[u8], kind: Kind, bytes: ByteList) -> Option<Command>
    ensures { (c : _) → (result ≡ Some c) ↔ Spells (words_of c) verb.now (Two (Format kind) (Bytes bytes)) }
{
    match verb {
        b"from" => Some(Command::FromBytes(kind, bytes)),
        _ => None,
    }
}

fn of_slot_and_numbers(verb: &[u8], slot: usize, offset: u32, length: u32) -> Option<Command>
    ensures { (c : _) → (result ≡ Some c)
        ↔ Spells (words_of c) verb.now (Three (Slot slot) (Number offset) (Number length)) }
{
    match verb {
        b"slice" => Some(Command::Slice(slot, offset, length)),
        _ => None,
    }
}

fn of_slot_and_byte(verb: &[u8], slot: usize, index: u32, byte: u8) -> Option<Command>
    ensures { (c : _) → (result ≡ Some c)
        ↔ Spells (words_of c) verb.now (Three (Slot slot) (Number index) (Byte byte)) }
{
    match verb {
        b"set" => Some(Command::Change(slot, Change::EditBytes(WriteByte(index, byte)))),
        _ => None,
    }
}
