//! The kinds and the values of the words after a verb.
ghost use Rattle.std.specs.Prelude.{◌≡◌, ◌↔◌, [], ◌∷◌, map, Some, IfOk};
ghost use Rattle.tendril_lines.specs.Shapes.{AreWords, IsWord, list_of, shape_of, word_of};

use crate::byte_list::ByteList;
use crate::hexadecimal::{byte, bytes};
use crate::kind::Kind;
use crate::numbers::{long_number, number, scalar};
use crate::unit_list::{UnitList, units};
use std::alloc::{AllocError, Global};

/// A kind of word.
#[derive(Clone, Copy, Debug, PartialEq, Eq)]
pub enum Word {
    /// A slot or a rope: its number, up to 4294967295.
    Slot,
    /// A number up to 4294967295.
    Number,
    /// A number up to 18446744073709551615.
    Long,
    /// A character: the number of its scalar value.
    Character,
    /// A format: its name.
    Format,
    /// Bytes in hexadecimal, or a dash for none.
    Bytes,
    /// One byte: its two digits.
    Byte,
    /// 16-bit units in hexadecimal, or a dash for none.
    Units16,
}

/// The value of a word.
#[derive(Debug, Drop)]
pub enum Value {
    Slot(usize),
    Number(u32),
    Long(u64),
    Character(char),
    Format(Kind),
    Bytes(ByteList),
    Byte(u8),
    Units16(UnitList),
}

/// The values of the words after a verb. No command has more than three.
#[derive(Debug, Drop)]
pub enum Values {
    Empty,
    One(Value),
    Two(Value, Value),
    Three(Value, Value, Value),
}

/// Reads the values of words that have this shape: one word of each kind, and no more. Returns `None` for other words.
pub(crate) fn read_values(
    alloc: Global,
    shape: &[Word],
    words: &[&[u8]],
) -> Result<Option<Values>, AllocError>
    ensures { IfOk result (λ found. (v : _) → (found ≡ Some v)
        ↔ (shape_of v ≡ shape.now) × AreWords (list_of v) (map (λ word. word.now) words.now)) }
{
    match (shape, words) {
        ([], []) => Ok(Some(Values::Empty)),
        ([a], [x]) => read_one(alloc, *a, x),
        ([a, b], [x, y]) => read_two(alloc, *a, x, *b, y),
        ([a, b, c], [x, y, z]) => read_three(alloc, *a, x, *b, y, *c, z),
        _ => Ok(None),
    }
}

fn read_one(alloc: Global, a: Word, x: &[u8]) -> Result<Option<Values>, AllocError>
    ensures { IfOk result (λ found. (v : _) → (found ≡ Some v)
        ↔ (shape_of v ≡ a ∷ []) × AreWords (list_of v) (x.now ∷ [])) }
{
    let Some(first) = read_value(alloc, a, x)? else {
        return Ok(None);
    };
    Ok(Some(Values::One(first)))
}

fn read_two(
    alloc: Global,
    a: Word,
    x: &[u8],
    b: Word,
    y: &[u8],
) -> Result<Option<Values>, AllocError>
    ensures { IfOk result (λ found. (v : _) → (found ≡ Some v)
        ↔ (shape_of v ≡ a ∷ b ∷ []) × AreWords (list_of v) (x.now ∷ y.now ∷ [])) }
{
    let Some(first) = read_value(alloc, a, x)? else {
        return Ok(None);
    };
    let Some(second) = read_value(alloc, b, y)? else {
        return Ok(None);
    };
    Ok(Some(Values::Two(first, second)))
}

fn read_three(
    alloc: Global,
    a: Word,
    x: &[u8],
    b: Word,
    y: &[u8],
    c: Word,
    z: &[u8],
) -> Result<Option<Values>, AllocError>
    ensures { IfOk result (λ found. (v : _) → (found ≡ Some v)
        ↔ (shape_of v ≡ a ∷ b ∷ c ∷ []) × AreWords (list_of v) (x.now ∷ y.now ∷ z.now ∷ [])) }
{
    let Some(first) = read_value(alloc, a, x)? else {
        return Ok(None);
    };
    let Some(second) = read_value(alloc, b, y)? else {
        return Ok(None);
    };
    let Some(third) = read_value(alloc, c, z)? else {
        return Ok(None);
    };
    Ok(Some(Values::Three(first, second, third)))
}

// The value of one word.
fn read_value(alloc: Global, kind: Word, word: &[u8]) -> Result<Option<Value>, AllocError>
    ensures { IfOk result (λ found. (v : _) → (found ≡ Some v) ↔ (word_of v ≡ kind) × IsWord v word.now) }
{
    match kind {
        Word::Slot => Ok(number(word).map(|slot| Value::Slot(slot as usize))),
        Word::Number => Ok(number(word).map(|number| Value::Number(number))),
        Word::Long => Ok(long_number(word).map(|number| Value::Long(number))),
        Word::Character => Ok(scalar(word).map(|character| Value::Character(character))),
        Word::Format => Ok(Kind::from_name(word).map(|format| Value::Format(format))),
        Word::Bytes => Ok(bytes(alloc, word)?.map(|bytes| Value::Bytes(bytes))),
        Word::Byte => Ok(byte(alloc, word)?.map(|byte| Value::Byte(byte))),
        Word::Units16 => Ok(units(alloc, word)?.map(|units| Value::Units16(units))),
    }
}
