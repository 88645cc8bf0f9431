//! What commands do to a text, in any format.
ghost use Rattle.std.specs.Prelude.{◌≡◌, ◌<◌, ◌≤◌, ◌⊎◌, ◌↔◌, length, IsTrue, IfOk, IfErr, nat_eq, if◌then◌else◌};
ghost use Rattle.tendril_run.specs.Cells.{IsText, valid_in};
ghost use Rattle.tendril_run.specs.Characters.{first_of, without_first, TakesFirstRun};
ghost use Rattle.std.specs.Cmp.Lexicographic.{pointwise};
ghost use Rattle.tendril_run.specs.Comparisons.{in_order};
ghost use Rattle.tendril_run.specs.OneCell.{SendMay};
ghost use Rattle.tendril_run.specs.Rules.{rule_with, grown, Changes, GivesBy};
ghost use Rattle.tendril_errors.specs.Outcomes.{NoneMust, LengthMust, CharMust, BytesMust, MemoryMay, CountMay, Gives};
ghost use Rattle.tendril_errors.specs.declared.refusal.Refusal.TheVariants.{Memory};

use crate::classifier::Classifier;
use std::alloc::Global;
use std::cmp::Ordering;
use tendril_lines::{ByteList, Comparison, Kind};
use tendril_text::block::{MAX_LEN, Refusal};
use tendril_text::fmt::{CharFormat, Format};
use tendril_text::{Atomicity, Tendril};

/// A text of these bytes, in the format that `kind` names.
pub(crate) fn from_bytes<F: Format, A: Atomicity>(
    alloc: Global,
    kind: Kind,
    bytes: &ByteList,
) -> Result<Tendril<F, A>, Refusal>
    requires { F.valid bytes.now ↔ valid_in kind bytes.now }
    ensures { GivesBy (grown (BytesMust (valid_in kind) bytes.now) bytes.now) (λ t. t.bytes) result }
{
    Tendril::try_from_byte_slice(alloc, bytes.as_slice())
}

/// Puts bytes at the end of the text.
pub(crate) fn push<F: Format, A: Atomicity>(
    text: &mut Tendril<F, A>,
    bytes: &ByteList,
) -> Result<(), Refusal>
    ensures done { Changes (λ b. grown (BytesMust F.valid bytes.now) (F.join b bytes.now))
        text.old.bytes result text.new.bytes }
    ensures kept { IsText F.valid text.old.bytes → IsText F.valid text.new.bytes }
{
    text.try_push_bytes(bytes.as_slice())
}

/// Puts a character at the end of the text.
pub(crate) fn push_char<F: CharFormat, A: Atomicity>(
    text: &mut Tendril<F, A>,
    character: char,
) -> Result<(), Refusal>
    ensures done { Changes (λ b. grown (CharMust F.encodes character) (F.join b (F.encoding character)))
        text.old.bytes result text.new.bytes }
    ensures kept { IsText F.valid text.old.bytes → IsText F.valid text.new.bytes }
{
    text.try_push_char(character)
}

/// Removes the first character of the text and returns it.
pub(crate) fn pop_char<F: CharFormat, A: Atomicity>(text: &mut Tendril<F, A>) -> Option<char>
    ensures first { result ≡ first_of (F.chars text.old.bytes) }
    ensures rest { text.new.bytes ≡ without_first F.encoding (F.chars text.old.bytes) text.old.bytes }
    ensures kept { IsText F.valid text.old.bytes → IsText F.valid text.new.bytes }
{
    text.pop_front_char()
}

/// Removes the longest prefix of characters of one class, and returns it with the class.
pub(crate) fn pop_run<F: CharFormat, A: Atomicity, C: Classifier>(
    text: &mut Tendril<F, A>,
    classifier: &C,
) -> Result<Option<(Tendril<F, A>, u32)>, Refusal>
    ensures taken { TakesFirstRun (λ t. t.bytes) F.chars F.encoding (C.class classifier.now)
        text.old.bytes result text.new.bytes }
    ensures kept { IsText F.valid text.old.bytes → IsText F.valid text.new.bytes }
{
    text.pop_front_char_run(|character| classifier.class_of(character))
}

/// Puts another text at the end of the text.
pub(crate) fn join<F: Format, A: Atomicity>(
    text: &mut Tendril<F, A>,
    more: &Tendril<F, A>,
) -> Result<(), Refusal>
    ensures done { Changes (λ b. grown LengthMust (F.join b more.now.bytes))
        text.old.bytes result text.new.bytes }
    ensures kept { IsText F.valid text.old.bytes → F.valid more.now.bytes → IsText F.valid text.new.bytes }
{
    text.push_tendril(more)
}

/// Appends the text to itself, by a clone. Checks first that the result isn't too long.
pub(crate) fn join_self<F: Format, A: Atomicity>(text: &mut Tendril<F, A>) -> Result<(), Refusal>
    ensures done { Changes (λ b. let joined = F.join b b in
        rule_with (LengthMust (length joined)) (λ r. MemoryMay (length joined) r ⊎ CountMay (length b) r) joined)
        text.old.bytes result text.new.bytes }
    ensures kept { IsText F.valid text.old.bytes → IsText F.valid text.new.bytes }
{
    if is_twice_too_long(text) {
        return Err(Refusal::TooLong);
    }
    let copy = text.clone()?;
    join(text, &copy)
}

// Whether the text, appended to itself, is longer than `MAX_LEN`.
fn is_twice_too_long<F: Format, A: Atomicity>(text: &Tendril<F, A>) -> bool
    ensures { IsTrue result ↔ (MAX_LEN < length (F.join text.now.bytes text.now.bytes)) }
{
    let bytes = text.as_byte_slice();
    let fixup = F::fixup(bytes, bytes);
    let left = bytes.len() - fixup.drop_left as usize;
    let right = bytes.len() - fixup.drop_right as usize;
    left + fixup.insert_len as usize + right > MAX_LEN as usize
}

/// The comparison of two texts whose format has an order.
pub(crate) fn ordered(order: Ordering) -> Comparison
    ensures { result ≡ in_order order }
{
    match order {
        Ordering::Less => Comparison::Less,
        Ordering::Equal => Comparison::Equal,
        Ordering::Greater => Comparison::Greater,
    }
}

/// The comparison of two texts whose format has none.
pub(crate) fn equal<F: Format, A: Atomicity>(
    text: &Tendril<F, A>,
    other: &Tendril<F, A>,
) -> Comparison
    ensures { result ≡ (if pointwise nat_eq text.now.bytes other.now.bytes then Comparison.Equal else
        Comparison.Differ) }
{
    if text == other {
        Comparison::Equal
    } else {
        Comparison::Differ
    }
}

/// Makes a clone of the text sendable, converts it back, and replaces the text by it.
pub(crate) fn through_send<F: Format, A: Atomicity>(text: &mut Tendril<F, A>) -> Result<(), Refusal>
    ensures done { Changes (λ b. rule_with NoneMust (SendMay (length b)) b) text.old.bytes result text.new.bytes }
    ensures kept { IsText F.valid text.old.bytes → IsText F.valid text.new.bytes }
{
    *text = sent_and_back(text)?;
    Ok(())
}

fn sent_and_back<F: Format, A: Atomicity>(text: &Tendril<F, A>) -> Result<Tendril<F, A>, Refusal>
    ensures bytes { IfOk result (λ t. t.bytes ≡ text.now.bytes) }
    ensures refusal { IfErr result (SendMay (length text.now.bytes)) }
{
    let sent = text.clone()?.into_send()?;
    Ok(Tendril::from_send(sent)?)
}

/// The text's bytes, copied.
pub(crate) fn bytes<F: Format, A: Atomicity>(
    alloc: Global,
    text: &Tendril<F, A>,
) -> Result<ByteList, Refusal>
    ensures { Gives NoneMust (λ r. r ≡ Memory) (λ list. list ≡ text.now.bytes) result }
{
    Ok(ByteList::new(Vec::from_slice(alloc, text.as_byte_slice())?))
}
