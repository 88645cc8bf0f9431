//! One slot of a table. All that has an arm for each format is in this file; the functions in `text` are generic.
ghost use Rattle.std.specs.Prelude.{◌≡◌, [], ℕ, MatchOption, None, IfOk, IfErr};
ghost use Rattle.tendril_errors.specs.Outcomes.{LengthMust, BytesMust};
ghost use Rattle.tendril_fmt.specs.Wtf8.{wtf8};
ghost use Rattle.tendril_lines.specs.declared.command.Reply.TheVariants as reply;
ghost use Rattle.tendril_run.specs.Cells.{cell_of, IsCell, text as text_cell, valid_in};
ghost use Rattle.tendril_run.specs.Comparisons.{compare_rule};
ghost use Rattle.tendril_run.specs.OneCell.{made_rule, join_rule, pop_run_rule, char_of, IsRunOf, Converts};
ghost use Rattle.tendril_run.specs.Rules.{GivesBy, Changes, Follows, with_effect};

use crate::classifier::Classifier;
use crate::text;
use std::alloc::Global;
use tendril_lines::{ByteList, Comparison, Conversion, Kind, UnitList};
use tendril_text::block::Refusal;
use tendril_text::fmt::{ASCII, Bytes, Format, Latin1, UTF8, WTF8};
use tendril_text::{Atomicity, Tendril};

/// A text in one of the formats, or `Gone` after it was dropped.
#[derive(Drop)]
pub enum Slot<A: Atomicity> {
    Bytes(Tendril<Bytes, A>),
    Ascii(Tendril<ASCII, A>),
    Utf8(Tendril<UTF8, A>),
    Wtf8(Tendril<WTF8, A>),
    Latin1(Tendril<Latin1, A>),
    Gone,
}

// Evaluates `$body` for the text, whatever its format is, and `$gone` for a dropped slot.
macro_rules! on_text {
    ($slot:expr, $kind:ident, $text:ident => $body:expr, $gone:expr) => {
        match $slot {
            Slot::Bytes($text) => {
                let $kind = Kind::Bytes;
                $body
            }
            Slot::Ascii($text) => {
                let $kind = Kind::Ascii;
                $body
            }
            Slot::Utf8($text) => {
                let $kind = Kind::Utf8;
                $body
            }
            Slot::Wtf8($text) => {
                let $kind = Kind::Wtf8;
                $body
            }
            Slot::Latin1($text) => {
                let $kind = Kind::Latin1;
                $body
            }
            Slot::Gone => $gone,
        }
    };
}

// Like `on_text`, where `$body` returns a text of the same format.
macro_rules! like_text {
    ($slot:expr, $text:ident => $body:expr, $gone:expr) => {
        match $slot {
            Slot::Bytes($text) => Ok(Slot::Bytes($body?)),
            Slot::Ascii($text) => Ok(Slot::Ascii($body?)),
            Slot::Utf8($text) => Ok(Slot::Utf8($body?)),
            Slot::Wtf8($text) => Ok(Slot::Wtf8($body?)),
            Slot::Latin1($text) => Ok(Slot::Latin1($body?)),
            Slot::Gone => $gone,
        }
    };
}

// Like `on_text`, for the formats that have characters.
macro_rules! on_characters {
    ($slot:expr, $text:ident => $body:expr) => {
        match $slot {
            Slot::Ascii($text) => $body,
            Slot::Utf8($text) => $body,
            Slot::Latin1($text) => $body,
            Slot::Bytes(_) | Slot::Wtf8(_) => Err(Refusal::WrongFormat),
            Slot::Gone => Err(Refusal::NoSuchSlot),
        }
    };
}

// Evaluates `$body` for two texts of one format.
macro_rules! on_texts {
    ($slots:expr, $text:ident, $other:ident => $body:expr) => {
        match $slots {
            (Slot::Bytes($text), Slot::Bytes($other)) => $body,
            (Slot::Ascii($text), Slot::Ascii($other)) => $body,
            (Slot::Utf8($text), Slot::Utf8($other)) => $body,
            (Slot::Wtf8($text), Slot::Wtf8($other)) => $body,
            (Slot::Latin1($text), Slot::Latin1($other)) => $body,
            (Slot::Gone, _) | (_, Slot::Gone) => Err(Refusal::NoSuchSlot),
            _ => Err(Refusal::WrongFormat),
        }
    };
}

// The slot of a text in the format `$kind`, which `$text` returns.
macro_rules! in_format {
    ($kind:expr, $text:expr) => {
        match $kind {
            Kind::Bytes => Ok(Slot::Bytes($text?)),
            Kind::Ascii => Ok(Slot::Ascii($text?)),
            Kind::Utf8 => Ok(Slot::Utf8($text?)),
            Kind::Wtf8 => Ok(Slot::Wtf8($text?)),
            Kind::Latin1 => Ok(Slot::Latin1($text?)),
        }
    };
}

// After the macros, since these use them.
mod change;
mod convert;
mod read;

impl<A: Atomicity> Slot<A> {
    /// The empty text of a format.
    pub(crate) fn empty(alloc: Global, kind: Kind) -> Self
        ensures { cell_of result ≡ text_cell kind [] }
    {
        match kind {
            Kind::Bytes => Slot::Bytes(Tendril::new(alloc)),
            Kind::Ascii => Slot::Ascii(Tendril::new(alloc)),
            Kind::Utf8 => Slot::Utf8(Tendril::new(alloc)),
            Kind::Wtf8 => Slot::Wtf8(Tendril::new(alloc)),
            Kind::Latin1 => Slot::Latin1(Tendril::new(alloc)),
        }
    }

    /// A text of these bytes.
    pub(crate) fn from_bytes(alloc: Global, kind: Kind, bytes: &ByteList) -> Result<Self, Refusal>
        ensures { GivesBy (made_rule kind (BytesMust (valid_in kind) bytes.now) bytes.now) cell_of result }
    {
        in_format!(kind, text::from_bytes(alloc, kind, bytes))
    }

    /// A text of these units.
    pub(crate) fn from_units(alloc: Global, units: &UnitList) -> Result<Self, Refusal>
        ensures { GivesBy (made_rule Kind.Wtf8 LengthMust (wtf8 units.now)) cell_of result }
    {
        Ok(Slot::Wtf8(Tendril::<WTF8, A>::from_units(alloc, units.as_slice())?))
    }

    /// How the text compares with that of another slot.
    pub(crate) fn compare(&self, other: &Slot<A>) -> Result<Comparison, Refusal>
        ensures { GivesBy (compare_rule (cell_of self.now) (cell_of other.now)) (λ c. reply.Compared c) result }
    {
        match (self, other) {
            (Slot::Bytes(text), Slot::Bytes(other)) => Ok(text::ordered(Ord::cmp(text, other))),
            (Slot::Utf8(text), Slot::Utf8(other)) => Ok(text::ordered(Ord::cmp(text, other))),
            (Slot::Ascii(text), Slot::Ascii(other)) => Ok(text::equal(text, other)),
            (Slot::Wtf8(text), Slot::Wtf8(other)) => Ok(text::equal(text, other)),
            (Slot::Latin1(text), Slot::Latin1(other)) => Ok(text::equal(text, other)),
            (Slot::Gone, _) | (_, Slot::Gone) => Err(Refusal::NoSuchSlot),
            _ => Err(Refusal::WrongFormat),
        }
    }

    /// Puts the text of another slot at the end of the text.
    pub(crate) fn join(&mut self, other: &Slot<A>) -> Result<(), Refusal>
        ensures joined { (to from : ℕ) →
            Changes (join_rule to from (cell_of other.now)) (cell_of self.old) result (cell_of self.new) }
        ensures kept { IsCell (cell_of self.old) → IsCell (cell_of other.now) → IsCell (cell_of self.new) }
    {
        on_texts!((&mut *self, other), text, more => text::join(text, more))
    }

    /// Removes the longest prefix of characters of one class, and returns it with the class.
    pub(crate) fn pop_run<C: Classifier>(
        &mut self,
        classifier: &C,
    ) -> Result<Option<(Self, u32)>, Refusal>
        ensures popped { let class = C.class classifier.now in Follows
            (λ cell. with_effect (λ rest found new. MatchOption found ((char_of cell ≡ None) × (new ≡ cell))
            (λ run. IsRunOf class cell run.1 (cell_of run.0) new)) (pop_run_rule class cell))
            (cell_of self.old) result (cell_of self.new) }
        ensures kept { IsCell (cell_of self.old) → IsCell (cell_of self.new) }
    {
        match self {
            Slot::Ascii(text) => Ok(text::pop_run(text, classifier)?.map(|(run, class)| (
                Slot::Ascii(run),
                class,
            ))),
            Slot::Utf8(text) => Ok(text::pop_run(text, classifier)?.map(|(run, class)| (
                Slot::Utf8(run),
                class,
            ))),
            Slot::Latin1(text) => Ok(text::pop_run(text, classifier)?.map(|(run, class)| (
                Slot::Latin1(run),
                class,
            ))),
            Slot::Bytes(_) | Slot::Wtf8(_) => Err(Refusal::WrongFormat),
            Slot::Gone => Err(Refusal::NoSuchSlot),
        }
    }

    // The text in another format, or the error with the text.
    fn reinterpreted(self, kind: Kind) -> Result<Self, (Refusal, Self)>
        ensures { Converts cell_of (cell_of self) (Conversion.Reinterpret kind) result }
    {
        match self {
            Slot::Bytes(text) => {
                reinterpreted(text, kind).map_err(|back| (Refusal::Invalid, Slot::Bytes(back)))
            },
            Slot::Ascii(text) => {
                reinterpreted(text, kind).map_err(|back| (Refusal::Invalid, Slot::Ascii(back)))
            },
            Slot::Utf8(text) => {
                reinterpreted(text, kind).map_err(|back| (Refusal::Invalid, Slot::Utf8(back)))
            },
            Slot::Wtf8(text) => {
                reinterpreted(text, kind).map_err(|back| (Refusal::Invalid, Slot::Wtf8(back)))
            },
            Slot::Latin1(text) => {
                reinterpreted(text, kind).map_err(|back| (Refusal::Invalid, Slot::Latin1(back)))
            },
            Slot::Gone => Err((Refusal::NoSuchSlot, Slot::Gone)),
        }
    }

    // The text in a larger format.
    fn into_superset(self, kind: Kind) -> Result<Self, (Refusal, Self)>
        ensures { Converts cell_of (cell_of self) (Conversion.ToSuperset kind) result }
    {
        match (self, kind) {
            (Slot::Ascii(text), Kind::Utf8) => Ok(Slot::Utf8(text.into_superset())),
            (Slot::Ascii(text), Kind::Latin1) => Ok(Slot::Latin1(text.into_superset())),
            (Slot::Utf8(text), Kind::Wtf8) => Ok(Slot::Wtf8(text.into_superset())),
            (Slot::Gone, _) => Err((Refusal::NoSuchSlot, Slot::Gone)),
            (other, _) => Err((Refusal::WrongFormat, other)),
        }
    }

    // The text in a smaller format, if it is valid there.
    fn into_subset(self, kind: Kind) -> Result<Self, (Refusal, Self)>
        ensures { Converts cell_of (cell_of self) (Conversion.ToSubset kind) result }
    {
        match (self, kind) {
            (Slot::Utf8(text), Kind::Ascii) => text
                .try_into_subset()
                .map(|text| Slot::Ascii(text))
                .map_err(|back| (Refusal::Invalid, Slot::Utf8(back))),
            (Slot::Latin1(text), Kind::Ascii) => text
                .try_into_subset()
                .map(|text| Slot::Ascii(text))
                .map_err(|back| (Refusal::Invalid, Slot::Latin1(back))),
            (Slot::Wtf8(text), Kind::Utf8) => text
                .try_into_subset()
                .map(|text| Slot::Utf8(text))
                .map_err(|back| (Refusal::Invalid, Slot::Wtf8(back))),
            (Slot::Gone, _) => Err((Refusal::NoSuchSlot, Slot::Gone)),
            (other, _) => Err((Refusal::WrongFormat, other)),
        }
    }
}

// The text in another format, or unchanged if it isn't valid there.
fn reinterpreted<F: Format, A: Atomicity>(
    text: Tendril<F, A>,
    kind: Kind,
) -> Result<Slot<A>, Tendril<F, A>>
    ensures ok { IfOk result (λ s. valid_in kind text.bytes × (cell_of s ≡ text_cell kind text.bytes)) }
    ensures back { IfErr result (λ t. (valid_in kind text.bytes → ⊥) × (t.bytes ≡ text.bytes)) }
{
    in_format!(kind, text.try_reinterpret())
}
