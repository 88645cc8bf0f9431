//! Commands that are written as lines: a verb, and words after it.
ghost use Rattle.std.specs.Prelude.{◌≡◌, ◌↔◌, Some, IfOk, IfErr, map};
ghost use Rattle.tendril_lines.specs.Shapes.{AreVerbAndWords};
ghost use Rattle.tendril_lines.specs.Words.{words};

use crate::shape::{Values, Word, read_values};
use crate::split::split_words;
use std::alloc::{AllocError, Global};
use tendril_errors::Refusal;

/// A command that is written as a line.
pub trait LineCommand: Sized + Drop {
    ghost use Rattle.std.specs.Prelude.{◌≡◌, ◌↔◌, ℕ, List, Some, IsSomeAnd};
    ghost use Rattle.tendril_lines.specs.Shapes.{Spells, shape_of};
    ghost use Rattle.tendril_lines.specs.declared.shape.Values.{Values};

    /// The verb of a command, and the values of the words after it.
    ghost spelling: { Self → List ℕ × Values };

    /// Returns the kinds of the words after a verb, if a command has the verb.
    fn shape(verb: &[u8]) -> Option<&'static [Word]>
        ensures { (c : Self) → verb.now ≡ (spelling c).0
            → IsSomeAnd result (λ shape. shape.now ≡ shape_of (spelling c).1) };

    /// Returns the command of a verb and the values of the words after it, if there is one.
    fn from_values(verb: &[u8], values: Values) -> Option<Self>
        ensures { (c : Self) → (result ≡ Some c) ↔ Spells (spelling c) verb.now values };
}

/// Returns the command of a line, given without its line feed, or `None` if it is no command's line.
///
/// The words of a line are separated by one space each. Allocates the list of words, once, and the bytes or units of
/// the command. The only error is `Memory`.
pub fn parse<C: LineCommand>(alloc: Global, line: &[u8]) -> Result<Option<C>, Refusal>
    ensures found { IfOk result (λ found. (c : C) → (found ≡ Some c)
        ↔ AreVerbAndWords (C.spelling c) (words line.now)) }
    ensures refusal { IfErr result (λ r. r ≡ Refusal.Memory) }
{
    let words = split_words(alloc, line)?;
    Ok(read_words(alloc, words.as_slice())?)
}

fn read_words<C: LineCommand>(alloc: Global, words: &[&[u8]]) -> Result<Option<C>, AllocError>
    ensures { IfOk result (λ found. (c : C) → (found ≡ Some c)
        ↔ AreVerbAndWords (C.spelling c) (map (λ word. word.now) words.now)) }
{
    let Some((verb, rest)) = words.split_first() else {
        return Ok(None);
    };
    let Some(shape) = C::shape(verb) else {
        return Ok(None);
    };
    let Some(values) = read_values(alloc, shape, rest)? else {
        return Ok(None);
    };
    Ok(C::from_values(verb, values))
}
