//! Calls that extend a text by items, or create it from texts.

use crate::calls::{byte_text, slot_and_words, str_text, strings_of};
use std::alloc::Global;
use std::cell::Cell;
use tendril_block::{Atomicity, Refusal};
use tendril_fmt::fmt::{Bytes, Format, UTF8};
use tendril_run::{Slot, Table};
use tendril_text::Tendril;
use test_rows::words::number as number_of;

/// A clone of a text that is extended by the call of this name.
pub fn extend<A: Atomicity>(
    alloc: Global,
    table: &Table<A>,
    verb: &str,
    words: &str,
) -> Result<Option<Slot<A>>, Refusal> {
    let (number, words) = slot_and_words(words)?;
    match verb {
        "extend_bytes" | "extend_byte_refs" | "extend_slices" => {
            let strings = strings_of(alloc, words)?;
            let items = ByteItems { verb, strings };
            Ok(Some(Slot::Bytes(extended(byte_text(table, number)?, &items)?)))
        }
        "extend_tendrils" => {
            let texts = texts_of(alloc, table, words)?;
            Ok(Some(Slot::Utf8(extended(str_text(table, number)?, &TextItems { texts })?)))
        }
        _ => {
            let strings = strings_of(alloc, words)?;
            let items = StrItems { verb, strings };
            Ok(Some(Slot::Utf8(extended(str_text(table, number)?, &items)?)))
        }
    }
}

/// A text of texts.
pub fn of_texts<A: Atomicity>(
    alloc: Global,
    table: &Table<A>,
    words: &str,
) -> Result<Option<Slot<A>>, Refusal> {
    let texts = texts_of(alloc, table, words)?;
    Ok(Some(Slot::Utf8(Tendril::from_tendrils(alloc, &texts)?)))
}

// Clones of these texts.
fn texts_of<A: Atomicity>(
    alloc: Global,
    table: &Table<A>,
    words: &str,
) -> Result<Vec<Tendril<UTF8, A>>, Refusal> {
    let mut texts = Vec::new(alloc);
    for word in words.split(' ') {
        let text = str_text(table, number_of(word)? as usize)?.clone()?;
        if texts.push(text).is_err() {
            return Err(Refusal::Memory);
        }
    }
    Ok(texts)
}

// How many bytes the items have that a call took from its iterator.
#[derive(Drop)]
struct Taken {
    all: Cell<usize>,
    // Without the last item.
    before: Cell<usize>,
}

impl Taken {
    fn none() -> Self {
        Taken {
            all: Cell::new(0),
            before: Cell::new(0),
        }
    }

    fn item<T>(&self, item: T, len: usize) -> T {
        let all = self.all.get();
        self.before.set(all);
        self.all.set(all.saturating_add(len));
        item
    }
}

// Items that extend a text.
trait Items<F: Format, A: Atomicity> {
    fn extend(&self, text: &mut Tendril<F, A>, taken: &Taken) -> Result<(), Refusal>;

    // Whether the items before one that failed have this many bytes.
    fn are_before(&self, bytes: usize, taken: &Taken) -> bool {
        bytes == taken.before.get()
    }
}

// A call that gets no memory for an item must keep exactly the items before it: a prefix of its result with memory.
// Otherwise the reply is `refused 4 Invalid`.
fn extended<F: Format, A: Atomicity, I: Items<F, A>>(
    before: &Tendril<F, A>,
    items: &I,
) -> Result<Tendril<F, A>, Refusal> {
    let taken = Taken::none();
    let mut text = before.clone()?;
    let Err(refusal) = items.extend(&mut text, &taken) else {
        return Ok(text);
    };
    let mut whole = before.clone()?;
    items.extend(&mut whole, &Taken::none())?;
    let kept = text.len().saturating_sub(before.len());
    let begins = whole.as_byte_slice().starts_with(text.as_byte_slice());
    if begins && items.are_before(kept, &taken) {
        return Err(refusal);
    }
    Err(Refusal::Invalid)
}

#[derive(Drop)]
struct StrItems<'a> {
    verb: &'a str,
    strings: Vec<&'a str>,
}

impl<'a, A: Atomicity> Items<UTF8, A> for StrItems<'a> {
    fn extend(&self, text: &mut Tendril<UTF8, A>, taken: &Taken) -> Result<(), Refusal> {
        let strings = self.strings.as_slice();
        if self.verb == "extend_strs" {
            return text.extend_strs(strings.iter().map(|item| taken.item(*item, item.len())));
        }
        let string = strings.first().copied().unwrap_or("");
        text.extend_chars(string.chars().map(|item| taken.item(item, item.len_utf8())))
    }
}

#[derive(Drop)]
struct TextItems<A: Atomicity> {
    texts: Vec<Tendril<UTF8, A>>,
}

impl<A: Atomicity> Items<UTF8, A> for TextItems<A> {
    fn extend(&self, text: &mut Tendril<UTF8, A>, _taken: &Taken) -> Result<(), Refusal> {
        text.extend_tendrils(self.texts.iter())
    }

    // Any of the texts may be the one that failed.
    fn are_before(&self, bytes: usize, _taken: &Taken) -> bool {
        let mut before = 0usize;
        for text in self.texts.iter() {
            if before == bytes {
                return true;
            }
            before = before.saturating_add(text.len());
        }
        false
    }
}

#[derive(Drop)]
struct ByteItems<'a> {
    verb: &'a str,
    strings: Vec<&'a str>,
}

impl<'a, A: Atomicity> Items<Bytes, A> for ByteItems<'a> {
    fn extend(&self, text: &mut Tendril<Bytes, A>, taken: &Taken) -> Result<(), Refusal> {
        let strings = self.strings.as_slice();
        if self.verb == "extend_slices" {
            return text.extend_slices(
                strings
                    .iter()
                    .map(|item| taken.item(item.as_bytes(), item.len())),
            );
        }
        let bytes = strings.first().copied().unwrap_or("").as_bytes();
        if self.verb == "extend_bytes" {
            return text.extend_bytes(bytes.iter().map(|item| taken.item(*item, 1)));
        }
        text.extend_byte_refs(bytes.iter().map(|item| taken.item(item, 1)))
    }
}
