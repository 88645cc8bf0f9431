//! Matching a pattern at the front of a queue, across its texts.
ghost use Rattle.std.specs.Prelude.{◌≡◌, ◌≤◌, ◌↔◌, ◌++◌, length, take, drop, IsTrue, IsUtf8};
ghost use Rattle.tendril_queue.specs.Eating.{Eats, Meets, AreSameInAnyCase, AreSame};
ghost use Rattle.tendril_queue.specs.Queues.{all_texts, AreQueued, IsQueue};
ghost use Rattle.tendril_text.specs.TextLists.{bytes_of_all, DropsFront};

use crate::queue::{TextQueue, refill};
use std::collections::VecDeque;
use tendril_fmt::fmt::UTF8;
use tendril_text::{Atomicity, Tendril};

/// Whether a pattern was removed from the front of a queue. If it wasn't, nothing has changed.
#[derive(Clone, Copy, Debug, PartialEq, Eq)]
pub enum EatResult {
    /// The queue began with the pattern, which was removed.
    Eaten,
    /// The queue doesn't begin with the pattern, whatever is appended.
    NotThere,
    /// The queue ends within the pattern, so it depends on what is appended.
    NotKnown,
}

/// Whether bytes that differ only in the case of ASCII letters are equal.
#[derive(Clone, Copy)]
pub(crate) enum Case {
    Matters,
    AsciiIgnored,
}

impl Case {
    // Whether two slices are equal in this sense.
    #[inline(always)]
    fn is_same(self, left: &[u8], right: &[u8]) -> bool
        ensures { IsTrue result ↔ AreSame self left.now right.now }
    {
        match self {
            Case::Matters => left == right,
            Case::AsciiIgnored => left.eq_ignore_ascii_case(right),
        }
    }
}

impl<A: Atomicity> TextQueue<A> {
    /// Removes the pattern from the front if the queue begins with it, and returns whether it did.
    ///
    /// Matches across texts, and drops those that it empties. An empty pattern is always eaten. Allocates nothing.
    ///
    /// ```
    /// let mut queue: TextQueue = TextQueue::new(alloc);
    /// queue.push_back(StrTendril::from_slice(alloc, "<!doctype")?)?;
    /// assert_eq!(rt; queue.eat("<!--"), EatResult::NotThere);
    /// assert_eq!(rt; queue.eat("<!"), EatResult::Eaten);
    /// ```
    pub fn eat(&mut self, pattern: &str) -> EatResult
        ensures { Eats (λ x y. x ≡ y) pattern.now self.old result self.new }
    {
        self.eat_in(Case::Matters, pattern)
    }

    /// Removes the pattern from the front as `eat` does, ignoring the case of ASCII letters.
    ///
    /// ```
    /// let mut queue: TextQueue = TextQueue::new(alloc);
    /// queue.push_back(StrTendril::from_slice(alloc, "<!DocType>")?)?;
    /// assert_eq!(rt; queue.eat_ignore_ascii_case("<!doctype"), EatResult::Eaten);
    /// assert_eq!(rt; queue.peek(), Some('>'));
    /// ```
    pub fn eat_ignore_ascii_case(&mut self, pattern: &str) -> EatResult
        ensures { Eats AreSameInAnyCase pattern.now self.old result self.new }
    {
        self.eat_in(Case::AsciiIgnored, pattern)
    }

    // Inlined, with what it calls for the first text, so that a constant pattern is compared by an instruction or two.
    #[inline(always)]
    fn eat_in(&mut self, case: Case, pattern: &str) -> EatResult
        ensures { Eats (AreSame case) pattern.now self.old result self.new }
    {
        let found = look_for(&self.first, &self.rest, case, pattern.as_bytes());
        if found == EatResult::Eaten {
            drop_front(&mut self.first, &mut self.rest, pattern.len());
        }
        found
    }
}

// Whether a first text and those after it begin with a pattern, which isn't removed.
#[inline(always)]
fn look_for<A: Atomicity>(
    first: &Tendril<UTF8, A>,
    rest: &VecDeque<Tendril<UTF8, A>>,
    case: Case,
    pattern: &[u8],
) -> EatResult
    ensures { Meets (AreSame case) pattern.now (first.now.bytes ++ bytes_of_all rest.now.items) result }
{
    let text = first.as_byte_slice();
    let count = pattern.len();
    if count > text.len() {
        return look_across(text, rest, case, pattern);
    }
    if case.is_same(&text[..count], pattern) {
        EatResult::Eaten
    } else {
        EatResult::NotThere
    }
}

// Whether a first text, which is no longer than the pattern, and the rest begin with it.
fn look_across<A: Atomicity>(
    text: &[u8],
    rest: &VecDeque<Tendril<UTF8, A>>,
    case: Case,
    pattern: &[u8],
) -> EatResult
    requires { length text.now ≤ length pattern.now }
    ensures { Meets (AreSame case) pattern.now (text.now ++ bytes_of_all rest.now.items) result }
{
    if case.is_same(text, &pattern[..text.len()]) {
        look_in(rest, case, &pattern[text.len()..])
    } else {
        EatResult::NotThere
    }
}

// Whether texts begin with a pattern.
fn look_in<A: Atomicity>(
    texts: &VecDeque<Tendril<UTF8, A>>,
    case: Case,
    pattern: &[u8],
) -> EatResult
    ensures { Meets (AreSame case) pattern.now (bytes_of_all texts.now.items) result }
{
    let mut at = 0;
    for index in 0..texts.len() {
        let text = texts[index].as_byte_slice();
        let rest = &pattern[at..];
        let count = text.len().min(rest.len());
        if !case.is_same(&text[..count], &rest[..count]) {
            return EatResult::NotThere;
        }
        at += count;
        if at == pattern.len() {
            return EatResult::Eaten;
        }
    }
    if pattern.is_empty() {
        EatResult::Eaten
    } else {
        EatResult::NotKnown
    }
}

// Removes the first `count` bytes, which are UTF-8, of a first text and those after it, and the texts that this
// empties.
pub(crate) fn drop_front<A: Atomicity>(
    first: &mut Tendril<UTF8, A>,
    rest: &mut VecDeque<Tendril<UTF8, A>>,
    count: usize,
)
    requires queue { IsQueue first.old rest.old.items }
    requires there { count ≤ length (first.old.bytes ++ bytes_of_all rest.old.items) }
    requires valid { IsUtf8 (take count (first.old.bytes ++ bytes_of_all rest.old.items)) }
    ensures bytes { first.new.bytes ++ bytes_of_all rest.new.items
        ≡ drop count (first.old.bytes ++ bytes_of_all rest.old.items) }
    ensures queue { IsQueue first.new rest.new.items }
    ensures texts { DropsFront (all_texts first.old rest.old.items) (all_texts first.new rest.new.items) }
{
    let here = first.as_byte_slice().len();
    if count < here {
        first.pop_front(count as u32);
        return;
    }
    drop_in(rest, count - here);
    first.pop_front(here as u32);
    refill(first, rest);
}

// Removes the first `count` bytes of texts, which are UTF-8, and drops the texts that this empties.
fn drop_in<A: Atomicity>(texts: &mut VecDeque<Tendril<UTF8, A>>, count: usize)
    requires each { AreQueued texts.old.items }
    requires there { count ≤ length (bytes_of_all texts.old.items) }
    requires valid { IsUtf8 (take count (bytes_of_all texts.old.items)) }
    ensures bytes { bytes_of_all texts.new.items ≡ drop count (bytes_of_all texts.old.items) }
    ensures each { AreQueued texts.new.items }
    ensures texts { DropsFront texts.old.items texts.new.items }
{
    let mut left = count;
    while left > 0 {
        let first = texts[0].as_byte_slice().len();
        if left < first {
            texts[0].pop_front(left as u32);
            return;
        }
        texts.pop_front();
        left -= first;
    }
}
