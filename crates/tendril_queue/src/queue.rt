//! Queues of texts.
//!
//! Contracts see a `TextQueue<A>` as its bytes and the texts that have them. No text in it is empty.
//!
//! The first text is a field of its own, since nearly all calls read from it; in a `VecDeque` each would look it up.
ghost use Rattle.std.specs.Prelude.{◌≡◌, ◌<◌, ◌↔◌, ◌++◌, ◌∷◌, [], ℕ, List, length, chars, encode_utf8, IsTrue, IfSome};
ghost use Rattle.std.specs.Prelude.{IfNone, IfOk, IfErr, OnOk, OnErr, OnSome};
ghost use Rattle.tendril_queue.specs.Queues.{all_texts, AreQueued, IsQueue, TakesFirst, HasLongFirst};
ghost use Rattle.tendril_text.specs.Search.{part_bytes};
ghost use Rattle.tendril_fmt.specs.Sets.{has_byte};
ghost use Rattle.tendril_text.specs.TextLists.{unless_empty, DropsFront};

use std::alloc::Global;
use std::collections::VecDeque;
use std::marker::Model;
use std::mem;
use tendril_errors::Refusal;
use tendril_fmt::fmt::UTF8;
use tendril_text::{Atomicity, ByteSet, NonAtomic, SetResult, Tendril};

/// A queue of texts in UTF-8, read from the front while more are pushed at the end, as html5ever's `BufferQueue`.
///
/// ```
/// let mut input: TextQueue = TextQueue::new(alloc);
/// input.push_back(StrTendril::from_slice(alloc, "<!")?)?;
/// assert_eq!(rt; input.eat("<!--"), EatResult::NotKnown);
/// input.push_back(StrTendril::from_slice(alloc, "--a-->")?)?;
/// assert_eq!(rt; input.eat("<!--"), EatResult::Eaten);
/// assert_eq!(rt; input.peek(), Some('a'));
/// ```
#[derive(Drop)]
pub struct TextQueue<A: Atomicity = NonAtomic> {
    // Empty only if the queue is empty.
    pub(crate) first: Tendril<UTF8, A>,
    pub(crate) rest: VecDeque<Tendril<UTF8, A>>,
    pub(crate) alloc: Global,
}

impl<A: Atomicity> Model for TextQueue<A> {
    ghost use Rattle.tendril_queue.specs.Queues.{Queued, queued_of, IsQueue};

    ghost Value = { Queued };

    ghost view = { λ q. queued_of q.first q.rest.items };

    ghost invariant = { λ q. IsQueue q.first q.rest.items };
}

impl<A: Atomicity> TextQueue<A> {
    /// Returns the empty queue. Allocates nothing.
    ///
    /// ```
    /// let queue: TextQueue = TextQueue::new(alloc);
    /// assert_eq!(rt; queue.is_empty(), true);
    /// ```
    pub fn new(alloc: Global) -> Self
        ensures bytes { result.bytes ≡ [] }
        ensures texts { result.texts ≡ [] }
    {
        TextQueue {
            first: Tendril::new(alloc),
            rest: VecDeque::new(alloc),
            alloc,
        }
    }

    /// Returns whether there are no bytes, and so no texts.
    ///
    /// ```
    /// let mut queue: TextQueue = TextQueue::new(alloc);
    /// queue.push_back(StrTendril::from_slice(alloc, "a")?)?;
    /// assert_eq!(rt; queue.is_empty(), false);
    /// ```
    pub fn is_empty(&self) -> bool
        ensures bytes { IsTrue result ↔ (self.now.bytes ≡ []) }
        ensures texts { IsTrue result ↔ (self.now.texts ≡ []) }
    {
        self.first.is_empty()
    }

    /// Appends a text, in amortized constant time. An empty text is dropped.
    ///
    /// Returns `Memory` and the text if the list of texts can't grow: never if the queue is empty.
    ///
    /// ```
    /// let mut queue: TextQueue = TextQueue::new(alloc);
    /// queue.push_back(StrTendril::from_slice(alloc, "<p")?)?;
    /// queue.push_back(StrTendril::from_slice(alloc, ">")?)?;
    /// assert_eq!(rt; queue.eat("<p>"), EatResult::Eaten);
    /// ```
    pub fn push_back(&mut self, text: Tendril<UTF8, A>) -> Result<(), (Refusal, Tendril<UTF8, A>)>
        ensures bytes { OnOk result (self.new.bytes ≡ self.old.bytes ++ text.bytes) }
        ensures texts { OnOk result (self.new.texts ≡ self.old.texts ++ unless_empty text) }
        ensures err { IfErr result (λ e. (e.0 ≡ Refusal.Memory) × (e.1 ≡ text) × (0 < length text.bytes)) }
        ensures some { OnErr result (0 < length self.old.bytes) }
        ensures unchanged { OnErr result (self.new ≡ self.old) }
    {
        if text.as_byte_slice().is_empty() {
            return Ok(());
        }
        if self.first.is_empty() {
            self.first = text;
            return Ok(());
        }
        match self.rest.push_back(text) {
            Ok(()) => Ok(()),
            Err(failed) => Err((Refusal::Memory, failed.value)),
        }
    }

    /// Puts a text at the front, to be read next, in amortized constant time. An empty text is dropped.
    ///
    /// Returns `Memory` and the text if the list of texts can't grow: never if the queue is empty.
    ///
    /// ```
    /// let mut queue: TextQueue = TextQueue::new(alloc);
    /// queue.push_back(StrTendril::from_slice(alloc, "b")?)?;
    /// queue.push_front(StrTendril::from_slice(alloc, "a")?)?;
    /// assert_eq!(rt; queue.peek(), Some('a'));
    /// ```
    pub fn push_front(&mut self, text: Tendril<UTF8, A>) -> Result<(), (Refusal, Tendril<UTF8, A>)>
        ensures bytes { OnOk result (self.new.bytes ≡ text.bytes ++ self.old.bytes) }
        ensures texts { OnOk result (self.new.texts ≡ unless_empty text ++ self.old.texts) }
        ensures err { IfErr result (λ e. (e.0 ≡ Refusal.Memory) × (e.1 ≡ text) × (0 < length text.bytes)) }
        ensures some { OnErr result (0 < length self.old.bytes) }
        ensures unchanged { OnErr result (self.new ≡ self.old) }
    {
        if text.as_byte_slice().is_empty() {
            return Ok(());
        }
        let second = mem::replace(&mut self.first, text);
        if second.is_empty() {
            return Ok(());
        }
        match self.rest.push_front(second) {
            Ok(()) => Ok(()),
            Err(failed) => {
                let text = mem::replace(&mut self.first, failed.value);
                Err((Refusal::Memory, text))
            }
        }
    }

    /// Removes the first text and returns it, or returns `None` if the queue is empty. The text isn't empty.
    ///
    /// ```
    /// let mut queue: TextQueue = TextQueue::new(alloc);
    /// queue.push_back(StrTendril::from_slice(alloc, "ab")?)?;
    /// assert_eq!(rt; queue.pop_front().is_some_and(|text| text.eq_str("ab")), true);
    /// assert_eq!(rt; queue.pop_front().is_none(), true);
    /// ```
    pub fn pop_front(&mut self) -> Option<Tendril<UTF8, A>>
        ensures bytes { IfSome result (λ text. self.old.bytes ≡ text.bytes ++ self.new.bytes) }
        ensures texts { IfSome result (λ text. self.old.texts ≡ text ∷ self.new.texts) }
        ensures some { IfSome result (λ text. 0 < length text.bytes) }
        ensures none { IfNone result ((self.old.bytes ≡ []) × (self.new ≡ self.old)) }
    {
        if self.first.is_empty() {
            return None;
        }
        let text = mem::replace(&mut self.first, Tendril::new(self.alloc));
        refill(&mut self.first, &mut self.rest);
        Some(text)
    }

    /// Returns the next character, which stays in the queue, or `None` if the queue is empty.
    ///
    /// ```
    /// let mut queue: TextQueue = TextQueue::new(alloc);
    /// queue.push_back(StrTendril::from_slice(alloc, "ab")?)?;
    /// assert_eq!(rt; queue.peek(), Some('a'));
    /// assert_eq!(rt; queue.peek(), Some('a'));
    /// ```
    pub fn peek(&self) -> Option<char>
        ensures character { IfSome result (λ c. (rest : List ℕ) × (chars self.now.bytes ≡ c ∷ rest)) }
        ensures none { IfNone result (self.now.bytes ≡ []) }
    {
        self.first.peek_front_char()
    }

    /// Removes the next character and returns it, or returns `None` if the queue is empty. Allocates nothing.
    ///
    /// ```
    /// let mut queue: TextQueue = TextQueue::new(alloc);
    /// queue.push_back(StrTendril::from_slice(alloc, "éa")?)?;
    /// assert_eq!(rt; queue.next(), Some('é'));
    /// assert_eq!(rt; queue.next(), Some('a'));
    /// assert_eq!(rt; queue.next(), None);
    /// ```
    pub fn next(&mut self) -> Option<char>
        ensures character { IfSome result (λ c. chars self.old.bytes ≡ c ∷ chars self.new.bytes) }
        ensures bytes { IfSome result (λ c. self.old.bytes ≡ encode_utf8 c ++ self.new.bytes) }
        ensures texts { OnSome result (DropsFront self.old.texts self.new.texts) }
        ensures none { IfNone result ((self.old.bytes ≡ []) × (self.new ≡ self.old)) }
    {
        let character = self.first.pop_front_char()?;
        refill(&mut self.first, &mut self.rest);
        Some(character)
    }

    /// Removes and returns the prefix of the first text before its first character of the set, or that character if the
    /// text begins with it. Returns `None` if the queue is empty.
    ///
    /// Reads only the first text, and shares its bytes, as `Tendril::pop_except_from` does. Returns `Count` only if the
    /// prefix and the remainder both have more than 8 bytes, and their block has as many references as it can have.
    ///
    /// ```
    /// let mut queue: TextQueue = TextQueue::new(alloc);
    /// queue.push_back(StrTendril::from_slice(alloc, "one<")?)?;
    /// let set = ByteSet::new(b"<&");
    /// assert_eq!(rt; matches!(queue.pop_except_from(&set)?, Some(SetResult::NotFromSet(_))), true);
    /// assert_eq!(rt; matches!(queue.pop_except_from(&set)?, Some(SetResult::FromSet('<'))), true);
    /// ```
    pub fn pop_except_from(&mut self, set: &ByteSet) -> Result<Option<SetResult<UTF8, A>>, Refusal>
        ensures part { IfOk result (λ found. IfSome found (λ part.
            TakesFirst (has_byte set.now) self.old.texts part self.new.texts)) }
        ensures joined { IfOk result (λ found. IfSome found (λ part.
            self.old.bytes ≡ part_bytes encode_utf8 part ++ self.new.bytes)) }
        ensures shorter { IfOk result (λ found. OnSome found (length self.new.bytes < length self.old.bytes)) }
        ensures none { IfOk result (λ found. IfNone found ((self.old.bytes ≡ []) × (self.new ≡ self.old))) }
        ensures refusal { IfErr result (HasLongFirst (has_byte set.now) self.old.texts) }
        ensures err { OnErr result (self.new ≡ self.old) }
    {
        let found = self.first.pop_except_from(set)?;
        refill(&mut self.first, &mut self.rest);
        Ok(found)
    }
}

// Puts the next text in the place of the first one if that is empty.
pub(crate) fn refill<A: Atomicity>(
    first: &mut Tendril<UTF8, A>,
    rest: &mut VecDeque<Tendril<UTF8, A>>,
)
    requires { AreQueued rest.old.items }
    ensures texts { all_texts first.new rest.new.items ≡ all_texts first.old rest.old.items }
    ensures queue { IsQueue first.new rest.new.items }
{
    if !first.as_byte_slice().is_empty() {
        return;
    }
    if let Some(next) = rest.pop_front() {
        *first = next;
    }
}
