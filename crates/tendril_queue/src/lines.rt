//! Lines at the front of a queue, across its texts.
ghost use Rattle.std.specs.Prelude.{◌≡◌, List, ℕ, length, IfSome, IfNone, IfOk, IfErr, OnErr};
ghost use Rattle.tendril_queue.specs.Lines.{PopsLine, LineRefused, HasFirstFeed, IsJoinedLine, JoinedLineMay};
ghost use Rattle.tendril_fmt.specs.Cuts.{LacksFeed};
ghost use Rattle.tendril_text.specs.TextLists.{bytes_of_all};

use crate::eat::drop_front;
use crate::queue::{TextQueue, refill};
use std::alloc::Global;
use std::collections::VecDeque;
use tendril_errors::Refusal;
use tendril_fmt::fmt::UTF8;
use tendril_text::{Atomicity, Tendril};

impl<A: Atomicity> TextQueue<A> {
    /// Removes the next line, with its LF, and returns it, or returns `None` if the queue has no LF.
    ///
    /// A line that lies in the first text shares its block. One that spans texts is joined in a new text, and they are
    /// dropped; so it costs its length. Without an LF, the call reads the whole queue.
    ///
    /// Returns `Count` only if the line and the remainder of its text both have more than 8 bytes, and their block has
    /// as many references as it can have. Of a line that spans texts, returns `TooLong` if it has more than 4294967295
    /// bytes, or `Memory` if an allocation fails. Then nothing has changed.
    ///
    /// ```
    /// let mut queue: TextQueue = TextQueue::new(alloc);
    /// queue.push_back(StrTendril::from_slice(alloc, "one\ntw")?)?;
    /// assert_eq!(rt; queue.pop_line()?.is_some_and(|line| line.eq_str("one\n")), true);
    /// assert_eq!(rt; queue.pop_line()?.is_none(), true);
    /// queue.push_back(StrTendril::from_slice(alloc, "o\n")?)?;
    /// assert_eq!(rt; queue.pop_line()?.is_some_and(|line| line.eq_str("two\n")), true);
    /// ```
    pub fn pop_line(&mut self) -> Result<Option<Tendril<UTF8, A>>, Refusal>
        ensures some { IfOk result (λ found. IfSome found (λ line. PopsLine self.old line self.new)) }
        ensures none { IfOk result (λ found. IfNone found (LacksFeed self.old.bytes × (self.new ≡ self.old))) }
        ensures refusal { IfErr result (LineRefused self.old) }
        ensures err { OnErr result (self.new ≡ self.old) }
    {
        if let Some(count) = self.first.first_line_len() {
            return match self.first.split_to(count) {
                Ok(line) => {
                    refill(&mut self.first, &mut self.rest);
                    Ok(Some(line))
                }
                Err(_) => Err(Refusal::Count),
            };
        }
        let Some((index, count)) = find_feed(&self.rest) else {
            return Ok(None);
        };
        let line = joined_line(self.alloc, &self.first, &self.rest, index, count)?;
        let all = line.as_byte_slice().len();
        drop_front(&mut self.first, &mut self.rest, all);
        Ok(Some(line))
    }
}

// The index of the first text with an LF, and the length of that one's first line.
fn find_feed<A: Atomicity>(texts: &VecDeque<Tendril<UTF8, A>>) -> Option<(usize, u32)>
    ensures some { IfSome result (λ found. HasFirstFeed texts.now.items found.0 found.1) }
    ensures none { IfNone result (LacksFeed (bytes_of_all texts.now.items)) }
{
    for index in 0..texts.len() {
        if let Some(count) = texts[index].first_line_len() {
            return Some((index, count));
        }
    }
    None
}

// Joins a first text, those after it up to an index, and the first bytes of the one at that index.
fn joined_line<A: Atomicity>(
    alloc: Global,
    first: &Tendril<UTF8, A>,
    texts: &VecDeque<Tendril<UTF8, A>>,
    index: usize,
    count: u32,
) -> Result<Tendril<UTF8, A>, Refusal>
    requires { HasFirstFeed texts.now.items index count }
    ensures ok { IfOk result (λ line. IsJoinedLine first.now texts.now.items index count line.bytes) }
    ensures err { IfErr result (λ r. (line : List ℕ) → IsJoinedLine first.now texts.now.items index count line
        → JoinedLineMay (length line) r) }
{
    let mut line = Tendril::<UTF8, A>::from_slice(alloc, first.as_str())?;
    for at in 0..index {
        line.push_tendril(&texts[at])?;
    }
    let last = texts[index].as_byte_slice();
    line.push_bytes_without_validating(&last[..count as usize])?;
    Ok(line)
}
