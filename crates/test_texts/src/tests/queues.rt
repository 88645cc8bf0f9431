//! Texts of a queue that have blocks.

use crate::made::text_of;
use crate::notes::Notes;
use std::alloc::Global;
use std::test::Fail;
use tendril_queue::{EatResult, TextQueue};

fn push(notes: &mut Notes, alloc: Global, queue: &mut TextQueue, text: &str) {
    let text = text_of(notes, alloc, text);
    notes.done(0, queue.push_back(text));
}

// Texts of more than 8 bytes have blocks. `.ci/leaks` checks that each is freed, popped or not.
#[test]
fn texts_in_blocks(rt: HostRuntime) -> Result<(), Fail> {
    let mut notes = Notes::new();
    let alloc = rt.alloc();
    let mut queue = TextQueue::new(alloc);
    for text in [
        "the first text",
        "the second text",
        "the third text",
        "the last text",
    ] {
        push(&mut notes, alloc, &mut queue, text);
    }
    let first = queue.pop_front();
    notes.same(
        1,
        first.as_ref().map(|text| text.as_str()),
        Some("the first text"),
    );
    notes.same(2, queue.eat("the second textthe"), EatResult::Eaten);
    notes.same(3, queue.next(), Some(' '));
    notes.end()
}
