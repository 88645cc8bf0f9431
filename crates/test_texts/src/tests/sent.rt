//! Texts that go to another thread, and come back.

use crate::notes::Notes;
use std::alloc::Global;
use std::test::Fail;
use std::thread;
use std::thread::Promise;
use tendril::block::Refusal;
use tendril::fmt::Bytes;
use tendril::{
    Atomic, Atomicity, ByteTendril, NonAtomic, SendTendril, StrTendril, Tendril, slice_to_tendril,
    str_to_tendril,
};
use tendril_bench::worker::louder_in_a_worker;

const LETTERS: &str = "abcdefghijklmnopqrstuvwxyzabcdefghijklmnopqrstuvwxyz";

/// A promise that says nothing about what a thread returns.
#[derive(Clone, Copy)]
pub(super) struct Anything;

impl<T> Promise<T> for Anything {
    ghost kept_by = { λ _ _. Unit {0} };
}

fn letters(len: usize) -> &'static [u8] {
    LETTERS.as_bytes().get(..len).unwrap_or(b"")
}

const LENGTHS: [usize; 9] = [0, 1, 7, 8, 9, 16, 40, 41, 52];

// The text, sent and received over another kind of block.
fn sent<A: Atomicity, B: Atomicity>(text: Tendril<Bytes, A>) -> Option<Tendril<Bytes, B>> {
    let sent = text.into_send().ok()?;
    Tendril::from_send(sent).ok()
}

// Sends texts from one kind of block to another.
fn send_each_length<A: Atomicity, B: Atomicity>(alloc: Global, notes: &mut Notes) {
    for len in LENGTHS {
        let text: Tendril<Bytes, A> = notes.or(
            len,
            Tendril::<Bytes, A>::from_slice(alloc, letters(len)),
            Tendril::new(alloc),
        );
        match sent::<A, B>(text) {
            Some(back) => check_text(notes, len, &back),
            None => notes.holds(len, false, "a text is sent"),
        }
    }
}

fn check_text<A: Atomicity>(notes: &mut Notes, len: usize, text: &Tendril<Bytes, A>) {
    notes.same(len, text.as_byte_slice(), letters(len));
    notes.holds(len, !text.is_shared(), "a text that was sent isn't shared");
}

#[test]
fn texts_go_from_one_kind_of_block_to_another(rt: HostRuntime) -> Result<(), Fail> {
    let mut notes = Notes::new();
    send_each_length::<NonAtomic, Atomic>(rt.alloc(), &mut notes);
    send_each_length::<Atomic, NonAtomic>(rt.alloc(), &mut notes);
    notes.end()
}

#[test]
fn a_worker_changes_a_text(rt: HostRuntime) -> Result<(), Fail> {
    let mut notes = Notes::new();
    for (text, expected) in [("hello", "hello!"), ("hello, worker", "hello, worker!")] {
        let text: StrTendril = notes.or(
            0,
            str_to_tendril(rt.alloc(), text),
            Tendril::new(rt.alloc()),
        );
        match louder_in_a_worker(&rt, text) {
            Ok(louder) => notes.same(1, louder.as_str(), expected),
            Err(refusal) => notes.done(1, Err(refusal)),
        }
    }
    notes.end()
}

// Appends the byte to each text, in the current thread.
fn pushed(
    alloc: Global,
    texts: Vec<SendTendril<Bytes>>,
    byte: u8,
) -> Result<Vec<SendTendril<Bytes>>, Refusal> {
    let mut pushed = Vec::new(alloc);
    for text in texts {
        let mut text = ByteTendril::from_send(text)?;
        text.push_slice(&[byte])?;
        pushed.push(text.into_send()?)?;
    }
    Ok(pushed)
}

// A thousand texts of many lengths.
fn a_thousand(alloc: Global) -> Result<Vec<SendTendril<Bytes>>, Refusal> {
    let mut texts = Vec::new(alloc);
    for number in 0..1000usize {
        let text: ByteTendril = slice_to_tendril(alloc, letters(number % 53))?;
        texts.push(text.into_send()?)?;
    }
    Ok(texts)
}

// Checks that the returned text has its letters, followed by the digits.
fn check_pushed(notes: &mut Notes, number: usize, text: SendTendril<Bytes>) {
    let expected = letters(number % 53);
    let text: Result<ByteTendril, _> = Tendril::from_send(text);
    match text {
        Ok(text) => {
            let digits = text.as_byte_slice().strip_prefix(expected);
            notes.same(number, digits, Some(b"1234".as_slice()));
        }
        Err(_) => notes.holds(number, false, "a text comes back"),
    }
}

#[test]
fn a_thousand_texts_pass_four_threads(rt: HostRuntime) -> Result<(), Fail> {
    let alloc = rt.alloc();
    let mut texts = a_thousand(alloc)?;
    for byte in *b"1234" {
        let worker = thread::spawn_with(&rt, Anything, move || pushed(alloc, texts, byte))?;
        texts = worker.join(&rt)?;
    }
    let mut notes = Notes::new();
    notes.same(1000, texts.len(), 1000);
    for (number, text) in texts.into_iter().enumerate() {
        check_pushed(&mut notes, number, text);
    }
    notes.end()
}

fn clone_often(text: &Tendril<Bytes, Atomic>) -> bool {
    (0..1000).all(|_| text.clone().is_ok())
}

#[test]
fn a_text_over_atomic_blocks_is_cloned_in_two_threads(rt: HostRuntime) -> Result<(), Fail> {
    let text = Tendril::<Bytes, Atomic>::from_slice(rt.alloc(), LETTERS.as_bytes())?;
    let mine = text.clone()?;
    let worker = thread::spawn_with(&rt, Anything, move || clone_often(&mine))?;
    let mut notes = Notes::new();
    notes.holds(0, clone_often(&text), "each clone succeeds here");
    notes.holds(1, worker.join(&rt), "each clone succeeds there");
    notes.same(2, text.as_byte_slice(), LETTERS.as_bytes());
    notes.end()
}
