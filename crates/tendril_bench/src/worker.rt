//! Changes a text in another thread.
ghost use Rattle.std.specs.Prelude.{◌≡◌, ◌++◌, IfOk, codes};

use std::snapshot::Snapshot;
use std::thread;
use std::thread::{Promise, Threads};
use tendril::block::Refusal;
use tendril::fmt::UTF8;
use tendril::{SendTendril, StrTendril, Tendril};

/// Returns the text with an exclamation mark, which another thread appends.
pub fn louder_in_a_worker<R: Threads>(rt: &R, text: StrTendril) -> Result<StrTendril, Refusal>
    ensures { IfOk result (λ louder. louder.bytes ≡ text.bytes ++ codes "!") }
{
    let sent = text.into_send()?;
    let promise = Louder(Snapshot::of(&sent));
    let Ok(worker) = thread::spawn_with(rt, promise, move || make_louder(sent)) else {
        return Err(Refusal::NotStarted);
    };
    let back = worker.join(rt)?;
    Ok(Tendril::from_send(back)?)
}

// The worker's promise: it returns this text with an exclamation mark.
#[derive(Drop)]
struct Louder(Snapshot<SendTendril<UTF8>>);

impl Promise<Result<SendTendril<UTF8>, Refusal>> for Louder {
    ghost kept_by = { λ p r. IfOk r (λ t. t ≡ p.0.value ++ codes "!") };
}

// Runs in the worker's thread.
fn make_louder(text: SendTendril<UTF8>) -> Result<SendTendril<UTF8>, Refusal>
    ensures { IfOk result (λ t. t ≡ text ++ codes "!") }
{
    let mut text = StrTendril::from_send(text)?;
    text.push_slice("!")?;
    Ok(text.into_send()?)
}
