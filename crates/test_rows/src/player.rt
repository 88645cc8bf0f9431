//! How a player is called: `play FILE..`, or `refuse FILE N`.

use crate::place::Counts;
use std::alloc::{AllocError, Global};
use std::env::{self, Args};
use std::fs::{self, Files};
use std::io;
use std::iter::Skip;
use std::rt::Env;
use tendril_errors::Refusal;

/// A kind of player.
pub trait Plays {
    /// Plays all sessions of a file, whose first line says on what.
    fn play_text(
        &self,
        rt: &(impl Files + Print + AllocGlobal),
        file: &str,
        text: &str,
    ) -> io::Result<Counts>;
}

/// The words after the program's name.
pub fn arguments(rt: &(impl Env + Eprint + AllocGlobal)) -> io::Result<Skip<Args>> {
    Ok(told(rt, "arguments", env::args(rt))?.skip(1))
}

/// Plays the files that the words name. Returns whether each reply was the expected one, or None for unknown words. The
/// player's own error is printed.
pub fn play_files(
    rt: &(impl Files + Print + Eprint + AllocGlobal),
    player: &impl Plays,
    way: &str,
    words: Skip<Args>,
) -> io::Result<Option<bool>> {
    match way {
        "play" => play_all(rt, player, words),
        "refuse" => refuse_first(rt, player, words),
        _ => Ok(None),
    }
}

fn play_all(
    rt: &(impl Files + Print + Eprint + AllocGlobal),
    player: &impl Plays,
    words: Skip<Args>,
) -> io::Result<Option<bool>> {
    let mut right = true;
    for file in words {
        right = told(rt, file.as_str(), play(rt, player, file.as_str()))? && right;
    }
    Ok(Some(right))
}

fn refuse_first(
    rt: &(impl Files + Print + Eprint + AllocGlobal),
    player: &impl Plays,
    mut words: Skip<Args>,
) -> io::Result<Option<bool>> {
    let file = words.next();
    let count = words.next().map(|count| count.as_str().parse::<u32>());
    let (Some(file), Some(Ok(count))) = (file, count) else {
        return Ok(None);
    };
    let right = told(rt, file.as_str(), refuse(rt, player, file.as_str(), count))?;
    Ok(Some(right))
}

/// The exit status: 0 if each reply was the expected one, else 3; 2 for unknown words, for which the usage is printed;
/// 1 for an error of the player itself, which is printed already.
pub fn status_of(rt: &impl Eprint, outcome: io::Result<Option<bool>>, usage: &str) -> u8 {
    match outcome {
        Ok(Some(true)) => 0,
        Ok(Some(false)) => 3,
        Ok(None) => {
            let _ = eprintln!(rt; "usage: {usage}");
            2
        }
        Err(_) => 1,
    }
}

/// Prints an error of the player itself, and what it was at. An error while printing changes nothing.
pub fn told<T: Drop>(rt: &impl Eprint, what: &str, outcome: io::Result<T>) -> io::Result<T> {
    if let Err(error) = &outcome {
        let _ = eprintln!(rt; "{what}: {error}");
    }
    outcome
}

/// The error of the player itself, for a call that it needs. Such a call fails only without memory.
pub fn out_of_memory(_refusal: Refusal) -> io::Error {
    io::Error::from(io::ErrorKind::OutOfMemory)
}

// Plays a file, and prints how much was played. Returns whether each reply was the expected one.
fn play(
    rt: &(impl Files + Print + AllocGlobal),
    player: &impl Plays,
    file: &str,
) -> io::Result<bool> {
    let text = fs::read_to_string(rt, file)?;
    let counts = player.play_text(rt, file, text.as_str())?;
    counts.print_played(rt, file)?;
    Ok(counts.all_right())
}

// Plays a file after `count` allocations, and prints how many rows got no memory.
fn refuse(
    rt: &(impl Files + Print + AllocGlobal),
    player: &impl Plays,
    file: &str,
    count: u32,
) -> io::Result<bool> {
    let text = fs::read_to_string(rt, file)?;
    make_requests(rt.alloc(), count)?;
    let counts = player.play_text(rt, file, text.as_str())?;
    counts.print_refused(rt, file)?;
    Ok(counts.all_right())
}

fn make_requests(alloc: Global, count: u32) -> Result<(), AllocError> {
    for _ in 0..count {
        let mut asked = Vec::new(alloc);
        asked.push(0u8)?;
    }
    Ok(())
}
