//! The arguments of a program, as words.
ghost use Rattle.std.specs.Prelude.{◌≡◌, ◌↔◌, [], IfErr, IsTrue, IsUtf8, map};
ghost use Rattle.tendril_script.specs.Words.{AskToRun};

use std::alloc::AllocError;
use std::env::FillError;
use std::rt::Env;
use std::str;
use tendril_errors::Refusal;

// The words that programs know have at most this many bytes.
const LONGEST: usize = 16;

/// Returns a program's words: the arguments after its name. The only error is Memory.
///
/// An argument that isn't UTF-8, or has more than 16 bytes, becomes the empty word, which asks for nothing. The name
/// isn't read, so it may be any bytes.
pub fn words_of<S: Env + AllocGlobal>(system: &S) -> Result<Vec<String>, Refusal>
    ensures { IfErr result (λ r. r ≡ Refusal.Memory) }
{
    let mut words = Vec::new(system.alloc());
    for place in 1..usize::MAX {
        let Some(word) = word_at(system, place)? else {
            break;
        };
        words.push(word).map_err(AllocError::from)?;
    }
    Ok(words)
}

// The word at this index, or None after the last one.
fn word_at<S: Env + AllocGlobal>(system: &S, place: usize) -> Result<Option<String>, AllocError> {
    let mut bytes = [0; LONGEST];
    let word = match system.arg(place, &mut bytes) {
        Ok(count) => text_of(&bytes[..count]),
        Err(FillError::TooLong) => "",
        Err(FillError::NotPresent) => return Ok(None),
    };
    Ok(Some(String::from_str(system.alloc(), word)?))
}

// Bytes as text, empty if they aren't UTF-8.
fn text_of(bytes: &[u8]) -> &str
    ensures utf8 { IsUtf8 bytes.now → result.now ≡ bytes.now }
    ensures other { (IsUtf8 bytes.now → ⊥) → result.now ≡ [] }
{
    str::from_utf8(bytes).unwrap_or("")
}

/// Returns whether the words ask for a run: there is none, or only `run`.
pub fn asks_to_run(words: &[&str]) -> bool
    ensures { IsTrue result ↔ AskToRun (map (λ word. word.now) words.now) }
{
    match words {
        [] => true,
        [word] => *word == "run",
        _ => false,
    }
}
