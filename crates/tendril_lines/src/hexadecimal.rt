//! Words that are bytes.
ghost use Rattle.std.specs.Prelude.{◌≡◌, ◌↔◌, ℕ, List, Some, IfOk, string_bytes};
ghost use Rattle.tendril_lines.specs.Words.{IsHex, IsByteWord, hex_text};

use crate::byte_list::ByteList;
use hex::FromHexError;
use std::alloc::{AllocError, Global};

/// Reads a word of bytes: two hexadecimal digits each, in either case, or a dash for none.
///
/// Returns `None` for other words. The only error is a failed allocation.
#[tactic(auto, unfolding(crate::specs::Words::IsHex))]
pub fn bytes(alloc: Global, word: &[u8]) -> Result<Option<ByteList>, AllocError>
    ensures { IfOk result (λ found. (b : List ℕ) → (found ≡ Some b) ↔ IsHex b word.now) }
{
    match word {
        [] => Ok(None),
        b"-" => Ok(Some(ByteList::new(Vec::new(alloc)))),
        _ => match hex::decode(alloc, word) {
            Ok(bytes) => Ok(Some(ByteList::new(bytes))),
            Err(FromHexError::OutOfMemory) => Err(AllocError),
            Err(_) => Ok(None),
        },
    }
}

/// Reads a word of one byte: two hexadecimal digits, in either case. Returns `None` for other words.
#[tactic(auto, unfolding(crate::specs::Words::IsByteWord))]
pub fn byte(alloc: Global, word: &[u8]) -> Result<Option<u8>, AllocError>
    ensures { IfOk result (λ found. (b : ℕ) → (found ≡ Some b) ↔ IsByteWord b word.now) }
{
    let Some(bytes) = bytes(alloc, word)? else {
        return Ok(None);
    };
    match bytes.as_slice() {
        [byte] => Ok(Some(*byte)),
        _ => Ok(None),
    }
}

/// Returns the word of bytes: two digits each in lower case, or a dash for none.
pub fn hex_of(alloc: Global, bytes: &[u8]) -> Result<String, AllocError>
    ensures { IfOk result (λ text. string_bytes text ≡ hex_text bytes.now) }
{
    if bytes.is_empty() {
        return String::from_str(alloc, "-");
    }
    hex::encode(alloc, bytes)
}
