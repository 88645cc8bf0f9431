//! Numbers and bytes in lines and in replies.

use std::alloc::{AllocError, Global};
use std::fmt::{self, Display, Formatter};
use tendril_errors::Refusal;
use tendril_lines::bytes;

/// The number that a word spells.
pub fn number(word: &str) -> Result<u32, Refusal> {
    word.parse::<u32>().map_err(|_| Refusal::Invalid)
}

/// The maximal number of bytes that a reply writes one by one. If there are more, it writes each run of equal bytes
/// once, with its length.
pub const MAX_WRITTEN_SINGLY: usize = 40;

/// The bytes of words in hexadecimal, `-` for none, each with how often its bytes are repeated: `61*50000 ff 2030*3`.
/// Returns None if a word has another form.
pub fn read_bytes(alloc: Global, words: &str) -> Result<Option<Vec<u8>>, AllocError> {
    let mut all = Vec::new(alloc);
    for word in words.split(' ') {
        if !push_word(alloc, &mut all, word)? {
            return Ok(None);
        }
    }
    Ok(Some(all))
}

// Appends the bytes of a word. Returns whether it has the form of one.
fn push_word(alloc: Global, all: &mut Vec<u8>, word: &str) -> Result<bool, AllocError> {
    let (digits, count) = word.split_once('*').unwrap_or((word, "1"));
    let Ok(count) = count.parse::<u32>() else {
        return Ok(false);
    };
    let Some(once) = bytes(alloc, digits.as_bytes())? else {
        return Ok(false);
    };
    all.reserve(once.as_slice().len().saturating_mul(count as usize))?;
    for _ in 0..count {
        all.extend_from_slice(once.as_slice())?;
    }
    Ok(true)
}

/// Bytes in hexadecimal, `-` for none.
#[derive(Clone, Copy)]
pub struct Hex<'a>(pub &'a [u8]);

impl Display for Hex<'_> {
    fn fmt<W: fmt::Write>(&self, f: &mut Formatter<W>) -> fmt::Result {
        if self.0.is_empty() {
            return f.write_str("-");
        }
        if self.0.len() > MAX_WRITTEN_SINGLY {
            return Runs(self.0).fmt(f);
        }
        for byte in self.0.iter() {
            write!(f, "{byte:02x}")?;
        }
        Ok(())
    }
}

/// Bytes in hexadecimal, a run of one byte as `61*5`.
#[derive(Clone, Copy)]
pub struct Runs<'a>(pub &'a [u8]);

impl Display for Runs<'_> {
    fn fmt<W: fmt::Write>(&self, f: &mut Formatter<W>) -> fmt::Result {
        for (index, run) in self.0.chunk_by(|one, next| one == next).enumerate() {
            let space = if index == 0 { "" } else { " " };
            let byte = run.first().copied().unwrap_or(0);
            match run.len() {
                1 => write!(f, "{space}{byte:02x}")?,
                count => write!(f, "{space}{byte:02x}*{count}")?,
            }
        }
        Ok(())
    }
}
