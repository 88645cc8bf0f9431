//! Words that are numbers.
ghost use Rattle.std.specs.Prelude.{◌≡◌, ◌↔◌, ℕ, Some, MatchOption};
ghost use Rattle.tendril_lines.specs.Words.{IsNumber, IsLongNumber, IsPlain, IsCharWord};

/// Reads a decimal number up to 4294967295, without leading zeros. Returns `None` for other words.
pub fn number(word: &[u8]) -> Option<u32>
    ensures { (n : ℕ) → (result ≡ Some n) ↔ IsNumber n word.now }
{
    let text = plain(word)?;
    text.parse::<u32>().ok()
}

/// Reads a decimal number up to 18446744073709551615, without leading zeros. Returns `None` for other words.
pub fn long_number(word: &[u8]) -> Option<u64>
    ensures { (n : ℕ) → (result ≡ Some n) ↔ IsLongNumber n word.now }
{
    let text = plain(word)?;
    text.parse::<u64>().ok()
}

/// Reads a character: the decimal number of its scalar value. Returns `None` for other words.
pub fn scalar(word: &[u8]) -> Option<char>
    ensures { (c : ℕ) → (result ≡ Some c) ↔ IsCharWord c word.now }
{
    char::from_u32(number(word)?)
}

// The text of a word, unless it is empty, begins with a plus sign or an unneeded zero, or isn't UTF-8.
fn plain(word: &[u8]) -> Option<&str>
    ensures { MatchOption result ((n : ℕ) → IsLongNumber n word.now → ⊥)
        (λ text. (text.now ≡ word.now) × IsPlain word.now) }
{
    if word.is_empty() || word[0] == b'+' || (word[0] == b'0' && word.len() > 1) {
        return None;
    }
    str::from_utf8(word).ok()
}
