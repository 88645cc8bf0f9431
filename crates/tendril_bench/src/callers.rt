//! Code that is generic over the format: it is proved once, from the trait alone, for every format.
ghost use Rattle.std.specs.Prelude.{◌≡◌, ◌≤◌, ◌∷◌, ◌++◌, ℕ, List, length, take, IfSome, IfNone};
ghost use Rattle.std.specs.List.{AllByRecursion};
ghost use Rattle.tendril_bench.specs.Digits.{IsDigit};

use tendril::fmt::{CharFormat, Format};

/// Returns the first `len` bytes of a text, if they are valid in its format.
pub fn front<F: Format>(text: &[u8], len: usize) -> Option<&[u8]>
    requires valid { F.valid text.now }
    requires within { len ≤ length text.now }
    ensures cut { IfSome result (λ front. F.valid front.now × (front.now ≡ take len text.now)) }
    ensures refused { IfNone result (¬ (F.valid (take len text.now))) }
{
    let front = &text[..len];
    if F::validate_prefix(front) {
        Some(front)
    } else {
        None
    }
}

/// Splits a text after its longest prefix of digits.
pub fn leading_digits<F: CharFormat>(text: &[u8]) -> (&[u8], &[u8])
    requires { F.valid text.now }
    ensures texts { F.valid result.0.now × F.valid result.1.now }
    ensures whole { text.now ≡ result.0.now ++ result.1.now }
    ensures characters { F.chars text.now ≡ F.chars result.0.now ++ F.chars result.1.now }

    // the first slice is the longest prefix of digits
    ensures digits { AllByRecursion IsDigit (F.chars result.0.now) }
    ensures longest { (c : ℕ) (cs : List ℕ) → F.chars result.1.now ≡ c ∷ cs → ¬ (IsDigit c) }
{
    let mut at = 0;
    while let Some((character, len)) = F::first_char(&text[at..]) {
        if !character.is_ascii_digit() {
            break;
        }
        at += len;
    }
    text.split_at(at)
}
