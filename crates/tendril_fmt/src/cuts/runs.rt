//! Runs of characters of one class.
ghost use Rattle.std.specs.Prelude.{◌≡◌, ◌≤◌, [], length, drop, IfSome, IfNone, MatchOption};
ghost use Rattle.tendril_fmt.specs.Chars.{IsFirstChar};
ghost use Rattle.tendril_fmt.specs.Runs.{EndsRun};

use crate::fmt::CharFormat;

/// Returns the end of the first run of characters of one class, and the class.
///
/// It borrows the classifier, so that the contract can state its final state: it was called once for each character of
/// the run and the one after it, and for no other.
pub fn run_end<F: CharFormat, C: FnMut(char) -> R, R: PartialEq + Drop>(
    bytes: &[u8],
    classify: &mut C,
) -> Option<(usize, R)>
    requires valid { F.valid bytes.now }
    requires callable { C.IsAlwaysCallable classify.old }
    ensures ends { MatchOption result
        ((bytes.now ≡ []) × (classify.new ≡ classify.old))
        (λ found. EndsRun C.step R.eq F.valid F.chars classify.old found.1 bytes.now found.0 classify.new) }
    ensures callable { C.IsAlwaysCallable classify.new }
{
    let (first, mut end) = F::first_char(bytes)?;
    let class = classify(first);
    while let Some((character, count)) = char_at::<F>(bytes, end) {
        if class != classify(character) {
            return Some((end, class));
        }
        end += count;
    }
    Some((end, class))
}

// The character at an offset that is between two characters.
fn char_at<F: CharFormat>(bytes: &[u8], at: usize) -> Option<(char, usize)>
    requires within { at ≤ length bytes.now }
    requires valid { F.valid (drop at bytes.now) }
    ensures first { IfSome result (λ found.
        IsFirstChar F.valid F.chars F.encodes F.encoding (drop at bytes.now) found.0 found.1) }
    ensures none { IfNone result (drop at bytes.now ≡ []) }
{
    F::first_char(&bytes[at..])
}
