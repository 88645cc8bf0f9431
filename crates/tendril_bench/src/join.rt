//! Joins two texts.
ghost use Rattle.std.specs.Prelude.{◌≡◌, ◌++◌, IfOk};

use tendril::ByteTendril;
use tendril::block::Refusal;

/// Returns a text of the bytes of both.
pub fn join(left: &ByteTendril, right: &ByteTendril) -> Result<ByteTendril, Refusal>
    ensures { IfOk result (λ text. text.bytes ≡ left.now.bytes ++ right.now.bytes) }
{
    let mut text = left.clone()?;
    text.push_tendril(right)?;
    Ok(text)
}
