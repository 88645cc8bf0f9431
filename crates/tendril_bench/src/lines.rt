//! The lines of a text.
ghost use Rattle.std.specs.Prelude.{map, IfOk};
ghost use Rattle.tendril.specs.Cuts.{AreLines};

use std::alloc::Global;
use tendril::StrTendril;
use tendril::block::Refusal;

/// Returns the lines of a text without their line endings, as Rust's `str::lines`. Long ones share the text's block.
pub fn split_lines(alloc: Global, text: StrTendril) -> Result<Vec<StrTendril>, Refusal>
    ensures { IfOk result (λ lines. AreLines (map (λ line. line.bytes) lines.items) text.bytes) }
{
    let mut lines = Vec::new(alloc);
    for line in text.into_lines() {
        let line = line?;
        lines.push(line)?;
    }
    Ok(lines)
}
