//! The fields of a line, between commas.
ghost use Rattle.std.specs.Prelude.{◌≡◌, map, All, IfOk};
ghost use Rattle.std.specs.List.{join_with_byte};
ghost use Rattle.std.specs.Str.Iter.{LacksByte};

use std::alloc::Global;
use tendril::block::Refusal;
use tendril::{ByteSet, StrTendril};

/// The fields of a line, empty ones too. Joined with commas they are the line, and none has a comma. Long ones share
/// the line's bytes.
pub fn split_fields(alloc: Global, line: StrTendril) -> Result<Vec<StrTendril>, Refusal>
    ensures joined { IfOk result (λ fields. join_with_byte 44 (map (λ field. field.bytes) fields.items) ≡ line.bytes) }
    ensures apart { IfOk result (λ fields. All (LacksByte 44) (map (λ field. field.bytes) fields.items)) }
{
    let comma = ByteSet::new(b",");
    let mut fields = Vec::new(alloc);
    for field in line.into_split(&comma) {
        let field = field?;
        fields.push(field)?;
    }
    Ok(fields)
}
