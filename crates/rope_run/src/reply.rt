//! The lines of replies.
ghost use Rattle.std.specs.Prelude.{◌≡◌, IfOk, IfErr, string_bytes};
ghost use Rattle.rope_run.specs.RopePrinted.{rope_printed};

use crate::command::RopeReply;
use std::alloc::Global;
use tendril_errors::Refusal;
use tendril_lines::print_reply;

/// Returns a reply's line, without its line feed: `rope N` for a new rope, `length N`, or what `print_reply` prints.
///
/// Allocates the line. The only error is `Memory`.
pub fn print_rope_reply(alloc: Global, reply: &RopeReply) -> Result<String, Refusal>
    ensures printed { IfOk result (λ text. string_bytes text ≡ rope_printed reply.now) }
    ensures refusal { IfErr result (λ r. r ≡ Refusal.Memory) }
{
    match reply {
        RopeReply::Plain(reply) => print_reply(alloc, reply),
        RopeReply::MadeRope(rope) => Ok(format!(in alloc; "rope {rope}")?),
        RopeReply::Length(count) => Ok(format!(in alloc; "length {count}")?),
    }
}
