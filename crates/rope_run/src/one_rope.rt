//! What a command does to one rope, which may have been dropped.
ghost use Rattle.std.specs.Prelude.{◌≡◌, IfErr, OnOk};
ghost use Rattle.rope_run.specs.RopeCells.{IsRopeCell, gone as gone_cell, rope as rope_cell};
ghost use Rattle.rope_run.specs.RopeOf.{rope_cell_of};
ghost use Rattle.rope_run.specs.RopeRows.{append_rule, rope_push_rule, rope_pop_rule, rope_drop_rule, rope_char};
ghost use Rattle.rope_run.specs.RopeRows.{share_rule};
ghost use Rattle.tendril_run.specs.Cells.{cell_of};
ghost use Rattle.rope_run.specs.RopeRules.{Answered, Changed};
ghost use Rattle.tendril_run.specs.Rules.{Changes};

use rope_text::{MAX_TOTAL, Rope};
use tendril_run::{Reply, Slot};
use tendril_text::block::Refusal;
use tendril_text::fmt::UTF8;
use tendril_text::{Atomicity, Tendril};

/// Pushes the text of a slot onto the rope, and returns the reply.
pub(crate) fn push<A: Atomicity>(rope: &mut Option<Rope<A>>, slot: &Slot<A>) -> Reply
    ensures done { Changed (rope_push_rule (cell_of slot.now)) (rope_cell_of rope.old) result (rope_cell_of rope.new) }
    ensures kept { IsRopeCell (rope_cell_of rope.old) → IsRopeCell (rope_cell_of rope.new) }
{
    match (rope, slot) {
        (None, _) | (_, Slot::Gone) => Reply::Refused(Refusal::NoSuchSlot),
        (Some(rope), Slot::Utf8(text)) => reply_of(push_text(rope, text)),
        _ => Reply::Refused(Refusal::WrongFormat),
    }
}

// Pushes a clone of a text onto the rope: they share the bytes.
fn push_text<A: Atomicity>(rope: &mut Rope<A>, text: &Tendril<UTF8, A>) -> Result<(), Refusal>
    ensures done { Changes (share_rule text.now.bytes) rope.old.bytes result rope.new.bytes }
    ensures kept { IsRopeCell (rope_cell rope.old.bytes) → IsRopeCell (rope_cell rope.new.bytes) }
{
    if text.len32() as u64 > MAX_TOTAL - rope.len64() {
        return Err(Refusal::TooLong);
    }
    let copy = text.clone()?;
    if let Err((refusal, _)) = rope.push_tendril(copy) {
        return Err(refusal);
    }
    read(rope);
    Ok(())
}

/// Appends the pieces of another rope, and returns the reply.
pub(crate) fn append<A: Atomicity>(rope: &mut Option<Rope<A>>, more: Rope<A>) -> Reply
    ensures done { Changed (append_rule (rope_cell more.bytes)) (rope_cell_of rope.old) result (rope_cell_of rope.new) }
    ensures kept { IsRopeCell (rope_cell_of rope.old) → IsRopeCell (rope_cell_of rope.new) }
{
    match rope {
        Some(rope) => reply_of(append_pieces(rope, more)),
        None => Reply::Refused(Refusal::NoSuchSlot),
    }
}

fn append_pieces<A: Atomicity>(rope: &mut Rope<A>, more: Rope<A>) -> Result<(), Refusal>
    ensures done { Changes (share_rule more.bytes) rope.old.bytes result rope.new.bytes }
    ensures kept { IsRopeCell (rope_cell rope.old.bytes) → IsRopeCell (rope_cell rope.new.bytes) }
{
    if let Err((refusal, _)) = rope.append(more) {
        return Err(refusal);
    }
    read(rope);
    Ok(())
}

/// Pops the rope's first character, and returns the reply.
pub(crate) fn pop_char<A: Atomicity>(rope: &mut Option<Rope<A>>) -> Reply
    ensures done { Answered rope_pop_rule (λ cell. Reply.Char (rope_char cell))
        (rope_cell_of rope.old) result (rope_cell_of rope.new) }
    ensures valid { IsRopeCell (rope_cell_of rope.new) }
{
    match rope {
        Some(rope) => {
            let first = rope.pop_front_char();
            read(rope);
            Reply::Char(first)
        }
        None => Reply::Refused(Refusal::NoSuchSlot),
    }
}

/// Drops the rope, and returns the reply.
pub(crate) fn drop_rope<A: Atomicity>(rope: &mut Option<Rope<A>>) -> Reply
    ensures done { Changed rope_drop_rule (rope_cell_of rope.old) result (rope_cell_of rope.new) }
    ensures gone { rope_cell_of rope.new ≡ gone_cell }
{
    if let None = rope {
        return Reply::Refused(Refusal::NoSuchSlot);
    }
    *rope = None;
    Reply::Done
}

/// Reads a rope, since contracts of reads state that it is valid and not too long. Costs nothing.
pub(crate) fn read<A: Atomicity>(rope: &Rope<A>)
    ensures { IsRopeCell (rope_cell rope.now.bytes) }
{
    let _len = rope.len64();
    let _pieces = rope.pieces();
}

// The reply to a call that returned Ok or an error.
fn reply_of(done: Result<(), Refusal>) -> Reply
    ensures ok { OnOk done (result ≡ Reply.Done) }
    ensures err { IfErr done (λ r. result ≡ Reply.Refused r) }
{
    match done {
        Ok(()) => Reply::Done,
        Err(refusal) => Reply::Refused(refusal),
    }
}
