//! Calls of blocks outside of texts. A call that gets no memory must leave its block as it was, or return its argument;
//! otherwise the reply is `refused 4 Invalid`.

use crate::calls::{print, string_of};
use std::alloc::Global;
use tendril_block::{Atomicity, Refusal, Sole};

/// Returns what is printed for a line that calls blocks: the bytes of the block after the call.
pub fn reply<A: Atomicity>(
    alloc: Global,
    verb: &str,
    words: &str,
) -> Result<Option<String>, Refusal> {
    let bytes = string_of(words).as_bytes();
    let block = match verb {
        "block" => make::<A>(alloc, bytes)?,
        "block_own" => own::<A>(make::<A>(alloc, bytes)?)?,
        "block_grow" => grow::<A>(make::<A>(alloc, bytes)?, bytes)?,
        "block_sole" => again::<A>(make::<A>(alloc, bytes)?, bytes)?,
        "block_mut" => changed::<A>(make::<A>(alloc, bytes)?)?,
        "block_full" => full::<A>(make::<A>(alloc, bytes)?)?,
        _ => return Ok(None),
    };
    match str::from_utf8(A::bytes(&block)) {
        Ok(bytes) => print(alloc, format_args!("{bytes:?}")),
        Err(_) => Err(Refusal::Invalid),
    }
}

fn make<A: Atomicity>(alloc: Global, bytes: &[u8]) -> Result<A::Block, Refusal> {
    match A::make(Vec::from_slice(alloc, bytes)?) {
        Ok(block) => Ok(block),
        Err((refusal, back)) if back.as_slice() == bytes => Err(refusal),
        Err(_) => Err(Refusal::Invalid),
    }
}

// `make_mut` copies for one of two references. The other one's bytes stay.
fn own<A: Atomicity>(mut block: A::Block) -> Result<A::Block, Refusal> {
    let other = A::share(&block)?;
    let made = match A::make_mut(&mut block) {
        Ok(body) => {
            body.truncate(1);
            Ok(())
        }
        Err(refusal) => Err(refusal),
    };
    match made {
        Ok(()) => Ok(other),
        Err(refusal) if A::bytes(&block) == A::bytes(&other) => Err(refusal),
        Err(_) => Err(Refusal::Invalid),
    }
}

// The only reference writes to its block in place, which allocates nothing.
fn changed<A: Atomicity>(mut block: A::Block) -> Result<A::Block, Refusal> {
    let written = match A::make_mut(&mut block) {
        Ok(body) => {
            body.truncate(1);
            true
        }
        Err(_) => false,
    };
    if written {
        Ok(block)
    } else {
        Err(Refusal::Invalid)
    }
}

// Reserves capacity, and appends forty bytes four times.
fn grow<A: Atomicity>(mut block: A::Block, bytes: &[u8]) -> Result<A::Block, Refusal> {
    let grown = match A::alone_mut(&mut block) {
        Some(body) => body.reserve(100),
        None => Err(Refusal::Invalid),
    };
    match grown {
        Ok(()) => append::<A>(block, bytes),
        Err(refusal) if A::bytes(&block) == bytes => Err(refusal),
        Err(_) => Err(Refusal::Invalid),
    }
}

const FORTY: &[u8] = b"0123456789012345678901234567890123456789";

fn append<A: Atomicity>(mut block: A::Block, bytes: &[u8]) -> Result<A::Block, Refusal> {
    for appended in 0..4 {
        let grown = match A::alone_mut(&mut block) {
            Some(body) => body.append(FORTY),
            None => Err(Refusal::Invalid),
        };
        match grown {
            Ok(()) => {}
            Err(refusal) if has_appended(A::bytes(&block), bytes, appended) => return Err(refusal),
            Err(_) => return Err(Refusal::Invalid),
        }
    }
    Ok(block)
}

// Whether a block holds these bytes, followed by FORTY `appended` times.
fn has_appended(block: &[u8], bytes: &[u8], appended: usize) -> bool {
    let mut rest = block.strip_prefix(bytes);
    for _ in 0..appended {
        rest = rest.and_then(|rest| rest.strip_prefix(FORTY));
    }
    rest.is_some_and(|rest| rest.is_empty())
}

// Takes the bytes out of a block with one reference, and creates a block of them.
fn again<A: Atomicity>(block: A::Block, bytes: &[u8]) -> Result<A::Block, Refusal> {
    match A::into_sole(block) {
        Ok(sole) => back::<A>(sole, bytes),
        Err(_) => Err(Refusal::Invalid),
    }
}

fn back<A: Atomicity>(sole: Sole, bytes: &[u8]) -> Result<A::Block, Refusal> {
    match A::from_sole(sole) {
        Ok(block) => Ok(block),
        Err((refusal, sole)) if sole.as_slice() == bytes => Err(refusal),
        Err(_) => Err(Refusal::Invalid),
    }
}

// Appends a byte, which fails without capacity, even if there is memory, and succeeds with capacity.
fn full<A: Atomicity>(mut block: A::Block) -> Result<A::Block, Refusal> {
    let len = A::bytes(&block).len();
    let Some(body) = A::alone_mut(&mut block) else {
        return Err(Refusal::Invalid);
    };
    if body.append_at(len, b"!") {
        return Err(Refusal::TooLong);
    }
    body.reserve(1)?;
    if body.append_at(len, b"!") {
        Ok(block)
    } else {
        Err(Refusal::Invalid)
    }
}
