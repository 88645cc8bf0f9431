//! Which UTF-8 sequence a byte is part of.
//!
//! The search goes from a byte back to the start of its sequence, at most three bytes, and on to the sequence's end. So
//! it finds whether a text may be cut at an offset without reading all of it.
ghost use Rattle.std.specs.Prelude.{ℕ, ◌+◌, ◌-◌, ◌<◌, ◌≤◌, length, IfSome, IfNone, MatchOption, slice_index};
ghost use Rattle.tendril_fmt.specs.Classify.{IsSequenceRound, NoneStands};
ghost use Rattle.tendril_fmt.specs.CodePoints.{IsContinuation, AreContinuations};

mod decode;

use decode::sequence_len_of;
pub(crate) use decode::{decode, is_continuation, split_code_point, split_text};

/// What a sequence of bytes means, even if only its beginning or its end is there.
///
/// A `Prefix` or a `Suffix` may have no valid completion.
#[derive(Clone, Copy, Debug, PartialEq, Eq, PartialOrd, Ord, Hash)]
pub enum Meaning {
    /// A whole character.
    Whole(char),

    /// The first half of a surrogate pair, in its three bytes: the unit less 0xD800.
    ///
    /// UTF-8 has none; WTF-8 and CESU-8 do.
    LeadSurrogate(u16),

    /// The second half of a surrogate pair, in its three bytes: the unit less 0xDC00.
    TrailSurrogate(u16),

    /// The first bytes of a sequence that continues past the end of the bytes, and how many bytes it lacks.
    Prefix(usize),

    /// The end of a sequence that began before the bytes, up to the byte that was asked for.
    Suffix,
}

/// The sequence that a byte is part of.
#[derive(Clone, Copy, Debug, PartialEq, Eq, PartialOrd, Ord, Hash)]
pub struct Codepoint<'a> {
    /// The bytes of the sequence. Those of a `Suffix` end at the byte that was asked for.
    pub bytes: &'a [u8],

    /// How many of them are before the byte that was asked for.
    pub rewind: usize,

    /// What they mean.
    pub meaning: Meaning,
}

// The index of the nearest byte at or before `idx`, at most three back, that isn't a continuation byte.
fn start_before(buf: &[u8], idx: usize) -> Option<usize>
    requires { idx < length buf.now }
    ensures { MatchOption result (AreContinuations buf.now (idx - 3) (idx + 1))
        (λ s. (s ≤ idx) × (idx ≤ s + 3) × ¬ (IsContinuation (slice_index buf.now s))
        × AreContinuations buf.now (s + 1) (idx + 1)) }
{
    for back in 0..4 {
        if idx < back {
            return None;
        }
        if !is_continuation(buf[idx - back]) {
            return Some(idx - back);
        }
    }
    None
}

// The sequence that the byte at `start` starts, if it reaches `idx`.
fn sequence_at(buf: &[u8], start: usize, idx: usize) -> Option<Codepoint<'_>>
    requires within { (start ≤ idx) × (idx < length buf.now) }
    requires start { ¬ (IsContinuation (slice_index buf.now start)) }
    requires rest { AreContinuations buf.now (start + 1) (idx + 1) }
    ensures found { IfSome result (IsSequenceRound buf.now idx) }
    ensures none { IfNone result (NoneStands buf.now idx) }
{
    let rewind = idx - start;
    let len = sequence_len_of(buf[start]);
    let left = buf.len() - start;
    if len <= rewind {
        return None;
    }
    if left < len {
        return Some(Codepoint {
            bytes: &buf[start..],
            rewind,
            meaning: Meaning::Prefix(len - left),
        });
    }
    let bytes = &buf[start..start + len];
    let meaning = decode(bytes)?;
    Some(Codepoint {
        bytes,
        rewind,
        meaning,
    })
}

/// The sequence that the byte at `idx` is part of.
///
/// `None` if `idx` is past the bytes, or if the bytes there are not well formed by Unicode's table 3-7. Surrogates,
/// which that table excludes, have meanings of their own. Reads at most four bytes. The bytes of a `Prefix` after `idx`
/// aren't checked.
pub fn classify(buf: &[u8], idx: usize) -> Option<Codepoint<'_>>
    ensures found { IfSome result (IsSequenceRound buf.now idx) }
    ensures none { IfNone result (NoneStands buf.now idx) }
{
    if idx >= buf.len() {
        return None;
    }
    match start_before(buf, idx) {
        Some(start) => sequence_at(buf, start, idx),
        None if idx < 3 => Some(Codepoint {
            bytes: &buf[..idx + 1],
            rewind: idx,
            meaning: Meaning::Suffix,
        }),
        None => None,
    }
}
