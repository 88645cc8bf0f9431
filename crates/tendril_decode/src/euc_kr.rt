//! EUC-KR.

use crate::indexes::euc_kr_at;
use crate::two_bytes::{First, LeadTrail, Pair, TwoBytes, in_range, pair_of};

/// The leads and trails of EUC-KR.
#[derive(Clone, Copy, PartialEq, Eq, Debug)]
pub struct EucKrPairs;

/// The state between two slices of a stream in EUC-KR.
pub type EucKr = TwoBytes<EucKrPairs>;

impl LeadTrail for EucKrPairs {
    ghost use Rattle.tendril_decode.specs.EucKr.{kr_first, kr_pair};

    ghost first = { kr_first };

    ghost pair = { kr_pair };

    #[inline(always)]
    fn first(byte: u8) -> First {
        if in_range(0x81, 0xFE, byte) {
            First::Lead
        } else {
            First::Malformed
        }
    }

    #[inline(always)]
    fn pair(lead: u8, trail: u8) -> Pair {
        if !in_range(0x41, 0xFE, trail) {
            return Pair::Absent;
        }
        let pointer = (lead as usize - 0x81) * 190 + (trail as usize - 0x41);
        pair_of(euc_kr_at(pointer))
    }
}
