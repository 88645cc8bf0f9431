//! A format of your own.

use tendril::fmt::{Fixup, Format};

/// The format of any bytes whose number is even.
#[derive(Clone, Copy, Debug, Default)]
pub struct Pairs;

impl Format for Pairs {
    ghost use Rattle.std.specs.Prelude.{◌++◌};
    ghost use Rattle.tendril_bench.specs.Pairs.{IsPaired, IsPaired-nil, IsPaired-append};

    ghost valid = { IsPaired };

    ghost join = { λ l r. l ++ r };

    ghost empty_valid = { IsPaired-nil };

    ghost join_valid = { IsPaired-append };

    ghost are_bytes = { λ _ v. v.0 };

    fn validate(bytes: &[u8]) -> bool {
        bytes.len() % 2 == 0
    }

    fn fixup(_left: &[u8], _right: &[u8]) -> Fixup {
        Fixup::default()
    }
}
