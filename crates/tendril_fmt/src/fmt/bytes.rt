//! Any bytes.

use crate::fmt::ascii_cuts::CutsAtAscii;
use crate::fmt::fixup::Fixup;
use crate::fmt::format::Format;

/// Any bytes at all. Each is below 256.
#[derive(Clone, Copy, Debug, Default)]
pub struct Bytes;

impl Format for Bytes {
    ghost use Rattle.std.specs.Prelude.{◌++◌};
    ghost use Rattle.tendril_fmt.specs.Bytes.{AreBytes};
    ghost use Rattle.tendril_fmt.specs.Proved.Bytes.{AreBytes-nil, AreBytes-append};

    ghost valid = { AreBytes };

    ghost join = { λ l r. l ++ r };

    ghost empty_valid = { AreBytes-nil };

    ghost join_valid = { AreBytes-append };

    ghost are_bytes = { λ _ v. v };

    fn validate(_bytes: &[u8]) -> bool {
        true
    }

    fn fixup(_left: &[u8], _right: &[u8]) -> Fixup {
        Fixup::default()
    }
}

impl CutsAtAscii for Bytes {
    ghost use Rattle.std.specs.Prelude.{◌+◌};
    ghost use Rattle.tendril_fmt.specs.Proved.Bytes.{AreBytes-take, AreBytes-drop};

    ghost ascii_cut = { λ bytes n v _ _. (AreBytes-take bytes n v, AreBytes-drop bytes n v) };

    ghost after_ascii = { λ bytes n v _ _. AreBytes-drop bytes (n + 1) v };
}
