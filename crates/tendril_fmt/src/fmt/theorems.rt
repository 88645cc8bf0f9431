//! Laws of the formats, in addition to the contracts of their functions.
ghost use Rattle.std.specs.Prelude.{IsUtf8};
ghost use Rattle.tendril_fmt.specs.Classify.{OneStands};
ghost use Rattle.tendril_fmt.specs.Laws.{JoinLaws, UnitsRoundTrip, TextRoundTrip, JoinAppendsUnits, SpellText};
ghost use Rattle.tendril_fmt.specs.Laws.{PlaceIsLengthBefore};
ghost use Rattle.tendril_fmt.specs.Local.{IsWhole, IsWholeOrSurrogate, FrontTestIsWhole, EndTestIsWhole};
ghost use Rattle.tendril_fmt.specs.Local.{SliceTestIsWhole, RestsOnFourBytes};
ghost use Rattle.tendril_fmt.specs.Wtf8.{IsWtf8};

use crate::fmt::ascii::ASCII;
use crate::fmt::bytes::Bytes;
use crate::fmt::chars::CharFormat;
use crate::fmt::format::Format;
use crate::fmt::latin1::Latin1;
use crate::fmt::utf8::UTF8;
use crate::fmt::wtf8::WTF8;

/// Does nothing; its contract states laws of the formats. A proof that needs one gets it by a call.
#[tactic(auto, using(crate::proofs::Characters::spells_ascii, crate::proofs::Characters::spells_latin1, crate::proofs::Characters::spells_utf8))]
pub fn laws()
    ensures bytes_join { JoinLaws ⟦<Bytes as Format>⟧.valid ⟦<Bytes as Format>⟧.join }
    ensures ascii_join { JoinLaws ⟦<ASCII as Format>⟧.valid ⟦<ASCII as Format>⟧.join }
    ensures latin1_join { JoinLaws ⟦<Latin1 as Format>⟧.valid ⟦<Latin1 as Format>⟧.join }
    ensures utf8_join { JoinLaws ⟦<UTF8 as Format>⟧.valid ⟦<UTF8 as Format>⟧.join }
    ensures wtf8_join { JoinLaws ⟦<WTF8 as Format>⟧.valid ⟦<WTF8 as Format>⟧.join }

    // WTF-8 and its units
    ensures units_round_trip { UnitsRoundTrip }
    ensures text_round_trip { TextRoundTrip }
    ensures join_appends_units { JoinAppendsUnits }

    // characters and their encodings
    ensures ascii_chars { SpellText ⟦<ASCII as Format>⟧.valid ⟦<ASCII as CharFormat>⟧.chars
        ⟦<ASCII as CharFormat>⟧.encodes ⟦<ASCII as CharFormat>⟧.encoding }
    ensures latin1_chars { SpellText ⟦<Latin1 as Format>⟧.valid ⟦<Latin1 as CharFormat>⟧.chars
        ⟦<Latin1 as CharFormat>⟧.encodes ⟦<Latin1 as CharFormat>⟧.encoding }
    ensures utf8_chars { SpellText ⟦<UTF8 as Format>⟧.valid ⟦<UTF8 as CharFormat>⟧.chars
        ⟦<UTF8 as CharFormat>⟧.encodes ⟦<UTF8 as CharFormat>⟧.encoding }
    ensures place_is_length_before { PlaceIsLengthBefore }

    // a byte is part of at most one sequence
    ensures one_stands { OneStands }

    // the local tests of slices
    ensures utf8_front { FrontTestIsWhole IsUtf8 IsWhole }
    ensures utf8_end { EndTestIsWhole IsUtf8 IsWhole }
    ensures utf8_slice { SliceTestIsWhole IsUtf8 IsWhole }
    ensures utf8_four_bytes { RestsOnFourBytes IsWhole }
    ensures wtf8_front { FrontTestIsWhole IsWtf8 IsWholeOrSurrogate }
    ensures wtf8_end { EndTestIsWhole IsWtf8 IsWholeOrSurrogate }
    ensures wtf8_slice { SliceTestIsWhole IsWtf8 IsWholeOrSurrogate }
    ensures wtf8_four_bytes { RestsOnFourBytes IsWholeOrSurrogate }
{}
