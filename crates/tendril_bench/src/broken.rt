//! A sink of your own: whether a stream had an error.
ghost use Rattle.std.specs.Prelude.{◌≡◌, List, None, flat_map, IfOk};
ghost use Rattle.std.specs.Iterator.{IsFiniteIterable, YieldsThen};
ghost use Rattle.tendril.specs.Texts.{Text};
ghost use Rattle.tendril.specs.Lossy.{due, has_marks};

use std::alloc::Global;
use std::borrow::CowStr;
use tendril::block::Refusal;
use tendril::stream::{TendrilSink, Tracks, decode_pieces_into};
use tendril::{ByteTendril, StrTendril};

/// A sink that stores whether an error was sent to it.
#[derive(Drop)]
pub struct Breaks {
    pub broken: bool,
}

impl TendrilSink<StrTendril> for Breaks {
    ghost use Rattle.std.specs.Prelude.{◌≡◌};
    ghost use Rattle.tendril_bench.specs.Breaks.{is_broken};

    type Output = bool;

    ghost takes = { λ a e b. b.broken ≡ is_broken a.broken e };

    ghost refuses = { λ a e r b. ⊥ };

    ghost finishes = { λ a out. out ≡ a.broken };

    ghost ends = { λ a r. ⊥ };

    fn process(&mut self, _text: StrTendril) -> Result<(), Refusal> {
        Ok(())
    }

    fn error(&mut self, _words: CowStr<'static>) -> Result<(), Refusal> {
        self.broken = true;
        Ok(())
    }

    fn finish(self) -> Result<bool, Refusal> {
        Ok(self.broken)
    }
}

impl Tracks<StrTendril> for Breaks {
    ghost use Rattle.std.specs.Prelude.{◌≡◌};
    ghost use Rattle.tendril.specs.Lossy.{has_marks};
    ghost use Rattle.tendril_bench.specs.Breaks.{marked_after};

    ghost after = { λ a told. a.broken ≡ has_marks told };

    ghost goes_on = { λ told a e b is_sent was call. marked_after told a.broken b.broken e was call };
}

/// Returns whether the concatenated pieces aren't UTF-8.
pub fn is_broken<I: IntoIterator<Item = ByteTendril>>(
    alloc: Global,
    pieces: I,
) -> Result<bool, Refusal>
    requires { IsFiniteIterable I.into_iter_gives I.IntoIter.can_next I.IntoIter.remaining pieces }
    ensures { IfOk result (λ broken. (it : I.IntoIter) × (end : I.IntoIter) × (read : List Text)
        × I.into_iter_gives pieces it × YieldsThen I.IntoIter.next_gives it read None end
        × (broken ≡ has_marks (due (flat_map (λ p. p.bytes) read)))) }
{
    decode_pieces_into(alloc, Breaks { broken: false }, pieces)
}
