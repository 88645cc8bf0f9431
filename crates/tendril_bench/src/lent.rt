//! Reads into a borrowed sink.
ghost use Rattle.std.specs.Prelude.{List, IfOk, IfErr};
ghost use Rattle.tendril.specs.Readings.{MakesReads, ReadStops, Receives};
ghost use Rattle.tendril.specs.Reads.{OneRead};
ghost use Rattle.tendril_bench.specs.Lent.{EndsBy};

use std::alloc::Global;
use tendril::ByteTendril;
use tendril::block::Refusal;
use tendril::stream::{CountedRead, TendrilSink, read_once};

/// Reads into a sink, to the end or `max_reads` times, and returns whether it found the end.
pub fn read_up_to<S: TendrilSink<ByteTendril>, R: CountedRead>(
    alloc: Global,
    sink: &mut S,
    reader: &mut R,
    max_reads: u64,
) -> Result<bool, Refusal>
    ensures ok { IfOk result (λ ended. (these : List OneRead)
        × MakesReads R.history R.remaining reader.old these reader.new
        × Receives S.takes sink.old these sink.new × EndsBy ended max_reads these (R.remaining reader.new)) }
    ensures err { IfErr result (λ refusal. (these : List OneRead) × (at : R) × (mid : S)
        × MakesReads R.history R.remaining reader.old these at × Receives S.takes sink.old these mid
        × ReadStops R.history R.remaining at reader.new mid sink.new S.refuses refusal) }
{
    let mut made = 0;
    while made < max_reads {
        made += 1;
        if read_once(alloc, sink, reader)? {
            return Ok(true);
        }
    }
    Ok(false)
}
