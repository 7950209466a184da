// Feeding a whole input to a stage, with no output.
ghost use Rattle.std.specs.Prelude.{◌≤◌, List, ℕ};
ghost use Rattle.cdg_io.specs.Change.{fed};
ghost use Rattle.cdg_io.specs.Reads.{ReadsUnits};
ghost use Rattle.raw_subcode.specs.Sizes.{block_bytes};
ghost use Rattle.cdg_checkpoint.specs.Tracked.{TracksBlocks};

use cdg_io::{Failed, Piece, PumpStop, Pumped, Source, Stage, SteadySink, pump};
use raw_subcode::BLOCK_BYTES;

/// Feeds the blocks of an input, at most `limit`, to a stage, which keeps its state.
pub(crate) fn watch<S: Source, G: Stage<Item = [u8; BLOCK_BYTES], Out = Piece>>(
    limit: u32,
    source: &mut S,
    stage: &mut G,
) -> Result<Pumped, PumpStop>
    requires { 1 ≤ limit }
    ensures watches { (taken : List ℕ)
        × TracksBlocks limit G.next (fed S.left (source.old, stage.old) (source.new, stage.new))
        result taken }
    ensures reads { ReadsUnits S.Source block_bytes limit source.old
        source.new result }
{
    pump(source, limit, stage, &mut SteadySink::new())
}

/// Feeds the blocks of an input to a stage like `watch`, but `limit` may be 0. Then the input must be empty.
pub(crate) fn watch_some<S: Source, G: Stage<Item = [u8; BLOCK_BYTES], Out = Piece>>(
    limit: u32,
    source: &mut S,
    stage: &mut G,
) -> Result<Pumped, PumpStop>
    ensures watches { (taken : List ℕ)
        × TracksBlocks limit G.next (fed S.left (source.old, stage.old) (source.new, stage.new))
        result taken }
    ensures reads { ReadsUnits S.Source block_bytes limit source.old
        source.new result }
{
    if limit > 0 {
        return watch(limit, source, stage);
    }
    let mut byte = [0; 1];
    match source.take(&mut byte) {
        Ok(0) => Ok(Pumped { units: 0 }),
        Ok(_) => Err(PumpStop::TooLong),
        Err(Failed) => Err(PumpStop::ReadFault),
    }
}
