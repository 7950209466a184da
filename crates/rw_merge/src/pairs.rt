// Pairs of blocks, one of each input, in turn.
ghost use Rattle.std.specs.Prelude.{◌≡◌, IfOk};
ghost use Rattle.std.specs.Io.KnownBytes.{Keeps};
ghost use Rattle.cdg_io.specs.Change.{change};
ghost use Rattle.rw_merge.specs.Merging.{read_input};
ghost use Rattle.rw_merge.specs.Steps.{CountsReadFaults, ReadsNoMore, ReadsPair};

use crate::blocks::{next_block, next_byte};
use crate::merge::{MergeStop, Merged};
use cdg_io::{Failed, Sink, Source};
use raw_subcode::BLOCK_BYTES;

/// Reads a block of the first input, and then a block of the second. Before a read, the output writes its
/// waiting bytes. The result is false if both inputs are at their end.
///
/// # Errors
/// A stop if not both inputs have a whole block. Every stop except a fault has the number of the block.
pub(crate) fn next_pair<S: Source, T: Source, K: Sink>(
    first: &mut S,
    second: &mut T,
    one: &mut [u8; BLOCK_BYTES],
    other: &mut [u8; BLOCK_BYTES],
    block: u32,
    out: &mut K,
) -> Result<bool, MergeStop>
    ensures pair { ReadsPair block result one.new other.new
        (read_input S.Source first.old first.new)
        (read_input T.Source second.old second.new) }
    ensures faults { CountsReadFaults result (change S.faults first.old first.new)
        (change T.faults second.old second.new) }
    ensures keeps { Keeps (K.held out.old) (K.held out.new) }
    ensures no_write_fault { K.faults out.new ≡ K.faults out.old }
{
    let from_first = match next_block(first, one, out) {
        Ok(count) => count,
        Err(Failed) => return Err(MergeStop::FirstFault),
    };
    if 0 < from_first && from_first < BLOCK_BYTES {
        return Err(MergeStop::Torn { block });
    }
    let from_second = match next_block(second, other, out) {
        Ok(count) => count,
        Err(Failed) => return Err(MergeStop::SecondFault),
    };
    if 0 < from_second && from_second < BLOCK_BYTES {
        return Err(MergeStop::SecondTorn { block });
    }
    if from_first != from_second {
        return Err(MergeStop::Unequal { blocks: block });
    }
    if from_first == 0 {
        return Ok(false);
    }
    Ok(true)
}

/// Checks that no byte follows in either input, and returns the result of the merge.
///
/// # Errors
/// `TooLong` if a byte follows, or a fault if a read failed.
pub(crate) fn end_merge<S: Source, T: Source>(
    first: &mut S,
    second: &mut T,
    merged: Merged,
) -> Result<Merged, MergeStop>
    ensures merged { IfOk result (λ m. m ≡ merged) }
    ensures end { ReadsNoMore result (read_input S.Source first.old first.new)
        (read_input T.Source second.old second.new) }
    ensures faults { CountsReadFaults result (change S.faults first.old first.new)
        (change T.faults second.old second.new) }
{
    match next_byte(first) {
        Ok(0) => {}
        Ok(_) => return Err(MergeStop::TooLong),
        Err(Failed) => return Err(MergeStop::FirstFault),
    }
    match next_byte(second) {
        Ok(0) => Ok(merged),
        Ok(_) => Err(MergeStop::TooLong),
        Err(Failed) => Err(MergeStop::SecondFault),
    }
}
