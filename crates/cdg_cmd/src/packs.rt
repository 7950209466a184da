// The commands that make packs from packs, streams from streams, and checkpoints from streams.
ghost use Rattle.std.specs.Prelude.{◌≡◌, ◌≢◌, ◌≤◌, ◌<◌, ◌⊎◌};
ghost use Rattle.disc_time.specs.Counts.{most_lead_in, time_count};
ghost use Rattle.cdg_cmd.specs.Answer.{Does};
ghost use Rattle.cdg_io.specs.Change.{change};
ghost use Rattle.cdg_io.specs.Reads.{input};
ghost use Rattle.cdg_cmd.specs.Call.{call, one_input};
ghost use Rattle.cdg_cmd.specs.Ends.{EndsAs, ReadingsEnd, ResumeEnds};
ghost use Rattle.cdg_cmd.specs.Faults.{ReportsFaults, ReportsOne, ReportsNoMemory};
ghost use Rattle.cdg_cmd.specs.Keeps.{MayWrite, MayReadSecond};
ghost use Rattle.cdg_cmd.specs.Stops.{pump_status, thin_status};
ghost use Rattle.cdg_io.specs.Pump.{ReportsEndOf};
ghost use Rattle.cdg_checkpoint.specs.Saved.{EndsAsSaved};

use crate::status::{merge_status, pump_status, resume_status, thin_status};
use crate::{Command, Status};
use cdg_checkpoint::Checkpointer;
use cdg_io::{Sink, Source, pump};
use cdg_press::Thinner;
use cdg_workload::scratch;
use q_channel::{BlockForms, PlanarForms};
use raw_subcode::MOST_UNITS;
use rw_merge::Merger;
use subcode_author::Heap;

/// Writes the packs on which two readings of a stream agree, as their blocks are read.
pub(crate) fn run_merge<S: Source, T: Source, K: Sink>(
    lead_in: u32,
    first: &mut S,
    second: &mut T,
    out: &mut K,
) -> Status
    requires { lead_in ≤ most_lead_in }
    ensures does { Does (Command.Merge lead_in)
        (call S.left T.left K.held (first.old, second.old, out.old) (first.new, second.new, out.new)) result }
    // A merger allocates nothing.
    ensures memory { result ≢ Status.NoMemory }
    ensures never { result ≢ Status.Usage }
    ensures faults { ReportsFaults (call S.faults T.faults K.faults (first.old, second.old, out.old)
        (first.new, second.new, out.new)) result }
    ensures ended { ReadingsEnd (input S.Source first.old first.new)
        (input T.Source second.old second.new) result }
{
    merge_status(Merger::new().run(lead_in, first, second, out))
}

/// Writes the thin form of a file of packs as they are read.
#[tactic(auto, using(crate::proofs::ThinReported::reported_one, crate::proofs::Played::reported_none, crate::proofs::ThinReported::never_memory, crate::proofs::Ended::ended_as))]
pub(crate) fn run_thin<S: Source, K: Sink>(heap: &mut Heap, source: &mut S, out: &mut K) -> Status
    ensures does { result ≢ Status.NoMemory → Does Command.Thin
        (one_input S.left K.held (source.old, out.old) (source.new, out.new)) result }
    ensures no_memory { result ≡ Status.NoMemory → (source.new ≡ source.old) × (out.new ≡ out.old) }
    ensures faults { ReportsOne (change S.faults source.old source.new)
        (change K.faults out.old out.new) result }
    ensures ended { result ≢ Status.NoMemory
        → EndsAs thin_status ReportsEndOf (input S.Source source.old source.new) result }
    ensures allocations { ReportsNoMemory heap.old heap.new result }
{
    match heap.asked(Thinner::start) {
        Ok(mut thinner) => thin_status(thinner.run(source, out)),
        Err(_) => Status::NoMemory,
    }
}

/// Writes the checkpoint after a stream.
#[tactic(auto, using(crate::proofs::Played::reported_none))]
pub(crate) fn run_save<S: Source, K: Sink>(
    heap: &mut Heap,
    lead_in: u32,
    source: &mut S,
    out: &mut K,
) -> Status
    requires { lead_in ≤ most_lead_in }
    ensures does { result ≢ Status.NoMemory → Does (Command.Save lead_in)
        (one_input S.left K.held (source.old, out.old) (source.new, out.new)) result }
    ensures no_memory { result ≡ Status.NoMemory → (source.new ≡ source.old) × (out.new ≡ out.old) }
    ensures untouched { ¬ (MayWrite result) → out.new ≡ out.old }
    ensures faults { ReportsOne (change S.faults source.old source.new)
        (change K.faults out.old out.new) result }
    ensures ended { result ≢ Status.NoMemory
        → EndsAs pump_status EndsAsSaved (input S.Source source.old source.new) result }
    ensures allocations { ReportsNoMemory heap.old heap.new result }
{
    match heap.asked(Checkpointer::start) {
        Ok(mut checkpointer) => pump_status(checkpointer.save(lead_in, source, out)),
        Err(_) => Status::NoMemory,
    }
}

/// Writes the picture at a moment of a stream. The first input is a checkpoint, the second the rest of the stream.
#[tactic(auto, using(crate::proofs::MergeReported::reported_none, crate::proofs::ResumeReported::never_memory, crate::proofs::ResumeReported::never_usage))]
pub(crate) fn run_resume<S: Source, T: Source, K: Sink>(
    heap: &mut Heap,
    at: u32,
    first: &mut S,
    second: &mut T,
    out: &mut K,
) -> Status
    requires { at < time_count }
    ensures does { result ≢ Status.NoMemory → Does (Command.Resume at)
        (call S.left T.left K.held (first.old, second.old, out.old) (first.new, second.new, out.new)) result }
    ensures no_memory { result ≡ Status.NoMemory
        → (first.new ≡ first.old) × (second.new ≡ second.old) × (out.new ≡ out.old) }
    ensures never { result ≢ Status.Usage }
    ensures untouched { ¬ (MayWrite result) → out.new ≡ out.old }
    ensures second { (second.new ≡ second.old)
        ⊎ MayReadSecond (Command.Resume at) (input S.Source first.old first.new) }
    ensures faults { ReportsFaults (call S.faults T.faults K.faults (first.old, second.old, out.old)
        (first.new, second.new, out.new)) result }
    ensures ended { result ≢ Status.NoMemory → ResumeEnds at (input S.Source first.old first.new)
        (input T.Source second.old second.new) result }
    ensures allocations { ReportsNoMemory heap.old heap.new result }
{
    match heap.asked(Checkpointer::start) {
        Ok(mut checkpointer) => resume_status(checkpointer.resume(at, first, second, out)),
        Err(_) => Status::NoMemory,
    }
}

/// Writes a stream with the scratches of a seed as its blocks are read.
#[tactic(auto, using(crate::proofs::Pumped::reported_one, crate::proofs::Ended::ended_as, crate::proofs::Pumped::never_memory))]
pub(crate) fn run_scratch<S: Source, K: Sink>(
    lead_in: u32,
    seed: u64,
    source: &mut S,
    out: &mut K,
) -> Status
    requires { lead_in ≤ most_lead_in }
    ensures does { Does (Command.Scratch lead_in seed) (one_input S.left K.held (source.old, out.old)
        (source.new, out.new)) result }
    ensures memory { result ≢ Status.NoMemory }
    ensures faults { ReportsOne (change S.faults source.old source.new)
        (change K.faults out.old out.new) result }
    ensures ended { EndsAs pump_status ReportsEndOf (input S.Source source.old source.new) result }
{
    pump_status(scratch(lead_in, seed, source, out))
}

/// Writes the planar form of each block as the blocks are read.
#[tactic(auto, using(crate::proofs::Pumped::reported_one, crate::proofs::Ended::ended_as, crate::proofs::Pumped::never_memory))]
pub(crate) fn run_planar<S: Source, K: Sink>(source: &mut S, out: &mut K) -> Status
    ensures does { Does Command.Planar (one_input S.left K.held (source.old, out.old)
        (source.new, out.new)) result }
    ensures memory { result ≢ Status.NoMemory }
    ensures faults { ReportsOne (change S.faults source.old source.new)
        (change K.faults out.old out.new) result }
    ensures ended { EndsAs pump_status ReportsEndOf (input S.Source source.old source.new) result }
{
    pump_status(pump(source, MOST_UNITS, &mut PlanarForms, out))
}

/// Writes the block of each planar form as the blocks are read.
#[tactic(auto, using(crate::proofs::Pumped::reported_one, crate::proofs::Ended::ended_as, crate::proofs::Pumped::never_memory))]
pub(crate) fn run_raw<S: Source, K: Sink>(source: &mut S, out: &mut K) -> Status
    ensures does { Does Command.Raw (one_input S.left K.held (source.old, out.old)
        (source.new, out.new)) result }
    ensures memory { result ≢ Status.NoMemory }
    ensures faults { ReportsOne (change S.faults source.old source.new)
        (change K.faults out.old out.new) result }
    ensures ended { EndsAs pump_status ReportsEndOf (input S.Source source.old source.new) result }
{
    pump_status(pump(source, MOST_UNITS, &mut BlockForms, out))
}
