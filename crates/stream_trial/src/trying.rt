// A whole trial of a seed, from its script to the lines that are written.
ghost use Rattle.std.specs.Prelude.{◌≡◌, ◌≤◌, Err, IfOk, IfErr};
ghost use Rattle.cdg_workload.specs.Script.{most_generated};
ghost use Rattle.cdg_io.specs.Causes.{HasCause, ReportsFault};
ghost use Rattle.stream_trial.specs.Trial.{IsTrial, WritesTrial};
ghost use Rattle.stream_trial.specs.ReportLines.{report_lines};
ghost use Rattle.stream_trial.specs.declared.trying.TrialStop.TheVariants.{NoMemory};

use crate::generating::parse_script;
use crate::lines::Report;
use crate::needs::{count_changes, plan_changes};
use crate::streams::{count_blocks, play_stream};
use crate::trial_sheet_is_read;
use cdg_io::{Failed, Sink, put_all};
use cdg_workload::{generated_scripts_are_read, generated_scripts_have_times};
use rw_interleave::whole_packs;
use std::alloc::AllocError;
use subcode_author::Heap;

/// Why the lines of a trial were not written, or only in part.
#[derive(Clone, Copy, PartialEq, Eq, Debug)]
pub enum TrialStop {
    /// A write failed.
    WriteFault,
    /// Memory ran out. Nothing was written.
    NoMemory,
}

impl From<AllocError> for TrialStop {
    ghost use Rattle.stream_trial.specs.declared.trying.TrialStop.TheVariants.{NoMemory};

    ghost from_gives = { λ _ e. e ≡ NoMemory };

    fn from(_: AllocError) -> TrialStop {
        TrialStop::NoMemory
    }
}

impl From<Failed> for TrialStop {
    ghost use Rattle.stream_trial.specs.declared.trying.TrialStop.TheVariants.{WriteFault};

    ghost from_gives = { λ _ e. e ≡ WriteFault };

    fn from(_: Failed) -> TrialStop {
        TrialStop::WriteFault
    }
}

/// Writes the stream of the generated script of a seed, scratches it with the same seed, corrects and plays
/// it, and compares the screen with each picture when it is ready. Then writes nine lines, each with its
/// number: `seed`, `pictures`, `blocks`, `packs`, `changes` (the instructions of all changes), `one` and
/// `two` (the words corrected in one symbol and in two), `bad` (the words with no codeword near) and `equal`
/// (the pictures that the screen showed in time). There are 1 to 500 pictures. The stream has 800 blocks a
/// picture and 170 more. It is never stored: each block is scratched, corrected and played as soon as it is
/// written.
/// blocks is scratched, corrected and played as soon as it is written.
///
/// # Errors
///
/// `NoMemory` before anything is written. After `WriteFault` a prefix of the lines was written.
pub fn trial<K: Sink>(
    heap: &mut Heap,
    seed: u64,
    pictures: u32,
    out: &mut K,
) -> Result<(), TrialStop>
    requires { (1 ≤ pictures) × (pictures ≤ most_generated) }
    ensures written { WritesTrial K.held K.faults seed pictures out.old out.new result }
    // The answer is `NoMemory` exactly if a request for memory failed.
    ensures allocations { ReportsFault TrialStop.NoMemory heap.old heap.new result }
{
    let report = make_report(heap, seed, pictures)?;
    let lines = report.lines();
    match put_all(out, lines.as_str().as_bytes()) {
        Ok(()) => Ok(()),
        Err(Failed) => Err(TrialStop::WriteFault),
    }
}

// The report of a trial.
fn make_report(heap: &mut Heap, seed: u64, pictures: u32) -> Result<Report, TrialStop>
    requires { (1 ≤ pictures) × (pictures ≤ most_generated) }
    ensures report { IfOk result (λ report. IsTrial seed pictures (report_lines report)) }
    ensures err { IfErr result (λ stop. stop ≡ NoMemory) }
    ensures counted { HasCause heap.old heap.new result }
{
    // Laws on the contents of the generated script and of the sheet.
    generated_scripts_are_read();
    generated_scripts_have_times();
    trial_sheet_is_read();
    let script = parse_script(heap, seed, pictures)?;
    let blocks = count_blocks(pictures);
    let planned = plan_changes(heap, &script, blocks)?;
    let changes = count_changes(&script, &planned);
    let found = play_stream(heap, &script, planned, seed, pictures)?;
    Ok(Report {
        seed,
        pictures: u64::from(pictures),
        blocks: u64::from(blocks),
        packs: u64::from(whole_packs(blocks)),
        changes,
        one: u64::from(found.one),
        two: u64::from(found.two),
        bad: u64::from(found.bad),
        equal: u64::from(found.equal),
    })
}
