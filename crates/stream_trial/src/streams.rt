// The stream of a trial, played as it is written.
ghost use Rattle.std.specs.Prelude.{◌≡◌, ◌≤◌, ℕ, List, [], OnOk, IfOk, IfErr};
ghost use Rattle.cdg_io.specs.Causes.{HasCause, ReportsFault};
ghost use Rattle.cdg_workload.specs.Script.{most_generated};
ghost use Rattle.cdg_workload.specs.Scratches.{scratched};
ghost use Rattle.cdg_workload.specs.Generated.{generated_drawings};
ghost use Rattle.pack_schedule.specs.Survey.{IsSurvey, IsWithin};
ghost use Rattle.raw_subcode.specs.Channels.{program_symbols};
ghost use Rattle.raw_subcode.specs.declared.form.Form.TheVariants.{Raw};
ghost use Rattle.stream_trial.specs.TrialSheet.{trial_sheet};
ghost use Rattle.subcode_author.specs.Authored.{IsWrittenStream, disc_of};
ghost use Rattle.stream_trial.specs.Replay.{IsPlayedOut};
ghost use Rattle.stream_trial.specs.Trial.{trial_audio, trial_blocks};
ghost use Rattle.stream_trial.specs.declared.trying.TrialStop.TheVariants.{NoMemory};

use crate::generating::parse_sheet;
use crate::run::{Found, TrialRun};
use crate::trial_sheet_is_read;
use crate::trying::TrialStop;
use cdg_workload::{BLOCKS_A_PICTURE, BLOCKS_HELD, scratches_are_bursts, scratches_are_damage};
use cue_sheet::Sheet;
use disc_time::PAUSE_BLOCKS;
use pack_schedule::Survey;
use picture_script::Script;
use subcode_author::{AuthorStop, Heap, accepted_scripts_have_streams, author_planned};

/// Writes the stream of the script of a seed, whose changes are planned, and plays each of its blocks, with scratches
/// of the same seed, as soon as it is written.
pub(crate) fn play_stream(
    heap: &mut Heap,
    script: &Script,
    planned: Survey,
    seed: u64,
    pictures: u32,
) -> Result<Found, TrialStop>
    requires few { pictures ≤ most_generated }
    requires script { script.now ≡ generated_drawings seed pictures }
    requires planned { IsSurvey script.now planned }
    requires within { IsWithin script.now (trial_blocks pictures) }
    ensures played { IfOk result (λ found. (bytes : List ℕ) × (packs : List (List ℕ))
        × IsWrittenStream (disc_of trial_sheet script.now 0 (trial_audio pictures)) bytes packs
        × IsPlayedOut script.now (trial_blocks pictures) (program_symbols Raw bytes 0)
        (program_symbols Raw (scratched 0 seed bytes) 0) found) }
    ensures err { IfErr result (λ stop. stop ≡ NoMemory) }
    ensures counted { HasCause heap.old heap.new result }
{
    // Laws on the damage by scratches, and on the sheet of the stream.
    scratches_are_bursts();
    scratches_are_damage();
    trial_sheet_is_read();
    let mut run = TrialRun::start(heap, script, seed, pictures)?;
    write_stream(heap, script, planned, pictures, &mut run)?;
    Ok(run.found())
}

// Writes the stream of the sheet with one track and of a generated script, with no lead-in, to a run that has begun.
fn write_stream(
    heap: &mut Heap,
    script: &Script,
    planned: Survey,
    pictures: u32,
    run: &mut TrialRun<'_>,
) -> Result<(), TrialStop>
    requires few { pictures ≤ most_generated }
    requires script { (seed : ℕ) × (script.now ≡ generated_drawings seed pictures) }
    requires planned { IsSurvey script.now planned }
    requires within { IsWithin script.now (trial_blocks pictures) }
    requires begun { run.old.history.bytes ≡ [] }
    ensures stream { OnOk result ((packs : List (List ℕ))
        × IsWrittenStream (disc_of trial_sheet script.now 0 (trial_audio pictures)) run.new.history.bytes
        packs) }
    ensures of { OnOk result ((run.new.seed ≡ run.old.seed) × (run.new.pictures ≡ run.old.pictures)) }
    ensures err { IfErr result (λ stop. stop ≡ NoMemory) }
    ensures counted { HasCause heap.old heap.new result }
{
    // A law: the author refuses neither the sheet nor the script.
    trial_sheet_is_read();
    let sheet = parse_sheet(heap)?;
    let written = author_run(heap, &sheet, script, planned, pictures, run);
    drop(sheet);
    match written {
        Ok(()) => Ok(()),
        Err(AuthorStop::NoMemory) => Err(TrialStop::NoMemory),
        Err(_) => unreachable!(),
    }
}

// Writes the stream of a sheet and a generated script to a run. The run accepts more blocks than the stream
// has, so no write fails.
fn author_run(
    heap: &mut Heap,
    sheet: &Sheet,
    script: &Script,
    planned: Survey,
    pictures: u32,
    run: &mut TrialRun<'_>,
) -> Result<(), AuthorStop>
    requires few { pictures ≤ most_generated }
    requires sheet { sheet.now ≡ trial_sheet }
    requires script { (seed : ℕ) × (script.now ≡ generated_drawings seed pictures) }
    requires planned { IsSurvey script.now planned }
    requires within { IsWithin script.now (trial_blocks pictures) }
    requires begun { run.old.history.bytes ≡ [] }
    ensures stream { OnOk result ((packs : List (List ℕ))
        × IsWrittenStream (disc_of trial_sheet script.now 0 (trial_audio pictures)) run.new.history.bytes
        packs) }
    ensures of { OnOk result ((run.new.seed ≡ run.old.seed) × (run.new.pictures ≡ run.old.pictures)) }
    ensures stop { IfErr result (λ stop. stop ≡ AuthorStop.NoMemory) }
    ensures allocations { ReportsFault AuthorStop.NoMemory heap.old heap.new result }
{
    // Laws: the author refuses neither the sheet nor the script, and a failed write leaves a prefix of the
    // stream.
    trial_sheet_is_read();
    accepted_scripts_have_streams();
    sheet.tracks_are_in_order();
    script.times_rise_and_colours_are_in_range();
    let audio = count_audio(pictures);
    author_planned(heap, sheet, script, planned, 0, audio, run)
}

/// The number of blocks of audio.
pub(crate) fn count_audio(pictures: u32) -> u32
    requires { pictures ≤ most_generated }
    ensures { result ≡ trial_audio pictures }
{
    BLOCKS_A_PICTURE * pictures + BLOCKS_HELD
}

/// The number of program blocks: a pause comes before the audio.
pub(crate) fn count_blocks(pictures: u32) -> u32
    requires { pictures ≤ most_generated }
    ensures { result ≡ trial_blocks pictures }
{
    PAUSE_BLOCKS + count_audio(pictures)
}
