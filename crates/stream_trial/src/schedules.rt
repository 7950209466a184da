// Laws on generated scripts: each picture is ready in time, and a sheet that has room is written with them.
ghost use Rattle.std.specs.Prelude.{◌≡◌, ◌<◌, ◌≤◌, ◌+◌, ◌*◌, ◌⊎◌, ℕ, Ok};
ghost use Rattle.cue_sheet.specs.CueSheet.{CueSheet};
ghost use Rattle.toc_model.specs.Places.{program_blocks, audio_need};
ghost use Rattle.picture_script.specs.Script.{picture_pixel};
ghost use Rattle.pack_schedule.specs.Schedule.{free_packs};
ghost use Rattle.pack_schedule.specs.Survey.{IsPastEnd, IsStop};
ghost use Rattle.pack_schedule.specs.declared.stops.Stop.{Stop};
ghost use Rattle.subcode_author.specs.AuthorAnswer.{AreReady, HasLayout, HasRoom, IsAccepted, IsAuthorStop};
ghost use Rattle.subcode_author.specs.declared.stops.AuthorStop.{AuthorStop};
ghost use Rattle.cdg_workload.specs.Generated.{generated_drawings};
ghost use Rattle.cdg_workload.specs.Script.{most_generated};
ghost use Rattle.cue_sheet.specs.Grammar.{read_cue};
ghost use Rattle.stream_trial.specs.TrialSheet.{trial_text, trial_sheet};

use cdg_workload::generated_scripts_have_times;
use pack_schedule::{Stop, needs_are_fewest, planned_changes_are_changes};
use subcode_author::AuthorStop;

/// A law: each picture of a generated script is ready in time, since at least 3,120 packs are free for it. A
/// program that lasts until the hold time of the last picture holds all pictures, so a survey refuses none of
/// them.
pub fn generated_scripts_are_ready()
    ensures pixels { (seed count k x y : ℕ) → picture_pixel (generated_drawings seed count) k x y < 16 }
    ensures free { (seed count k : ℕ) → k < count → 3120 ≤ free_packs (generated_drawings seed count) k }
    ensures ready { (seed count : ℕ) → AreReady (generated_drawings seed count) }
    ensures end { (seed count blocks : ℕ) → 800 * count + 20 ≤ blocks
        → ¬ IsPastEnd (generated_drawings seed count) blocks }
    ensures survey { (seed count blocks : ℕ) (stop : Stop) → 800 * count + 20 ≤ blocks
        → IsStop (generated_drawings seed count) blocks stop → stop ≡ Stop.NoMemory }
{
    generated_scripts_have_times();
    planned_changes_are_changes();
    needs_are_fewest();
}

/// A law: a generated script is authored with each sheet that has a layout for this length, if the lead-in
/// has room for the texts of the sheet.
pub fn generated_scripts_are_authored()
    ensures accepted { (sheet : CueSheet) (seed count lead_in audio : ℕ) → HasLayout sheet audio
        → 800 * count + 20 ≤ program_blocks sheet audio → HasRoom sheet lead_in
        → IsAccepted sheet (generated_drawings seed count) lead_in audio }
    ensures stop { (sheet : CueSheet) (seed count lead_in audio : ℕ) (stop : AuthorStop)
        → HasLayout sheet audio
        → 800 * count + 20 ≤ program_blocks sheet audio → HasRoom sheet lead_in
        → IsAuthorStop sheet (generated_drawings seed count) lead_in audio stop
        → (stop ≡ AuthorStop.NoMemory) ⊎ (stop ≡ AuthorStop.WriteFault) }
{
    generated_scripts_are_ready();
    generated_scripts_have_times();
}

/// A law: the text of the sheet of a trial is read as this sheet, and its disc has two seconds and the audio.
/// So each generated script is authored with this sheet and no lead-in, if the audio lasts until the hold
/// time of the last picture.
pub fn trial_sheet_is_read()
    ensures read { read_cue trial_text ≡ Ok trial_sheet }
    ensures need { audio_need trial_sheet ≡ 1 }
    ensures blocks { (audio : ℕ) → program_blocks trial_sheet audio ≡ 150 + audio }
    ensures accepted { (seed count : ℕ) → count ≤ most_generated
        → IsAccepted trial_sheet (generated_drawings seed count) 0 (800 * count + 20) }
    ensures stop { (seed count : ℕ) (stop : AuthorStop) → count ≤ most_generated
        → IsAuthorStop trial_sheet (generated_drawings seed count) 0 (800 * count + 20) stop
        → (stop ≡ AuthorStop.NoMemory) ⊎ (stop ≡ AuthorStop.WriteFault) }
{
    generated_scripts_are_authored();
}
