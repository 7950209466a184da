// The planned changes of a generated script, and their instructions.
ghost use Rattle.std.specs.Prelude.{◌≡◌, ◌<◌, ◌≤◌, ◌+◌, ◌*◌, ℕ, IfOk, IfErr, OnOk};
ghost use Rattle.cdg_io.specs.Causes.{HasCause};
ghost use Rattle.disc_time.specs.Counts.{time_count};
ghost use Rattle.cdg_workload.specs.Generated.{generated_drawings};
ghost use Rattle.pack_schedule.specs.Survey.{IsSurvey, IsWithin};
ghost use Rattle.stream_trial.specs.Trial.{all_changes};
ghost use Rattle.stream_trial.specs.declared.trying.TrialStop.TheVariants.{NoMemory};

use crate::generated_scripts_are_ready;
use crate::trying::TrialStop;
use pack_schedule::{Survey, SurveyRoom, survey_in};
use picture_script::Script;
use subcode_author::Heap;

/// The planned changes of a generated script, which fits in `blocks` blocks.
pub(crate) fn plan_changes(
    heap: &mut Heap,
    script: &Script,
    blocks: u32,
) -> Result<Survey, TrialStop>
    requires few { blocks < time_count }
    requires script { (seed count : ℕ) × (script.now ≡ generated_drawings seed count)
        × (800 * count + 20 ≤ blocks) }
    ensures planned { IfOk result (IsSurvey script.now) }
    ensures within { OnOk result (IsWithin script.now blocks) }
    ensures err { IfErr result (λ stop. stop ≡ NoMemory) }
    ensures counted { HasCause heap.old heap.new result }
{
    // A law: the survey refuses no generated script.
    generated_scripts_are_ready();
    let room = heap.asked(|alloc| SurveyRoom::start(alloc, script.pictures()))?;
    match survey_in(room, script, blocks) {
        Ok(planned) => Ok(planned),
        Err(_) => unreachable!(),
    }
}

/// The number of instructions in the planned changes of a script.
pub(crate) fn count_changes(script: &Script, planned: &Survey) -> u64
    requires { IsSurvey script.now planned.now }
    ensures { result ≡ all_changes script.now }
{
    let mut sum = 0u64;
    for k in 0..script.pictures() {
        sum += u64::from(planned.need(k));
    }
    sum
}
