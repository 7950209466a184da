// The script and the sheet of a trial, read from their texts.
ghost use Rattle.std.specs.Prelude.{◌≡◌, ◌<◌, ◌≤◌, [], length, IfOk, IfErr};
ghost use Rattle.cdg_io.specs.Causes.{HasCause};
ghost use Rattle.cdg_workload.specs.Script.{generated_script, most_generated};
ghost use Rattle.cdg_workload.specs.Generated.{generated_drawings};
ghost use Rattle.stream_trial.specs.TrialSheet.{trial_sheet};
ghost use Rattle.stream_trial.specs.declared.trying.TrialStop.TheVariants.{NoMemory};

use crate::script_text::ScriptText;
use crate::trial_sheet_is_read;
use crate::trying::TrialStop;
use cdg_io::Failed;
use cdg_workload::{generated_scripts_are_read, generated_scripts_are_short, write_script};
use cue_sheet::{CueStop, Sheet};
use picture_script::{Script, ScriptStop};
use subcode_author::Heap;

// The maximum number of bytes in the lines of colours of a generated script.
const COLOURS_BYTES: usize = 230;

// The maximum number of bytes in the lines of each picture.
const PICTURE_BYTES: usize = 95;

const SHEET: &[u8] = b"\
    FILE \"trial\" WAVE\n\
    TRACK 01 AUDIO\n\
    INDEX 01 00:00:00\n";

pub(crate) fn parse_script(heap: &mut Heap, seed: u64, pictures: u32) -> Result<Script, TrialStop>
    requires { (1 ≤ pictures) × (pictures ≤ most_generated) }
    ensures script { IfOk result (λ script. script ≡ generated_drawings seed pictures) }
    ensures err { IfErr result (λ stop. stop ≡ NoMemory) }
    ensures counted { HasCause heap.old heap.new result }
{
    // Laws: the grammar accepts every generated script, and its text is short.
    generated_scripts_are_read();
    generated_scripts_are_short();
    let room = COLOURS_BYTES + PICTURE_BYTES * pictures as usize + 1;
    let mut text = ScriptText::start(heap, room)?;
    write_text(seed, pictures, &mut text);
    match heap.script(text.bytes()) {
        Ok(script) => Ok(script),
        Err(ScriptStop::NoMemory) => Err(TrialStop::NoMemory),
        Err(ScriptStop::Fault { .. }) => unreachable!(),
    }
}

// Writes the generated script of a seed to an empty text. The text has more room than the script needs, so no
// write fails.
fn write_text(seed: u64, pictures: u32, text: &mut ScriptText)
    requires few { (1 ≤ pictures) × (pictures ≤ most_generated) }
    requires empty { text.old.sink.held ≡ [] }
    requires room { length (generated_script seed pictures) < text.old.sink.room }
    ensures { text.new.sink.held ≡ generated_script seed pictures }
{
    match write_script(seed, pictures, text) {
        Ok(()) => {}
        Err(Failed) => unreachable!(),
    }
}

pub(crate) fn parse_sheet(heap: &mut Heap) -> Result<Sheet, TrialStop>
    ensures sheet { IfOk result (λ sheet. sheet ≡ trial_sheet) }
    ensures err { IfErr result (λ stop. stop ≡ NoMemory) }
    ensures counted { HasCause heap.old heap.new result }
{
    // A law: the grammar accepts the sheet.
    trial_sheet_is_read();
    match heap.sheet(SHEET) {
        Ok(sheet) => Ok(sheet),
        Err(CueStop::NoMemory) => Err(TrialStop::NoMemory),
        Err(CueStop::Fault { .. }) => unreachable!(),
    }
}
