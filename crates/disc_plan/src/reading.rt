// Reads the texts of a disc.
ghost use Rattle.std.specs.Prelude.{◌≡◌, ◌≢◌, ◌<◌, ◌≤◌, Ok, IfErr, IfOk, length};
ghost use Rattle.text_lines.specs.Text.{most_text_bytes};
ghost use Rattle.cdg_io.specs.Causes.{ReportsFault};
ghost use Rattle.cue_sheet.specs.Grammar.{read_cue};
ghost use Rattle.picture_script.specs.ScriptGrammar.{read_script};
ghost use Rattle.disc_plan.specs.Discs.{IsPlanSheetStop, IsPlanScriptStop};

use crate::stops::PlanStop;
use cue_sheet::{CueStop, Sheet};
use picture_script::{Script, ScriptStop};
use subcode_author::Heap;
use text_lines::MOST_TEXT_BYTES;

/// Reads a cue sheet, or returns the reason to refuse it.
pub(crate) fn read_sheet(heap: &mut Heap, text: &[u8]) -> Result<Sheet, PlanStop>
    ensures read { IfOk result (λ sheet. read_cue text.now ≡ Ok sheet) }
    ensures few { IfOk result (λ _. length text.now ≤ most_text_bytes) }
    ensures stop { IfErr result (IsPlanSheetStop text.now) }
    ensures allocations { ReportsFault PlanStop.NoMemory heap.old heap.new result }
{
    if text.len() > MOST_TEXT_BYTES {
        return Err(PlanStop::SheetTooLong);
    }
    match heap.sheet(text) {
        Ok(sheet) => Ok(sheet),
        Err(CueStop::Fault { line, why }) => Err(PlanStop::Sheet { line, why }),
        Err(CueStop::NoMemory) => Err(PlanStop::NoMemory),
    }
}

/// Reads a picture script, or returns the reason to refuse it.
pub(crate) fn read_script(heap: &mut Heap, text: &[u8]) -> Result<Script, PlanStop>
    ensures read { IfOk result (λ script. read_script text.now ≡ Ok script) }
    ensures few { IfOk result (λ _. length text.now ≤ most_text_bytes) }
    ensures stop { IfErr result (IsPlanScriptStop text.now) }
    ensures allocations { ReportsFault PlanStop.NoMemory heap.old heap.new result }
{
    if text.len() > MOST_TEXT_BYTES {
        return Err(PlanStop::ScriptTooLong);
    }
    match heap.script(text) {
        Ok(script) => Ok(script),
        Err(ScriptStop::Fault { line, why }) => Err(PlanStop::Script { line, why }),
        Err(ScriptStop::NoMemory) => Err(PlanStop::NoMemory),
    }
}
