// The commands that make a stream or a script.
ghost use Rattle.std.specs.Prelude.{◌≡◌, ◌≢◌, ◌≤◌, ◌<◌, ◌⊎◌, IfOk, IfErr, OnOk, Err, length};
ghost use Rattle.disc_time.specs.Counts.{most_lead_in, time_count};
ghost use Rattle.cdg_io.specs.Causes.{ReportsFault};
ghost use Rattle.cdg_cmd.specs.Authors.{AuthorsWith, IsScriptStop, IsSheetStop, ReadsScript, ReadsSheet, TakesAtStop};
ghost use Rattle.cdg_io.specs.Change.{change};
ghost use Rattle.cdg_io.specs.Reads.{input};
ghost use Rattle.cdg_cmd.specs.Call.{call};
ghost use Rattle.cdg_cmd.specs.Ends.{ReportsTextEnd, TextsEnd};
ghost use Rattle.cdg_cmd.specs.Faults.{IsReported, ReportsFaults, ReportsNoMemory};
ghost use Rattle.cdg_cmd.specs.Keeps.{MayReadSecond};
ghost use Rattle.cdg_cmd.specs.Presses.{IsFileStop, PressesWith};
ghost use Rattle.cdg_cmd.specs.Stops.{author_status, press_status};
ghost use Rattle.cdg_workload.specs.Script.{generated_script, most_generated};
ghost use Rattle.cdg_cmd.specs.Answer.{Generates, Tries};

use crate::calls::{author, press, read_text};
use crate::status::{author_status, press_status, script_status, sheet_status};
use crate::{Command, Status, Which};
use cdg_io::{Failed, Sink, Source};
use cdg_workload::write_script;
use cue_sheet::Sheet;
use picture_script::Script;
use stream_trial::{TrialStop, trial};
use subcode_author::Heap;

// The cue sheet of the first input, or the status that explains why there is none.
#[tactic(auto, using(crate::proofs::TextReads::refused_sheet))]
fn read_sheet<S: Source>(heap: &mut Heap, first: &mut S) -> Result<Sheet, Status>
    ensures ok { IfOk result (ReadsSheet (change S.left first.old first.new)) }
    ensures err { IfErr result (IsSheetStop (S.left first.old)) }
    ensures taken { IfErr result (TakesAtStop (change S.left first.old first.new)) }
    ensures fault { ReportsFault (Status.ReadFault Which.First)
        (S.faults first.old) (S.faults first.new) result }
    ensures allocations { ReportsFault Status.NoMemory heap.old heap.new result }
    ensures reported { ReportsTextEnd (input S.Source first.old first.new) result }
{
    let text = match read_text(heap, Which::First, first) {
        Ok(text) => text,
        Err(status) => return Err(status),
    };
    match heap.sheet(&text) {
        Ok(sheet) => Ok(sheet),
        Err(stop) => Err(sheet_status(stop)),
    }
}

// The picture script of the second input, or the status that explains why there is none.
fn read_script<S: Source>(heap: &mut Heap, second: &mut S) -> Result<Script, Status>
    ensures ok { IfOk result (ReadsScript (change S.left second.old second.new)) }
    ensures err { IfErr result (IsScriptStop (S.left second.old)) }
    ensures taken { IfErr result (TakesAtStop (change S.left second.old second.new)) }
    ensures fault { ReportsFault (Status.ReadFault Which.Second)
        (S.faults second.old) (S.faults second.new) result }
    ensures allocations { ReportsFault Status.NoMemory heap.old heap.new result }
    ensures reported { ReportsTextEnd (input S.Source second.old second.new) result }
{
    let text = match read_text(heap, Which::Second, second) {
        Ok(text) => text,
        Err(status) => return Err(status),
    };
    match heap.script(&text) {
        Ok(script) => Ok(script),
        Err(stop) => Err(script_status(stop)),
    }
}

/// Writes the stream of a cue sheet, which is the first input, and a picture script, which is the second.
pub(crate) fn run_author<S: Source, T: Source, K: Sink>(
    heap: &mut Heap,
    lead_in: u32,
    length: u32,
    first: &mut S,
    second: &mut T,
    out: &mut K,
) -> Status
    requires lead_in { lead_in ≤ most_lead_in }
    requires length { length < time_count }
    ensures does { AuthorsWith lead_in length (call S.left T.left K.held (first.old, second.old, out.old)
        (first.new, second.new, out.new)) result }
    ensures never { result ≢ Status.Usage }
    ensures untouched { result ≢ Status.Done → result ≢ Status.WriteFault → out.new ≡ out.old }
    ensures second { (second.new ≡ second.old)
        ⊎ MayReadSecond (Command.Author lead_in length) (input S.Source first.old first.new) }
    ensures faults { ReportsFaults (call S.faults T.faults K.faults (first.old, second.old, out.old)
        (first.new, second.new, out.new)) result }
    ensures ended { TextsEnd IsScriptStop author_status (input S.Source first.old first.new)
        (input T.Source second.old second.new) result }
    ensures allocations { ReportsNoMemory heap.old heap.new result }
{
    let sheet = match read_sheet(heap, first) {
        Ok(sheet) => sheet,
        Err(status) => return status,
    };
    let script = match read_script(heap, second) {
        Ok(script) => script,
        Err(status) => return status,
    };
    author_status(author(heap, &sheet, &script, lead_in, length, out))
}

/// Writes the stream of a cue sheet, which is the first input, and a file of packs, which is the second.
pub(crate) fn run_press<S: Source, T: Source, K: Sink>(
    heap: &mut Heap,
    lead_in: u32,
    length: u32,
    first: &mut S,
    second: &mut T,
    out: &mut K,
) -> Status
    requires lead_in { lead_in ≤ most_lead_in }
    requires length { length < time_count }
    ensures does { PressesWith lead_in length (call S.left T.left K.held (first.old, second.old, out.old)
        (first.new, second.new, out.new)) result }
    ensures never { result ≢ Status.Usage }
    ensures untouched { result ≢ Status.Done → result ≢ Status.WriteFault → out.new ≡ out.old }
    ensures second { (second.new ≡ second.old)
        ⊎ MayReadSecond (Command.Press lead_in length) (input S.Source first.old first.new) }
    ensures faults { ReportsFaults (call S.faults T.faults K.faults (first.old, second.old, out.old)
        (first.new, second.new, out.new)) result }
    ensures ended { TextsEnd IsFileStop press_status (input S.Source first.old first.new)
        (input T.Source second.old second.new) result }
    ensures allocations { ReportsNoMemory heap.old heap.new result }
{
    let sheet = match read_sheet(heap, first) {
        Ok(sheet) => sheet,
        Err(status) => return status,
    };
    let file = match read_text(heap, Which::Second, second) {
        Ok(file) => file,
        Err(status) => return status,
    };
    press_status(press(heap, &sheet, &file, lead_in, length, out))
}

/// Writes the script of a seed.
#[tactic(auto, using(crate::proofs::Written::reported_done, crate::proofs::Written::reported_cut))]
pub(crate) fn run_gen<K: Sink>(seed: u64, pictures: u32, out: &mut K) -> Status
    requires { (1 ≤ pictures) × (pictures ≤ most_generated) }
    ensures does { Generates (generated_script seed pictures) (change K.held out.old out.new) result }
    ensures never { (result ≡ Status.Done) ⊎ (result ≡ Status.WriteFault) }
    ensures faults { IsReported Status.WriteFault (change K.faults out.old out.new) result }
{
    match write_script(seed, pictures, out) {
        Ok(()) => Status::Done,
        Err(Failed) => Status::WriteFault,
    }
}

/// Writes the lines of a trial of a seed.
#[tactic(auto, using(crate::proofs::Written::reported_done, crate::proofs::Written::reported_cut, crate::proofs::Written::reported_nothing))]
pub(crate) fn run_trial<K: Sink>(heap: &mut Heap, seed: u64, pictures: u32, out: &mut K) -> Status
    requires { (1 ≤ pictures) × (pictures ≤ most_generated) }
    ensures does { result ≢ Status.NoMemory → Tries seed pictures (change K.held out.old out.new) result }
    ensures never { (result ≡ Status.Done) ⊎ (result ≡ Status.WriteFault) ⊎ (result ≡ Status.NoMemory) }
    ensures no_memory { result ≡ Status.NoMemory → out.new ≡ out.old }
    ensures faults { IsReported Status.WriteFault (change K.faults out.old out.new) result }
    ensures allocations { ReportsNoMemory heap.old heap.new result }
{
    match trial(heap, seed, pictures, out) {
        Ok(()) => Status::Done,
        Err(TrialStop::WriteFault) => Status::WriteFault,
        Err(TrialStop::NoMemory) => Status::NoMemory,
    }
}
