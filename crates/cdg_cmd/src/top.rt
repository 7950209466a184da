// Runs a command: splits its line, reads its words, performs it, and prints the line of its status.
ghost use Rattle.std.specs.Prelude.{◌≡◌, ◌≢◌, ◌↔◌, ◌≤◌, ◌<◌, ℕ, List, Some, None, IfSome, length, position, string_bytes, bytes_eq, codes};
ghost use Rattle.disc_time.specs.Counts.{most_program};
ghost use Rattle.std.specs.List.{concat};
ghost use Rattle.raw_subcode.specs.declared.form.Form.{Form};
ghost use Rattle.picture_script.specs.Script.{Drawing};
ghost use Rattle.pack_schedule.specs.Brings.{CannotBeReady};
ghost use Rattle.toc_model.specs.Places.{layout_of, program_blocks};
ghost use Rattle.subcode_author.specs.Authored.{Disc, IsAuthored};
ghost use Rattle.rw_merge.specs.Readings.{IsReadTwice};
ghost use Rattle.cdg_press.specs.Calls.{ShowsAll};
ghost use Rattle.std.specs.Io.KnownBytes.{Appends};
ghost use Rattle.round_trips.specs.Pictured.{IsHeldAt};
ghost use Rattle.round_trips.specs.FrameLines.{frame_lines};
ghost use Rattle.cdg_cmd.specs.Words.{texts};
ghost use Rattle.cdg_cmd.specs.Splitting.{split_of};
ghost use Rattle.cdg_cmd.specs.Spelling.{IsAllowed, Spells};
ghost use Rattle.cdg_io.specs.Change.{change};
ghost use Rattle.cdg_io.specs.Reads.{input};
ghost use Rattle.cdg_cmd.specs.Call.{call};
ghost use Rattle.cdg_cmd.specs.Performs.{Performs};
ghost use Rattle.cdg_cmd.specs.Answer.{GivesBack, GivesIfFound};
ghost use Rattle.cdg_cmd.specs.Faults.{IsAnswered, NoneRose, ReportsFaults, ReportsNoMemory};
ghost use Rattle.cdg_cmd.specs.Reported.{ReportsStatus};
ghost use Rattle.cdg_cmd.specs.Authors.{IsScriptText, IsSheetText};
ghost use Rattle.cdg_cmd.specs.Headline.{HavePlace, IsDamagedCopy, PutsPicture, WritesOrIsLate, written_packs};
ghost use Rattle.cdg_cmd.specs.LeadInTexts.{AreLinesOf};
ghost use Rattle.cdg_cmd.specs.Resumes.{ResumesFrom};
ghost use Rattle.cdg_cmd.specs.Unpresses.{Unpresses};

use crate::laws::commands_are_answered;
use crate::making::{run_author, run_gen, run_press, run_trial};
use crate::packs::{run_merge, run_planar, run_raw, run_resume, run_save, run_scratch, run_thin};
use crate::status::{play_status, report_status};
use crate::streams::{run_check, run_q, run_screen, run_state, run_text};
use crate::{Command, Split, Status, read_words};
use cdg_io::{Sink, Source};
use std::alloc::Global;
use stream_stages::Converter;
use subcode_author::Heap;

// The number of words before the first `--`.
fn words_before(line: &[String]) -> Option<usize>
    ensures place { result ≡ position (λ word. bytes_eq (string_bytes word) (codes "--")) line.now }
    ensures within { IfSome result (λ n. n < length line.now) }
{
    line.iter().position(|word| word.as_str() == "--")
}

/// Splits a command line at its first `--`, if at most two names follow it. Otherwise all words belong to the
/// command.
pub fn split(line: &[String]) -> Split
    ensures { result ≡ split_of line.now }
{
    let whole = Split {
        words: line.len(),
        names: 0,
    };
    let Some(words) = words_before(line) else {
        return whole;
    };
    if line.len() - words > 3 {
        return whole;
    }
    Split {
        words,
        names: line.len() - words - 1,
    }
}

/// Runs a command on its inputs, its output and the error output.
///
/// The first input is the stream of a command, the cue sheet of `author` and `press`, or the checkpoint of `resume`.
/// The second input is the picture script of `author`, the file of packs of `press`, the other reading of `merge`, or
/// the rest of the stream of `resume`. A command does not read an input that it does not need. Each input is read
/// once, in order, and the output is written in order. The line of the status is written to `err`; `Done` has no
/// line. If this write fails, nothing else changes.
///
/// # Errors
///
/// The status is the reason for the end of the run: `Usage` before anything is read; a refusal if its reason is the
/// first that applies, in the order of the inputs; a fault if a source or the sink failed; `NoMemory` with an
/// unchanged output.
#[tactic(auto, using(crate::proofs::Reported::reports))]
pub fn run<S: Source, T: Source, K: Sink, E: Sink>(
    alloc: Global,
    words: &[String],
    first: &mut S,
    second: &mut T,
    out: &mut K,
    err: &mut E,
) -> Status
    // The status is `Usage` exactly if the words spell no command. Then the inputs and the output are
    // unchanged.
    ensures usage { ((result ≡ Status.Usage) ↔ ((command : Command) → ¬ (Spells command (texts words.now))))
        × (result ≡ Status.Usage
        → (first.new ≡ first.old) × (second.new ≡ second.old) × (out.new ≡ out.old)) }
    // The input, the output and the status of the command.
    ensures performs { (command : Command) → Spells command (texts words.now) → Performs command
        (input S.Source first.old first.new) (input T.Source second.old second.new)
        (change K.held out.old out.new) (first.old, second.old, out.old)
        (first.new, second.new, out.new) result }
    // The status is a fault only if the count of this fault rose. No other count of faults rises.
    ensures faults { ReportsFaults (call S.faults T.faults K.faults (first.old, second.old, out.old)
        (first.new, second.new, out.new)) result }
    // If the words are a command and no count rose, the status is no fault, and `does` gives the exact status.
    ensures complete { (command : Command) → Spells command (texts words.now)
        → NoneRose (call S.faults T.faults K.faults
        (first.old, second.old, out.old) (first.new, second.new, out.new)) → IsAnswered result }
    // The line of the status was written to the error output, or a prefix of it if its count of faults rose.
    ensures reported { ReportsStatus E.held E.faults err.old err.new result }

    // For a sheet and a script that fit on a disc, an authored stream is written, or the status is the first late
    // picture.
    ensures authors { (disc : Disc) → Spells (Command.Author disc.lead_in disc.audio) (texts words.now)
        → HavePlace disc → IfSome (S.left first.old) (λ cue. IfSome (T.left second.old) (λ text.
        IsSheetText cue disc.sheet → IsScriptText text disc.script
        → WritesOrIsLate disc (change K.held out.old out.new) result)) }
    // A picture with the status `Late` cannot be ready: no list of instructions without scrolls draws it in the packs
    // that are free for it. The list for the first picture must make all settings, so even a blank first picture may
    // be late.
    ensures late { (lead_in audio picture need free : ℕ) (script : List Drawing)
        → Spells (Command.Author lead_in audio) (texts words.now) → result ≡ Status.Late picture need free
        → IfSome (T.left second.old) (λ text. IsScriptText text script
        → CannotBeReady script picture need free) }
    // If damage changed at most two symbols of each word of an authored stream, a conversion recovers every scheduled
    // pack.
    ensures gives_back { (form : Form) (disc : Disc) (stream : List ℕ) (packs : List (List ℕ))
        → Spells (Command.Convert disc.lead_in form) (texts words.now) → IsAuthored disc stream packs
        → IfSome (S.left first.old) (λ all. IsDamagedCopy form disc.lead_in stream all
        → GivesBack (concat (written_packs form packs)) (change K.held out.old out.new) result) }
    // From an authored stream, after such damage, the screen shows each picture of an accepted script from its ready
    // time to its hold time.
    ensures shows { (form : Form) (disc : Disc) (stream text : List ℕ) (packs : List (List ℕ)) (k at : ℕ)
        → Spells (Command.Screen disc.lead_in form at) (texts words.now) → IsScriptText text disc.script
        → IsHeldAt disc.script k at → IsAuthored disc stream packs
        → IfSome (S.left first.old) (λ all. IsDamagedCopy form disc.lead_in stream all
        → PutsPicture disc.script k (change K.held out.old out.new) result) }
    // For an authored stream, `q` lists the frame of each block.
    ensures frames { (disc : Disc) (packs : List (List ℕ))
        → Spells (Command.Q disc.lead_in Form.Raw) (texts words.now)
        → program_blocks disc.sheet disc.audio ≤ most_program
        → IfSome (S.left first.old) (λ all. IsAuthored disc all packs
        → GivesBack (frame_lines (layout_of disc.sheet disc.audio) disc.lead_in)
        (change K.held out.old out.new) result) }
    // For an authored stream, `text` lists each string of the sheet that is not empty, even if slots of the
    // lead-in are damaged.
    ensures strings { (form : Form) (disc : Disc) (stream lines : List ℕ) (packs : List (List ℕ))
        → Spells (Command.Text disc.lead_in form) (texts words.now) → IsAuthored disc stream packs
        → IfSome (S.left first.old) (λ all. AreLinesOf disc form stream all lines
        → GivesIfFound lines (change K.held out.old out.new) result) }
    // Every pack is recovered from two readings if, in each word, twice the number of symbols in which both
    // are equal and wrong, plus the number of symbols in which they differ, is at most four.
    ensures merges { (lead_in : ℕ) → Spells (Command.Merge lead_in) (texts words.now)
        → IfSome (S.left first.old) (λ one. IfSome (T.left second.old) (λ other. (blocks : ℕ)
        (packs : List (List ℕ)) → IsReadTwice lead_in blocks packs one other
        → GivesBack (concat packs) (change K.held out.old out.new) result)) }
    // If damage changed at most two symbols of each word of a pressed stream, a conversion recovers every pack, and the
    // screen n blocks after the start of the audio is the screen after 4n packs of the file.
    ensures unpresses { (command : Command) → Spells command (texts words.now)
        → IfSome (S.left first.old) (λ all. Unpresses command all (change K.held out.old out.new) result) }
    // From the file of a checkpoint, from any origin, and the rest of a stream, the screen at a time is written. If
    // `save` made the file from the first part of a stream, `screen` has the same status and output for the whole
    // stream.
    ensures resumes { (at : ℕ) → Spells (Command.Resume at) (texts words.now) → IsAnswered result
        → result ≢ Status.NoMemory → IfSome (S.left first.old) (λ file. IfSome (T.left second.old) (λ rest.
        ResumesFrom file at rest (change K.held out.old out.new) result)) }
    // For a whole file the thin form is written: the screens of both are equal after each number of packs, and the
    // thin form of the output is the output.
    ensures thins { Spells Command.Thin (texts words.now) → result ≡ Status.Done
        → IfSome (S.left first.old) (λ all. (text : List ℕ) × ShowsAll all text
        × Appends (K.held out.old) (K.held out.new) text) }
{
    commands_are_answered();
    let status = answer(&mut Heap::new(alloc), words, first, second, out);
    // If this write fails, the status is unchanged.
    let _reported = report_status(err, status);
    status
}

// Reads the words and performs their command. It prints no status.
fn answer<S: Source, T: Source, K: Sink>(
    heap: &mut Heap,
    words: &[String],
    first: &mut S,
    second: &mut T,
    out: &mut K,
) -> Status
    ensures usage { (result ≡ Status.Usage) ↔ ((command : Command) → ¬ (Spells command (texts words.now))) }
    ensures untouched { result ≡ Status.Usage
        → (first.new ≡ first.old) × (second.new ≡ second.old) × (out.new ≡ out.old) }
    ensures performs { (command : Command) → Spells command (texts words.now) → Performs command
        (input S.Source first.old first.new) (input T.Source second.old second.new)
        (change K.held out.old out.new) (first.old, second.old, out.old)
        (first.new, second.new, out.new) result }
    ensures faults { ReportsFaults (call S.faults T.faults K.faults (first.old, second.old, out.old)
        (first.new, second.new, out.new)) result }
    ensures allocations { ReportsNoMemory heap.old heap.new result }
{
    match read_words(words) {
        Some(command) => perform(heap, command, first, second, out),
        None => Status::Usage,
    }
}

/// Performs a command over its inputs and its output, as `run` does after it has read the words.
pub fn perform<S: Source, T: Source, K: Sink>(
    heap: &mut Heap,
    command: Command,
    first: &mut S,
    second: &mut T,
    out: &mut K,
) -> Status
    requires { IsAllowed command }
    ensures never { result ≢ Status.Usage }
    ensures performs { Performs command
        (input S.Source first.old first.new) (input T.Source second.old second.new)
        (change K.held out.old out.new) (first.old, second.old, out.old)
        (first.new, second.new, out.new) result }
    ensures faults { ReportsFaults (call S.faults T.faults K.faults (first.old, second.old, out.old)
        (first.new, second.new, out.new)) result }
    ensures allocations { ReportsNoMemory heap.old heap.new result }
{
    match command {
        Command::Convert { lead_in, form } => {
            play_status(Converter::new().convert(lead_in, form, first, out))
        }
        Command::Screen { lead_in, form, at } => run_screen(heap, lead_in, form, at, first, out),
        Command::State { lead_in, form, at } => run_state(heap, lead_in, form, at, first, out),
        Command::Check { lead_in, form } => run_check(lead_in, form, first, out),
        Command::Q { lead_in, form } => run_q(lead_in, form, first, out),
        Command::Text { lead_in, form } => run_text(heap, lead_in, form, first, out),
        Command::Author { lead_in, length } => {
            run_author(heap, lead_in, length, first, second, out)
        }
        Command::Planar => run_planar(first, out),
        Command::Raw => run_raw(first, out),
        Command::Scratch { lead_in, seed } => run_scratch(lead_in, seed, first, out),
        Command::Gen { seed, pictures } => run_gen(seed, pictures, out),
        Command::Trial { seed, pictures } => run_trial(heap, seed, pictures, out),
        Command::Merge { lead_in } => run_merge(lead_in, first, second, out),
        Command::Thin => run_thin(heap, first, out),
        Command::Press { lead_in, length } => {
            run_press(heap, lead_in, length, first, second, out)
        }
        Command::Save { lead_in } => run_save(heap, lead_in, first, out),
        Command::Resume { at } => run_resume(heap, at, first, second, out),
    }
}
