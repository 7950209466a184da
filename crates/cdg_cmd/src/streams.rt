// The commands that play a stream.
ghost use Rattle.std.specs.Prelude.{◌≢◌, ◌≤◌, ◌≡◌, ◌<◌};
ghost use Rattle.disc_time.specs.Counts.{most_lead_in, time_count};
ghost use Rattle.cdg_cmd.specs.Answer.{Does, OutOfMemory};
ghost use Rattle.cdg_io.specs.Change.{change};
ghost use Rattle.cdg_io.specs.Reads.{input};
ghost use Rattle.cdg_cmd.specs.Call.{one_input};
ghost use Rattle.stream_stages.specs.Calls.{EndFirst, EndInTurn};
ghost use Rattle.cdg_cmd.specs.Ends.{EndsAs, EndsAsListed};
ghost use Rattle.cdg_cmd.specs.Faults.{ReportsOne, ReportsNoMemory};
ghost use Rattle.cdg_cmd.specs.Keeps.{MayWrite};
ghost use Rattle.cdg_cmd.specs.Stops.{play_status};

use crate::calls::list_texts;
use crate::status::play_status;
use crate::{Command, Status};
use cdg_io::{Sink, Source};
use raw_subcode::Form;
use stream_stages::{Checker, TextLister, Viewer, list_frames};
use subcode_author::Heap;

/// Writes the counts of a stream.
pub(crate) fn run_check<S: Source, K: Sink>(
    lead_in: u32,
    form: Form,
    source: &mut S,
    out: &mut K,
) -> Status
    requires { lead_in ≤ most_lead_in }
    ensures does { Does (Command.Check lead_in form) (one_input S.left K.held (source.old, out.old)
        (source.new, out.new)) result }
    ensures memory { result ≢ Status.NoMemory }
    ensures untouched { ¬ (MayWrite result) → out.new ≡ out.old }
    ensures faults { ReportsOne (change S.faults source.old source.new)
        (change K.faults out.old out.new) result }
    ensures ended { EndsAs play_status EndFirst (input S.Source source.old source.new) result }
{
    play_status(Checker::new().check(lead_in, form, source, out))
}

/// Writes the lines of the Q channel as blocks are read.
pub(crate) fn run_q<S: Source, K: Sink>(
    lead_in: u32,
    form: Form,
    source: &mut S,
    out: &mut K,
) -> Status
    requires lead_in { lead_in ≤ most_lead_in }
    requires form { form ≢ Form.Cooked }
    ensures does { Does (Command.Q lead_in form) (one_input S.left K.held (source.old, out.old)
        (source.new, out.new)) result }
    ensures memory { result ≢ Status.NoMemory }
    ensures faults { ReportsOne (change S.faults source.old source.new)
        (change K.faults out.old out.new) result }
    ensures ended { EndsAs play_status EndInTurn (input S.Source source.old source.new) result }
{
    play_status(list_frames(lead_in, form, source, out))
}

/// Writes the texts of the lead-in of a stream, after all of it is read.
#[tactic(auto, using(crate::proofs::Played::reported_none))]
pub(crate) fn run_text<S: Source, K: Sink>(
    heap: &mut Heap,
    lead_in: u32,
    form: Form,
    source: &mut S,
    out: &mut K,
) -> Status
    requires lead_in { lead_in ≤ most_lead_in }
    requires form { form ≢ Form.Cooked }
    ensures does { result ≢ Status.NoMemory → Does (Command.Text lead_in form)
        (one_input S.left K.held (source.old, out.old) (source.new, out.new)) result }
    // If an allocation failed, nothing was read, or a whole input was read and its lead-in holds texts.
    ensures no_memory { result ≡ Status.NoMemory → OutOfMemory (Command.Text lead_in form)
        (one_input S.left K.held (source.old, out.old) (source.new, out.new)) }
    ensures untouched { ¬ (MayWrite result) → out.new ≡ out.old }
    ensures faults { ReportsOne (change S.faults source.old source.new)
        (change K.faults out.old out.new) result }
    ensures ended { EndsAsListed (input S.Source source.old source.new) result }
    ensures allocations { ReportsNoMemory heap.old heap.new result }
{
    match heap.asked(TextLister::start) {
        Ok(mut lister) => { play_status(list_texts(heap, &mut lister, lead_in, form, source, out)) }
        Err(_) => Status::NoMemory,
    }
}

/// Writes the picture at a moment of a stream.
#[tactic(auto, using(crate::proofs::Played::reported_none))]
pub(crate) fn run_screen<S: Source, K: Sink>(
    heap: &mut Heap,
    lead_in: u32,
    form: Form,
    at: u32,
    source: &mut S,
    out: &mut K,
) -> Status
    requires lead_in { lead_in ≤ most_lead_in }
    requires at { at < time_count }
    ensures does { result ≢ Status.NoMemory → Does (Command.Screen lead_in form at)
        (one_input S.left K.held (source.old, out.old) (source.new, out.new)) result }
    ensures no_memory { result ≡ Status.NoMemory → (source.new ≡ source.old) × (out.new ≡ out.old) }
    ensures untouched { ¬ (MayWrite result) → out.new ≡ out.old }
    ensures faults { ReportsOne (change S.faults source.old source.new)
        (change K.faults out.old out.new) result }
    ensures ended { result ≢ Status.NoMemory
        → EndsAs play_status EndFirst (input S.Source source.old source.new) result }
    ensures allocations { ReportsNoMemory heap.old heap.new result }
{
    match heap.asked(Viewer::start) {
        Ok(mut viewer) => play_status(viewer.screen_at(lead_in, form, at, source, out)),
        Err(_) => Status::NoMemory,
    }
}

/// Writes the state of the screen at a moment of a stream.
#[tactic(auto, using(crate::proofs::Played::reported_none))]
pub(crate) fn run_state<S: Source, K: Sink>(
    heap: &mut Heap,
    lead_in: u32,
    form: Form,
    at: u32,
    source: &mut S,
    out: &mut K,
) -> Status
    requires lead_in { lead_in ≤ most_lead_in }
    requires at { at < time_count }
    ensures does { result ≢ Status.NoMemory → Does (Command.State lead_in form at)
        (one_input S.left K.held (source.old, out.old) (source.new, out.new)) result }
    ensures no_memory { result ≡ Status.NoMemory → (source.new ≡ source.old) × (out.new ≡ out.old) }
    ensures untouched { ¬ (MayWrite result) → out.new ≡ out.old }
    ensures faults { ReportsOne (change S.faults source.old source.new)
        (change K.faults out.old out.new) result }
    ensures ended { result ≢ Status.NoMemory
        → EndsAs play_status EndFirst (input S.Source source.old source.new) result }
    ensures allocations { ReportsNoMemory heap.old heap.new result }
{
    match heap.asked(Viewer::start) {
        Ok(mut viewer) => play_status(viewer.state_at(lead_in, form, at, source, out)),
        Err(_) => Status::NoMemory,
    }
}
