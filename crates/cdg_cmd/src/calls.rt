// Calls that request memory, as commands make them.
ghost use Rattle.std.specs.Prelude.{◌≡◌, ◌≢◌, ◌≤◌, ◌<◌, IfErr, IfOk, IfSome, OnOk, length};
ghost use Rattle.std.specs.Io.KnownBytes.{IsAtEnd};
ghost use Rattle.cdg_io.specs.Causes.{ReportsFault};
ghost use Rattle.cdg_io.specs.Change.{change};
ghost use Rattle.cdg_io.specs.Reads.{input};
ghost use Rattle.cdg_cmd.specs.Authors.{IsInputStop, IsPutFor, TakesAtStop};
ghost use Rattle.cdg_cmd.specs.Ends.{ReportsTextEnd};
ghost use Rattle.cdg_cmd.specs.Presses.{IsPressedFor};
ghost use Rattle.cdg_cmd.specs.Stopped.{KeepsOutput, unwrapped};
ghost use Rattle.cdg_press.specs.Pressed.{press_of};
ghost use Rattle.cdg_press.specs.Refusals.{IsShort};
ghost use Rattle.disc_time.specs.Counts.{most_lead_in, time_count};
ghost use Rattle.subcode_author.specs.Authored.{disc_of};
ghost use Rattle.text_lines.specs.Text.{most_text_bytes};
ghost use Rattle.cdtext_packs.specs.declared.kinds.TextFault.TheVariants as fault;
ghost use Rattle.stream_stages.specs.declared.played.PlayStop.TheVariants as play;
ghost use Rattle.stream_stages.specs.Plays.{PlaysThenWrites, text_listing};

use crate::status::read_status;
use crate::stopped::{Stopped, plain, wrap};
use crate::{Status, Which};
use cdg_io::{Sink, Source, read_whole};
use cdg_press::{PressStop, press_stream};
use cue_sheet::Sheet;
use picture_script::Script;
use raw_subcode::Form;
use std::alloc::Global;
use stream_stages::{PlayStop, Played, TextLister};
use subcode_author::{AuthorStop, Heap, accepted_scripts_have_streams, author_in};
use text_lines::MOST_TEXT_BYTES;

/// Lists the texts of the lead-in of a stream.
pub(crate) fn list_texts<S: Source, K: Sink>(
    heap: &mut Heap,
    lister: &mut TextLister,
    lead_in: u32,
    form: Form,
    source: &mut S,
    out: &mut K,
) -> Result<Played, PlayStop>
    requires lead_in { lead_in ≤ most_lead_in }
    requires form { form ≢ Form.Cooked }
    ensures plays { PlaysThenWrites (text_listing form lead_in) S.Source K.Sink
        (source.old, out.old) (source.new, out.new) result }
    ensures counted { ReportsFault (play.Text fault.NoMemory) heap.old heap.new result }
{
    plain(heap.asked_with(source, out, |alloc, source, out| {
        list_from(alloc, lister, lead_in, form, source, out)
    }))
}

fn list_from<S: Source, K: Sink>(
    alloc: Global,
    lister: &mut TextLister,
    lead_in: u32,
    form: Form,
    source: &mut S,
    out: &mut K,
) -> Result<Played, Stopped<PlayStop>>
    requires lead_in { lead_in ≤ most_lead_in }
    requires form { form ≢ Form.Cooked }
    ensures { PlaysThenWrites (text_listing form lead_in) S.Source K.Sink
        (source.old, out.old) (source.new, out.new) (unwrapped result) }
{
    wrap(lister.text_list(alloc, lead_in, form, source, out))
}

/// The text or the file of an input, or the status that explains why there is none.
pub(crate) fn read_text<S: Source>(
    heap: &mut Heap,
    which: Which,
    source: &mut S,
) -> Result<Vec<u8>, Status>
    ensures all { IfOk result (λ v. IfSome (S.left source.old) (λ all. v.items ≡ all)) }
    ensures end { OnOk result (IsAtEnd (S.left source.new)) }
    ensures within { IfOk result (λ v. length v.items ≤ most_text_bytes) }
    ensures err { IfErr result (IsInputStop which (S.left source.old)) }
    ensures taken { IfErr result (TakesAtStop (change S.left source.old source.new)) }
    ensures fault { ReportsFault (Status.ReadFault which)
        (S.faults source.old) (S.faults source.new) result }
    ensures allocations { ReportsFault Status.NoMemory heap.old heap.new result }
    ensures reported { ReportsTextEnd (input S.Source source.old source.new) result }
{
    heap.asked_with(source, &mut (), |alloc, source, _| {
        read_from(alloc, which, source)
    })
}

fn read_from<S: Source>(alloc: Global, which: Which, source: &mut S) -> Result<Vec<u8>, Status>
    ensures all { IfOk result (λ v. IfSome (S.left source.old) (λ all. v.items ≡ all)) }
    ensures end { OnOk result (IsAtEnd (S.left source.new)) }
    ensures within { IfOk result (λ v. length v.items ≤ most_text_bytes) }
    ensures err { IfErr result (IsInputStop which (S.left source.old)) }
    ensures taken { IfErr result (TakesAtStop (change S.left source.old source.new)) }
    ensures fault { ReportsFault (Status.ReadFault which)
        (S.faults source.old) (S.faults source.new) result }
    ensures reported { ReportsTextEnd (input S.Source source.old source.new) result }
{
    match read_whole(alloc, source, MOST_TEXT_BYTES) {
        Ok(text) => Ok(text),
        Err(stop) => Err(read_status(which, stop)),
    }
}

/// Writes the stream of a sheet and a script.
pub(crate) fn author<K: Sink>(
    heap: &mut Heap,
    sheet: &Sheet,
    script: &Script,
    lead_in: u32,
    length: u32,
    out: &mut K,
) -> Result<(), AuthorStop>
    requires lead_in { lead_in ≤ most_lead_in }
    requires length { length < time_count }
    ensures put { IsPutFor (disc_of sheet.now script.now lead_in length)
        (change K.held out.old out.new) result }
    ensures untouched { IfErr result (λ stop. stop ≢ AuthorStop.WriteFault → out.new ≡ out.old) }
    ensures write_fault { ReportsFault AuthorStop.WriteFault (K.faults out.old) (K.faults out.new) result }
    ensures counted { ReportsFault AuthorStop.NoMemory heap.old heap.new result }
{
    // Laws: the tracks of a sheet and the times of a script are in order, so both have a stream if nothing is
    // refused.
    sheet.tracks_are_in_order();
    script.times_rise_and_colours_are_in_range();
    accepted_scripts_have_streams();
    author_in(heap, sheet, script, lead_in, length, out)
}

/// Writes the stream of a sheet and a file of packs.
pub(crate) fn press<K: Sink>(
    heap: &mut Heap,
    sheet: &Sheet,
    file: &[u8],
    lead_in: u32,
    length: u32,
    out: &mut K,
) -> Result<(), PressStop>
    requires lead_in { lead_in ≤ most_lead_in }
    requires length { length < time_count }
    requires file { IsShort file.now }
    ensures put { IsPressedFor (press_of sheet.now file.now lead_in length)
        (change K.held out.old out.new) result }
    ensures untouched { IfErr result (λ stop. stop ≢ PressStop.WriteFault → out.new ≡ out.old) }
    ensures write_fault { ReportsFault PressStop.WriteFault (K.faults out.old) (K.faults out.new) result }
    ensures counted { ReportsFault PressStop.NoMemory heap.old heap.new result }
{
    plain(heap.asked_with(&mut (), out, |alloc, _, out| {
        press_from(alloc, sheet, file, lead_in, length, out)
    }))
}

fn press_from<K: Sink>(
    alloc: Global,
    sheet: &Sheet,
    file: &[u8],
    lead_in: u32,
    length: u32,
    out: &mut K,
) -> Result<(), Stopped<PressStop>>
    requires lead_in { lead_in ≤ most_lead_in }
    requires length { length < time_count }
    requires file { IsShort file.now }
    ensures put { IsPressedFor (press_of sheet.now file.now lead_in length)
        (change K.held out.old out.new) (unwrapped result) }
    ensures untouched { KeepsOutput out.old out.new (unwrapped result) }
    ensures write_fault { ReportsFault PressStop.WriteFault
        (K.faults out.old) (K.faults out.new) (unwrapped result) }
{
    wrap(press_stream(alloc, sheet, file, lead_in, length, out))
}
