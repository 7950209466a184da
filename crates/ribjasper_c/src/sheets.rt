// The index lines and the texts of a cue sheet.
ghost use Rattle.std.specs.Prelude.{◌≡◌, ◌≢◌, pos};
ghost use Rattle.cdg_io.specs.Causes.{Rose};
ghost use Rattle.ribjasper_c.specs.Sheets.{text_kind, WritesRowsOfSheet, WritesTextOfSheet};

use crate::answers::{DONE, NO_MEMORY, REFUSED, USAGE, WRITE_FAULT};
use cue_sheet::CueText;
use disc_plan::{
    SheetReport, SheetRow, SheetStop, TextStop, refusal_report, sheet_rows, sheet_text,
};
use std::alloc::Global;
use subcode_author::Heap;

/// Writes a row for each index line of a cue sheet to the front of some rows. The result is an exit status of the
/// program.
#[unsafe(no_mangle)]
pub extern "C" fn ribjasper_sheet(
    alloc: Global,
    sheet: &[u8],
    rows: &mut [SheetRow],
    report: &mut SheetReport,
) -> i32
    ensures { WritesRowsOfSheet sheet.now rows.old rows.new report.old report.new result }
{
    sheet_in(&mut Heap::new(alloc), sheet, rows, report)
}

// Does the work of `ribjasper_sheet`. The heap counts failed requests for memory.
fn sheet_in(heap: &mut Heap, sheet: &[u8], rows: &mut [SheetRow], report: &mut SheetReport) -> i32
    ensures writes { WritesRowsOfSheet sheet.now rows.old rows.new report.old report.new result }
    // The answer is 7 exactly if a request for memory failed.
    ensures allocations { result ≡ pos 7 → Rose heap.old heap.new }
    ensures found { result ≢ pos 7 → heap.new ≡ heap.old }
{
    match sheet_rows(heap, sheet, rows) {
        Ok(said) => {
            *report = said;
            DONE
        }
        Err(SheetStop::TooLong) => USAGE,
        Err(SheetStop::Fault { line, why }) => {
            *report = refusal_report(line, why);
            REFUSED
        }
        Err(SheetStop::NoRoom { report: said }) => {
            *report = said;
            WRITE_FAULT
        }
        Err(SheetStop::NoMemory) => NO_MEMORY,
    }
}

/// Writes a text of a cue sheet to the front of some bytes, and its size. The result is an exit status of the program.
#[unsafe(no_mangle)]
pub extern "C" fn ribjasper_sheet_text(
    alloc: Global,
    sheet: &[u8],
    kind: u32,
    place: u32,
    out: &mut [u8],
    bytes: &mut u32,
) -> i32
    ensures { WritesTextOfSheet sheet.now kind place out.old out.new bytes.old bytes.new result }
{
    text_in(&mut Heap::new(alloc), sheet, kind, place, out, bytes)
}

// Does the work of `ribjasper_sheet_text`. The heap counts failed requests for memory.
fn text_in(
    heap: &mut Heap,
    sheet: &[u8],
    kind: u32,
    place: u32,
    out: &mut [u8],
    bytes: &mut u32,
) -> i32
    ensures writes { WritesTextOfSheet sheet.now kind place out.old out.new bytes.old bytes.new result }
    // The answer is 7 exactly if a request for memory failed.
    ensures allocations { result ≡ pos 7 → Rose heap.old heap.new }
    ensures found { result ≢ pos 7 → heap.new ≡ heap.old }
{
    if kind > 2 {
        return USAGE;
    }
    match sheet_text(heap, sheet, text_kind(kind), place as usize, out) {
        Ok(count) => {
            *bytes = count;
            DONE
        }
        Err(TextStop::TooLong | TextStop::NoTrack) => USAGE,
        Err(TextStop::Fault { .. }) => REFUSED,
        Err(TextStop::NoRoom { bytes: count }) => {
            *bytes = count;
            WRITE_FAULT
        }
        Err(TextStop::NoMemory) => NO_MEMORY,
    }
}

// The kind of texts with a number.
fn text_kind(kind: u32) -> CueText
    ensures { result ≡ text_kind kind }
{
    match kind {
        1 => CueText::Performer,
        2 => CueText::Songwriter,
        _ => CueText::Title,
    }
}
