// A text of a sheet.
ghost use Rattle.std.specs.Prelude.{◌≡◌, ◌≤◌, ◌++◌, IfErr, IfOk, OnErr, drop, length};
ghost use Rattle.cdg_io.specs.Causes.{ReportsFault};
ghost use Rattle.cue_sheet.specs.CueSheet.{text_at};
ghost use Rattle.disc_plan.specs.SheetRows.{IsTextOf, IsTextStop};

use crate::stops::TextStop;
use cue_sheet::{CueStop, CueText};
use subcode_author::Heap;
use text_lines::MOST_TEXT_BYTES;

/// Writes a text of the album (place 0) or of the k-th track (place k, from 1) to the front of `bytes`, and returns its
/// length. It is empty if the sheet has none.
pub fn sheet_text(
    heap: &mut Heap,
    text: &[u8],
    kind: CueText,
    place: usize,
    out: &mut [u8],
) -> Result<u32, TextStop>
    ensures text { IfOk result (IsTextOf kind place text.now out.old out.new) }
    ensures stop { IfErr result (IsTextStop kind place text.now (length out.old)) }
    ensures untouched { OnErr result (out.new ≡ out.old) }
    // The error is `NoMemory` exactly if a request for memory failed.
    ensures allocations { ReportsFault TextStop.NoMemory heap.old heap.new result }
{
    if text.len() > MOST_TEXT_BYTES {
        return Err(TextStop::TooLong);
    }
    let sheet = match heap.sheet(text) {
        Ok(sheet) => sheet,
        Err(CueStop::Fault { line, why }) => return Err(TextStop::Fault { line, why }),
        Err(CueStop::NoMemory) => return Err(TextStop::NoMemory),
    };
    if place > sheet.tracks() {
        return Err(TextStop::NoTrack);
    }
    let found = sheet.text(kind, place);
    let bytes = found.len() as u32;
    if found.len() > out.len() {
        return Err(TextStop::NoRoom { bytes });
    }
    put(out, found);
    Ok(bytes)
}

fn put(out: &mut [u8], bytes: &[u8])
    requires { length bytes.now ≤ length out.old }
    ensures { out.new ≡ bytes.now ++ drop (length bytes.now) out.old }
{
    out[..bytes.len()].copy_from_slice(bytes);
}
