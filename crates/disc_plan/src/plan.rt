// The plan of a disc.
ghost use Rattle.std.specs.Prelude.{◌≡◌, ◌≤◌, ◌⊎◌, Err, OnErr, OnOk, IfErr, IfOk, drop, length};
ghost use Rattle.cdg_io.specs.Causes.{Rose};
ghost use Rattle.disc_time.specs.Counts.{most_program};
ghost use Rattle.disc_plan.specs.Discs.{planned_disc, IsPlan, IsPlanScriptStop, IsPlanStop};

use crate::picture_rows::{PlannedRow, write_rows};
use crate::reading::{read_script, read_sheet};
use crate::stops::PlanStop;
use subcode_author::{Heap, accept_disc};

#[derive(Clone, Copy)]
pub struct PlannedDisc {
    /// The number of pictures of its script.
    pub pictures: u32,
    /// The number of blocks of its program.
    pub blocks: u32,
    pub late: u32,
}

/// Plans the pictures of a disc from the texts of its cue sheet and its picture script. It writes a row for each
/// picture, in time or late, to the front of `rows`.
///
/// # Errors
///
/// The reasons of `PlanStop` in their order, which is the order of the program's refusals. Refusals of the texts need
/// no memory. `Disc` and `NoRoom` are detected only if there is memory for both texts, and otherwise `NoMemory` is
/// returned. After an error no row was written.
pub fn plan_disc(
    heap: &mut Heap,
    sheet: &[u8],
    script: &[u8],
    lead_in: u32,
    audio: u32,
    rows: &mut [PlannedRow],
) -> Result<PlannedDisc, PlanStop>
    requires { audio ≤ most_program }
    ensures plan { IfOk result (IsPlan (planned_disc sheet.now script.now lead_in audio) rows.new) }
    ensures rest { IfOk result (λ report. drop report.pictures rows.new ≡ drop report.pictures rows.old) }
    ensures stop { IfErr result (IsPlanStop (planned_disc sheet.now script.now lead_in audio)
        (length rows.old)) }
    ensures untouched { OnErr result (rows.new ≡ rows.old) }
    // `NoMemory` is returned only if a request for memory failed.
    ensures allocations { result ≡ Err PlanStop.NoMemory → Rose heap.old heap.new }
    // If there is a plan, no request failed.
    ensures found { OnOk result (heap.new ≡ heap.old) }
    ensures later { heap.old ≤ heap.new }
{
    let cues = match read_sheet(heap, sheet) {
        Ok(cues) => cues,
        Err(PlanStop::NoMemory) => return Err(stop_of_script(heap, script)),
        Err(stop) => return Err(stop),
    };
    let drawings = match read_script(heap, script) {
        Ok(drawings) => drawings,
        Err(stop) => return Err(stop),
    };
    let blocks = match accept_disc(&cues, &drawings, lead_in, audio) {
        Ok(blocks) => blocks,
        Err(stop) => return Err(PlanStop::Disc { stop }),
    };
    let pictures = drawings.pictures();
    if pictures as usize > rows.len() {
        return Err(PlanStop::NoRoom { pictures, blocks });
    }
    match write_rows(heap, &drawings, script, rows) {
        Ok(late) => Ok(PlannedDisc {
            pictures,
            blocks,
            late,
        }),
        Err(_) => Err(PlanStop::NoMemory),
    }
}

// The reason to refuse a script, or `NoMemory`.
fn stop_of_script(heap: &mut Heap, script: &[u8]) -> PlanStop
    ensures stop { IsPlanScriptStop script.now result }
    ensures counted { (heap.new ≡ heap.old) ⊎ Rose heap.old heap.new }
    ensures later { heap.old ≤ heap.new }
{
    match read_script(heap, script) {
        Ok(drawings) => {
            drop(drawings);
            PlanStop::NoMemory
        }
        Err(stop) => stop,
    }
}
