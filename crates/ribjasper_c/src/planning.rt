// The plan of a disc, with a row for each picture of a script; and the number of packs that a tile needs.
ghost use Rattle.std.specs.Prelude.{◌≡◌, ◌≢◌, ◌<◌, ◌⊎◌, ◌↔◌, pos, ◌≤◌, ℕ, All, negsuc, replicate};
ghost use Rattle.cdg_io.specs.Causes.{Rose};
ghost use Rattle.disc_plan.specs.declared.stops.PlanStop.{PlanStop};
ghost use Rattle.ribjasper_c.specs.Planning.{stop_answer, Plans};
ghost use Rattle.cdg_instructions.specs.Drawing.{IsLeast};
ghost use Rattle.cdg_instructions.specs.Sizes.{colour_count, column_values, row_values, tile_pixels};
ghost use Rattle.tile_author.specs.Plan.{weight};

use crate::answers::{DONE, LATE, NO_MEMORY, NOT_DONE, REFUSED, USAGE, WRITE_FAULT};
use cdg_instructions::{PIXELS, Tile};
use disc_plan::{PlanReport, PlanStop, PlannedRow, plan_disc, plan_report, stop_report};
use disc_time::{MOST_LEAD_IN, MOST_PROGRAM};
use std::alloc::Global;
use subcode_author::Heap;
use tile_author::weight;

/// Plans the pictures of a disc, and writes a row for each picture to the front of some rows. `lead_in` and
/// `audio` are numbers of blocks. The result is an exit status of the program: 0 if no picture is late, 4 if
/// some are.
#[unsafe(no_mangle)]
pub extern "C" fn ribjasper_plan(
    alloc: Global,
    sheet: &[u8],
    script: &[u8],
    lead_in: u32,
    audio: u32,
    rows: &mut [PlannedRow],
    report: &mut PlanReport,
) -> i32
    ensures { Plans sheet.now script.now lead_in audio rows.old rows.new report.old report.new result }
{
    plan_in(
        &mut Heap::new(alloc),
        sheet,
        script,
        lead_in,
        audio,
        rows,
        report,
    )
}

// Does the work of `ribjasper_plan`. The heap counts failed requests for memory.
fn plan_in(
    heap: &mut Heap,
    sheet: &[u8],
    script: &[u8],
    lead_in: u32,
    audio: u32,
    rows: &mut [PlannedRow],
    report: &mut PlanReport,
) -> i32
    ensures plans { Plans sheet.now script.now lead_in audio rows.old rows.new report.old report.new result }
    // The answer is 7 only if a request for memory failed.
    ensures allocations { result ≡ pos 7 → Rose heap.old heap.new }
    // If there is a plan, no request failed.
    ensures found { (result ≡ pos 0) ⊎ (result ≡ pos 4) → heap.new ≡ heap.old }
{
    if lead_in > MOST_LEAD_IN || audio > MOST_PROGRAM {
        return USAGE;
    }
    match plan_disc(heap, sheet, script, lead_in, audio, rows) {
        Ok(disc) => {
            *report = plan_report(&disc);
            if disc.late == 0 { DONE } else { LATE }
        }
        Err(PlanStop::NoMemory) => NO_MEMORY,
        Err(stop) => {
            *report = stop_report(&stop);
            stop_answer(&stop)
        }
    }
}

// The exit status if there is no plan.
fn stop_answer(stop: &PlanStop) -> i32
    ensures { result ≡ stop_answer stop.now }
{
    match *stop {
        PlanStop::NoRoom { .. } => WRITE_FAULT,
        PlanStop::NoMemory => NO_MEMORY,
        _ => REFUSED,
    }
}

/// The number of packs, 1 to 4, that a tile of these colours needs on a screen of one other colour; or -1 if
/// a number is above 15.
#[unsafe(no_mangle)]
pub extern "C" fn ribjasper_tile_weight(pixels: &[u8; PIXELS]) -> i32
    ensures weight { All (λ pixel. pixel < 16) pixels.now → result ≡ pos (weight pixels.now) }
    ensures least { (row column c : ℕ) → All (λ pixel. pixel < 16) pixels.now
        → row < row_values → column < column_values
        → c < colour_count → pixels.now ≢ replicate tile_pixels c
        → IsLeast row column (replicate tile_pixels c) pixels.now (weight pixels.now) }
    ensures most { All (λ pixel. pixel < 16) pixels.now → weight pixels.now ≤ 4 }
    ensures refused { (result ≡ negsuc 0) ↔ (¬ All (λ pixel. pixel < 16) pixels.now) }
{
    match Tile::new(pixels) {
        Some(tile) => i32::from(weight(&tile)),
        None => NOT_DONE,
    }
}
