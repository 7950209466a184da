// The rows of a plan.
ghost use Rattle.std.specs.Prelude.{◌≡◌, ◌≤◌, Ok, OnErr, OnOk, IfOk, count_by, drop, length, take};
ghost use Rattle.cdg_io.specs.Causes.{HasCause};
ghost use Rattle.text_lines.specs.Text.{most_text_bytes};
ghost use Rattle.picture_script.specs.Script.{pictures};
ghost use Rattle.picture_script.specs.ScriptGrammar.{read_script};
ghost use Rattle.picture_script.specs.ShowLines.{show_lines};
ghost use Rattle.disc_plan.specs.PictureRows.{is_late, planned_row, ArePlannedRows};

use pack_schedule::{PlanRow, Planner};
use picture_script::{Script, ShowLines, each_picture_has_a_line};
use std::alloc::AllocError;
use subcode_author::Heap;

/// The row of a picture in a plan, for programs in C. Times are blocks of the program.
#[repr(C)]
#[derive(Clone, Copy)]
pub struct PlannedRow {
    /// The number of its `show` line in the script, from 1.
    pub line: u32,
    /// The ready time of the picture.
    pub ready: u32,
    /// The end of its hold time.
    pub hold: u32,
    /// The number of packs of its change, at most 3,076.
    pub need: u32,
    /// The number of packs that are free for the picture.
    pub free: u32,
    /// The number of the first free pack, from 0.
    pub first: u32,
    /// 1 if the picture is late, otherwise 0.
    pub late: u8,
}

// The row of a picture with this `show` line.
fn planned_row(line: u32, plan: &PlanRow) -> PlannedRow
    ensures { result ≡ planned_row line plan.now }
{
    PlannedRow {
        line,
        ready: plan.ready,
        hold: plan.hold,
        need: plan.need,
        free: plan.free,
        first: plan.first,
        late: u8::from(plan.late),
    }
}

/// Writes a row for each picture of a script to the front of `rows`, and returns the number of late pictures. `text` is
/// the text of the script. If memory runs out, it writes nothing.
pub(crate) fn write_rows(
    heap: &mut Heap,
    script: &Script,
    text: &[u8],
    rows: &mut [PlannedRow],
) -> Result<u32, AllocError>
    requires read { read_script text.now ≡ Ok script.now }
    requires text { length text.now ≤ most_text_bytes }
    requires room { pictures script.now ≤ length rows.old }
    ensures rows { OnOk result
        (ArePlannedRows script.now (show_lines text.now) (pictures script.now) rows.new) }
    ensures rest { drop (pictures script.now) rows.new ≡ drop (pictures script.now) rows.old }
    ensures late { IfOk result (λ late. late ≡ count_by is_late (take (pictures script.now) rows.new)) }
    ensures untouched { OnErr result (rows.new ≡ rows.old) }
    ensures counted { HasCause heap.old heap.new result }
{
    each_picture_has_a_line();
    let mut planner = start_planner(heap, script)?;
    let mut lines = ShowLines::of(text);
    let mut late = 0u32;
    for k in 0..script.pictures() as usize {
        let Some(plan) = planner.next_row() else {
            unreachable!();
        };
        let Some(line) = lines.next_number() else {
            unreachable!();
        };
        rows[k] = planned_row(line, &plan);
        if plan.late {
            late += 1;
        }
    }
    Ok(late)
}

// The planner of a script, before its first picture.
fn start_planner<'a>(heap: &mut Heap, script: &'a Script) -> Result<Planner<'a>, AllocError>
    ensures script { IfOk result (λ p. p.script ≡ script.now) }
    ensures given { IfOk result (λ p. p.given ≡ 0) }
    ensures counted { HasCause heap.old heap.new result }
{
    heap.asked(|alloc| Planner::start(alloc, script))
}
