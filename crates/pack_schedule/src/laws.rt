// Laws on the packs of a script.
ghost use Rattle.std.specs.Prelude.{◌≡◌, ◌<◌, ◌≤◌, ℕ, false, List, length, slice_index_or, take};
ghost use Rattle.rw_interleave.specs.Interleave.{whole_packs};
ghost use Rattle.cdg_instructions.specs.Sizes.{colour_count};
ghost use Rattle.picture_script.specs.Script.{Drawing, pictures, ready_time, hold_time, picture_pixel};
ghost use Rattle.pack_schedule.specs.Schedule.{CanBeReady, IsLate, IsOrderedSchedule, IsSchedule};
ghost use Rattle.pack_schedule.specs.Shown.{AreColoursInRange, AreTimesInOrder, ShowsPicture};
ghost use Rattle.pack_schedule.specs.Survey.{IsSurvey, IsWithin};
ghost use Rattle.pack_schedule.specs.Woven.{ArePacks};
ghost use Rattle.pack_schedule.specs.Plans.{ArePlanRows, IsFirstLate, no_row};
ghost use Rattle.pack_schedule.specs.declared.surveys.PlannedChange.{PlannedChange};
ghost use Rattle.pack_schedule.specs.declared.planner.PlanRow.{PlanRow};
ghost use Rattle.cdg_instructions.specs.declared.instr.Instr.{Instr};
ghost use Rattle.cdg_screen.specs.Standing.{blank, standing_after};
ghost use Rattle.pack_schedule.specs.Meanings.{AreMeantBy};

use crate::{needs_are_fewest, planned_changes_are_changes};
use cdg_instructions::{only_one_meaning, read_of_written};
use cdg_screen::instructions_in_turn;

/// A law: the packs of a weaver that are complete in a program are a schedule of ordered changes.
pub fn packs_are_a_schedule()
    ensures schedule { (script : List Drawing) (blocks : ℕ) (survey : List PlannedChange)
        (packs : List (List ℕ))
        → AreColoursInRange script → ((k x y : ℕ) → picture_pixel script k x y < colour_count)
        → ((k : ℕ) → k < pictures script → ready_time script k ≤ hold_time script k)
        → IsWithin script blocks → IsSurvey script survey → length packs ≡ whole_packs blocks
        → ArePacks script packs
        → IsSchedule script blocks packs }
    ensures ordered { (script : List Drawing) (blocks : ℕ) (survey : List PlannedChange)
        (packs : List (List ℕ))
        → ((k x y : ℕ) → picture_pixel script k x y < colour_count)
        → ((k : ℕ) → k < pictures script → ready_time script k ≤ hold_time script k)
        → IsWithin script blocks → IsSurvey script survey → length packs ≡ whole_packs blocks
        → ArePacks script packs
        → IsOrderedSchedule script blocks packs }
{
    needs_are_fewest();
    planned_changes_are_changes();
}

/// A law: the first late row of a plan is the late picture that `survey` reports. If no row is late, every picture is
/// in time, so there is a schedule.
pub fn plans_report_what_a_survey_reports()
    ensures first { (script : List Drawing) (rows : List PlanRow) (k : ℕ) → ArePlanRows script rows
        → k < pictures script → IsFirstLate rows k
        → IsLate script k (slice_index_or rows k no_row).need (slice_index_or rows k no_row).free }
    ensures none { (script : List Drawing) (rows : List PlanRow) → ArePlanRows script rows
        → ((k : ℕ) → k < pictures script → (slice_index_or rows k no_row).late ≡ false)
        → (k : ℕ) → k < pictures script → CanBeReady script k }
{}

/// A law: the packs of a schedule that are complete at some time show each picture from its ready time to its hold
/// time.
pub fn scheduled_pictures_are_shown()
    ensures { (script : List Drawing) (blocks : ℕ) (packs : List (List ℕ)) (k time : ℕ) (instrs : List Instr)
        → AreTimesInOrder script → IsSchedule script blocks packs
        → k < pictures script → ready_time script k ≤ time → time ≤ hold_time script k
        → AreMeantBy (take (whole_packs time) packs) instrs
        → ShowsPicture script k (standing_after blank instrs) }
{
    instructions_in_turn();
    only_one_meaning();
    read_of_written();
}
