// Laws: no list of instructions without scrolls is shorter than the change of a picture.
ghost use Rattle.std.specs.Prelude.{◌≡◌, ◌<◌, List, ℕ, length};
ghost use Rattle.cdg_instructions.specs.Sizes.{colour_count};
ghost use Rattle.cdg_instructions.specs.declared.instr.Instr.{Instr};
ghost use Rattle.picture_script.specs.Script.{Drawing, picture_pixel};
ghost use Rattle.pack_schedule.specs.Brings.{CannotBeReady, IsChange, IsNeed};
ghost use Rattle.pack_schedule.specs.Change.{IsOrderedChange};
ghost use Rattle.pack_schedule.specs.PlannedChange.{planned_change};
ghost use Rattle.pack_schedule.specs.Schedule.{IsLate, IsOrderedSchedule, IsSchedule};
ghost use Rattle.pack_schedule.specs.Shown.{AreColoursInRange, AreTimesInOrder};

use crate::{changes_can_be_written, changes_have_planned_lengths, planned_changes_are_changes};
use cdg_screen::instructions_in_turn;
use tile_author::plans_are_shortest;

/// A law: an ordered change is a change of its picture. It shows the picture after any allowed state, and no list of
/// instructions without scrolls shows it after any of these states with fewer instructions.
pub fn ordered_changes_are_shortest()
    ensures { (script : List Drawing) (k : ℕ) (instrs : List Instr) → AreColoursInRange script
        → ((k x y : ℕ) → picture_pixel script k x y < colour_count) → IsOrderedChange script k instrs
        → IsChange script k instrs }
{
    instructions_in_turn();
    changes_can_be_written();
    plans_are_shortest();
    changes_have_planned_lengths();
}

/// A law: a schedule of ordered changes is a schedule.
pub fn schedules_of_ordered_changes_are_schedules()
    ensures { (script : List Drawing) (blocks : ℕ) (packs : List (List ℕ)) → AreColoursInRange script
        → ((k x y : ℕ) → picture_pixel script k x y < colour_count) → IsOrderedSchedule script blocks packs
        → IsSchedule script blocks packs }
{
    ordered_changes_are_shortest();
}

/// A law: the planned change of a picture is a change of it, and its length is the only number of packs that the
/// picture needs. So a late picture cannot be ready.
pub fn needs_are_fewest()
    ensures change { (script : List Drawing) (k : ℕ) → AreColoursInRange script
        → ((k x y : ℕ) → picture_pixel script k x y < colour_count)
        → IsChange script k (planned_change script k) }
    ensures planned { (script : List Drawing) (k need : ℕ) → AreColoursInRange script
        → ((k x y : ℕ) → picture_pixel script k x y < colour_count) → IsNeed script k need
        → need ≡ length (planned_change script k) }
    ensures one { (script : List Drawing) (k need other : ℕ) → IsNeed script k need → IsNeed script k other
        → need ≡ other }
    ensures late { (script : List Drawing) (k need free : ℕ) → AreTimesInOrder script
        → AreColoursInRange script
        → ((k x y : ℕ) → picture_pixel script k x y < colour_count) → IsLate script k need free
        → CannotBeReady script k need free }
{
    ordered_changes_are_shortest();
    planned_changes_are_changes();
}
