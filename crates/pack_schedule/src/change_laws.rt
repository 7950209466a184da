// Laws on the planned change of a picture: it is a change, it has the planned length, and packs can contain it.
ghost use Rattle.std.specs.Prelude.{◌≡◌, ◌≢◌, ◌<◌, ◌≤◌, All, List, Option, ℕ, length};
ghost use Rattle.cdg_instructions.specs.Instruction.{InRange, IsKnown};
ghost use Rattle.cdg_instructions.specs.Sizes.{colour_count};
ghost use Rattle.cdg_instructions.specs.declared.instr.Instr.{Instr};
ghost use Rattle.cdg_instructions.specs.declared.instr.Instr.TheVariants.{Idle};
ghost use Rattle.picture_script.specs.Script.{Drawing, picture_pixel};
ghost use Rattle.pack_schedule.specs.Change.{most_change, IsChangeFrom, IsOrderedChange, IsStart};
ghost use Rattle.pack_schedule.specs.PlannedChange.{chosen_start, planned_change, planned_from, planned_length};
ghost use Rattle.pack_schedule.specs.Shown.{AreColoursInRange};

use tile_author::plans_are_shortest;

/// A law: for each start, the planned change is a change with this start, and all changes with this start have its
/// length.
pub fn changes_have_planned_lengths()
    ensures planned { (script : List Drawing) (k : ℕ) (start : Option ℕ)
        → ((k x y : ℕ) → picture_pixel script k x y < colour_count)
        → IsStart k start → IsChangeFrom script k start (planned_from script k start) }
    ensures length { (script : List Drawing) (k : ℕ) (start : Option ℕ) (instrs : List Instr)
        → ((k x y : ℕ) → picture_pixel script k x y < colour_count)
        → IsChangeFrom script k start instrs → length instrs ≡ planned_length script k start }
{
    plans_are_shortest();
}

/// A law: the planned change of a picture is an ordered change of at most 3,076 instructions: one preset, three
/// settings and four for each of 768 tiles. The law `ordered_changes_are_shortest` says that no change is shorter.
pub fn planned_changes_are_changes()
    ensures change { (script : List Drawing) (k : ℕ)
        → ((k x y : ℕ) → picture_pixel script k x y < colour_count)
        → IsOrderedChange script k (planned_change script k) }
    ensures few { (script : List Drawing) (k : ℕ)
        → ((k x y : ℕ) → picture_pixel script k x y < colour_count)
        → length (planned_change script k) ≤ most_change }
    // It begins with the chosen start, which is allowed.
    ensures start { (script : List Drawing) (k : ℕ) → IsStart k (chosen_start script k) }
    ensures planned { (script : List Drawing) (k : ℕ)
        → ((k x y : ℕ) → picture_pixel script k x y < colour_count)
        → IsChangeFrom script k (chosen_start script k) (planned_change script k) }
    // None of its instructions is idle.
    ensures busy { (script : List Drawing) (k : ℕ)
        → ((k x y : ℕ) → picture_pixel script k x y < colour_count)
        → All (λ instr. instr ≢ Idle) (planned_change script k) }
{
    plans_are_shortest();
}

/// A law: each instruction of a change is in range and can be written.
pub fn changes_can_be_written()
    ensures { (script : List Drawing) (k : ℕ) (start : Option ℕ) (instrs : List Instr)
        → AreColoursInRange script
        → IsChangeFrom script k start instrs → All (λ instr. InRange instr × IsKnown instr) instrs }
{}
