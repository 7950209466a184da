// The change of a picture: a memory preset if it begins with one, then its settings, then its tiles. The instructions
// are counted before they are written.
ghost use Rattle.std.specs.Prelude.{◌≡◌, ◌<◌, ◌≤◌, ◌-◌, [], length, ◌+◌, ◌++◌, ◌∷◌, map, slice_index};
ghost use Rattle.picture_script.specs.Board.{IsPicture};
ghost use Rattle.pack_schedule.specs.Change.{preset_of, IsStart, most_change, settings};
ghost use Rattle.pack_schedule.specs.PlannedChange.{planned_from};
ghost use Rattle.bit_lists.specs.Counting.{below};

mod start;
mod tiles;

pub(crate) use crate::change::tiles::{NOT_WEIGHED, Weighed};
use cdg_instructions::{Instr, WINDOW_TILES};
use picture_script::{Canvas, Script};
pub(crate) use start::choose_start;
use std::alloc::{AllocError, Global};
use std::marker::Model;
use tile_author::MOST_STEPS;

// The maximum number of instructions in a change: one preset, three settings, and four for each tile.
const MOST_CHANGE: usize = 4 + MOST_STEPS * WINDOW_TILES;

/// A list of at most 3,076 instructions.
#[derive(Drop)]
pub(crate) struct ChangeList {
    instrs: Vec<Instr>,
    len: usize,
}

impl Model for ChangeList {
    ghost use Rattle.std.specs.Prelude.{◌≡◌, ◌≤◌, List, length, take};
    ghost use Rattle.pack_schedule.specs.Change.{most_change};
    ghost use Rattle.cdg_instructions.specs.declared.instr.Instr.{Instr};

    ghost Value = { List Instr };

    ghost view = { λ c. take c.len c.instrs.items };

    ghost invariant = { λ c. (length c.instrs.items ≡ most_change) × (c.len ≤ most_change) };
}

impl ChangeList {
    ghost use Rattle.std.specs.Prelude.{◌≡◌, ◌<◌, ◌≤◌, ◌++◌, [], ◌∷◌, length, IfOk, slice_index_or};
    ghost use Rattle.cdg_instructions.specs.declared.instr.Instr.TheVariants.{Idle};
    ghost use Rattle.pack_schedule.specs.Change.{most_change};

    /// An empty list.
    pub(crate) fn start(alloc: Global) -> Result<ChangeList, AllocError>
        ensures { IfOk result (λ c. c ≡ []) }
    {
        let instrs = vec![in alloc; Instr::Idle; MOST_CHANGE]?;
        Ok(ChangeList { instrs, len: 0 })
    }

    pub(crate) fn get(&self, i: usize) -> Instr
        requires { i < length self.now }
        ensures { result ≡ slice_index_or self.now i Idle }
    {
        self.instrs[i]
    }

    /// Removes all instructions. It frees nothing.
    pub(crate) fn clear(&mut self)
        ensures { self.new ≡ [] }
    {
        self.len = 0;
    }

    /// Appends an instruction.
    pub(crate) fn push(&mut self, instr: Instr)
        requires { length self.old < most_change }
        ensures { self.new ≡ self.old ++ instr ∷ [] }
    {
        self.instrs[self.len] = instr;
        self.len += 1;
    }
}

impl ChangeList {
    /// Fills the list with the planned change of picture `k`. This picture is on `now`, the previous one on `before`.
    pub(crate) fn plan(
        &mut self,
        script: &Script,
        k: u32,
        preset: Option<u8>,
        before: &Canvas,
        now: &Canvas,
    )
        requires now { IsPicture script.now k now.now }
        requires before { 0 < k → IsPicture script.now (k - 1) before.now }
        requires start { IsStart k preset }
        ensures { self.new ≡ planned_from script.now k preset }
    {
        self.clear();
        if let Some(colour) = preset {
            self.push(Instr::MemoryPreset { colour, repeat: 0 });
        }
        self.push_settings(script, k, before, now);
        self.push_tiles(script, k, preset, before, now);
    }
}

/// The number of instructions that set the border and the colours of picture `k`.
pub(crate) fn count_settings(script: &Script, k: u32, before: &Canvas, now: &Canvas) -> u32
    requires now { IsPicture script.now k now.now }
    requires before { 0 < k → IsPicture script.now (k - 1) before.now }
    ensures count { result ≡ length (settings script.now k) }
    ensures few { result ≤ 3 }
{
    if k == 0 {
        return 3;
    }
    let border = before.border() != now.border();
    let low = colours(0, before) != colours(0, now);
    let high = colours(8, before) != colours(8, now);
    u32::from(border) + u32::from(low) + u32::from(high)
}

impl ChangeList {
    // Appends the settings of a picture. A later picture sets only what differs from the previous one.
    pub(crate) fn push_settings(&mut self, script: &Script, k: u32, before: &Canvas, now: &Canvas)
        requires few { length self.old ≤ 1 }
        requires now { IsPicture script.now k now.now }
        requires before { 0 < k → IsPicture script.now (k - 1) before.now }
        ensures whole { self.new ≡ self.old ++ settings script.now k }
        ensures few { length self.new ≤ 4 }
    {
        let (border, low, high) = (now.border(), colours(0, now), colours(8, now));
        if k == 0 || before.border() != border {
            self.push(Instr::BorderPreset { colour: border });
        }
        if k == 0 || colours(0, before) != low {
            self.push(Instr::ColoursLow { colours: low });
        }
        if k == 0 || colours(8, before) != high {
            self.push(Instr::ColoursHigh { colours: high });
        }
    }
}

// Eight colours of the table, from a number on.
fn colours(from: u8, canvas: &Canvas) -> [u16; 8]
    requires { from ≤ 8 }
    ensures { result ≡ map (λ n. slice_index canvas.now.colours (from + n)) (below 8) }
{
    let mut colours = [0; 8];
    for n in 0..8u8 {
        colours[usize::from(n)] = canvas.colour(from + n);
    }
    colours
}
