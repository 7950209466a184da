// Chooses the start with the shortest change of a picture.
ghost use Rattle.std.specs.Prelude.{◌≡◌, ◌<◌, ◌≤◌, ◌+◌, ◌-◌, ℕ, length, slice_index, Some, None};
ghost use Rattle.cdg_instructions.specs.Sizes.{colour_count};
ghost use Rattle.picture_script.specs.Board.{IsPicture};
ghost use Rattle.pack_schedule.specs.Weights.{AreWeights};
ghost use Rattle.pack_schedule.specs.Change.{most_change, most_tile_steps, settings};
ghost use Rattle.pack_schedule.specs.PlannedChange.{tile_steps, planned_length, chosen_start};

use crate::change::count_settings;
use crate::change::tiles::{TileCounts, Weighed, are_undrawn, count_tiles, same_tiles};
use cdg_instructions::{COLOURS, WINDOW_ROWS, WINDOW_TILES};
use picture_script::{Canvas, Script};

/// A start, which is a preset colour or none, and the number of instructions of the change with this start.
#[derive(Clone, Copy)]
pub(crate) struct Choice {
    pub(crate) preset: Option<u8>,
    pub(crate) need: u32,
}

// The first of the shortest starts. A preset saves the instructions of the tiles that have only its colour.
fn choose(script: &Script, k: u32, beside: u32, counts: &TileCounts) -> Choice
    requires beside { beside ≡ length (settings script.now k) }
    requires few_beside { beside ≤ 3 }
    requires stands { 0 < k → counts.now.stands ≡ tile_steps script.now k None }
    requires colours { (c : ℕ) → c < colour_count
        → counts.now.whole ≡ slice_index counts.now.single c + tile_steps script.now k (Some c) }
    requires few { (counts.now.stands ≤ most_tile_steps) × (counts.now.whole ≤ most_tile_steps) }
    ensures preset { result.preset ≡ chosen_start script.now k }
    ensures need { result.need ≡ planned_length script.now k result.preset }
    ensures few { result.need ≤ most_change }
{
    let with_preset = 1 + beside + counts.whole;
    let mut choice = if k == 0 {
        Choice {
            preset: Some(0),
            need: with_preset - counts.single[0],
        }
    } else {
        Choice {
            preset: None,
            need: beside + counts.stands,
        }
    };
    for colour in 0..COLOURS {
        let need = with_preset - counts.single[colour];
        if need < choice.need {
            choice = Choice {
                preset: Some(colour as u8),
                need,
            };
        }
    }
    choice
}

/// The start of the change of picture `k`. This picture is on `now`, the previous one on `before`.
pub(crate) fn choose_start(
    script: &Script,
    k: u32,
    before: &Canvas,
    now: &Canvas,
    weights: &mut [Weighed; WINDOW_TILES],
) -> Choice
    requires now { IsPicture script.now k now.now }
    requires before { 0 < k → IsPicture script.now (k - 1) before.now }
    requires weights { 0 < k → AreWeights script.now (k - 1) weights.old }
    ensures weights { AreWeights script.now k weights.new }
    ensures preset { result.preset ≡ chosen_start script.now k }
    ensures need { result.need ≡ planned_length script.now k result.preset }
    ensures few { result.need ≤ most_change }
{
    let beside = count_settings(script, k, before, now);
    let drawn = script.drawn_rows(k);
    if k > 0 && are_undrawn(&drawn) {
        return Choice {
            preset: None,
            need: beside,
        };
    }
    let same = same_tiles(script, k, &drawn, before, now);
    if k > 0 && same.rows == [true; WINDOW_ROWS] {
        return Choice {
            preset: None,
            need: beside,
        };
    }
    let counts = count_tiles(script, k, before, now, &same, weights);
    choose(script, k, beside, &counts)
}
