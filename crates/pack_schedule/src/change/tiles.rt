// The tiles of a picture: their number of instructions for all starts at once, and the instructions for one start.
ghost use Rattle.std.specs.Prelude.{◌≡◌, ◌≢◌, ◌<◌, ◌≤◌, ◌+◌, ◌-◌, ◌++◌, ℕ, List, length, slice_index, replicate, Some, None, ◌/◌, ◌%◌, slice_index_or, true, false, IsTrue, ◌↔◌};
ghost use Rattle.cdg_instructions.specs.Sizes.{colour_count, tile_pixels, window_columns, window_rows, window_tiles};
ghost use Rattle.tile_author.specs.Sizes.{most_steps};
ghost use Rattle.tile_author.specs.Plan.{plan, steps, weight};
ghost use Rattle.picture_script.specs.Board.{IsPicture, tile_of};
ghost use Rattle.picture_script.specs.Script.{picture_tile};
ghost use Rattle.pack_schedule.specs.Change.{most_tile_steps, tiles_before, IsStart};
ghost use Rattle.pack_schedule.specs.PlannedChange.{planned_tiles, tile_steps};
ghost use Rattle.pack_schedule.specs.SameTiles.{MarksTiles};
ghost use Rattle.pack_schedule.specs.Weights.{AreWeights, IsWeighed, IsWeighedAt, not_weighed};
ghost use Rattle.picture_script.specs.DrawnRows.{KeepsRows};

use crate::change::ChangeList;
use cdg_instructions::{COLOURS, Instr, PIXELS, Tile, WINDOW_COLUMNS, WINDOW_ROWS, WINDOW_TILES};
use picture_script::{Canvas, Script};
use tile_author::{
    MOST_STEPS, light_plan, light_tiles_take_one, plan, plans_are_shortest, steps_of_weight, weight,
};

/// The equal tiles of two canvases: whether a whole row is equal, and the equal columns of each other row.
#[derive(Clone, Copy)]
pub(crate) struct TileMarks {
    pub(crate) rows: [bool; WINDOW_ROWS],
    pub(crate) columns: [[bool; WINDOW_COLUMNS]; WINDOW_ROWS],
}

/// Whether no line drew on any row, so that the picture equals the previous one.
pub(crate) fn are_undrawn(drawn: &[bool; WINDOW_ROWS]) -> bool
    ensures { IsTrue result ↔ ((r : ℕ) → r < window_rows → slice_index_or drawn.now r false ≡ false) }
{
    for r in 0..WINDOW_ROWS {
        if drawn[r] {
            return false;
        }
    }
    true
}

/// The equal tiles of picture `k` on `now` and the previous picture on `before`. Rows on which no line drew are not
/// compared.
pub(crate) fn same_tiles(
    script: &Script,
    k: u32,
    drawn: &[bool; WINDOW_ROWS],
    before: &Canvas,
    now: &Canvas,
) -> TileMarks
    requires drawn { KeepsRows script.now k drawn.now }
    requires now { IsPicture script.now k now.now }
    requires before { 0 < k → IsPicture script.now (k - 1) before.now }
    ensures { MarksTiles before.now.pixels now.now.pixels result }
{
    let mut marks = TileMarks {
        rows: [true; WINDOW_ROWS],
        columns: [[false; WINDOW_COLUMNS]; WINDOW_ROWS],
    };
    for r in 0..WINDOW_ROWS {
        if drawn[r] {
            let columns = before.shared_columns(now, r as u8 + 1);
            marks.rows[r] = are_all(&columns);
            marks.columns[r] = columns;
        }
    }
    marks
}

// Whether all columns are marked. The loop has no early end, so the compiler can vectorize it.
fn are_all(columns: &[bool; WINDOW_COLUMNS]) -> bool
    ensures { result ≡ true
        → (i : ℕ) → i < window_columns → slice_index_or columns.now i false ≡ true }
{
    let mut all = true;
    for i in 0..WINDOW_COLUMNS {
        all &= columns[i];
    }
    all
}

// Whether the tile at a place is equal on two canvases with these equal tiles.
#[inline(always)]
pub(crate) fn is_same_tile(
    same: &TileMarks,
    before: &Canvas,
    now: &Canvas,
    row: u8,
    column: u8,
) -> bool
    requires same { MarksTiles before.now.pixels now.now.pixels same.now }
    requires row_first { 1 ≤ row }
    requires row_last { row ≤ window_rows }
    requires column_first { 1 ≤ column }
    requires column_last { column ≤ window_columns }
    ensures { IsTrue result ↔ tile_of before.now.pixels row column ≡ tile_of now.now.pixels row column }
{
    let r = usize::from(row) - 1;
    same.rows[r] || same.columns[r][usize::from(column) - 1]
}

/// The number of instructions for a tile after a preset: 0 after its single colour, and its weight after other colours.
#[derive(Clone, Copy)]
pub(crate) struct Weighed {
    pub(crate) weight: u8,
    pub(crate) single: Option<u8>,
}

/// The initial value before the first picture.
pub(crate) const NOT_WEIGHED: Weighed = Weighed {
    weight: 0,
    single: None,
};

// The weight of a tile and its single colour.
fn weigh(tile: &Tile) -> Weighed
    ensures weighed { IsWeighed tile.now result }
    ensures weight { result.weight ≡ weight tile.now }
{
    plans_are_shortest();
    let pixels = tile.pixels();
    let is_single = pixels[1..PIXELS] == pixels[0..PIXELS - 1];
    Weighed {
        weight: weight(tile),
        single: is_single.then_some(pixels[0]),
    }
}

// The number of instructions for tile `i` of picture `k` on `now` after the previous picture on `before`. It stores the
// weight of the tile.
pub(crate) fn weigh_tile(
    weights: &mut [Weighed; WINDOW_TILES],
    script: &Script,
    k: u32,
    i: usize,
    before: &Canvas,
    now: &Canvas,
    same: &TileMarks,
) -> u32
    requires place { i < window_tiles }
    requires same { MarksTiles before.now.pixels now.now.pixels same.now }
    requires now { IsPicture script.now k now.now }
    requires before { 0 < k → IsPicture script.now (k - 1) before.now }
    requires kept { 0 < k → IsWeighedAt script.now (k - 1) i weights.old }
    ensures taken { 0 < k → result
        ≡ steps (picture_tile script.now (k - 1) (i / window_columns + 1) (i % window_columns + 1))
        (picture_tile script.now k (i / window_columns + 1) (i % window_columns + 1)) }
    ensures few { result ≤ most_steps }
    ensures kept { IsWeighedAt script.now k i weights.new }
    ensures others { (m : ℕ) → m ≢ i
        → slice_index_or weights.new m not_weighed ≡ slice_index_or weights.old m not_weighed }
{
    let row = (i / WINDOW_COLUMNS) as u8 + 1;
    let column = (i % WINDOW_COLUMNS) as u8 + 1;
    if k > 0 && is_same_tile(same, before, now, row, column) {
        return 0;
    }
    let new = now.tile(row, column);
    let kept = weigh(&new);
    weights[i] = kept;
    if kept.weight == 1 {
        // A law: a tile of weight 1 needs one instruction after any other tile.
        light_tiles_take_one();
        return 1;
    }
    u32::from(steps_of_weight(&before.tile(row, column), &new, kept.weight))
}

/// Sums over all tiles: the instructions after the previous picture, the weights, and the weights of the tiles with a
/// single colour, by colour.
#[derive(Clone, Copy)]
pub(crate) struct TileCounts {
    pub(crate) stands: u32,
    pub(crate) whole: u32,
    pub(crate) single: [u32; COLOURS],
}

impl TileCounts {
    // Adds a tile that needs `taken` instructions after the previous picture.
    fn add(&mut self, taken: u32, kept: Weighed)
        requires taken { taken ≤ most_steps }
        requires kept { (tile : List ℕ) × IsWeighed tile kept }
        requires stands { self.old.stands ≤ 4000 }
        requires whole { self.old.whole ≤ 4000 }
        requires single { (c : ℕ) → slice_index self.old.single c ≤ 4000 }
        ensures stands { self.new.stands ≡ self.old.stands + taken }
        ensures colours { (tile : List ℕ) → IsWeighed tile kept → (c : ℕ) → c < colour_count
            → self.new.whole + slice_index self.old.single c
            ≡ self.old.whole + slice_index self.new.single c + steps (replicate tile_pixels c) tile }
        ensures few_stands { self.new.stands ≤ self.old.stands + most_steps }
        ensures few_whole { self.new.whole ≤ self.old.whole + most_steps }
        ensures few_single { (c : ℕ)
            → slice_index self.new.single c ≤ slice_index self.old.single c + most_steps }
    {
        let weight = u32::from(kept.weight);
        self.stands += taken;
        self.whole += weight;
        if let Some(colour) = kept.single {
            self.single[usize::from(colour)] += weight;
        }
    }
}

/// Counts the instructions for the tiles of picture `k` on `now` after the previous picture on `before`.
pub(crate) fn count_tiles(
    script: &Script,
    k: u32,
    before: &Canvas,
    now: &Canvas,
    same: &TileMarks,
    weights: &mut [Weighed; WINDOW_TILES],
) -> TileCounts
    requires same { MarksTiles before.now.pixels now.now.pixels same.now }
    requires now { IsPicture script.now k now.now }
    requires before { 0 < k → IsPicture script.now (k - 1) before.now }
    requires weights { 0 < k → AreWeights script.now (k - 1) weights.old }
    ensures weights { AreWeights script.now k weights.new }
    ensures stands { 0 < k → result.stands ≡ tile_steps script.now k None }
    ensures colours { (c : ℕ) → c < colour_count
        → result.whole ≡ slice_index result.single c + tile_steps script.now k (Some c) }
    ensures few { (result.stands ≤ most_tile_steps) × (result.whole ≤ most_tile_steps) }
{
    let mut counts = TileCounts {
        stands: 0,
        whole: 0,
        single: [0; COLOURS],
    };
    for i in 0..WINDOW_TILES {
        let taken = weigh_tile(weights, script, k, i, before, now, same);
        counts.add(taken, weights[i]);
    }
    counts
}

impl ChangeList {
    /// Appends the plans of all tiles.
    pub(crate) fn push_tiles(
        &mut self,
        script: &Script,
        k: u32,
        preset: Option<u8>,
        before: &Canvas,
        now: &Canvas,
    )
        requires few { length self.old ≤ 4 }
        requires now { IsPicture script.now k now.now }
        requires before { 0 < k → IsPicture script.now (k - 1) before.now }
        requires start { IsStart k preset }
        ensures { self.new ≡ self.old ++ planned_tiles script.now k preset }
    {
        let drawn = script.drawn_rows(k);
        let same = same_tiles(script, k, &drawn, before, now);
        for i in 0..WINDOW_TILES {
            let row = (i / WINDOW_COLUMNS) as u8 + 1;
            let column = (i % WINDOW_COLUMNS) as u8 + 1;
            if preset.is_none() && is_same_tile(&same, before, now, row, column) {
                continue;
            }
            self.push_tile(script, k, preset, before, now, row, column);
        }
    }

    // Appends the plan of a tile that differs from the previous one. A tile of weight 1 is drawn without a comparison.
    fn push_tile(
        &mut self,
        script: &Script,
        k: u32,
        preset: Option<u8>,
        before: &Canvas,
        now: &Canvas,
        row: u8,
        column: u8,
    )
        requires few { length self.old ≤ most_tile_steps }
        requires now { IsPicture script.now k now.now }
        requires before { 0 < k → IsPicture script.now (k - 1) before.now }
        requires start { IsStart k preset }
        requires row_first { 1 ≤ row }
        requires row_last { row ≤ window_rows }
        requires column_first { 1 ≤ column }
        requires column_last { column ≤ window_columns }
        requires differs { preset ≡ None
            → tile_of before.now.pixels row column ≢ tile_of now.now.pixels row column }
        ensures whole { self.new ≡ self.old ++ plan row column
            (tiles_before script.now k preset row column) (picture_tile script.now k row column) }
        ensures few { length self.new ≤ length self.old + most_steps }
    {
        let new = now.tile(row, column);
        let old = match preset {
            Some(colour) => Tile::new(&[colour; PIXELS]).unwrap(),
            None => {
                if let Some(instr) = light_plan(&new, row, column) {
                    self.push(instr);
                    return;
                }
                before.tile(row, column)
            }
        };
        let instrs = plan(&old, &new, row, column);
        for instr in instrs.as_slice() {
            self.push(*instr);
        }
    }
}
