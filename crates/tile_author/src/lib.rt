//! Shortest lists of instructions that turn one tile into another.
#![tactic(auto)]

ghost use Rattle.std.specs.Prelude.{◌≡◌, ◌≢◌, ◌↔◌, ℕ, ◌<◌, ◌≤◌, List, [], ◌∷◌, IfSome, IsSome, MatchOption, length, replicate, slice_index, bit_xor, ◌^◌, true, false};
ghost use Rattle.std.specs.List.{list_all};
ghost use Rattle.cdg_instructions.specs.Instruction.{IsTilePixels};
ghost use Rattle.cdg_instructions.specs.Sizes.{colour_count, column_values, row_values, screen_columns, screen_rows, tile_pixels};
ghost use Rattle.cdg_instructions.specs.Drawing.{Turns, IsLeast};
ghost use Rattle.tile_author.specs.Plan.{are_equal, basis, combination, delta, is_combination, plan, selection, steps, weight};
ghost use Rattle.tile_author.specs.Table.{are_independent};
ghost use Rattle.tile_author.specs.Sizes.{most_steps};

mod basis;

use arrayvec::ArrayVec;
use basis::Basis;
pub use basis::MOST_STEPS;
use cdg_instructions::{Instr, PIXELS, Tile};

/// The length of a shortest list of tile instructions for one place that turns the old tile into the new one.
pub fn steps(old: &Tile, new: &Tile) -> u8
    ensures value { result ≡ steps old.now new.now }
    ensures least { (row column : ℕ) → row < row_values → column < column_values
        → IsLeast row column old.now new.now result }
    ensures most { result ≤ most_steps }
{
    steps_of_weight(old, new, weight(new))
}

/// The result of `steps`, if the weight of the new tile is known.
pub fn steps_of_weight(old: &Tile, new: &Tile, drawn: u8) -> u8
    requires { drawn ≡ weight new.now }
    ensures value { result ≡ steps old.now new.now }
    ensures least { (row column : ℕ) → row < row_values → column < column_values
        → IsLeast row column old.now new.now result }
    ensures most { result ≤ most_steps }
{
    let Some(changes) = changes(old, new) else {
        return 0;
    };
    if drawn == 1 {
        return 1;
    }
    let combined = Basis::of(&changes).weight() as u8;
    drawn.min(combined)
}

/// A shortest list of tile instructions for this place that turns the old tile into the new one.
pub fn plan(old: &Tile, new: &Tile, row: u8, column: u8) -> ArrayVec<Instr, 4>
    requires row { row < screen_rows }
    requires column { column < screen_columns }
    ensures plan { result.items ≡ plan row column old.now new.now }
    ensures turns { Turns row column old.now new.now result.items }
    ensures count { length result.items ≡ steps old.now new.now }
{
    let Some(changes) = changes(old, new) else {
        return ArrayVec::new();
    };
    let drawn = Basis::of(new.pixels());
    if drawn.weight() == 1 {
        return drawn.instructions(new.pixels(), true, row, column);
    }
    let combined = Basis::of(&changes);
    if drawn.weight() <= combined.weight() {
        drawn.instructions(new.pixels(), true, row, column)
    } else {
        combined.instructions(&changes, false, row, column)
    }
}

/// The single instruction that draws a tile of weight 1 over any other tile, or `None` for a heavier tile.
pub fn light_plan(new: &Tile, row: u8, column: u8) -> Option<Instr>
    ensures plan { IfSome result (λ instr. (old : List ℕ) → length old ≡ tile_pixels → old ≢ new.now
        → plan row column old new.now ≡ instr ∷ []) }
    ensures some { IsSome result ↔ weight new.now ≡ 1 }
{
    let pixels = new.pixels();
    let drawn = Basis::of(pixels);
    if drawn.weight() > 1 {
        return None;
    }
    Some(drawn.instruction(pixels, true, row, column, 0))
}

/// The length of a shortest list that draws the tile over a tile of another single colour.
pub fn weight(new: &Tile) -> u8
    ensures value { result ≡ weight new.now }
    ensures least { (row column c : ℕ) → row < row_values → column < column_values → c < colour_count
        → new.now ≢ replicate tile_pixels c → IsLeast row column (replicate tile_pixels c) new.now result }
    ensures none { (row column c : ℕ) → row < row_values → column < column_values → c < colour_count
        → new.now ≡ replicate tile_pixels c → IsLeast row column (replicate tile_pixels c) new.now 0 }
    ensures most { result ≤ most_steps }
{
    Basis::of(new.pixels()).weight() as u8
}

// The values to combine with the old pixels, or `None` for equal tiles. Always inlined, so that they are not copied.
#[inline(always)]
fn changes(old: &Tile, new: &Tile) -> Option<[u8; PIXELS]>
    ensures changes { MatchOption result (are_equal old.now new.now ≡ true)
        (λ changes. (are_equal old.now new.now ≡ false) × (changes ≡ delta old.now new.now)
        × IsTilePixels changes) }
    ensures old { IsTilePixels old.now }
    ensures new { IsTilePixels new.now }
{
    let (old, new) = (old.pixels(), new.pixels());
    let mut changes = [0; PIXELS];
    for i in 0..PIXELS {
        changes[i] = old[i] ^ new[i];
    }
    if changes.iter().all(|change| *change == 0) {
        None
    } else {
        Some(changes)
    }
}

/// A law: if each of some independent numbers is a combination of given numbers, there are at least as many
/// given numbers.
pub fn independent_are_few()
    ensures { (given independent : List ℕ) → list_all (is_combination given) independent ≡ true
        → are_independent independent ≡ true → length independent ≤ length given }
{}

/// A law: the difference of each pixel is the combination of the members in its selection. Different
/// selections have different combinations.
pub fn selections_are_the_only_ones()
    ensures makes { (pixels : List ℕ) (p : ℕ) → p < length pixels
        → let d = bit_xor (slice_index pixels 0) (slice_index pixels p) in combination (basis pixels)
        (selection (basis pixels) d) ≡ d }
    ensures only { (pixels : List ℕ) (chosen : ℕ) → chosen < 2 ^ length (basis pixels)
        → selection (basis pixels) (combination (basis pixels) chosen) ≡ chosen }
{}

/// A law: a plan turns the old tile into the new one, and no list of instructions for this place is shorter.
pub fn plans_are_shortest()
    ensures turns { (row column : ℕ) (old new : List ℕ) → row < screen_rows → column < screen_columns
        → IsTilePixels old → IsTilePixels new → Turns row column old new (plan row column old new) }
    ensures count { (row column : ℕ) (old new : List ℕ) → row < screen_rows → column < screen_columns
        → IsTilePixels old → IsTilePixels new → length (plan row column old new) ≡ steps old new }
    ensures least { (row column : ℕ) (old new : List ℕ) → row < row_values → column < column_values
        → IsTilePixels old → IsTilePixels new → IsLeast row column old new (steps old new) }
{}

/// A law: a tile of weight 1 needs one instruction after any other tile.
pub fn light_tiles_take_one()
    ensures { (old new : List ℕ) → length old ≡ tile_pixels → length new ≡ tile_pixels → weight new ≡ 1
        → old ≢ new → steps old new ≡ 1 }
{}
