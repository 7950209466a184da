// The parts of a screen that an instruction can change, on any screen.
ghost use Rattle.std.specs.Prelude.{◌≡◌, ◌∷◌, []};
ghost use Rattle.cdg_instructions.specs.declared.instr.Instr.{Instr};
ghost use Rattle.cdg_screen.specs.Standing.{IsWholeStanding, Standing, standing_after};
ghost use Rattle.cdg_screen.specs.Touched.{KeepsTheRest, tile_touched, touched_by};

use crate::memory::is_on_memory;
use cdg_instructions::{DrawnTile, Effect, Instr};

/// The part of a screen that an instruction can change.
#[derive(Clone, Copy)]
pub enum Touched {
    Nothing,
    /// Pixels of a tile of the memory: row 0 to 17, column 0 to 49. The screen shows the tile moved by the offsets.
    Tile { row: u8, column: u8 },
    /// The whole memory, and the offsets.
    All,
    Border,
    Colours,
    Levels,
}

/// The part of a screen that an instruction touches. A tile instruction touches its tile, whatever it draws.
pub fn touches(instr: &Instr) -> Touched
    ensures { result ≡ touched_by instr.now }
{
    match instr.effect() {
        Effect::Nothing => Touched::Nothing,
        Effect::Clear { .. } | Effect::Scroll { .. } => Touched::All,
        Effect::Border { .. } => Touched::Border,
        Effect::Draw { tile } => touched_tile(&tile),
        Effect::Levels { .. } => Touched::Levels,
        Effect::Colours { .. } => Touched::Colours,
    }
}

// A tile of the memory, or nothing if the tile is outside.
fn touched_tile(tile: &DrawnTile) -> Touched
    ensures { result ≡ tile_touched tile.now.row tile.now.column }
{
    if is_on_memory(tile) {
        Touched::Tile {
            row: tile.row,
            column: tile.column,
        }
    } else {
        Touched::Nothing
    }
}

/// A law: an instruction changes only the part that it touches.
pub fn untouched_stays()
    ensures { (instr : Instr) (now : Standing) → IsWholeStanding now
        → KeepsTheRest (touched_by instr) now (standing_after now (instr ∷ [])) }
{}
