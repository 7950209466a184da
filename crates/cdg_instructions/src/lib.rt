//! The graphics instructions that packs hold, read and written (CD+G, IEC 60908).
#![tactic(auto)]

mod effect;
mod instr;
mod reading;
mod sizes;
mod tile;
mod writing;

pub use effect::{DrawnTile, Effect, Scrolling};
pub use instr::Instr;
pub use reading::{each_pack_has_a_meaning, only_one_meaning, read, read_word};
pub use sizes::{
    COLOURS, SCREEN_COLUMNS, SCREEN_HEIGHT, SCREEN_PIXELS, SCREEN_ROWS, SCREEN_WIDTH, TILE_HEIGHT,
    TILE_WIDTH, WINDOW_BOTTOM, WINDOW_COLUMNS, WINDOW_HEIGHT, WINDOW_PIXELS, WINDOW_RIGHT,
    WINDOW_ROWS, WINDOW_TILES, WINDOW_WIDTH,
};
pub use tile::{PIXELS, Tile};
pub use writing::{read_of_written, write};
