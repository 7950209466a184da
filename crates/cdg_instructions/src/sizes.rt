// The sizes of tiles, of the screen, of the window in it and of the table of colours. Clauses call them by the
// names of specs/Sizes.antt.

/// How many pixels a tile is wide: a symbol has one line of a tile, with one bit for each pixel (IEC 60908).
pub const TILE_WIDTH: usize = 6;

/// How many lines a tile has: an instruction has a symbol for each line, after the row and column (IEC
/// 60908).
pub const TILE_HEIGHT: usize = 12;

/// How many columns of tiles the memory has (IEC 60908).
pub const SCREEN_COLUMNS: usize = 50;

/// How many rows of tiles the memory has (IEC 60908).
pub const SCREEN_ROWS: usize = 18;

/// How many pixels the memory, and with it the screen, is wide.
pub const SCREEN_WIDTH: usize = SCREEN_COLUMNS * TILE_WIDTH;

/// How many pixels the memory, and with it the screen, is high.
pub const SCREEN_HEIGHT: usize = SCREEN_ROWS * TILE_HEIGHT;

/// How many pixels the memory has.
pub const SCREEN_PIXELS: usize = SCREEN_WIDTH * SCREEN_HEIGHT;

/// How many columns of tiles the window has: all but one at each side, which the border hides.
pub const WINDOW_COLUMNS: usize = SCREEN_COLUMNS - 2;

/// How many rows of tiles the window has: all but the first and the last, which the border hides.
pub const WINDOW_ROWS: usize = SCREEN_ROWS - 2;

/// How many tiles the window has.
pub const WINDOW_TILES: usize = WINDOW_COLUMNS * WINDOW_ROWS;

/// How many pixels the window is wide.
pub const WINDOW_WIDTH: usize = WINDOW_COLUMNS * TILE_WIDTH;

/// How many pixels the window is high.
pub const WINDOW_HEIGHT: usize = WINDOW_ROWS * TILE_HEIGHT;

/// How many pixels the window has.
pub const WINDOW_PIXELS: usize = WINDOW_WIDTH * WINDOW_HEIGHT;

/// The last column of pixels in the window, counted from 0 at the left of the screen.
pub const WINDOW_RIGHT: usize = TILE_WIDTH + WINDOW_WIDTH - 1;

/// The last row of pixels in the window, counted from 0 at the top of the screen.
pub const WINDOW_BOTTOM: usize = TILE_HEIGHT + WINDOW_HEIGHT - 1;

/// How many colours the table has: the number of a colour has four bits (IEC 60908).
pub const COLOURS: usize = 16;
