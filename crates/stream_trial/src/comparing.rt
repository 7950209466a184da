// Compares a screen with a canvas.
ghost use Rattle.std.specs.Prelude.{◌≡◌, ◌<◌, ◌≤◌, ◌↔◌, ℕ, slice_index, IsTrue};
ghost use Rattle.cdg_instructions.specs.Sizes.{screen_height, screen_width};
ghost use Rattle.cdg_screen.specs.Standing.{screen_pixel};
ghost use Rattle.stream_trial.specs.Replay.{Agrees, wanted_pixel};

use cdg_instructions::{SCREEN_HEIGHT, SCREEN_WIDTH, TILE_HEIGHT, TILE_WIDTH};
use cdg_screen::Screen;
use picture_script::Canvas;

// The first column and row of the window, and the first column and row after it.
const LEFT: u32 = TILE_WIDTH as u32;

const RIGHT: u32 = SCREEN_WIDTH as u32 - LEFT;

const TOP: u32 = TILE_HEIGHT as u32;

const BOTTOM: u32 = SCREEN_HEIGHT as u32 - TOP;

/// Whether the screen equals the canvas: each pixel, the colours and the border.
pub(crate) fn agrees(screen: &Screen, canvas: &Canvas) -> bool
    ensures { IsTrue result ↔ Agrees screen.now canvas.now }
{
    screen.border() == canvas.border()
        && colours_agree(screen, canvas)
        && pixels_agree(screen, canvas)
}

fn colours_agree(screen: &Screen, canvas: &Canvas) -> bool
    ensures { IsTrue result
        ↔ ((n : ℕ) → n < 16 → slice_index screen.now.colours n ≡ slice_index canvas.now.colours n) }
{
    for n in 0..16 {
        if screen.colour(n) != canvas.colour(n) {
            return false;
        }
    }
    true
}

// Whether all pixels are equal, if the borders are.
fn pixels_agree(screen: &Screen, canvas: &Canvas) -> bool
    requires { screen.now.border ≡ canvas.now.border }
    ensures { IsTrue result ↔ ((x y : ℕ) → x < screen_width → y < screen_height
        → screen_pixel screen.now x y ≡ wanted_pixel canvas.now x y) }
{
    for y in TOP..BOTTOM {
        if !row_agrees(screen, canvas, y) {
            return false;
        }
    }
    true
}

// Whether the pixels of a row are equal in the window. The loop has no early exit, so it can be vectorized.
fn row_agrees(screen: &Screen, canvas: &Canvas, y: u32) -> bool
    requires { y < screen_height }
    ensures { IsTrue result ↔ ((x : ℕ) → 6 ≤ x → x < 294
        → screen_pixel screen.now x y ≡ wanted_pixel canvas.now x y) }
{
    let mut row = [0; SCREEN_WIDTH];
    screen.write_row(y as usize, &mut row);
    let mut same = true;
    for x in LEFT..RIGHT {
        same &= row[x as usize] == wanted(canvas, x, y);
    }
    same
}

// The expected pixel of the screen: that of the canvas inside the window, and the border outside.
fn wanted(canvas: &Canvas, x: u32, y: u32) -> u8
    requires x { x < screen_width }
    requires y { y < screen_height }
    ensures { result ≡ wanted_pixel canvas.now x y }
{
    if LEFT <= x && x < RIGHT && TOP <= y && y < BOTTOM {
        canvas.pixel(x - LEFT, y - TOP)
    } else {
        canvas.border()
    }
}
