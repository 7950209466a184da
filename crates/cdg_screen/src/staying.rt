// Whether a change would leave the memory unchanged.
ghost use Rattle.std.specs.Prelude.{◌≡◌, ◌<◌, ◌≤◌, ◌+◌, ◌-◌, ◌*◌, ◌%◌, ◌↔◌, ◌==◌, ◌&&◌, nat_le, nat_lt, if◌then◌else◌, ℕ, All, IsTrue, length, slice_index};
ghost use Rattle.cdg_instructions.specs.Drawing.{tile_colour};
ghost use Rattle.cdg_instructions.specs.Sizes.{colour_count, screen_height, screen_width, tile_width};
ghost use Rattle.cdg_screen.specs.Standing.{covers, is_inside, source, source_x};
ghost use Rattle.cdg_instructions.specs.Effect.{IsScrollInRange};
ghost use Rattle.cdg_screen.specs.Memory.{at, Becomes, drawn_over, line_colour, moved_in, scrolled, with_tile};

use crate::line_table::LINE_BYTES;
use crate::memory::{Memory, is_on_memory, line_pixels};
use crate::row_parts::wrapped;
use cdg_instructions::{
    DrawnTile, SCREEN_HEIGHT, SCREEN_WIDTH, Scrolling, TILE_HEIGHT, TILE_WIDTH,
};

// A line of zeros. Drawn by exclusive or, it changes nothing.
const ZEROS: [u8; TILE_WIDTH] = [0; TILE_WIDTH];

impl Memory {
    /// Whether all pixels have a colour.
    pub(crate) fn is_filled(&self, colour: u8) -> bool
        ensures { IsTrue result ↔ Becomes self.now (λ x y. colour) }
    {
        for y in 0..SCREEN_HEIGHT {
            if !is_row_filled(&self.rows[y], colour) {
                return false;
            }
        }
        true
    }

    /// Whether drawing a tile, if it is in the memory, leaves each pixel unchanged.
    pub(crate) fn keeps_tile(&self, tile: &DrawnTile) -> bool
        requires { All (λ colour. colour < colour_count) tile.now.colours }
        ensures { IsTrue result ↔ Becomes self.now (with_tile tile.now (at self.now)) }
    {
        if !is_on_memory(tile) {
            return true;
        }
        let x = TILE_WIDTH * usize::from(tile.column);
        let y = TILE_HEIGHT * usize::from(tile.row);
        for j in 0..TILE_HEIGHT {
            if !self.keeps_line(x, y + j, tile.colours, tile.lines[j], tile.exclusive) {
                return false;
            }
        }
        true
    }

    // Whether drawing a line of a tile leaves its pixels unchanged.
    #[inline(always)]
    fn keeps_line(&self, x: usize, y: usize, colours: [u8; 2], line: u8, exclusive: bool) -> bool
        requires width { x + tile_width ≤ screen_width }
        requires whole { x % tile_width ≡ 0 }
        requires height { y < screen_height }
        requires range { All (λ colour. colour < colour_count) colours }
        ensures { IsTrue result ↔ Becomes self.now (λ x' y'.
            if y' == y && nat_le x x' && nat_lt x' (x + tile_width)
            then drawn_over exclusive
            (line_colour (slice_index colours 0) (slice_index colours 1) line (x' - x)) (at self.now x' y')
            else at self.now x' y') }
    {
        // The origin moves by whole tiles, so no tile wraps around.
        let first = wrapped(x + self.left, SCREEN_WIDTH);
        let row = &self.rows[wrapped(y + self.top, SCREEN_HEIGHT)];
        let pixels = line_pixels(colours, line);
        leaves(&pixels, &row[first..first + TILE_WIDTH], exclusive)
    }

    /// Whether a scroll leaves each pixel unchanged.
    pub(crate) fn keeps_scrolled(&self, scroll: &Scrolling) -> bool
        requires { IsScrollInRange scroll.now }
        ensures { IsTrue result ↔ Becomes self.now (scrolled scroll.now (at self.now)) }
    {
        match scroll.incoming {
            Some(colour) => self.keeps_scrolled_in(scroll.across, scroll.down, colour),
            None => self.keeps_scrolled_round(scroll.across, scroll.down),
        }
    }

    // Whether a scroll that wraps around leaves each pixel unchanged.
    #[tactic(auto, unfolding(crate::specs::Memory::moved_in))]
    fn keeps_scrolled_round(&self, across: u8, down: u8) -> bool
        requires across { across ≤ 2 }
        requires down { down ≤ 2 }
        ensures { IsTrue result ↔ Becomes self.now (moved_in None across down (at self.now)) }
    {
        if across == 0 && down == 0 {
            return true;
        }
        for y in 0..SCREEN_HEIGHT {
            let from = source(SCREEN_HEIGHT, TILE_HEIGHT, down, y) % SCREEN_HEIGHT;
            if !self.keeps_row_round(across, y, from) {
                return false;
            }
        }
        true
    }

    // Whether a row is another row, rotated.
    fn keeps_row_round(&self, across: u8, y: usize, from: usize) -> bool
        requires across { across ≤ 2 }
        requires height { y < screen_height }
        requires from { from < screen_height }
        ensures { IsTrue result
            ↔ ((x : ℕ) → x < screen_width
            → at self.now x y ≡ at self.now (source_x across x % screen_width) from) }
    {
        for x in 0..SCREEN_WIDTH {
            if self.get(x, y)
                != self.get(
                    source(SCREEN_WIDTH, TILE_WIDTH, across, x) % SCREEN_WIDTH,
                    from,
                )
            {
                return false;
            }
        }
        true
    }

    // Whether a scroll that fills the free pixels with a colour leaves each pixel unchanged.
    fn keeps_scrolled_in(&self, across: u8, down: u8, colour: u8) -> bool
        requires across { across ≤ 2 }
        requires down { down ≤ 2 }
        ensures { IsTrue result ↔ Becomes self.now (moved_in (Some colour) across down (at self.now)) }
    {
        if across == 0 && down == 0 {
            return true;
        }
        for y in 0..SCREEN_HEIGHT {
            if !self.keeps_row_in(across, down, colour, y) {
                return false;
            }
        }
        true
    }

    // Whether a row equals the row that moves to its place.
    fn keeps_row_in(&self, across: u8, down: u8, colour: u8, y: usize) -> bool
        requires across { across ≤ 2 }
        requires down { down ≤ 2 }
        requires height { y < screen_height }
        ensures { IsTrue result ↔ ((x : ℕ) → x < screen_width
            → at self.now x y ≡ moved_in (Some colour) across down (at self.now) x y) }
    {
        for x in 0..SCREEN_WIDTH {
            if self.get(x, y) != self.scrolled_in(across, down, colour, x, y) {
                return false;
            }
        }
        true
    }

    // The pixel at a place after a scroll that fills the free pixels with a colour.
    #[tactic(auto, unfolding(crate::specs::Memory::moved_in))]
    fn scrolled_in(&self, across: u8, down: u8, colour: u8, x: usize, y: usize) -> u8
        requires across { across ≤ 2 }
        requires down { down ≤ 2 }
        requires width { x < screen_width }
        requires height { y < screen_height }
        ensures { result ≡ moved_in (Some colour) across down (at self.now) x y }
    {
        let from_x = source(SCREEN_WIDTH, TILE_WIDTH, across, x);
        let from_y = source(SCREEN_HEIGHT, TILE_HEIGHT, down, y);
        if is_inside(SCREEN_WIDTH, from_x) && is_inside(SCREEN_HEIGHT, from_y) {
            self.get(from_x - SCREEN_WIDTH, from_y - SCREEN_HEIGHT)
        } else {
            colour
        }
    }
}

// Whether drawing the pixels of a line over six others leaves them unchanged.
#[inline(always)]
fn leaves(pixels: &[u8; LINE_BYTES], others: &[u8], exclusive: bool) -> bool
    requires { length others.now ≡ tile_width }
    ensures { IsTrue result ↔ ((i : ℕ) → i < tile_width → slice_index others.now i
        ≡ drawn_over exclusive (slice_index pixels.now i) (slice_index others.now i)) }
{
    if exclusive {
        pixels[..TILE_WIDTH] == ZEROS[..]
    } else {
        pixels[..TILE_WIDTH] == others[..]
    }
}

// Whether all pixels of a row have a colour. The loop has no early exit, so that the compiler can vectorize it.
fn is_row_filled(row: &[u8; SCREEN_WIDTH], colour: u8) -> bool
    ensures { IsTrue result ↔ ((k : ℕ) → k < screen_width → slice_index row.now k ≡ colour) }
{
    let mut filled = true;
    for pixel in row {
        filled &= *pixel == colour;
    }
    filled
}

// The source of a pixel in a scroll, plus the size in that direction.
fn source(size: usize, step: usize, direction: u8, x: usize) -> usize
    requires size { size ≤ screen_width }
    requires step { step ≤ size }
    requires within { x < size }
    ensures { result ≡ source size step direction x }
{
    match direction {
        1 => x + size - step,
        2 => x + size + step,
        _ => x + size,
    }
}

// Whether a source is inside the memory in that direction.
fn is_inside(size: usize, from: usize) -> bool
    requires { size ≤ screen_width }
    ensures { result ≡ is_inside size from }
{
    (size..2 * size).contains(&from)
}
