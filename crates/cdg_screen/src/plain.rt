// The state of a screen, and how an instruction changes it.
ghost use Rattle.std.specs.Prelude.{◌≡◌, ◌↔◌, IsTrue, ◌<◌, ◌≤◌, ℕ, [], ◌∷◌, slice_index, length, All, IfOk, ◌+◌, ◌-◌, ◌&&◌, nat_le, nat_lt, if◌then◌else◌};
ghost use Rattle.cdg_instructions.specs.Effect.{effect_of};
ghost use Rattle.cdg_instructions.specs.Instruction.{InRange};
ghost use Rattle.cdg_instructions.specs.Sizes.{colour_count, colour_values, level_values, screen_height, screen_pixels, screen_width, tile_height, tile_width, window_bottom, window_right};
ghost use Rattle.cdg_instructions.specs.declared.effect.Effect.TheVariants.{Draw};
ghost use Rattle.cdg_instructions.specs.declared.instr.Instr.{Instr};
ghost use Rattle.cdg_screen.specs.Standing.{blank, pixel_at, rows_in, standing_after, screen_pixel};
ghost use Rattle.cdg_screen.specs.Memory.{IsInRange, Kept, seen};

use crate::memory::Memory;
use cdg_instructions::{
    COLOURS, DrawnTile, Effect, Instr, TILE_HEIGHT, TILE_WIDTH, WINDOW_BOTTOM, WINDOW_RIGHT,
};
use std::marker::Model;

// Where the window begins and ends on the screen, both included.
const LEFT: u32 = TILE_WIDTH as u32;

const RIGHT: u32 = WINDOW_RIGHT as u32;

const TOP: u32 = TILE_HEIGHT as u32;

const BOTTOM: u32 = WINDOW_BOTTOM as u32;

/// The state of a screen: a memory of 300 by 216 pixels, a border, sixteen colours and levels, and the offsets of the
/// screen.
///
/// A pixel is the number of its colour, 0 to 15. The screen also has 300 by 216 pixels. Its window of 288 by 192
/// pixels begins at (6, 12) and shows the memory, moved by the offsets. The border is around the window.
///
/// The struct has only numbers: a caller can allocate it anywhere, and a `Screen` has it on the heap. If all
/// numbers are zero, it is a blank screen.
#[derive(Drop)]
#[repr(C)]
pub struct PlainScreen {
    pub(crate) memory: Memory,
    pub(crate) border: u8,
    pub(crate) colours: [u16; COLOURS],
    pub(crate) levels: [u8; COLOURS],
    pub(crate) h: u8,
    pub(crate) v: u8,
}

impl Model for PlainScreen {
    ghost Value = { Kept };

    ghost view = { λ s. record {
      memory = s.memory;
      border = s.border;
      colours = s.colours;
      levels = s.levels;
      h = s.h;
      v = s.v;
    } };

    ghost inverse = { λ s. record {
      memory = s.memory;
      border = s.border;
      colours = s.colours;
      levels = s.levels;
      h = s.h;
      v = s.v;
    } };

    ghost invariant = { λ s. IsInRange s.border s.colours s.levels s.h s.v };
}

impl PlainScreen {
    /// A screen of zeros. It is inlined, so that it is built in place and needs no stack.
    #[inline(always)]
    pub fn blank() -> PlainScreen
        ensures { seen result ≡ blank }
    {
        PlainScreen {
            memory: Memory::blank(),
            border: 0,
            colours: [0; COLOURS],
            levels: [0; COLOURS],
            h: 0,
            v: 0,
        }
    }

    /// Sets everything to zero.
    pub fn reset(&mut self)
        ensures { seen self.new ≡ blank }
    {
        self.memory.clear(0);
        self.border = 0;
        self.colours = [0; COLOURS];
        self.levels = [0; COLOURS];
        self.h = 0;
        self.v = 0;
    }

    /// Sets the whole state: the pixels of the memory row by row from the top left (216 rows of 300 numbers below 16),
    /// the border, the colours as 0xRGB, the levels, and the offsets across and down.
    pub fn restore(
        &mut self,
        pixels: &[u8],
        border: u8,
        colours: &[u16; COLOURS],
        levels: &[u8; COLOURS],
        offsets: (u8, u8),
    )
        requires count { length pixels.now ≡ screen_pixels }
        requires pixels { All (λ pixel. pixel < colour_count) pixels.now }
        requires border { border < colour_count }
        requires colours { All (λ colour. colour < colour_values) colours.now }
        requires levels { All (λ level. level < level_values) levels.now }
        requires across { offsets.0 ≤ 5 }
        requires down { offsets.1 ≤ 11 }
        ensures { seen self.new ≡ record {
          memory = rows_in pixels.now;
          border = border;
          colours = colours.now;
          levels = levels.now;
          h = offsets.0;
          v = offsets.1;
        } }
    {
        self.memory.restore(pixels);
        self.border = border;
        self.colours = *colours;
        self.levels = *levels;
        (self.h, self.v) = offsets;
    }

    /// Copies the state of another screen.
    pub fn copy_from(&mut self, other: &PlainScreen)
        ensures { self.new ≡ other.now }
    {
        self.memory.copy_from(&other.memory);
        self.border = other.border;
        self.colours = other.colours;
        self.levels = other.levels;
        self.h = other.h;
        self.v = other.v;
    }

    /// Carries out an instruction. Its fields must be in their ranges, as in each instruction that was read.
    pub fn obey(&mut self, instr: &Instr)
        requires { InRange instr.now }
        ensures { seen self.new ≡ standing_after (seen self.old) (instr.now ∷ []) }
    {
        let memory = &mut self.memory;
        match instr.effect() {
            Effect::Nothing => {}
            Effect::Clear { colour } => memory.clear(colour),
            Effect::Border { colour } => self.border = colour,
            Effect::Draw { tile } => memory.draw_tile(&tile),
            Effect::Scroll { scroll } => {
                memory.scroll(&scroll);
                (self.h, self.v) = (scroll.h, scroll.v);
            }
            Effect::Levels { levels } => self.levels = levels,
            Effect::Colours { first, colours } => set_half(&mut self.colours, first, &colours),
        }
    }

    /// Draws a tile. It is inlined, so that a tile that was just read is not copied.
    #[inline(always)]
    pub fn draw(&mut self, tile: &DrawnTile)
        requires { All (λ colour. colour < colour_count) tile.now.colours }
        ensures { (instr : Instr) → effect_of instr ≡ Draw tile.now
            → seen self.new ≡ standing_after (seen self.old) (instr ∷ []) }
    {
        self.memory.draw_tile(tile);
    }

    /// The pixel of the memory at a place: `x` below 300 from the left, `y` below 216 from the top.
    pub fn memory(&self, x: u32, y: u32) -> u8
        requires width { x < screen_width }
        requires height { y < screen_height }
        ensures pixel { result ≡ pixel_at (seen self.now).memory x y }
        ensures range { result < colour_count }
    {
        self.memory.get(x as usize, y as usize)
    }

    /// The pixel of the screen at a place: `x` below 300 from the left, `y` below 216 from the top.
    pub fn pixel(&self, x: u32, y: u32) -> u8
        requires width { x < screen_width }
        requires height { y < screen_height }
        ensures pixel { result ≡ screen_pixel (seen self.now) x y }
        ensures range { result < colour_count }
    {
        if is_in_window(x, y) {
            self.memory.get(
                x as usize + usize::from(self.h),
                y as usize + usize::from(self.v),
            )
        } else {
            self.border
        }
    }

    /// Colour `k` of the table, as 0xRGB: four bits each of red, green and blue. `k` is below 16.
    pub fn colour(&self, k: u8) -> u16
        requires { k < colour_count }
        ensures colour { result ≡ slice_index self.now.colours k }
        ensures range { result < colour_values }
    {
        self.colours[usize::from(k)]
    }

    /// The level of colour `k`, 0 to 63. `k` is below 16.
    pub fn level(&self, k: u8) -> u8
        requires { k < colour_count }
        ensures level { result ≡ slice_index self.now.levels k }
        ensures range { result < level_values }
    {
        self.levels[usize::from(k)]
    }

    /// The number of the border's colour.
    pub fn border(&self) -> u8
        ensures border { result ≡ self.now.border }
        ensures range { result < colour_count }
    {
        self.border
    }

    /// How many pixels further right in the memory the screen begins, 0 to 5.
    pub fn offset_h(&self) -> u8
        ensures offset { result ≡ self.now.h }
        ensures range { result ≤ 5 }
    {
        self.h
    }

    /// How many pixels further down in the memory the screen begins, 0 to 11.
    pub fn offset_v(&self) -> u8
        ensures offset { result ≡ self.now.v }
        ensures range { result ≤ 11 }
    {
        self.v
    }
}

// Whether a pixel of the screen is in the window. Outside the window is the border.
#[inline(always)]
fn is_in_window(x: u32, y: u32) -> bool
    ensures { IsTrue result
        ↔ (tile_width ≤ x) × (x ≤ window_right) × (tile_height ≤ y) × (y ≤ window_bottom) }
{
    (LEFT..=RIGHT).contains(&x) && (TOP..=BOTTOM).contains(&y)
}

// Sets eight colours of a table from an entry on.
fn set_half(table: &mut [u16; COLOURS], at: u8, colours: &[u16; 8])
    requires place { at ≤ 8 }
    requires table { All (λ colour. colour < colour_values) table.old }
    requires colours { All (λ colour. colour < colour_values) colours.now }
    ensures set { (k : ℕ) → k < colour_count → slice_index table.new k
        ≡ (if nat_le at k && nat_lt k (at + 8) then slice_index colours.now (k - at) else slice_index
        table.old k) }
    ensures range { All (λ colour. colour < colour_values) table.new }
{
    for i in 0..8 {
        table[usize::from(at) + i] = colours[i];
    }
}
