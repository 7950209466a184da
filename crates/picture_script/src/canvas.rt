// A canvas with a window of pixels, on which the pictures of a script are drawn.
ghost use Rattle.std.specs.Prelude.{◌≡◌, ◌<◌, ◌≤◌, ◌+◌, ℕ, ◌↔◌, slice_index_or, true, false, ◌-◌, ◌*◌, ◌==◌, ◌&&◌, if◌then◌else◌, List, length, slice_index, IfOk};
ghost use Rattle.cdg_instructions.specs.Sizes.{tile_width, window_width, colour_count, tile_height, window_height, window_pixels};
ghost use Rattle.picture_script.specs.Script.{is_within};
ghost use Rattle.picture_script.specs.Board.{pixel_of, ArePixelsOf, AreWindowPixels, AreColours, IsSameColumn};

use crate::script::{Script, ScriptLine};
use cdg_instructions::{
    COLOURS, PIXELS, TILE_HEIGHT, TILE_WIDTH, Tile, WINDOW_COLUMNS, WINDOW_PIXELS, WINDOW_WIDTH,
};
use std::alloc::{AllocError, Global};
use std::marker::Model;

/// The colour numbers of the pixels of the window, row by row from the left.
#[derive(Drop)]
pub(crate) struct Window {
    pixels: Vec<u8>,
}

impl Model for Window {
    ghost Value = { List ℕ };

    ghost view = { λ w. w.pixels.items };

    ghost invariant = { λ w. AreWindowPixels w.pixels.items };
}

impl Window {
    /// The colour number of a pixel.
    pub(crate) fn get(&self, x: usize, y: usize) -> u8
        requires width { x < window_width }
        requires height { y < window_height }
        ensures pixel { result ≡ pixel_of self.now x y }
        ensures range { result < colour_count }
    {
        self.pixels[WINDOW_WIDTH * y + x]
    }

    /// Compares the columns of twelve pixels in a row of tiles, which begins at `start`, with those of another window.
    pub(crate) fn equal_columns(&self, other: &Window, start: usize) -> [bool; WINDOW_WIDTH]
        requires { start + tile_height * window_width ≤ window_pixels }
        ensures { (x : ℕ) → x < window_width → slice_index_or result x false ≡ true
            ↔ IsSameColumn self.now other.now (start + x) }
    {
        let mut equal = [true; WINDOW_WIDTH];
        for j in 0..TILE_HEIGHT {
            let line = start + WINDOW_WIDTH * j;
            let end = line + WINDOW_WIDTH;
            compare_line(
                &self.pixels[line..end],
                &other.pixels[line..end],
                &mut equal,
            );
        }
        equal
    }

    /// Reads six pixels of a row. It reads all of them before it writes the first one, so the compiler can
    /// move several at once.
    #[inline]
    pub(crate) fn read_line(&self, x: usize, y: usize, out: &mut [u8])
        requires count { length out.old ≡ tile_width }
        requires width { x + tile_width ≤ window_width }
        requires height { y < window_height }
        ensures count { length out.new ≡ tile_width }
        ensures pixels { (i : ℕ) → i < tile_width → slice_index out.new i ≡ pixel_of self.now (x + i) y }
        ensures range { (i : ℕ) → slice_index out.new i < colour_count }
    {
        let start = WINDOW_WIDTH * y + x;
        let mut line = [0; TILE_WIDTH];
        for i in 0..TILE_WIDTH {
            line[i] = self.pixels[start + i];
        }
        out.copy_from_slice(&line);
    }

    /// Copies the pixels of another window.
    pub(crate) fn copy(&mut self, other: &Window)
        ensures { self.new ≡ other.now }
    {
        self.pixels.copy_from_slice(&other.pixels);
    }

    /// Sets all pixels to one colour.
    pub(crate) fn clear(&mut self, colour: u8)
        requires { colour < colour_count }
        ensures { ArePixelsOf self.new (λ x y. colour) }
    {
        self.pixels.fill(colour);
    }

    // Sets pixels of a row to one colour.
    fn fill_row(&mut self, x: usize, y: usize, width: usize, colour: u8)
        requires width { x + width ≤ window_width }
        requires height { y < window_height }
        requires range { colour < colour_count }
        ensures { ArePixelsOf self.new (λ x' y'.
            if y' == y && is_within x width x' then colour else pixel_of self.old x' y') }
    {
        let start = WINDOW_WIDTH * y + x;
        self.pixels[start..start + width].fill(colour);
    }

    /// Sets the pixels of a rectangle to one colour.
    pub(crate) fn fill(&mut self, x: usize, y: usize, width: usize, height: usize, colour: u8)
        requires width { x + width ≤ window_width }
        requires height { y + height ≤ window_height }
        requires range { colour < colour_count }
        ensures { ArePixelsOf self.new (λ x' y'.
            if is_within x width x' && is_within y height y' then colour else pixel_of self.old x' y') }
    {
        for j in 0..height {
            self.fill_row(x, y + j, width, colour);
        }
    }

    /// Sets pixels of a row to these colours.
    pub(crate) fn draw_row(&mut self, x: usize, y: usize, colours: &[u8])
        requires width { x + length colours.now ≤ window_width }
        requires height { y < window_height }
        requires range { AreColours colours.now }
        ensures { ArePixelsOf self.new (λ x' y'.
            if is_within x (length colours.now) x' && y' == y then slice_index colours.now (x' - x)
            else pixel_of self.old x' y') }
    {
        let start = WINDOW_WIDTH * y + x;
        self.pixels[start..start + colours.len()].copy_from_slice(colours);
    }
}

// Clears the mark of each pixel that differs in two lines. The loop has no early exit, so it can be vectorized.
fn compare_line(line: &[u8], other: &[u8], equal: &mut [bool; WINDOW_WIDTH])
    requires line { length line.now ≡ window_width }
    requires other { length other.now ≡ window_width }
    ensures { (x : ℕ) → x < window_width → slice_index_or equal.new x false ≡ true
        ↔ (slice_index_or equal.old x false ≡ true) × (slice_index line.now x ≡ slice_index other.now x) }
{
    for x in 0..WINDOW_WIDTH {
        equal[x] &= line[x] == other[x];
    }
}

// The maximum number of lines that are drawn again. For more lines, it is faster to copy all pixels.
const FEW_LINES: usize = 1_000;

/// A window of 288 by 192 pixels, a border and a table of sixteen colours, drawn by the lines of a script.
#[derive(Drop)]
pub struct Canvas {
    window: Window,
    border: u8,
    colours: [u16; COLOURS],
    at: Option<u32>,
}

impl Model for Canvas {
    ghost use Rattle.picture_script.specs.Board.{Board, IsCanvasInRange};

    ghost Value = { Board };

    ghost view = { λ c. record { pixels = c.window; border = c.border; colours = c.colours; at = c.at } };

    ghost invariant = { λ c. IsCanvasInRange c.border c.colours };
}

impl Canvas {
    ghost use Rattle.std.specs.Prelude.{◌≡◌, ◌<◌, ◌≤◌, ◌+◌, ◌-◌, ◌*◌, ℕ, List, length, slice_index, slice_index_or, true, false, IfOk, ◌↔◌, Some, None, take};
    ghost use Rattle.picture_script.specs.Script.{Drawing, Fill, Picture, drawn, drawn_by, pictures, picture_tile};
    ghost use Rattle.picture_script.specs.Board.{Board, pixel_of, tile_of, AreColours, IsBlank, IsPicture, IsDrawn, IsSet, StandsBefore};
    ghost use Rattle.picture_script.specs.Lines.{said, is_kept};
    ghost use Rattle.cdg_instructions.specs.Sizes.{colour_count, colour_values, window_columns, window_height, window_rows, window_width};

    /// A canvas with all values 0.
    pub fn start(alloc: Global) -> Result<Canvas, AllocError>
        ensures blank { IfOk result IsBlank }
        ensures at { IfOk result (λ c. c.at ≡ None) }
    {
        let pixels = vec![in alloc; 0; WINDOW_PIXELS]?;
        Ok(Canvas {
            window: Window { pixels },
            border: 0,
            colours: [0; COLOURS],
            at: None,
        })
    }

    /// Sets all values to 0 again.
    pub fn reset(&mut self)
        ensures blank { IsBlank self.new }
        ensures at { self.new.at ≡ None }
    {
        self.window.clear(0);
        self.border = 0;
        self.colours = [0; COLOURS];
        self.at = None;
    }

    /// The number of the picture on the canvas, or `None` after `start` and `reset`.
    pub fn at(&self) -> Option<u32>
        ensures { result ≡ self.now.at }
    {
        self.at
    }

    fn draw(&mut self, line: ScriptLine, pixels: &[u8])
        requires kept { is_kept (length pixels.now) line ≡ true }
        requires colours { AreColours pixels.now }
        ensures drawn { (before : Picture) → IsDrawn before self.old
            → IsDrawn (drawn before (said pixels.now line)) self.new }
    {
        match line {
            ScriptLine::TableColour { number, value } => self.colours[usize::from(number)] = value,
            ScriptLine::BorderColour { colour } => self.border = colour,
            ScriptLine::Filled { colour } => self.window.clear(colour),
            ScriptLine::Rectangle {
                x,
                y,
                width,
                height,
                colour,
            } => self.window.fill(
                usize::from(x),
                usize::from(y),
                usize::from(width),
                usize::from(height),
                colour,
            ),
            ScriptLine::PixelRow { y, x, first, count } => {
                let start = first as usize;
                let end = start + usize::from(count);
                self.window
                    .draw_row(usize::from(x), usize::from(y), &pixels[start..end]);
            }
            ScriptLine::ShowLine { .. } => {}
        }
    }

    // Sets the border or the colour of one line.
    fn set(&mut self, line: ScriptLine)
        requires kept { (size : ℕ) × (is_kept size line ≡ true) }
        ensures set { (pixels : List ℕ) (before : Picture) → IsSet before self.old
            → IsSet (drawn before (said pixels line)) self.new }
    {
        match line {
            ScriptLine::TableColour { number, value } => self.colours[usize::from(number)] = value,
            ScriptLine::BorderColour { colour } => self.border = colour,
            _ => {}
        }
    }

    /// Draws picture `k` of a script: the lines before its show line that have not been drawn yet. Pixels that a later
    /// line fills are skipped.
    ///
    /// The canvas must be empty, or have a picture of this script with a number of at most `k`.
    pub fn draw_until(&mut self, script: &Script, k: u32)
        requires picture { k < pictures script.now }
        requires before { StandsBefore script.now k self.old }
        ensures picture { IsPicture script.now k self.new }
        ensures at { self.new.at ≡ Some k }
    {
        let mut from = match self.at {
            Some(drawn) => script.place(drawn),
            None => 0,
        };
        let to = script.place(k);
        if let Some((place, colour)) = script.last_fill(from, to) {
            for i in from..place {
                self.set(script.lines[i]);
            }
            self.window.clear(colour);
            from = place + 1;
        }
        for i in from..to {
            self.draw(script.lines[i], &script.pixels);
        }
        self.at = Some(k);
    }

    // Copies another canvas.
    fn copy(&mut self, other: &Canvas)
        ensures { self.new ≡ other.now }
    {
        self.window.copy(&other.window);
        self.border = other.border;
        self.colours = other.colours;
        self.at = other.at;
    }

    /// Draws picture `k` of a script like `draw_until`, or copies it from another canvas if it has many lines.
    pub fn draw_like(&mut self, script: &Script, k: u32, other: &Canvas)
        requires picture { k < pictures script.now }
        requires before { StandsBefore script.now k self.old }
        requires there { IsPicture script.now k other.now }
        requires there_at { other.now.at ≡ Some k }
        ensures picture { IsPicture script.now k self.new }
        ensures at { self.new.at ≡ Some k }
    {
        let before = if k == 0 { 0 } else { script.place(k - 1) };
        if script.place(k).saturating_sub(before) <= FEW_LINES {
            self.draw_until(script, k);
        } else {
            self.copy(other);
        }
    }

    /// Compares the tiles of a row, from 1 to 16, with those of another canvas, from the left. Many pixels are compared
    /// at once.
    pub fn shared_columns(&self, other: &Canvas, row: u8) -> [bool; WINDOW_COLUMNS]
        requires first { 1 ≤ row }
        requires last { row ≤ window_rows }
        ensures { (column : ℕ) → 1 ≤ column → column ≤ window_columns
            → slice_index_or result (column - 1) false ≡ true
            ↔ tile_of self.now.pixels row column ≡ tile_of other.now.pixels row column }
    {
        let start = TILE_HEIGHT * WINDOW_WIDTH * (usize::from(row) - 1);
        let equal = self.window.equal_columns(&other.window, start);
        let mut shared = [false; WINDOW_COLUMNS];
        for i in 0..WINDOW_COLUMNS {
            shared[i] = are_six_equal(&equal, TILE_WIDTH * i);
        }
        shared
    }

    /// The colour number of a pixel of the window, `x` below 288 from the left and `y` below 192 from the top.
    pub fn pixel(&self, x: u32, y: u32) -> u8
        requires width { x < window_width }
        requires height { y < window_height }
        ensures pixel { result ≡ pixel_of self.now.pixels x y }
        ensures range { result < colour_count }
    {
        self.window.get(x as usize, y as usize)
    }

    /// The pixels of the tile at a row from 1 to 16 and a column from 1 to 48.
    pub fn tile(&self, row: u8, column: u8) -> Tile
        requires row_first { 1 ≤ row }
        requires row_last { row ≤ window_rows }
        requires column_first { 1 ≤ column }
        requires column_last { column ≤ window_columns }
        ensures tile { result ≡ tile_of self.now.pixels row column }
        ensures picture { (script : List Drawing) (k : ℕ) → IsPicture script k self.now
            → result ≡ picture_tile script k row column }
    {
        let left = TILE_WIDTH * (usize::from(column) - 1);
        let top = TILE_HEIGHT * (usize::from(row) - 1);
        let mut pixels = [0; PIXELS];
        for j in 0..TILE_HEIGHT {
            self.window.read_line(
                left,
                top + j,
                &mut pixels[TILE_WIDTH * j..TILE_WIDTH * j + TILE_WIDTH],
            );
        }
        match Tile::new(&pixels) {
            Some(tile) => tile,
            None => unreachable!(),
        }
    }

    /// Colour `k` of the table, as 0xRGB: four bits each of red, green and blue. `k` is below 16.
    pub fn colour(&self, k: u8) -> u16
        requires { k < colour_count }
        ensures value { result ≡ slice_index self.now.colours k }
        ensures range { result < colour_values }
    {
        self.colours[usize::from(k)]
    }

    /// The number of the border's colour.
    pub fn border(&self) -> u8
        ensures value { result ≡ self.now.border }
        ensures range { result < colour_count }
    {
        self.border
    }
}

// Whether six columns of pixels, from `first` on, are marked.
#[inline]
fn are_six_equal(equal: &[bool; WINDOW_WIDTH], first: usize) -> bool
    requires { first + tile_width ≤ window_width }
    ensures { result ≡ true
        ↔ ((i : ℕ) → i < tile_width → slice_index_or equal.now (first + i) false ≡ true) }
{
    let mut all = true;
    for i in 0..TILE_WIDTH {
        all &= equal[first + i];
    }
    all
}
