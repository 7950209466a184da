// A script: the lines that draw its pictures, and the times of the pictures.
ghost use Rattle.std.specs.Prelude.{◌≡◌, ◌<◌, ◌≤◌, ◌+◌, ◌/◌, ◌⊎◌, ℕ, List, false, true, length, slice_index_or};
ghost use Rattle.picture_script.specs.Script.{Picture, drawn};
ghost use Rattle.picture_script.specs.DrawnRows.{DrawsOn, KeepsRows, LeavesRows, MarksRows, AreDrawnRows};
ghost use Rattle.picture_script.specs.Lines.{is_kept, said};
ghost use Rattle.cdg_instructions.specs.Sizes.{tile_height, window_rows};

use cdg_instructions::{TILE_HEIGHT, WINDOW_ROWS};
use std::marker::Model;

/// A line with a command. The colours of a row begin at `first` in the colours of all rows. The order of the
/// fields avoids padding, since a script may have millions of lines.
#[derive(Clone, Copy)]
pub(crate) enum ScriptLine {
    TableColour {
        number: u8,
        value: u16,
    },
    BorderColour {
        colour: u8,
    },
    Filled {
        colour: u8,
    },
    Rectangle {
        x: u16,
        y: u8,
        width: u16,
        height: u8,
        colour: u8,
    },
    PixelRow {
        y: u8,
        x: u16,
        first: u32,
        count: u16,
    },
    ShowLine {
        ready: u32,
        hold: u32,
    },
}

/// A picture: the number of lines before its show line, and its times.
#[derive(Clone, Copy)]
pub(crate) struct Shown {
    pub(crate) place: usize,
    pub(crate) ready: u32,
    pub(crate) hold: u32,
}

/// The maximum number of pictures in a script: more than three for each second of the longest program.
pub const MOST_PICTURES: usize = 20_000;

/// The lines of a picture script, and when each of its pictures is shown.
///
/// A contract sees the list of its commands.
#[derive(Drop)]
pub struct Script {
    pub(crate) lines: Vec<ScriptLine>,
    pub(crate) pixels: Vec<u8>,
    pub(crate) shown: Vec<Shown>,
}

impl Model for Script {
    ghost use Rattle.std.specs.Prelude.{List};
    ghost use Rattle.picture_script.specs.Script.{Drawing};
    ghost use Rattle.picture_script.specs.Lines.{all_said, IsIndexed};

    ghost Value = { List Drawing };

    ghost view = { λ s. all_said s.pixels.items s.lines.items };

    ghost invariant = { λ s. IsIndexed s.pixels.items s.lines.items s.shown.items };
}

impl Script {
    ghost use Rattle.std.specs.Prelude.{◌≡◌, ◌<◌, ◌≤◌, ◌+◌, ℕ, List, length, slice_index_or, IfSome};
    ghost use Rattle.disc_time.specs.Counts.{time_count};
    ghost use Rattle.picture_script.specs.Script.{pictures, ready_time, hold_time, picture_pixel, picture_border, picture_colour, lines_before, Drawing, Fill};
    ghost use Rattle.picture_script.specs.Sizes.{most_pictures};
    ghost use Rattle.cdg_instructions.specs.Sizes.{colour_count, colour_values};

    /// The number of pictures.
    pub fn pictures(&self) -> u32
        ensures value { result ≡ pictures self.now }
        ensures most { result ≤ most_pictures }

        // Each picture is held from its ready time on, and the next one is ready after its hold time.
        ensures held { (k : ℕ) → k < pictures self.now → ready_time self.now k ≤ hold_time self.now k }
        ensures later { (k : ℕ) → k + 1 < pictures self.now
            → hold_time self.now k < ready_time self.now (k + 1) }
        ensures ends { (k : ℕ) → k < pictures self.now → hold_time self.now k < time_count }

        // Colour numbers are below 16, and the colours of the table have twelve bits.
        ensures pixels { (k x y : ℕ) → picture_pixel self.now k x y < colour_count }
        ensures borders { (k : ℕ) → picture_border self.now k < colour_count }
        ensures colours { (k n : ℕ) → picture_colour self.now k n < colour_values }
    {
        self.shown.len() as u32
    }

    /// A law: the times of the pictures rise, and all colours are in range. It does nothing when it runs.
    pub fn times_rise_and_colours_are_in_range(&self)
        ensures held { (k : ℕ) → k < pictures self.now → ready_time self.now k ≤ hold_time self.now k }
        ensures later { (k : ℕ) → k + 1 < pictures self.now
            → hold_time self.now k < ready_time self.now (k + 1) }
        ensures ends { (k : ℕ) → k < pictures self.now → hold_time self.now k < time_count }
        ensures pixels { (k x y : ℕ) → picture_pixel self.now k x y < colour_count }
        ensures borders { (k : ℕ) → picture_border self.now k < colour_count }
        ensures colours { (k n : ℕ) → picture_colour self.now k n < colour_values }
    {
        let _ = self.pictures();
    }

    /// The block number at which picture `k` is ready, counted from the absolute time 00:00:00. The pictures are
    /// counted from 0.
    pub fn ready(&self, k: u32) -> u32
        requires { k < pictures self.now }
        ensures value { result ≡ ready_time self.now k }
        ensures order { result ≤ hold_time self.now k }
        ensures below { result < time_count }
    {
        self.shown[k as usize].ready
    }

    /// The block number until which picture `k` is held. It is below the ready time of the next picture.
    pub fn hold(&self, k: u32) -> u32
        requires { k < pictures self.now }
        ensures value { result ≡ hold_time self.now k }
        ensures order { k + 1 < pictures self.now → result < ready_time self.now (k + 1) }
        ensures below { result < time_count }
    {
        self.shown[k as usize].hold
    }

    /// The number of lines before the show line of picture `k`.
    pub(crate) fn place(&self, k: u32) -> usize
        requires { k < pictures self.now }
        ensures { result ≡ length (lines_before self.now k) }
    {
        self.shown[k as usize].place
    }

    /// The place and colour of the last line between two places that fills the window, if there is one.
    pub(crate) fn last_fill(&self, from: usize, to: usize) -> Option<(usize, u8)>
        requires { to ≤ length self.now }
        ensures place { IfSome result (λ found. (from ≤ found.0) × (found.0 < to)) }
        ensures fill { IfSome result (λ found. slice_index_or self.now found.0 (Fill 0) ≡ Fill found.1) }
        ensures colour { IfSome result (λ found. found.1 < colour_count) }
    {
        for i in (from..to).rev() {
            if let ScriptLine::Filled { colour } = self.lines[i] {
                return Some((i, colour));
            }
        }
        None
    }
}

impl Script {
    /// The rows of tiles, from the top, on which a line draws between the previous picture and picture `k`. Other rows
    /// are equal in both pictures. If there is no such picture or no previous one, all rows are marked.
    pub fn drawn_rows(&self, k: u32) -> [bool; WINDOW_ROWS]
        ensures keeps { KeepsRows self.now k result }
        // No other row is marked if both pictures exist.
        ensures drawn { AreDrawnRows self.now k result }
    {
        if k == 0 || k >= self.pictures() {
            return [true; WINDOW_ROWS];
        }
        let from = self.place(k - 1);
        let mut rows = [false; WINDOW_ROWS];
        for i in from..self.place(k) {
            mark_line(&mut rows, self.lines[i]);
        }
        rows
    }
}

fn mark_line(rows: &mut [bool; WINDOW_ROWS], line: ScriptLine)
    requires kept { (size : ℕ) × (is_kept size line ≡ true) }
    ensures leaves { (pixels : List ℕ) (before : Picture) (r x y : ℕ) → slice_index_or rows.new r true ≡ false
        → y / tile_height ≡ r → (slice_index_or rows.old r true ≡ false)
        × (before.pixel x y ≡ (drawn before (said pixels line)).pixel x y) }
    ensures marks { (pixels : List ℕ) (r : ℕ) → slice_index_or rows.new r false ≡ true
        → (slice_index_or rows.old r false ≡ true) ⊎ DrawsOn (said pixels line) r }
{
    match line {
        ScriptLine::Filled { .. } => mark_rows(rows, 0, WINDOW_ROWS),
        ScriptLine::Rectangle { y, height, .. } => {
            let top = usize::from(y);
            let end = top + usize::from(height);
            mark_rows(
                rows,
                top / TILE_HEIGHT,
                (end + TILE_HEIGHT - 1) / TILE_HEIGHT,
            )
        }
        ScriptLine::PixelRow { y, .. } => {
            let row = usize::from(y) / TILE_HEIGHT;
            mark_rows(rows, row, row + 1)
        }
        ScriptLine::TableColour { .. }
        | ScriptLine::BorderColour { .. }
        | ScriptLine::ShowLine { .. } => {}
    }
}

fn mark_rows(rows: &mut [bool; WINDOW_ROWS], from: usize, to: usize)
    requires { to ≤ window_rows }
    ensures leaves { (r : ℕ) → slice_index_or rows.new r true ≡ false
        → (slice_index_or rows.old r true ≡ false) × ((r < from) ⊎ (to ≤ r)) }
    ensures marks { (r : ℕ) → slice_index_or rows.new r false ≡ true
        → (slice_index_or rows.old r false ≡ true) ⊎ ((from ≤ r) × (r < to)) }
{
    for r in from..to {
        rows[r] = true;
    }
}
