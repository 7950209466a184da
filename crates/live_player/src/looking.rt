// The pixels and colours of a screen, as numbers.
ghost use Rattle.std.specs.Prelude.{◌≡◌, ◌↔◌, ◌<◌, ◌≤◌, ◌+◌, ◌-◌, ◌/◌, ◌%◌, nat_le, if◌then◌else◌, ℕ, IsTrue, length, slice_index};
ghost use Rattle.cdg_instructions.specs.Sizes.{colour_values, screen_height, screen_pixels, screen_width};
ghost use Rattle.cdg_screen.specs.Memory.{seen};
ghost use Rattle.cdg_screen.specs.Standing.{screen_pixel};
ghost use Rattle.cdg_screen.specs.Texts.{colour_bytes};
ghost use Rattle.live_player.specs.Lives.{picture_byte, picture_bytes};
ghost use Rattle.live_player.specs.Parts.{HasRoomFor, IsOnScreen, ShowsPart};

use cdg_instructions::{SCREEN_HEIGHT, SCREEN_PIXELS, SCREEN_WIDTH};
use cdg_screen::PlainScreen;

/// A rectangle of the screen, in pixels.
#[derive(Clone, Copy)]
pub struct ScreenPart {
    /// How far from the left it begins.
    pub left: usize,
    /// How far from the top it begins.
    pub top: usize,
    pub width: usize,
    pub height: usize,
}

/// The number of bytes in a picture: red, green and blue of each pixel.
pub const PICTURE_BYTES: usize = 3 * SCREEN_PIXELS;

/// The pixels of the screen, row by row.
pub(crate) fn pixels(screen: &PlainScreen, pixels: &mut [u8; SCREEN_PIXELS])
    ensures { (n : ℕ) → n < screen_pixels
        → slice_index pixels.new n ≡ screen_pixel (seen screen.now) (n % screen_width) (n / screen_width) }
{
    write_whole(screen, pixels);
}

/// Writes the pixels of a part of the screen: row j begins at byte `stride` times j. It is inlined, since a constant
/// part simplifies it.
#[inline(always)]
pub fn part_of_screen(screen: &PlainScreen, part: &ScreenPart, pixels: &mut [u8], stride: usize)
    requires part { IsOnScreen part.now }
    requires apart { part.now.width ≤ stride }
    requires room { HasRoomFor part.now stride (length pixels.old) }
    ensures { ShowsPart (seen screen.now) part.now stride pixels.old pixels.new }
{
    if is_whole_screen(part) && stride == SCREEN_WIDTH {
        write_whole(screen, pixels);
    } else {
        write_rows(screen, part, pixels, stride);
    }
}

#[inline(always)]
fn is_whole_screen(part: &ScreenPart) -> bool
    requires { IsOnScreen part.now }
    ensures { IsTrue result
        ↔ (part.now ≡ record { left = 0; top = 0; width = screen_width; height = screen_height }) }
{
    part.width == SCREEN_WIDTH && part.height == SCREEN_HEIGHT
}

// Writes the pixels of the whole screen without gaps. It is not inlined, so that there is one loop with constant rows.
#[inline(never)]
fn write_whole(screen: &PlainScreen, pixels: &mut [u8])
    requires { screen_pixels ≤ length pixels.old }
    ensures { ShowsPart (seen screen.now)
        (record { left = 0; top = 0; width = screen_width; height = screen_height }) screen_width
        pixels.old pixels.new }
{
    let whole = ScreenPart {
        left: 0,
        top: 0,
        width: SCREEN_WIDTH,
        height: SCREEN_HEIGHT,
    };
    write_rows(screen, &whole, pixels, SCREEN_WIDTH);
}

// Writes the pixels of a part row by row. It is inlined, since a constant part simplifies it.
#[inline(always)]
fn write_rows(screen: &PlainScreen, part: &ScreenPart, pixels: &mut [u8], stride: usize)
    requires part { IsOnScreen part.now }
    requires apart { part.now.width ≤ stride }
    requires room { HasRoomFor part.now stride (length pixels.old) }
    ensures { ShowsPart (seen screen.now) part.now stride pixels.old pixels.new }
{
    for j in 0..part.height {
        let line = &mut pixels[stride * j..stride * j + part.width];
        write_line(screen, part, j, line);
    }
}

// The pixels of row j of a part.
#[inline(always)]
fn write_line(screen: &PlainScreen, part: &ScreenPart, j: usize, line: &mut [u8])
    requires part { IsOnScreen part.now }
    requires row { j < part.now.height }
    requires size { length line.old ≡ part.now.width }
    ensures { (i : ℕ) → i < part.now.width
        → slice_index line.new i ≡ screen_pixel (seen screen.now) (part.now.left + i) (part.now.top + j) }
{
    // For a whole row, the compiler knows the start and the end.
    if line.len() == SCREEN_WIDTH {
        screen.write_columns(0, part.top + j, line);
        return;
    }
    match screen.columns(part.left, part.top + j, part.width) {
        Some(columns) => line.copy_from_slice(columns),
        None => screen.write_columns(part.left, part.top + j, line),
    }
}

pub(crate) fn colours(screen: &PlainScreen, table: &mut [u16; 16])
    ensures size { length table.new ≡ 16 }
    ensures colours { (k : ℕ) → k < 16 → slice_index table.new k ≡ slice_index (seen screen.now).colours k }
    ensures range { (k : ℕ) → k < 16 → slice_index table.new k < colour_values }
{
    for k in 0..16 {
        table[k] = screen.colour(k as u8);
    }
}

pub(crate) fn levels(screen: &PlainScreen, levels: &mut [u8; 16])
    ensures size { length levels.new ≡ 16 }
    ensures levels { (k : ℕ) → k < 16 → slice_index levels.new k ≡ slice_index (seen screen.now).levels k }
    ensures range { (k : ℕ) → k < 16 → slice_index levels.new k < 64 }
{
    for k in 0..16 {
        levels[k] = screen.level(k as u8);
    }
}

/// Red, green and blue of the pixels of the screen, row by row.
pub(crate) fn bytes(screen: &PlainScreen, bytes: &mut [u8; PICTURE_BYTES])
    ensures { (n : ℕ) → n < picture_bytes → slice_index bytes.new n ≡ picture_byte (seen screen.now) n }
{
    let red = parts(screen, 0);
    let green = parts(screen, 1);
    let blue = parts(screen, 2);
    let mut row = [0; SCREEN_WIDTH];
    for y in 0..SCREEN_HEIGHT {
        screen.write_row(y, &mut row);
        for x in 0..SCREEN_WIDTH {
            let pixel = usize::from(row[x]);
            let at = 3 * (SCREEN_WIDTH * y + x);
            write_three(bytes, at, [red[pixel], green[pixel], blue[pixel]]);
        }
    }
}

#[inline(always)]
fn write_three(bytes: &mut [u8; PICTURE_BYTES], at: usize, three: [u8; 3])
    requires { at + 3 ≤ picture_bytes }
    ensures { (n : ℕ) → n < at + 3 → slice_index bytes.new n
        ≡ (if nat_le at n then slice_index three (n - at) else slice_index bytes.old n) }
{
    bytes[at] = three[0];
    bytes[at + 1] = three[1];
    bytes[at + 2] = three[2];
}

// A component of each colour of the table: 0 red, 1 green, 2 blue.
fn parts(screen: &PlainScreen, which: u32) -> [u8; 16]
    requires { which < 3 }
    ensures { (k : ℕ) → k < 16 → slice_index result k
        ≡ slice_index (colour_bytes (slice_index (seen screen.now).colours k)) which }
{
    let mut table = [0; 16];
    for k in 0..16 {
        table[k] = part(screen.colour(k as u8), which);
    }
    table
}

// A component of a colour as a byte: 0 red, 1 green, 2 blue.
fn part(colour: u16, part: u32) -> u8
    requires part { part < 3 }
    requires colour { colour < colour_values }
    ensures { result ≡ slice_index (colour_bytes colour) part }
{
    match part {
        0 => 17 * (colour / 256) as u8,
        1 => 17 * (colour / 16 % 16) as u8,
        _ => 17 * (colour % 16) as u8,
    }
}

/// How many pixels further right and further down in the memory the screen begins.
pub(crate) fn offsets(screen: &PlainScreen) -> (u8, u8)
    ensures across { result.0 ≡ (seen screen.now).h }
    ensures down { result.1 ≡ (seen screen.now).v }
    ensures ranges { (result.0 ≤ 5) × (result.1 ≤ 11) }
{
    (screen.offset_h(), screen.offset_v())
}
