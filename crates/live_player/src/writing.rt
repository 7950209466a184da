// A part of the screen in a format.
ghost use Rattle.std.specs.Prelude.{◌≡◌, ◌≢◌, ◌<◌, ◌≤◌, ◌+◌, ◌*◌, ℕ, IfSome, length, slice_index};
ghost use Rattle.cdg_screen.specs.Memory.{seen};
ghost use Rattle.live_player.specs.Lives.{picture_byte, picture_bytes};
ghost use Rattle.live_player.specs.Parts.{IsOnScreen};
ghost use Rattle.live_player.specs.Formats.{pixel_size, shown_bytes, AreLineBytes, ArePairs, HasPixelRoom, ShowsPixels, AreColourNumbers, HasFourBytes, HasColours};
ghost use Rattle.live_player.specs.declared.format.PixelFormat.{PixelFormat};

use crate::format::PixelFormat;
use crate::line::{write_few, write_fours};
use crate::pairs::{PAIRS, pairs_of};
use crate::table::table_of;
use crate::{PICTURE_BYTES, ScreenPart, part_of_screen};
use cdg_instructions::{COLOURS, SCREEN_HEIGHT, SCREEN_WIDTH};
use cdg_screen::PlainScreen;

// The number of pixels from which a table of pairs is faster.
const WORTH_PAIRS: usize = 2048;

/// Writes the pixels of a part of the screen in a format, row by row: row j begins at byte `stride` times j. The bytes
/// between the rows are unchanged.
pub fn write_pixels(
    screen: &PlainScreen,
    part: &ScreenPart,
    format: PixelFormat,
    out: &mut [u8],
    stride: usize,
)
    requires part { IsOnScreen part.now }
    requires apart { pixel_size format * part.now.width ≤ stride }
    requires room { HasPixelRoom format part.now stride (length out.old) }
    ensures { ShowsPixels format (seen screen.now) part.now stride out.old out.new }
{
    if let PixelFormat::Indexed = format {
        part_of_screen(screen, part, out, stride);
        return;
    }
    write_coloured(screen, part, format, out, stride);
}

// Writes the pixels of a part in a format of colours. It is not inlined, so that only this path clears its
// table.
#[inline(never)]
fn write_coloured(
    screen: &PlainScreen,
    part: &ScreenPart,
    format: PixelFormat,
    out: &mut [u8],
    stride: usize,
)
    requires part { IsOnScreen part.now }
    requires format { format ≢ PixelFormat.Indexed }
    requires apart { pixel_size format * part.now.width ≤ stride }
    requires room { HasPixelRoom format part.now stride (length out.old) }
    ensures { ShowsPixels format (seen screen.now) part.now stride out.old out.new }
{
    let table = table_of(screen, format);
    if part.width * part.height < WORTH_PAIRS {
        write_rows(screen, part, format, &table, None, out, stride);
    } else {
        write_by_pairs(screen, part, format, &table, out, stride);
    }
}

// Writes the pixels of a part in a format of colours, two at a time. It is not inlined, so that only this
// path clears its tables.
#[inline(never)]
fn write_by_pairs(
    screen: &PlainScreen,
    part: &ScreenPart,
    format: PixelFormat,
    table: &[[u8; 4]; COLOURS],
    out: &mut [u8],
    stride: usize,
)
    requires part { IsOnScreen part.now }
    requires format { format ≢ PixelFormat.Indexed }
    requires apart { pixel_size format * part.now.width ≤ stride }
    requires room { HasPixelRoom format part.now stride (length out.old) }
    requires sizes { HasFourBytes table.now }
    requires bytes { HasColours format (seen screen.now) table.now }
    ensures { ShowsPixels format (seen screen.now) part.now stride out.old out.new }
{
    let pairs = pairs_of(format.size(), table);
    write_rows(screen, part, format, table, Some(&pairs), out, stride);
}

/// Writes red, green and blue of all pixels of the screen, row by row.
pub fn write_picture(screen: &PlainScreen, bytes: &mut [u8; PICTURE_BYTES])
    ensures { (n : ℕ) → n < picture_bytes → slice_index bytes.new n ≡ picture_byte (seen screen.now) n }
{
    let whole = ScreenPart {
        left: 0,
        top: 0,
        width: SCREEN_WIDTH,
        height: SCREEN_HEIGHT,
    };
    write_pixels(screen, &whole, PixelFormat::Rgb, bytes, 3 * SCREEN_WIDTH);
}

// Writes the bytes of the pixels of a part by the tables of their colours, row by row.
fn write_rows(
    screen: &PlainScreen,
    part: &ScreenPart,
    format: PixelFormat,
    table: &[[u8; 4]; COLOURS],
    pairs: Option<&[[u8; 8]; PAIRS]>,
    out: &mut [u8],
    stride: usize,
)
    requires part { IsOnScreen part.now }
    requires format { format ≢ PixelFormat.Indexed }
    requires apart { pixel_size format * part.now.width ≤ stride }
    requires room { HasPixelRoom format part.now stride (length out.old) }
    requires sizes { HasFourBytes table.now }
    requires bytes { HasColours format (seen screen.now) table.now }
    requires pairs { IfSome pairs (λ pairs. ArePairs (pixel_size format) table.now pairs.now) }
    ensures { ShowsPixels format (seen screen.now) part.now stride out.old out.new }
{
    let count = format.size() * part.width;
    let mut row = [0; SCREEN_WIDTH];
    for j in 0..part.height {
        let pixels = &mut row[..part.width];
        let line = &mut out[stride * j..stride * j + count];
        write_row(screen, part, j, format, table, pairs, pixels, line);
    }
}

// Writes the bytes of the pixels of row j of a part. `pixels` is a buffer for their colour numbers.
fn write_row(
    screen: &PlainScreen,
    part: &ScreenPart,
    j: usize,
    format: PixelFormat,
    table: &[[u8; 4]; COLOURS],
    pairs: Option<&[[u8; 8]; PAIRS]>,
    pixels: &mut [u8],
    line: &mut [u8],
)
    requires part { IsOnScreen part.now }
    requires row { j < part.now.height }
    requires format { format ≢ PixelFormat.Indexed }
    requires room { length pixels.old ≡ part.now.width }
    requires size { length line.old ≡ pixel_size format * part.now.width }
    requires sizes { HasFourBytes table.now }
    requires bytes { HasColours format (seen screen.now) table.now }
    requires pairs { IfSome pairs (λ pairs. ArePairs (pixel_size format) table.now pairs.now) }
    ensures { (i k : ℕ) → i < part.now.width → k < pixel_size format
        → slice_index line.new (pixel_size format * i + k)
        ≡ slice_index (shown_bytes format (seen screen.now) (part.now.left + i) (part.now.top + j)) k }
{
    match screen.columns(part.left, part.top + j, part.width) {
        Some(columns) => write_colours(format, columns, table, pairs, line),
        None => {
            screen.write_columns(part.left, part.top + j, pixels);
            write_colours(format, pixels, table, pairs, line);
        }
    }
}

fn write_colours(
    format: PixelFormat,
    pixels: &[u8],
    table: &[[u8; 4]; COLOURS],
    pairs: Option<&[[u8; 8]; PAIRS]>,
    line: &mut [u8],
)
    requires format { format ≢ PixelFormat.Indexed }
    requires size { length line.old ≡ pixel_size format * length pixels.now }
    requires numbers { AreColourNumbers pixels.now }
    requires entries { HasFourBytes table.now }
    requires pairs { IfSome pairs (λ pairs. ArePairs (pixel_size format) table.now pairs.now) }
    ensures { AreLineBytes (pixel_size format) pixels.now table.now line.new }
{
    match format {
        PixelFormat::Rgb565 => write_few(2, pixels, table, pairs, line),
        PixelFormat::Rgb => write_few(3, pixels, table, pairs, line),
        _ => write_fours(pixels, table, pairs, line),
    }
}
