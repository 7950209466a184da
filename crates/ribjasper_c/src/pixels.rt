// A part of a player's screen, in the format of a display.
ghost use Rattle.std.specs.Prelude.{◌≡◌, ◌<◌, ◌≤◌, ◌+◌, ◌*◌, ◌∷◌, [], ◌↔◌, ◌⊎◌, ℕ, IsTrue, length, pos, negsuc, true};
ghost use Rattle.live_player.specs.Parts.{IsOnScreen};
ghost use Rattle.live_player.specs.Formats.{pixel_size, HasPixelRoom, ShowsPixels};
ghost use Rattle.ribjasper_c.specs.Handles.{PlayersShow};
ghost use Rattle.ribjasper_c.specs.Pixels.{pixel_format};
ghost use Rattle.ribjasper_c.specs.Rects.{shown_rect};
ghost use Rattle.ribjasper_c.specs.Looking.{IsUnchanged};

use crate::Playing;
use crate::answers::{DONE, NOT_DONE};
use crate::rects::part_of;
use live_player::{LivePlayer, PixelFormat, ScreenPart, write_pixels};

/// Writes the pixels of a part of the screen, row by row, in a format. Row j begins at byte `stride` times j,
/// and the bytes between the rows are unchanged. Returns 0, or -1 if the player is closed, the format is
/// unknown, the part is not on the screen, its rows overlap or the buffer is too small.
#[unsafe(no_mangle)]
pub extern "C" fn ribjasper_player_pixels(
    player: &mut Playing,
    format: u32,
    x: u32,
    y: u32,
    width: u32,
    height: u32,
    out: &mut [u8],
    stride: u32,
) -> i32
    ensures shows { result ≡ pos 0 → PlayersShow player.old.handle.players
        (λ now. ShowsPixels (pixel_format format) now (shown_rect x y width height) stride out.old out.new) }
    ensures done { (result ≡ pos 0) ↔ (player.old.is_open ≡ true) × (format ≤ 6)
        × IsOnScreen (shown_rect x y width height)
        × (pixel_size (pixel_format format) * width ≤ stride)
        × HasPixelRoom (pixel_format format) (shown_rect x y width height) stride (length out.old) }
    ensures answer { (result ≡ pos 0) ⊎ (result ≡ negsuc 0) }
    ensures same { IsUnchanged player.old player.new }
    ensures refused { result ≡ negsuc 0 → out.new ≡ out.old }
{
    let Some(part) = part_of(x, y, width, height) else {
        return NOT_DONE;
    };
    let pixels = pixel_format(format);
    let row = pixels.size() * part.width;
    if !player.is_open || format > 6 || !rows_fit(height, row, stride, out.len()) {
        return NOT_DONE;
    }
    let live = player.handle.lend();
    shown_pixels(live, &part, pixels, out, stride as usize);
    DONE
}

// The format with a number.
fn pixel_format(format: u32) -> PixelFormat
    ensures { result ≡ pixel_format format }
{
    match format {
        1 => PixelFormat::Rgb,
        2 => PixelFormat::Rgba,
        3 => PixelFormat::Bgra,
        4 => PixelFormat::RgbaLevels,
        5 => PixelFormat::BgraLevels,
        6 => PixelFormat::Rgb565,
        _ => PixelFormat::Indexed,
    }
}

// Whether rows of this size do not overlap and fit into a buffer.
fn rows_fit(height: u32, row: usize, stride: u32, room: usize) -> bool
    requires { row < 4294967296 }
    ensures { IsTrue result ↔ (row ≤ stride) × ((j : ℕ) → j < height → j * stride + row ≤ room) }
{
    let stride = stride as usize;
    let height = height as usize;
    row <= stride && (height == 0 || stride * (height - 1) + row <= room)
}

// Writes the pixels of a part of the screen. The clause says what the screen shows of the player's inputs.
fn shown_pixels(
    live: &LivePlayer,
    part: &ScreenPart,
    format: PixelFormat,
    out: &mut [u8],
    stride: usize,
)
    requires part { IsOnScreen part.now }
    requires apart { pixel_size format * part.now.width ≤ stride }
    requires room { HasPixelRoom format part.now stride (length out.old) }
    ensures { PlayersShow (live.now ∷ []) (λ now. ShowsPixels format now part.now stride out.old out.new) }
{
    // These two laws prove the clause.
    live.shows_its_blocks();
    live.shows_its_packs();
    write_pixels(&live.screen, part, format, out, stride);
}
