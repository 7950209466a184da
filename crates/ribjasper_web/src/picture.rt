// Pixels of the screen.
ghost use Rattle.std.specs.Prelude.{◌≡◌, ◌<◌, ◌/◌, ◌%◌, ℕ, slice_index};
ghost use Rattle.cdg_instructions.specs.Sizes.{colour_values, screen_pixels, screen_width};
ghost use Rattle.cdg_screen.specs.Memory.{seen};
ghost use Rattle.cdg_screen.specs.Standing.{screen_pixel};
ghost use Rattle.live_player.specs.Formats.{ShowsPixels};
ghost use Rattle.live_player.specs.Lives.{standing_on};
ghost use Rattle.live_player.specs.Plain.{player_of};
ghost use Rattle.ribjasper_web.specs.Shown.{IsShown, opaque, opaque_pixel, picture_stride, web_format, whole_screen};

use cdg_instructions::{SCREEN_HEIGHT, SCREEN_PIXELS, SCREEN_WIDTH};
use cdg_screen::PlainScreen;
use live_player::{PixelFormat, PlainPlayer, ScreenPart, write_pixels};

#[repr(C)]
#[derive(Clone, Copy)]
pub struct WebShown {
    /// The colours, each as 0xRGB.
    pub colours: [u16; 16],
    /// The transparency of the colours, 0 to 63.
    pub levels: [u8; 16],
    pub border: u8,
    /// How many pixels further right in the memory the screen begins, 0 to 5.
    pub h: u8,
    /// How many pixels further down, 0 to 11.
    pub v: u8,
}

/// Writes the screen's pixels row by row, each as a number whose bytes, the lowest first, are red, green, blue and 255.
#[unsafe(no_mangle)]
pub extern "C" fn ribjasper_web_picture(player: &PlainPlayer, pixels: &mut [u32; SCREEN_PIXELS])
    ensures { (n : ℕ) → n < screen_pixels
        → slice_index pixels.new n ≡ opaque_pixel (standing_on (player_of player.now)) n }
{
    let screen = &player.screen;
    let table = opaque_colours(screen);
    let mut row = [0; SCREEN_WIDTH];
    for y in 0..SCREEN_HEIGHT {
        screen.write_row(y, &mut row);
        for x in 0..SCREEN_WIDTH {
            pixels[SCREEN_WIDTH * y + x] = table[usize::from(row[x])];
        }
    }
}

/// Writes the screen's pixels row by row, each as four bytes: red, green, blue, and the opacity of its colour's level,
/// or 255 if `levels` is 0.
#[unsafe(no_mangle)]
pub extern "C" fn ribjasper_web_pixels(
    player: &PlainPlayer,
    levels: u32,
    pixels: &mut [u8; 4 * SCREEN_PIXELS],
)
    ensures { ShowsPixels (web_format levels) (standing_on (player_of player.now)) whole_screen picture_stride
        pixels.old pixels.new }
{
    let whole = ScreenPart {
        left: 0,
        top: 0,
        width: SCREEN_WIDTH,
        height: SCREEN_HEIGHT,
    };
    let format = if levels == 0 {
        PixelFormat::Rgba
    } else {
        PixelFormat::RgbaLevels
    };
    write_pixels(&player.screen, &whole, format, pixels, 4 * SCREEN_WIDTH);
}

/// Writes the colour numbers of the screen's pixels, row by row.
#[unsafe(no_mangle)]
pub extern "C" fn ribjasper_web_screen(player: &PlainPlayer, pixels: &mut [u8; SCREEN_PIXELS])
    ensures { (n : ℕ) → n < screen_pixels → slice_index pixels.new n
        ≡ screen_pixel (standing_on (player_of player.now)) (n % screen_width) (n / screen_width) }
{
    let mut row = [0; SCREEN_WIDTH];
    for y in 0..SCREEN_HEIGHT {
        player.screen.write_row(y, &mut row);
        for x in 0..SCREEN_WIDTH {
            pixels[SCREEN_WIDTH * y + x] = row[x];
        }
    }
}

/// Writes the colours, levels, border and offsets of the screen.
#[unsafe(no_mangle)]
pub extern "C" fn ribjasper_web_shown(player: &PlainPlayer, shown: &mut WebShown)
    ensures { IsShown (standing_on (player_of player.now)) shown.new }
{
    let screen = &player.screen;
    for k in 0..16 {
        shown.colours[k] = screen.colour(k as u8);
    }
    for k in 0..16 {
        shown.levels[k] = screen.level(k as u8);
    }
    shown.border = screen.border();
    shown.h = screen.offset_h();
    shown.v = screen.offset_v();
}

// The colours of the table as pixels of the picture.
fn opaque_colours(screen: &PlainScreen) -> [u32; 16]
    ensures { (k : ℕ) → k < 16 → slice_index result k ≡ opaque (slice_index (seen screen.now).colours k) }
{
    let mut table = [0; 16];
    for k in 0..16 {
        table[k] = opaque(screen.colour(k as u8));
    }
    table
}

// A colour as a number whose bytes are red, green, blue and 255.
#[tactic(auto, unfolding(crate::specs::Shown::opaque))]
fn opaque(colour: u16) -> u32
    requires { colour < colour_values }
    ensures { result ≡ opaque colour }
{
    let colour = u32::from(colour);
    17 * (colour / 256)
        + 256 * (17 * (colour / 16 % 16))
        + 65_536 * (17 * (colour % 16))
        + 0xff00_0000
}
