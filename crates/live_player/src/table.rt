// The bytes of each colour of the table.
ghost use Rattle.std.specs.Prelude.{◌≡◌, ◌<◌, length, take};
ghost use Rattle.cdg_instructions.specs.Sizes.{colour_values, level_values};
ghost use Rattle.cdg_screen.specs.Memory.{seen};
ghost use Rattle.live_player.specs.Formats.{opacity, packed_colour, pixel_bytes, pixel_size, HasFourBytes, HasColours};

use crate::format::PixelFormat;
use cdg_instructions::COLOURS;
use cdg_screen::PlainScreen;

/// The bytes of a pixel of each colour, padded with zeros.
pub(crate) fn table_of(screen: &PlainScreen, format: PixelFormat) -> [[u8; 4]; COLOURS]
    ensures size { length result ≡ 16 }
    ensures sizes { HasFourBytes result }
    ensures bytes { HasColours format (seen screen.now) result }
{
    // Each format has its own loop, which the compiler can specialize.
    match format {
        PixelFormat::Indexed => entries(screen, PixelFormat::Indexed),
        PixelFormat::Rgb => entries(screen, PixelFormat::Rgb),
        PixelFormat::Rgba => entries(screen, PixelFormat::Rgba),
        PixelFormat::Bgra => entries(screen, PixelFormat::Bgra),
        PixelFormat::RgbaLevels => entries(screen, PixelFormat::RgbaLevels),
        PixelFormat::BgraLevels => entries(screen, PixelFormat::BgraLevels),
        PixelFormat::Rgb565 => entries(screen, PixelFormat::Rgb565),
    }
}

// The bytes of a pixel of each colour in one format. It is inlined, so that the format is a constant.
#[inline(always)]
fn entries(screen: &PlainScreen, format: PixelFormat) -> [[u8; 4]; COLOURS]
    ensures size { length result ≡ 16 }
    ensures sizes { HasFourBytes result }
    ensures bytes { HasColours format (seen screen.now) result }
{
    let mut table = [[0; 4]; COLOURS];
    for p in 0..COLOURS {
        let number = p as u8;
        table[p] = entry(format, number, screen.colour(number), screen.level(number));
    }
    table
}

// The bytes of a pixel with this colour number, colour and level, padded with zeros.
#[inline(always)]
fn entry(format: PixelFormat, number: u8, colour: u16, level: u8) -> [u8; 4]
    requires colour { colour < colour_values }
    requires level { level < level_values }
    ensures bytes { take (pixel_size format) result ≡ pixel_bytes format number colour level }
    ensures size { length result ≡ 4 }
{
    let red = 17 * (colour / 256) as u8;
    let green = 17 * (colour / 16 % 16) as u8;
    let blue = 17 * (colour % 16) as u8;
    match format {
        PixelFormat::Indexed => [number, 0, 0, 0],
        PixelFormat::Rgb => [red, green, blue, 0],
        PixelFormat::Rgba => [red, green, blue, 255],
        PixelFormat::Bgra => [blue, green, red, 255],
        PixelFormat::RgbaLevels => [red, green, blue, opacity(level)],
        PixelFormat::BgraLevels => [blue, green, red, opacity(level)],
        PixelFormat::Rgb565 => {
            let packed = packed(colour);
            [(packed % 256) as u8, (packed / 256) as u8, 0, 0]
        }
    }
}

// The opacity of a level.
fn opacity(level: u8) -> u8
    requires { level < level_values }
    ensures { result ≡ opacity level }
{
    255 - (4 * level + level / 16)
}

// A colour as a number of sixteen bits: the highest five of its red, six of its green and five of its blue.
fn packed(colour: u16) -> u16
    requires { colour < colour_values }
    ensures { result ≡ packed_colour colour }
{
    let red = 17 * (colour / 256);
    let green = 17 * (colour / 16 % 16);
    let blue = 17 * (colour % 16);
    2048 * (red / 8) + 32 * (green / 4) + blue / 8
}
