// The formats of pixels.
ghost use Rattle.std.specs.Prelude.{◌≡◌, ◌≤◌};
ghost use Rattle.live_player.specs.Formats.{pixel_size};

/// The format of a pixel.
#[derive(Clone, Copy)]
pub enum PixelFormat {
    /// A byte: the number of its colour, 0 to 15.
    Indexed,
    /// Three bytes: red, green and blue.
    Rgb,
    /// Four bytes: red, green, blue and 255.
    Rgba,
    /// Four bytes: blue, green, red and 255.
    Bgra,
    /// Four bytes: red, green, blue and the opacity that the level of its colour gives.
    RgbaLevels,
    /// Four bytes: blue, green, red and the opacity that the level of its colour gives.
    BgraLevels,
    /// Two bytes, the low one first: five bits of red, six of green and five of blue.
    Rgb565,
}

impl PixelFormat {
    /// The number of bytes in a pixel.
    pub fn size(self) -> usize
        ensures size { result ≡ pixel_size self }
        ensures range { (1 ≤ result) × (result ≤ 4) }
    {
        match self {
            PixelFormat::Indexed => 1,
            PixelFormat::Rgb565 => 2,
            PixelFormat::Rgb => 3,
            PixelFormat::Rgba
            | PixelFormat::Bgra
            | PixelFormat::RgbaLevels
            | PixelFormat::BgraLevels => 4,
        }
    }
}
