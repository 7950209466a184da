// A tile: 6 by 12 numbers of colours.
ghost use Rattle.std.specs.Prelude.{◌≡◌, ◌<◌, ℕ, List, slice_index, All, MatchOption};
ghost use Rattle.cdg_instructions.specs.Instruction.{IsTilePixels};
ghost use Rattle.cdg_instructions.specs.Sizes.{tile_pixels};

use crate::sizes::{TILE_HEIGHT, TILE_WIDTH};
use std::marker::Model;

/// How many pixels a tile has: twelve lines of six.
pub const PIXELS: usize = TILE_WIDTH * TILE_HEIGHT;

/// A tile: 72 colour numbers below 16, line by line from the left.
#[derive(Clone, Copy, PartialEq, Eq, Debug)]
pub struct Tile {
    pixels: [u8; PIXELS],
}

impl Model for Tile {
    ghost Value = { List ℕ };

    ghost view = { λ t. t.pixels };

    ghost invariant = { λ t. IsTilePixels t.pixels };

    ghost inverse = { λ pixels. record { pixels = pixels } };
}

impl Tile {
    /// The tile of these numbers if all are below 16.
    pub fn new(pixels: &[u8; PIXELS]) -> Option<Tile>
        ensures { MatchOption result
            (¬ All (λ pixel. pixel < 16) pixels.now)
            (λ t. All (λ pixel. pixel < 16) pixels.now × (t ≡ pixels.now)) }
    {
        // No early exit, so that the loop can be vectorized.
        let mut are_colours = true;
        for pixel in pixels {
            are_colours &= *pixel < 16;
        }
        if are_colours {
            Some(Tile { pixels: *pixels })
        } else {
            None
        }
    }

    /// The colour number of pixel `i`, which is below 72.
    #[inline]
    pub fn get(&self, i: usize) -> u8
        requires { i < tile_pixels }
        ensures same { result ≡ slice_index self.now i }
        ensures below { result < 16 }
    {
        self.pixels[i]
    }

    /// The colour numbers of all pixels.
    #[inline]
    pub fn pixels(&self) -> &[u8; PIXELS]
        ensures same { result.now ≡ self.now }
        ensures tile { IsTilePixels result.now }
    {
        &self.pixels
    }
}
