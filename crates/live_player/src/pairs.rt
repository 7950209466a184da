// The bytes of pixels, two pixels at a time.
ghost use Rattle.std.specs.Prelude.{◌≡◌, ◌<◌, ◌≤◌, ◌+◌, ◌-◌, ◌*◌, nat_le, if◌then◌else◌, ℕ, length, slice_index};
ghost use Rattle.live_player.specs.Formats.{AreFirstPairs, ArePairs, AreColourNumbers, HasFourBytes, HasEightBytes};

use crate::line::write_more;
use cdg_instructions::COLOURS;
use std::simd::prelude::*;

pub(crate) const PAIRS: usize = COLOURS * COLOURS;

// The number of pairs that one round of a loop writes, without a test in between.
const ROUND: usize = 4;

/// The bytes of each two pixels, with `size` bytes each: colours p and q are at place p + 16 q.
pub(crate) fn pairs_of(size: usize, table: &[[u8; 4]; COLOURS]) -> [[u8; 8]; PAIRS]
    requires size { size ≤ 4 }
    requires entries { HasFourBytes table.now }
    ensures { ArePairs size table.now result }
{
    let mut pairs = [[0; 8]; PAIRS];
    for n in 0..PAIRS {
        let two = [(n % COLOURS) as u8, (n / COLOURS) as u8];
        write_more(size, 0, 2, &two, table, &mut pairs[n]);
    }
    pairs
}

/// Writes `size` bytes for each pixel of the first pairs. It is inlined, so that the size is a constant.
#[inline(always)]
pub(crate) fn write_pairs(
    size: usize,
    count: usize,
    pixels: &[u8],
    pairs: &[[u8; 8]; PAIRS],
    line: &mut [u8],
)
    requires size { size ≤ 4 }
    requires count { 2 * count ≤ length pixels.now }
    requires room { (i : ℕ) → i < count → 2 * size * i + 8 ≤ length line.old }
    requires numbers { AreColourNumbers pixels.now }
    requires entries { HasEightBytes pairs.now }
    ensures { AreFirstPairs size count pixels.now pairs.now line.new }
{
    let rounds = count / ROUND;
    for r in 0..rounds {
        write_more_pairs(size, ROUND * r, ROUND, pixels, pairs, line);
    }
    write_more_pairs(size, ROUND * rounds, count % ROUND, pixels, pairs, line);
}

// Writes `size` bytes for each pixel of these pairs, after the bytes of the pairs before them. Eight bytes are written
// at once; the next pair overwrites the surplus.
#[inline(always)]
fn write_more_pairs(
    size: usize,
    from: usize,
    count: usize,
    pixels: &[u8],
    pairs: &[[u8; 8]; PAIRS],
    line: &mut [u8],
)
    requires size { size ≤ 4 }
    requires count { 2 * (from + count) ≤ length pixels.now }
    requires room { (i : ℕ) → i < from + count → 2 * size * i + 8 ≤ length line.old }
    requires numbers { AreColourNumbers pixels.now }
    requires entries { HasEightBytes pairs.now }
    requires before { AreFirstPairs size from pixels.now pairs.now line.old }
    ensures { AreFirstPairs size (from + count) pixels.now pairs.now line.new }
{
    for i in 0..count {
        let first = usize::from(pixels[2 * (from + i)]);
        let second = usize::from(pixels[2 * (from + i) + 1]);
        put_eight(
            line,
            2 * size * (from + i),
            &pairs[first + COLOURS * second],
        );
    }
}

// Writes eight bytes to a place.
#[inline(always)]
fn put_eight(line: &mut [u8], at: usize, eight: &[u8; 8])
    requires room { at + 8 ≤ length line.old }
    requires eight { length eight.now ≡ 8 }
    ensures { (n : ℕ) → n < at + 8 → slice_index line.new n
        ≡ (if nat_le at n then slice_index eight.now (n - at) else slice_index line.old n) }
{
    u8x8::from_array(*eight).copy_to_slice(&mut line[at..at + 8]);
}
