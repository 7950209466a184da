// Rows of pixels as bytes.
ghost use Rattle.std.specs.Prelude.{◌≡◌, ◌<◌, ◌≤◌, ◌+◌, ◌-◌, ◌*◌, nat_le, if◌then◌else◌, ℕ, IfSome, length, slice_index};
ghost use Rattle.live_player.specs.Formats.{AreFirstBytes, AreLineBytes, ArePairs, AreColourNumbers, HasFourBytes};

use crate::pairs::{PAIRS, write_pairs};
use cdg_instructions::COLOURS;
use std::simd::prelude::*;

/// Writes two or three bytes for each pixel. It is inlined, so that the size is a constant.
#[inline(always)]
pub(crate) fn write_few(
    size: usize,
    pixels: &[u8],
    table: &[[u8; 4]; COLOURS],
    pairs: Option<&[[u8; 8]; PAIRS]>,
    line: &mut [u8],
)
    requires least { 2 ≤ size }
    requires most { size ≤ 3 }
    requires size { length line.old ≡ size * length pixels.now }
    requires numbers { AreColourNumbers pixels.now }
    requires entries { HasFourBytes table.now }
    requires pairs { IfSome pairs (λ pairs. ArePairs size table.now pairs.now) }
    ensures { AreLineBytes size pixels.now table.now line.new }
{
    if pixels.is_empty() {
        return;
    }
    let last = pixels.len() - 1;
    let paired = last.saturating_sub(1) / 2;
    write_first(size, paired, last, pixels, table, pairs, line);
    let last_colour = usize::from(pixels[last]);
    put_front(line, size * last, size, &table[last_colour]);
}

/// Writes four bytes for each pixel.
pub(crate) fn write_fours(
    pixels: &[u8],
    table: &[[u8; 4]; COLOURS],
    pairs: Option<&[[u8; 8]; PAIRS]>,
    line: &mut [u8],
)
    requires size { length line.old ≡ 4 * length pixels.now }
    requires numbers { AreColourNumbers pixels.now }
    requires entries { HasFourBytes table.now }
    requires pairs { IfSome pairs (λ pairs. ArePairs 4 table.now pairs.now) }
    ensures { AreLineBytes 4 pixels.now table.now line.new }
{
    let count = pixels.len();
    write_first(4, count / 2, count, pixels, table, pairs, line);
}

// Writes `size` bytes for each of the first pixels, two pixels at a time if there is a table of pairs. It is inlined,
// so that the size is a constant.
#[inline(always)]
fn write_first(
    size: usize,
    paired: usize,
    count: usize,
    pixels: &[u8],
    table: &[[u8; 4]; COLOURS],
    pairs: Option<&[[u8; 8]; PAIRS]>,
    line: &mut [u8],
)
    requires size { size ≤ 4 }
    requires paired { 2 * paired ≤ count }
    requires count { count ≤ length pixels.now }
    requires room { size * count + 4 ≤ length line.old + size }
    requires pair_room { (i : ℕ) → i < paired → 2 * size * i + 8 ≤ length line.old }
    requires numbers { AreColourNumbers pixels.now }
    requires entries { HasFourBytes table.now }
    requires pairs { IfSome pairs (λ pairs. ArePairs size table.now pairs.now) }
    ensures { AreFirstBytes size count pixels.now table.now line.new }
{
    match pairs {
        Some(pairs) => {
            write_pairs(size, paired, pixels, pairs, line);
            write_more(size, 2 * paired, count - 2 * paired, pixels, table, line);
        }
        None => write_more(size, 0, count, pixels, table, line),
    }
}

/// Writes `size` bytes for each of these pixels, after the bytes of the pixels before them. Four bytes are written at
/// once; the next pixel overwrites the surplus.
#[inline(always)]
pub(crate) fn write_more(
    size: usize,
    from: usize,
    count: usize,
    pixels: &[u8],
    table: &[[u8; 4]; COLOURS],
    line: &mut [u8],
)
    requires size { size ≤ 4 }
    requires count { from + count ≤ length pixels.now }
    requires room { size * (from + count) + 4 ≤ length line.old + size }
    requires numbers { AreColourNumbers pixels.now }
    requires entries { HasFourBytes table.now }
    requires before { AreFirstBytes size from pixels.now table.now line.old }
    ensures { AreFirstBytes size (from + count) pixels.now table.now line.new }
{
    for i in 0..count {
        let colour = usize::from(pixels[from + i]);
        put_four(line, size * (from + i), &table[colour]);
    }
}

// Writes the first `size` of four bytes to a place.
#[inline(always)]
fn put_front(line: &mut [u8], at: usize, size: usize, four: &[u8; 4])
    requires size { size ≤ 4 }
    requires room { at + size ≤ length line.old }
    requires four { length four.now ≡ 4 }
    ensures { (n : ℕ) → n < at + size → slice_index line.new n
        ≡ (if nat_le at n then slice_index four.now (n - at) else slice_index line.old n) }
{
    line[at..at + size].copy_from_slice(&four[..size]);
}

// Writes four bytes to a place.
#[inline(always)]
fn put_four(line: &mut [u8], at: usize, four: &[u8; 4])
    requires room { at + 4 ≤ length line.old }
    requires four { length four.now ≡ 4 }
    ensures { (n : ℕ) → n < at + 4 → slice_index line.new n
        ≡ (if nat_le at n then slice_index four.now (n - at) else slice_index line.old n) }
{
    // The four bytes are stored as one number: `copy_from_slice` would first test for overlap.
    u8x4::from_array(*four).copy_to_slice(&mut line[at..at + 4]);
}
