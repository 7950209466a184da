// Conversions between blocks and planar forms with eight rows of lanes. A row has the twelve bytes of a
// channel of a planar form, or every eighth byte of a block.
ghost use Rattle.std.specs.Prelude.{◌≡◌, ◌<◌, ◌≤◌, ◌+◌, ◌-◌, ◌*◌, ◌/◌, ◌%◌, ◌^◌, ◌==◌, ◌&&◌, ℕ, length, slice_index, nat_le, if◌then◌else◌};
ghost use Rattle.bit_lists.specs.Bits.{has_bit};
ghost use Rattle.raw_subcode.specs.Channels.{IsPlanarForm};
ghost use Rattle.raw_subcode.specs.Rows.{AreRows, in_rows};
ghost use Rattle.raw_subcode.specs.Sizes.{block_bytes};

use crate::sizes::BLOCK_BYTES;
use std::simd::prelude::*;

/// The bytes of the block that has this planar form.
#[inline]
pub(crate) fn bytes_from_planar(planar: &[u8; BLOCK_BYTES]) -> [u8; BLOCK_BYTES]
    ensures { IsPlanarForm result planar.now }
{
    side_by_side(turned([
        channel_row(planar, 0),
        channel_row(planar, 1),
        channel_row(planar, 2),
        channel_row(planar, 3),
        channel_row(planar, 4),
        channel_row(planar, 5),
        channel_row(planar, 6),
        channel_row(planar, 7),
    ]))
}

/// The bytes of the planar form of the block with these bytes.
#[inline]
pub(crate) fn bytes_to_planar(bytes: &[u8; BLOCK_BYTES]) -> [u8; BLOCK_BYTES]
    ensures { IsPlanarForm bytes.now result }
{
    one_after_another(turned(place_rows(bytes)))
}

// The twelve bytes of a channel in a planar form, and four further bytes.
#[inline]
fn channel_row(planar: &[u8], channel: usize) -> u8x16
    requires planar { length planar.now ≡ block_bytes }
    requires channel { channel < 8 }
    ensures size { length result ≡ 16 }
    ensures lanes { (k : ℕ) → k < 12 → slice_index result k ≡ slice_index planar.now (12 * channel + k) }
{
    if channel < 7 {
        u8x16::from_slice(&planar[12 * channel..])
    } else {
        u8x16::from_slice(&planar[80..]).rotate_elements_left::<4>()
    }
}

// The rows with their bits transposed: in each lane, bit w of row r is bit r of the old row w, counted from
// the highest bit.
#[inline]
fn turned(rows: [u8x16; 8]) -> [u8x16; 8]
    requires { AreRows rows }
    ensures rows { AreRows result }
    ensures bits { (r w i : ℕ) → r < 8 → w < 8 → i < 16
        → has_bit (7 - w) (in_rows result r i) ≡ has_bit (7 - r) (in_rows rows w i) }
{
    let (a0, a4) = exchanged(rows[0], rows[4], 4, 0x0f);
    let (a1, a5) = exchanged(rows[1], rows[5], 4, 0x0f);
    let (a2, a6) = exchanged(rows[2], rows[6], 4, 0x0f);
    let (a3, a7) = exchanged(rows[3], rows[7], 4, 0x0f);
    let (b0, b2) = exchanged(a0, a2, 2, 0x33);
    let (b1, b3) = exchanged(a1, a3, 2, 0x33);
    let (b4, b6) = exchanged(a4, a6, 2, 0x33);
    let (b5, b7) = exchanged(a5, a7, 2, 0x33);
    let (c0, c1) = exchanged(b0, b1, 1, 0x55);
    let (c2, c3) = exchanged(b2, b3, 1, 0x55);
    let (c4, c5) = exchanged(b4, b5, 1, 0x55);
    let (c6, c7) = exchanged(b6, b7, 1, 0x55);
    [c0, c1, c2, c3, c4, c5, c6, c7]
}

// Exchanges the bits of `upper` that are in the mask and the bits of `lower` that are `places` higher.
#[inline]
fn exchanged(upper: u8x16, lower: u8x16, places: u8, mask: u8) -> (u8x16, u8x16)
    requires upper { length upper ≡ 16 }
    requires lower { length lower ≡ 16 }
    requires places { places < 8 }
    requires within { mask * 2 ^ places < 256 }
    ensures upper_size { length result.0 ≡ 16 }
    ensures lower_size { length result.1 ≡ 16 }
    ensures upper { (b i : ℕ) → i < 16 → has_bit b (slice_index result.0 i)
        ≡ (if has_bit b mask then has_bit (places + b) (slice_index lower i)
        else has_bit b (slice_index upper i)) }
    ensures lower { (b i : ℕ) → i < 16 → has_bit b (slice_index result.1 i)
        ≡ (if nat_le places b && has_bit (b - places) mask then has_bit (b - places) (slice_index upper i)
        else has_bit b (slice_index lower i)) }
{
    let by = u8x16::splat(places);
    let other = (upper ^ (lower >> by)) & u8x16::splat(mask);
    (upper ^ other, lower ^ (other << by))
}

// The first twelve lanes of eight rows, lane by lane.
#[inline]
fn side_by_side(rows: [u8x16; 8]) -> [u8; BLOCK_BYTES]
    requires { AreRows rows }
    ensures { (n : ℕ) → n < block_bytes → slice_index result n ≡ in_rows rows (n % 8) (n / 8) }
{
    let (a0, a1) = woven(rows[0], rows[4]);
    let (b0, b1) = woven(rows[1], rows[5]);
    let (c0, c1) = woven(rows[2], rows[6]);
    let (d0, d1) = woven(rows[3], rows[7]);
    let (e0, e1) = woven(a0, c0);
    let (f0, f1) = woven(b0, d0);
    let (e2, _) = woven(a1, c1);
    let (f2, _) = woven(b1, d1);
    let mut bytes = [0; BLOCK_BYTES];
    put_woven(&mut bytes, 0, e0, f0);
    put_woven(&mut bytes, 1, e1, f1);
    put_woven(&mut bytes, 2, e2, f2);
    bytes
}

// Writes the lanes of two rows alternately, from byte 32 * k on.
#[inline]
fn put_woven(bytes: &mut [u8], k: usize, even: u8x16, odd: u8x16)
    requires bytes { length bytes.old ≡ block_bytes }
    requires place { k < 3 }
    requires even { length even ≡ 16 }
    requires odd { length odd ≡ 16 }
    ensures here { (n : ℕ) → n < block_bytes → n / 32 ≡ k
        → slice_index bytes.new n ≡ slice_index (if n % 2 == 0 then even else odd) (n % 32 / 2) }
    ensures elsewhere { (n : ℕ) → n < 32 * k → slice_index bytes.new n ≡ slice_index bytes.old n }
{
    let (first, second) = woven(even, odd);
    first.copy_to_slice(&mut bytes[32 * k..]);
    second.copy_to_slice(&mut bytes[32 * k + 16..]);
}

// The lanes of two rows alternately: those of the first halves, and those of the second halves.
#[inline]
fn woven(even: u8x16, odd: u8x16) -> (u8x16, u8x16)
    requires even { length even ≡ 16 }
    requires odd { length odd ≡ 16 }
    ensures first_size { length result.0 ≡ 16 }
    ensures second_size { length result.1 ≡ 16 }
    ensures first { (i : ℕ) → i < 16
        → slice_index result.0 i ≡ slice_index (if i % 2 == 0 then even else odd) (i / 2) }
    ensures second { (i : ℕ) → i < 16
        → slice_index result.1 i ≡ slice_index (if i % 2 == 0 then even else odd) (8 + i / 2) }
{
    even.interleave(odd)
}

// Row j has every eighth byte of a block, from byte j on: twelve bytes, and then four zeros.
#[inline]
fn place_rows(bytes: &[u8]) -> [u8x16; 8]
    requires { length bytes.now ≡ block_bytes }
    ensures rows { AreRows result }
    ensures lanes { (j k : ℕ) → j < 8 → k < 12 → in_rows result j k ≡ slice_index bytes.now (8 * k + j) }
{
    let zeros = u8x16::splat(0);
    let (a0, a1) = woven(sixteen(bytes, 0), sixteen(bytes, 4));
    let (b0, b1) = woven(sixteen(bytes, 1), sixteen(bytes, 5));
    let (c0, c1) = woven(sixteen(bytes, 2), zeros);
    let (d0, d1) = woven(sixteen(bytes, 3), zeros);
    let (e0, e2) = woven(a0, c0);
    let (e1, e3) = woven(a1, c1);
    let (f0, f2) = woven(b0, d0);
    let (f1, f3) = woven(b1, d1);
    let (g0, g2) = woven(e0, f0);
    let (g4, g6) = woven(e2, f2);
    let (g1, g3) = woven(e1, f1);
    let (g5, g7) = woven(e3, f3);
    let (h0, h1) = woven(g0, g1);
    let (h2, h3) = woven(g2, g3);
    let (h4, h5) = woven(g4, g5);
    let (h6, h7) = woven(g6, g7);
    [h0, h1, h2, h3, h4, h5, h6, h7]
}

// Sixteen bytes of a block, from byte 16 * m on.
#[inline]
fn sixteen(bytes: &[u8], m: usize) -> u8x16
    requires bytes { length bytes.now ≡ block_bytes }
    requires place { m < 6 }
    ensures size { length result ≡ 16 }
    ensures lanes { (p : ℕ) → p < 16 → slice_index result p ≡ slice_index bytes.now (16 * m + p) }
{
    u8x16::from_slice(&bytes[16 * m..])
}

// The first twelve lanes of each of eight rows, row after row.
#[inline]
fn one_after_another(rows: [u8x16; 8]) -> [u8; BLOCK_BYTES]
    requires { AreRows rows }
    ensures { (n : ℕ) → n < block_bytes → slice_index result n ≡ in_rows rows (n / 12) (n % 12) }
{
    let mut bytes = [0; BLOCK_BYTES];
    for r in 0..7 {
        put_row(&mut bytes, 12 * r, rows[r]);
    }
    put_row(&mut bytes, 80, last_sixteen(rows[6], rows[7]));
    bytes
}

#[inline]
fn put_row(bytes: &mut [u8], first: usize, row: u8x16)
    requires bytes { length bytes.old ≡ block_bytes }
    requires first { first ≤ 80 }
    requires row { length row ≡ 16 }
    ensures here { (n : ℕ) → first ≤ n → n < first + 16
        → slice_index bytes.new n ≡ slice_index row (n - first) }
    ensures before { (n : ℕ) → n < first → slice_index bytes.new n ≡ slice_index bytes.old n }
{
    row.copy_to_slice(&mut bytes[first..]);
}

// Lanes 8 to 11 of a row, and lanes 0 to 11 of the next row.
#[inline]
fn last_sixteen(row: u8x16, next: u8x16) -> u8x16
    requires row { length row ≡ 16 }
    requires next { length next ≡ 16 }
    ensures size { length result ≡ 16 }
    ensures four { (i : ℕ) → i < 4 → slice_index result i ≡ slice_index row (8 + i) }
    ensures twelve { (i : ℕ) → i < 12 → slice_index result (4 + i) ≡ slice_index next i }
{
    row.shuffle(
        next,
        [8, 9, 10, 11, 16, 17, 18, 19, 20, 21, 22, 23, 24, 25, 26, 27],
    )
}
