// The words that a block completes after seven slots, computed from sixteen symbols at a time.
ghost use Rattle.std.specs.Prelude.{◌≡◌, ◌<◌, ◌≤◌, ◌+◌, ◌%◌, ◌/◌, ◌==◌, if◌then◌else◌, ◌++◌, drop, length, map, slice_index, take};
ghost use Rattle.bit_lists.specs.Counting.{below};
ghost use Rattle.raw_subcode.specs.Sizes.{slots_a_block};
ghost use Rattle.rw_code.specs.Sizes.{word_symbols};
ghost use Rattle.rw_interleave.specs.Gathering.{gathered};
ghost use Rattle.rw_interleave.specs.Interleave.{span, swapped};
ghost use Rattle.rw_interleave.specs.Windows.{four_in, row_bytes, slots_in, sloping_in};

use crate::gather::{BEFORE_BYTES, EARLY_BYTES};
use arrayvec::ArrayVec;
use raw_subcode::{BLOCK_BYTES, SLOTS_A_BLOCK};
use rw_code::Word;
use std::simd::prelude::*;

// The word of these symbols: `outer` has positions 0 to 7 and 16 to 23, and the first eight of `middle` are
// positions 8 to 15. Positions 1 and 18, 2 and 5, 3 and 23 are exchanged (`swapped`).
#[inline(always)]
pub(crate) fn word(outer: u8x16, middle: u8x16) -> Word
    requires outer { length outer ≡ 16 }
    requires middle { length middle ≡ 16 }
    ensures { result ≡ map
        (λ i. slice_index (take 8 outer ++ (take 8 middle ++ drop 8 outer)) (swapped i) % 64)
        (below word_symbols) }
{
    let outer = outer.swizzle([0, 10, 5, 15, 4, 2, 6, 7, 8, 9, 1, 11, 12, 13, 14, 3])
        % u8x16::splat(64);
    let middle = middle.extract::<0, 8>() % u8x8::splat(64);
    let mut low = [0; 8];
    let mut between = [0; 8];
    let mut high = [0; 8];
    outer.extract::<0, 8>().copy_to_slice(&mut low);
    middle.copy_to_slice(&mut between);
    outer.extract::<8, 8>().copy_to_slice(&mut high);
    Word::of_eights(low, between, high)
}

// Four bytes from each of four places on. Each byte is one slot and one place after the previous one.
#[inline(always)]
pub(crate) fn turned(
    early: &[u8; EARLY_BYTES],
    late: &[u8; BLOCK_BYTES],
    block: &[u8; BLOCK_BYTES],
    a: usize,
    b: usize,
    c: usize,
    d: usize,
) -> u8x16
    requires fours { (a % 4 ≡ 0) × (b % 4 ≡ 0) × (c % 4 ≡ 0) × (d % 4 ≡ 0) }
    requires within { (a + 76 ≤ row_bytes) × (b + 76 ≤ row_bytes) × (c + 76 ≤ row_bytes)
        × (d + 76 ≤ row_bytes) }
    ensures size { length result ≡ 16 }
    ensures lanes { result ≡ sloping_in (early.now ++ (late.now ++ block.now)) a
        ++ (sloping_in (early.now ++ (late.now ++ block.now)) b
        ++ (sloping_in (early.now ++ (late.now ++ block.now)) c
        ++ sloping_in (early.now ++ (late.now ++ block.now)) d)) }
{
    let zeroth = fours(early, late, block, a, b, c, d);
    let first = fours(early, late, block, a + 24, b + 24, c + 24, d + 24);
    let second = fours(early, late, block, a + 48, b + 48, c + 48, d + 48);
    let third = fours(early, late, block, a + 72, b + 72, c + 72, d + 72);
    by_twos(by_ones(zeroth, first), by_ones(second, third))
}

// The even lanes of one vector and the odd lanes of the other, each at its place.
#[inline(always)]
fn by_ones(even: u8x16, odd: u8x16) -> u8x16
    requires even { length even ≡ 16 }
    requires odd { length odd ≡ 16 }
    ensures size { length result ≡ 16 }
    ensures lanes { result ≡ map (λ i. slice_index (if i % 2 == 0 then even else odd) i) (below 16) }
{
    even.shuffle(
        odd,
        [0, 17, 2, 19, 4, 21, 6, 23, 8, 25, 10, 27, 12, 29, 14, 31],
    )
}

// Alternately two lanes of one vector and two lanes of the other, each at its place.
#[inline(always)]
fn by_twos(even: u8x16, odd: u8x16) -> u8x16
    requires even { length even ≡ 16 }
    requires odd { length odd ≡ 16 }
    ensures size { length result ≡ 16 }
    ensures lanes { result ≡ map (λ i. slice_index (if i / 2 % 2 == 0 then even else odd) i) (below 16) }
{
    even.shuffle(
        odd,
        [0, 1, 18, 19, 4, 5, 22, 23, 8, 9, 26, 27, 12, 13, 30, 31],
    )
}

// Four adjacent bytes from each of four places on.
#[inline(always)]
fn fours(
    early: &[u8; EARLY_BYTES],
    late: &[u8; BLOCK_BYTES],
    block: &[u8; BLOCK_BYTES],
    a: usize,
    b: usize,
    c: usize,
    d: usize,
) -> u8x16
    requires fours { (a % 4 ≡ 0) × (b % 4 ≡ 0) × (c % 4 ≡ 0) × (d % 4 ≡ 0) }
    requires within { (a + 4 ≤ row_bytes) × (b + 4 ≤ row_bytes) × (c + 4 ≤ row_bytes) × (d + 4 ≤ row_bytes) }
    ensures size { length result ≡ 16 }
    ensures lanes { result ≡ four_in (early.now ++ (late.now ++ block.now)) a
        ++ (four_in (early.now ++ (late.now ++ block.now)) b
        ++ (four_in (early.now ++ (late.now ++ block.now)) c
        ++ four_in (early.now ++ (late.now ++ block.now)) d)) }
{
    let low = eight(four(early, late, block, a), four(early, late, block, b));
    let high = eight(four(early, late, block, c), four(early, late, block, d));
    low.shuffle(high, [0, 1, 2, 3, 4, 5, 6, 7, 8, 9, 10, 11, 12, 13, 14, 15])
}

// Two vectors side by side.
#[inline(always)]
fn eight(low: u8x4, high: u8x4) -> u8x8
    requires low { length low ≡ 4 }
    requires high { length high ≡ 4 }
    ensures size { length result ≡ 8 }
    ensures lanes { result ≡ low ++ high }
{
    low.shuffle(high, [0, 1, 2, 3, 4, 5, 6, 7])
}

// Four adjacent bytes of the last seven slots and the block after them. All four are in one of the three
// arrays, since `at` and the lengths of the arrays are multiples of four.
#[inline(always)]
fn four(
    early: &[u8; EARLY_BYTES],
    late: &[u8; BLOCK_BYTES],
    block: &[u8; BLOCK_BYTES],
    at: usize,
) -> u8x4
    requires four { at % 4 ≡ 0 }
    requires within { at + 4 ≤ row_bytes }
    ensures size { length result ≡ 4 }
    ensures lanes { result ≡ four_in (early.now ++ (late.now ++ block.now)) at }
{
    if at < EARLY_BYTES {
        return u8x4::from_slice(&early[at..]);
    }
    if at < BEFORE_BYTES {
        return u8x4::from_slice(&late[at - EARLY_BYTES..]);
    }
    u8x4::from_slice(&block[at - BEFORE_BYTES..])
}
