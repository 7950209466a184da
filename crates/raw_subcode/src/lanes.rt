// Eight bytes side by side in one number.
ghost use Rattle.std.specs.Prelude.{◌≡◌, ◌<◌, ◌≤◌, ◌+◌, ◌-◌, ◌%◌, ℕ, slice_index, All};
ghost use Rattle.bit_lists.specs.Bits.{has_bit};
ghost use Rattle.raw_subcode.specs.Channels.{channel_bit};
ghost use Rattle.raw_subcode.specs.Lanes.{in_lanes};

use crate::lane_table::LANES;
use crate::sizes::BLOCK_BYTES;

/// Eight bytes of a block. Each has this P bit, a bit of `q` as its Q bit (the highest first), and a symbol,
/// from symbol `first` on.
#[inline]
pub(crate) fn built(p: bool, q: u8, symbols: &[u8; BLOCK_BYTES], first: usize) -> [u8; 8]
    requires first { first ≤ 88 }
    requires symbols { All (λ s. s < 64) symbols.now }
    ensures p { (j : ℕ) → j < 8 → channel_bit 0 (slice_index result j) ≡ p }
    ensures q { (j : ℕ) → j < 8 → channel_bit 1 (slice_index result j) ≡ has_bit (7 - j) q }
    ensures symbol { (j : ℕ) → j < 8
        → slice_index result j % 64 ≡ slice_index symbols.now (first + j) }
{
    let eight = eight_bytes(symbols, first);
    let p_bits = 0x8080_8080_8080_8080 * u64::from(p);
    let q_bits = 64 * LANES[usize::from(q)];
    (p_bits + q_bits + eight).to_le_bytes()
}

/// Eight bytes of a block as one number, from byte `first` on, which becomes the lowest byte.
#[inline]
pub(crate) fn eight_bytes(bytes: &[u8; BLOCK_BYTES], first: usize) -> u64
    requires { first ≤ 88 }
    ensures { result ≡ in_lanes 8 (λ j. slice_index bytes.now (first + j)) }
{
    u64::from_le_bytes([
        bytes[first],
        bytes[first + 1],
        bytes[first + 2],
        bytes[first + 3],
        bytes[first + 4],
        bytes[first + 5],
        bytes[first + 6],
        bytes[first + 7],
    ])
}
