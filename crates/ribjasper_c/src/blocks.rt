// Forms of blocks, the check of a text pack, and the symbols of a text pack.
ghost use Rattle.std.specs.Prelude.{◌≡◌, if◌then◌else◌, pos, All, ◌<◌, ℕ, [], drop, length, slice_index_or};
ghost use Rattle.cdtext_packs.specs.Packs.{check_matches};
ghost use Rattle.raw_subcode.specs.Channels.{IsPlanarForm, symbol_bits};
ghost use Rattle.bit_lists.specs.Bits.{bits_of_bytes, numbers_of};

use bit_lists::crc16;
use raw_subcode::{BLOCK_BYTES, Block, SYMBOLS_A_SLOT, text_symbols};

/// Writes the planar form of a block.
#[unsafe(no_mangle)]
pub extern "C" fn ribjasper_block_to_planar(
    block: &[u8; BLOCK_BYTES],
    planar: &mut [u8; BLOCK_BYTES],
)
    ensures form { IsPlanarForm block.now planar.new }
    ensures small { All (λ b. b < 256) planar.new }
{
    *planar = Block::from_bytes(block).to_planar();
}

/// Writes the block with a planar form.
#[unsafe(no_mangle)]
pub extern "C" fn ribjasper_block_from_planar(
    planar: &[u8; BLOCK_BYTES],
    block: &mut [u8; BLOCK_BYTES],
)
    ensures { IsPlanarForm block.new planar.now }
{
    *block = Block::from_planar(planar).bytes();
}

/// Writes the planar forms of blocks, as many as the shorter list has.
#[unsafe(no_mangle)]
pub extern "C" fn ribjasper_blocks_to_planar(
    blocks: &[[u8; BLOCK_BYTES]],
    planar: &mut [[u8; BLOCK_BYTES]],
)
    ensures count { length planar.new ≡ length planar.old }
    ensures forms { (n : ℕ) → n < length blocks.now → n < length planar.old
        → IsPlanarForm (slice_index_or blocks.now n []) (slice_index_or planar.new n []) }
    ensures rest { drop (length blocks.now) planar.new ≡ drop (length blocks.now) planar.old }
{
    for n in 0..blocks.len().min(planar.len()) {
        planar[n] = Block::from_bytes(&blocks[n]).to_planar();
    }
}

/// Writes the blocks with planar forms, as many as the shorter list has.
#[unsafe(no_mangle)]
pub extern "C" fn ribjasper_blocks_from_planar(
    planar: &[[u8; BLOCK_BYTES]],
    blocks: &mut [[u8; BLOCK_BYTES]],
)
    ensures count { length blocks.new ≡ length blocks.old }
    ensures forms { (n : ℕ) → n < length planar.now → n < length blocks.old
        → IsPlanarForm (slice_index_or blocks.new n []) (slice_index_or planar.now n []) }
    ensures rest { drop (length planar.now) blocks.new ≡ drop (length planar.now) blocks.old }
{
    for n in 0..planar.len().min(blocks.len()) {
        blocks[n] = Block::from_planar(&planar[n]).bytes();
    }
}

/// 1 if the last two bytes of a text pack are the check of the others, else 0.
#[unsafe(no_mangle)]
pub extern "C" fn ribjasper_text_pack_matches(pack: &[u8; 18]) -> i32
    ensures { result ≡ (if check_matches pack.now then pos 1 else pos 0) }
{
    if matches(pack) { 1 } else { 0 }
}

// Whether the last two bytes are the check of the others.
fn matches(pack: &[u8; 18]) -> bool
    ensures { result ≡ check_matches pack.now }
{
    crc16(&pack[..16]) == 256 * u16::from(pack[16]) + u16::from(pack[17])
}

/// Writes the symbols whose bits are those of a text pack: 24, each below 64.
#[unsafe(no_mangle)]
pub extern "C" fn ribjasper_text_pack_symbols(pack: &[u8; 18], symbols: &mut [u8; SYMBOLS_A_SLOT])
    ensures symbols { symbols.new ≡ numbers_of 6 (bits_of_bytes pack.now) }
    ensures bits { symbol_bits symbols.new ≡ bits_of_bytes pack.now }
    ensures bound { All (λ s. s < 64) symbols.new }
{
    *symbols = text_symbols(pack);
}
