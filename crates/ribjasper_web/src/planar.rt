// Many blocks in the planar form.
ghost use Rattle.std.specs.Prelude.{◌≡◌, ◌<◌, ℕ, [], drop, length, slice_index_or};
ghost use Rattle.raw_subcode.specs.Channels.{IsPlanarForm};

use raw_subcode::{BLOCK_BYTES, Block};

/// Writes the raw blocks with planar forms, as many as the shorter list has.
#[unsafe(no_mangle)]
pub extern "C" fn ribjasper_web_blocks_from_planar(
    planar: &[[u8; BLOCK_BYTES]],
    blocks: &mut [[u8; BLOCK_BYTES]],
)
    ensures count { length blocks.new ≡ length blocks.old }
    ensures forms { (n : ℕ) → n < length planar.now → n < length blocks.old
        → IsPlanarForm (slice_index_or blocks.new n []) (slice_index_or planar.now n []) }
    ensures rest { drop (length planar.now) blocks.new ≡ drop (length planar.now) blocks.old }
{
    for n in 0..planar.len().min(blocks.len()) {
        blocks[n] = Block::from_planar(&planar[n]).bytes();
    }
}
