// The text packs of a lead-in.
ghost use Rattle.std.specs.Prelude.{◌≡◌, ◌<◌, nat_lt, if◌then◌else◌, pos, negsuc};
ghost use Rattle.cdtext_packs.specs.LeadIn.{pack_at};
ghost use Rattle.cdtext_packs.specs.Packs.{check_matches};
ghost use Rattle.raw_subcode.specs.Sizes.{slots_a_block};

use bit_lists::crc16;
use raw_subcode::{BLOCK_BYTES, Block, SLOTS_A_BLOCK};

const TEXT_PACK: usize = 18;

/// Writes text pack `k` of a block of the lead-in, 0 to 3. Returns 1 if its last two bytes are the check of
/// the others, else 0; or -1 if there is no such pack.
#[unsafe(no_mangle)]
pub extern "C" fn ribjasper_web_text_pack(
    block: &[u8; BLOCK_BYTES],
    k: u32,
    pack: &mut [u8; TEXT_PACK],
) -> i32
    ensures pack { pack.new ≡ (if nat_lt k slots_a_block then pack_at block.now k else pack.old) }
    ensures answer { result ≡ (if nat_lt k slots_a_block
        then (if check_matches (pack_at block.now k) then pos 1 else pos 0) else negsuc 0) }
{
    if k >= SLOTS_A_BLOCK as u32 {
        return -1;
    }
    let found = text_pack_of(block, k as usize);
    *pack = found;
    if matches(&found) { 1 } else { 0 }
}

fn text_pack_of(block: &[u8; BLOCK_BYTES], k: usize) -> [u8; TEXT_PACK]
    requires { k < 4 }
    ensures { result ≡ pack_at block.now k }
{
    Block::from_bytes(block).text_pack(k)
}

// Whether the last two bytes are the check of the others.
fn matches(pack: &[u8; TEXT_PACK]) -> bool
    ensures { result ≡ check_matches pack.now }
{
    crc16(&pack[..16]) == 256 * u16::from(pack[16]) + u16::from(pack[17])
}
