// Counting and writing the parity of packs of a .cdg file.
ghost use Rattle.std.specs.Prelude.{◌≡◌, ◌<◌, ◌+◌, [], ℕ, count_by, length, slice_index_or};
ghost use Rattle.live_player.specs.Parity.{has_no_symbol, is_valid_pack, IsSealed};

use live_player::{ParityCounts, count_parity, seal_packs};
use rw_code::SYMBOLS;

/// Counts packs of 24 bytes by their parity.
#[unsafe(no_mangle)]
pub extern "C" fn ribjasper_web_packs_parity(packs: &[[u8; SYMBOLS]], counts: &mut ParityCounts)
    ensures idle { counts.new.idle ≡ count_by has_no_symbol packs.now }
    ensures valid { counts.new.valid ≡ count_by is_valid_pack packs.now }
    ensures all { counts.new.idle + counts.new.valid + counts.new.invalid ≡ length packs.now }
{
    *counts = count_parity(packs);
}

/// Writes the parity of each pack of 24 bytes. The pack becomes the codeword with its symbols at 0 and 1 and at 4 to
/// 19.
#[unsafe(no_mangle)]
pub extern "C" fn ribjasper_web_packs_seal(packs: &mut [[u8; SYMBOLS]])
    ensures count { length packs.new ≡ length packs.old }
    ensures sealed { (n : ℕ) → n < length packs.old
        → IsSealed (slice_index_or packs.old n []) (slice_index_or packs.new n []) }
{
    seal_packs(packs);
}
