// Calls that feed many blocks or draw many packs, and report what may have changed on the screen.
ghost use Rattle.std.specs.Prelude.{◌≡◌, ◌∷◌, [], ◌&&◌, nat_le, map, reverse, pos, negsuc};
ghost use Rattle.cdg_io.specs.Run.{run_state};
ghost use Rattle.cdg_screen.specs.Standing.{IsWholeStanding, Standing, standing_after};
ghost use Rattle.live_player.specs.Lives.{instruction_of};
ghost use Rattle.live_player.specs.Lives.Given.{Drawn, Fed};
ghost use Rattle.live_player.specs.Changes.{sees, watch_from, KeepsUnchanged};
ghost use Rattle.live_player.specs.Taken.{DrawsPacksReported, FeedsBlocks};
ghost use Rattle.ribjasper_c.specs.Answers.{done_if};
ghost use Rattle.ribjasper_c.specs.Giving.{GivesPlayer};

use crate::Playing;
use crate::answers::{DONE, NOT_DONE};
use live_player::{ScreenChange, draw_all, feed_all, pack_change};
use raw_subcode::BLOCK_BYTES;
use rw_code::SYMBOLS;

/// Feeds an open player blocks in turn, and reports what may have changed on the screen. Returns 0, or -1 if
/// the player is closed.
#[unsafe(no_mangle)]
pub extern "C" fn ribjasper_player_feed_all(
    player: &mut Playing,
    blocks: &[[u8; BLOCK_BYTES]],
    change: &mut ScreenChange,
) -> i32
    ensures feeds { GivesPlayer (map Fed (reverse blocks.now)) (FeedsBlocks blocks.now change.new)
        player.old.handle.players player.new.handle.players result }
    ensures answer { result ≡ done_if player.old.is_open }
    ensures stays { player.new.is_open ≡ player.old.is_open }
    ensures untouched { result ≡ negsuc 0 → change.new ≡ change.old }
{
    if !player.is_open {
        return NOT_DONE;
    }
    *change = feed_all(player.handle.lend(), blocks);
    DONE
}

/// Draws packs of 24 bytes in turn, and reports what may have changed on the screen. Returns 0, or -1 if the
/// player is closed.
#[unsafe(no_mangle)]
pub extern "C" fn ribjasper_player_draw_all(
    player: &mut Playing,
    packs: &[[u8; SYMBOLS]],
    change: &mut ScreenChange,
) -> i32
    ensures draws { GivesPlayer (map Drawn (reverse packs.now)) (DrawsPacksReported packs.now change.new)
        player.old.handle.players player.new.handle.players result }
    ensures answer { result ≡ done_if player.old.is_open }
    ensures stays { player.new.is_open ≡ player.old.is_open }
    ensures untouched { result ≡ negsuc 0 → change.new ≡ change.old }
{
    if !player.is_open {
        return NOT_DONE;
    }
    *change = draw_all(player.handle.lend(), packs);
    DONE
}

/// Reports what a pack may change on a screen that begins `across` pixels further right and `down` pixels
/// further down in the memory. Returns 0, or -1 if `across` is above 5 or `down` is above 11.
#[unsafe(no_mangle)]
pub extern "C" fn ribjasper_pack_change(
    pack: &[u8; SYMBOLS],
    across: u8,
    down: u8,
    change: &mut ScreenChange,
) -> i32
    ensures reported { result ≡ pos 0
        → change.new ≡ (run_state sees (watch_from across down) (instruction_of pack.now ∷ [])).change }
    ensures keeps { result ≡ pos 0 → (now : Standing) → IsWholeStanding now → now.h ≡ across → now.v ≡ down
        → KeepsUnchanged change.new now (standing_after now (instruction_of pack.now ∷ [])) }
    ensures answer { result ≡ done_if (nat_le across 5 && nat_le down 11) }
    ensures refused { result ≡ negsuc 0 → change.new ≡ change.old }
{
    if across > 5 || down > 11 {
        return NOT_DONE;
    }
    *change = pack_change(pack, across, down);
    DONE
}
