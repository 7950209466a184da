// Feeding many blocks or drawing many packs in one call.
ghost use Rattle.std.specs.Prelude.{◌≡◌, ◌↔◌, ◌%◌, ◌∷◌, [], IsTrue, slice_index};
ghost use Rattle.cdg_io.specs.Run.{run_state};
ghost use Rattle.cdg_screen.specs.Standing.{IsWholeStanding, Standing, standing_after};
ghost use Rattle.live_player.specs.Changes.{sees, watch_from, IsWithinScreen, KeepsUnchanged};
ghost use Rattle.live_player.specs.Lives.{instruction_of, standing_on};
ghost use Rattle.live_player.specs.Steps.{DrawsPack};
ghost use Rattle.live_player.specs.Taken.{DrawsPacksReported, FeedsBlocks};

use crate::change::{ScreenChange, unchanged_stays};
use crate::plays::AnyPlayer;
use crate::seeing::{GRAPHICS, read_pack};
use crate::watch::Watch;
use raw_subcode::BLOCK_BYTES;
use rw_code::SYMBOLS;

/// What may change if a pack is drawn on a screen that begins `across` pixels further right and `down` pixels further
/// down in the memory.
pub fn pack_change(pack: &[u8; SYMBOLS], across: u8, down: u8) -> ScreenChange
    ensures reported { result
        ≡ (run_state sees (watch_from across down) (instruction_of pack.now ∷ [])).change }
    ensures keeps { (now : Standing) → IsWholeStanding now → now.h ≡ across → now.v ≡ down
        → KeepsUnchanged result now (standing_after now (instruction_of pack.now ∷ [])) }
{
    unchanged_stays();
    let mut watch = Watch::from((across, down));
    watch.see(&read_pack(pack));
    watch.change
}

// A watch of a player's screen, before any change.
fn watch_of<P: AnyPlayer>(player: &P) -> Watch
    ensures from { result ≡ watch_from (standing_on (P.played player.now)).h
        (standing_on (P.played player.now)).v }
    ensures whole { IsWholeStanding (standing_on (P.played player.now)) }
    ensures within { IsWithinScreen result.change }
{
    let screen = player.shown();
    // A law: the state of a screen is complete, so instructions can be carried out on it.
    screen.what_stands_is_whole();
    Watch::from((screen.offset_h(), screen.offset_v()))
}

/// Draws packs in turn, and returns what may have changed on the screen.
pub fn draw_all<P: AnyPlayer>(player: &mut P, packs: &[[u8; SYMBOLS]]) -> ScreenChange
    ensures { DrawsPacksReported packs.now result (P.played player.old) (P.played player.new) }
{
    unchanged_stays();
    let mut watch = watch_of(player);
    for pack in packs {
        draw_next(player, &mut watch, pack);
    }
    watch.change
}

// Draws a pack, and adds what changes to the watch. Most packs of a file have no graphics: for them only the first
// symbol is read.
#[inline(always)]
fn draw_next<P: AnyPlayer>(player: &mut P, watch: &mut Watch, pack: &[u8; SYMBOLS])
    requires { IsWithinScreen watch.old.change }
    ensures draws { DrawsPack pack.now (P.played player.old) (P.played player.new) }
    ensures sees { watch.new ≡ sees watch.old (instruction_of pack.now) }
    ensures within { IsWithinScreen watch.new.change }
{
    if has_graphics(pack) {
        player.play_pack(watch, pack);
    } else {
        // A law: the state of a screen is complete, so instructions can be carried out on it.
        player.shown().what_stands_is_whole();
    }
}

// Whether a pack has graphics, by its first symbol.
#[inline(always)]
fn has_graphics(pack: &[u8; SYMBOLS]) -> bool
    ensures { IsTrue result ↔ (slice_index pack.now 0 % 64 ≡ 9) }
{
    pack[0] % 64 == GRAPHICS
}

/// Feeds blocks in turn, and returns what may have changed on the screen.
pub fn feed_all<P: AnyPlayer>(player: &mut P, blocks: &[[u8; BLOCK_BYTES]]) -> ScreenChange
    ensures { FeedsBlocks blocks.now result (P.played player.old) (P.played player.new) }
{
    unchanged_stays();
    let mut watch = watch_of(player);
    for block in blocks {
        player.play_block(&mut watch, block);
    }
    watch.change
}
