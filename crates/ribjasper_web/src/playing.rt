// A player of a page, fed with blocks or packs.
ghost use Rattle.std.specs.Prelude.{◌≡◌, ◌/◌, ◌&&◌, ◌∷◌, [], if◌then◌else◌, map, reverse, nat_le, nat_lt, length, pos, negsuc};
ghost use Rattle.disc_time.specs.Counts.{most_lead_in};
ghost use Rattle.live_player.specs.Lives.{HasPlayed, PlaysOn};
ghost use Rattle.live_player.specs.Lives.Given.{Drawn, Fed};
ghost use Rattle.live_player.specs.Plain.{numbered_form, player_of};
ghost use Rattle.live_player.specs.Steps.{DrawsPack, TakesBlock};
ghost use Rattle.live_player.specs.Taken.{DrawsPacksReported, FeedsBlocks, TakesBlocks};
ghost use Rattle.raw_subcode.specs.Channels.{blocks_of, unit_size};

use block_survey::{block_at, unit_bytes};
use disc_time::MOST_LEAD_IN;
use live_player::{PlainPlayer, ScreenChange, draw_all, feed_all, form_of};
use raw_subcode::BLOCK_BYTES;
use rw_code::SYMBOLS;

/// Restarts with this number of lead-in blocks, at most 450,000. The form is 0 for a raw stream, or 1 for a
/// stream of packs, four in each block. Returns 0. If a number is out of its range, it returns -1 and changes
/// nothing.
#[unsafe(no_mangle)]
pub extern "C" fn ribjasper_web_begin(player: &mut PlainPlayer, form: u32, lead_in: u32) -> i32
    ensures begun { result ≡ pos 0 → HasPlayed (numbered_form form) lead_in [] (player_of player.new) }
    ensures answer { result ≡ (if nat_lt form 2 && nat_le lead_in most_lead_in then pos 0 else negsuc 0) }
    ensures refused { result ≡ negsuc 0 → player.new ≡ player.old }
{
    if form >= 2 || lead_in > MOST_LEAD_IN {
        return -1;
    }
    player.begin(lead_in, form_of(form));
    0
}

/// Feeds a player the next block.
#[unsafe(no_mangle)]
pub extern "C" fn ribjasper_web_feed(player: &mut PlainPlayer, block: &[u8; BLOCK_BYTES])
    ensures takes { TakesBlock block.now (player_of player.old) (player_of player.new) }
    ensures fed { PlaysOn (Fed block.now ∷ []) (player_of player.old) (player_of player.new) }
{
    player.feed(block);
}

/// Feeds a player the whole blocks of a stream, and returns their number. The stream has raw blocks (form 0),
/// blocks of packs (1) or blocks of sectors (2).
#[unsafe(no_mangle)]
pub extern "C" fn ribjasper_web_feed_all(player: &mut PlainPlayer, form: u32, stream: &[u8]) -> u64
    ensures takes { TakesBlocks (blocks_of (numbered_form form) stream.now) (player_of player.old)
        (player_of player.new) }
    ensures fed { PlaysOn (map Fed (reverse (blocks_of (numbered_form form) stream.now)))
        (player_of player.old) (player_of player.new) }
    ensures count { result ≡ length stream.now / unit_size (numbered_form form) }
{
    let form = form_of(form);
    let count = stream.len() / unit_bytes(form);
    for b in 0..count {
        let block = block_at(form, stream, b);
        player.feed(&block);
    }
    count as u64
}

/// Feeds a player blocks of 96 bytes in turn, and reports what may have changed on the screen.
#[unsafe(no_mangle)]
pub extern "C" fn ribjasper_web_feed_changes(
    player: &mut PlainPlayer,
    blocks: &[[u8; BLOCK_BYTES]],
    change: &mut ScreenChange,
)
    ensures { FeedsBlocks blocks.now change.new (player_of player.old) (player_of player.new) }
{
    *change = feed_all(player, blocks);
}

/// Draws a pack of 24 bytes. Its parity is ignored. The stream is unaffected.
#[unsafe(no_mangle)]
pub extern "C" fn ribjasper_web_draw(player: &mut PlainPlayer, pack: &[u8; SYMBOLS])
    ensures draws { DrawsPack pack.now (player_of player.old) (player_of player.new) }
    ensures drawn { PlaysOn (Drawn pack.now ∷ []) (player_of player.old) (player_of player.new) }
{
    player.draw(pack);
}

/// Draws packs in turn, and reports what may have changed on the screen.
#[unsafe(no_mangle)]
pub extern "C" fn ribjasper_web_draw_all(
    player: &mut PlainPlayer,
    packs: &[[u8; SYMBOLS]],
    change: &mut ScreenChange,
)
    ensures { DrawsPacksReported packs.now change.new (player_of player.old) (player_of player.new) }
{
    *change = draw_all(player, packs);
}
