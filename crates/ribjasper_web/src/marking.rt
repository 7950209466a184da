// Seeking in a stream, by marks that earlier seeks left.
ghost use Rattle.std.specs.Prelude.{◌≡◌, ◌<◌, ◌≤◌, ◌&&◌, All, if◌then◌else◌, nat_le, nat_lt, length, pos, negsuc};
ghost use Rattle.disc_time.specs.Counts.{most_lead_in};
ghost use Rattle.live_player.specs.Lives.{HasPlayed};
ghost use Rattle.live_player.specs.Lives.Given.{Drawn, Fed};
ghost use Rattle.live_player.specs.Marks.{given_first, IsMark};
ghost use Rattle.live_player.specs.Plain.{numbered_form, player_of};
ghost use Rattle.raw_subcode.specs.declared.form.Form.{Form};

use disc_time::MOST_LEAD_IN;
use live_player::{Mark, PlainPlayer, form_of, seek_block, seek_pack};
use raw_subcode::BLOCK_BYTES;
use rw_code::SYMBOLS;

/// Brings a player to the state after the first `to` blocks of a stream, from the last mark before, and
/// leaves marks: mark k, from 0, is for place (k + 1) * every. Returns 0. If a number is out of its range, it
/// returns -1 and changes nothing.
#[unsafe(no_mangle)]
pub extern "C" fn ribjasper_web_seek(
    player: &mut PlainPlayer,
    form: u32,
    lead_in: u32,
    blocks: &[[u8; BLOCK_BYTES]],
    to: u64,
    marks: &mut [Mark],
    every: u32,
) -> i32
    ensures there { result ≡ pos 0 → All (IsMark Fed (numbered_form form) lead_in blocks.now) marks.old
        → HasPlayed (numbered_form form) lead_in (given_first Fed to blocks.now) (player_of player.new) }
    ensures marks { All (IsMark Fed (numbered_form form) lead_in blocks.now) marks.old
        → All (IsMark Fed (numbered_form form) lead_in blocks.now) marks.new }
    ensures answer { result ≡ (if nat_lt form 2 && nat_le lead_in most_lead_in
        && nat_le to (length blocks.now) && nat_lt 0 every then pos 0 else negsuc 0) }
    ensures refused { result ≡ negsuc 0 → (player.new ≡ player.old) × (marks.new ≡ marks.old) }
{
    if form >= 2 || lead_in > MOST_LEAD_IN || to > blocks.len() as u64 || every == 0 {
        return -1;
    }
    seek_block(
        player,
        lead_in,
        form_of(form),
        blocks,
        to as usize,
        marks,
        every as usize,
    );
    0
}

/// Brings a player to the state after the first `to` packs of a file, and leaves marks like
/// `ribjasper_web_seek`. Returns 0. If a number is out of its range, it returns -1 and changes nothing.
#[unsafe(no_mangle)]
pub extern "C" fn ribjasper_web_seek_packs(
    player: &mut PlainPlayer,
    packs: &[[u8; SYMBOLS]],
    to: u64,
    marks: &mut [Mark],
    every: u32,
) -> i32
    ensures there { result ≡ pos 0 → All (IsMark Drawn Form.Raw 0 packs.now) marks.old
        → HasPlayed Form.Raw 0 (given_first Drawn to packs.now) (player_of player.new) }
    ensures marks { All (IsMark Drawn Form.Raw 0 packs.now) marks.old
        → All (IsMark Drawn Form.Raw 0 packs.now) marks.new }
    ensures answer { result
        ≡ (if nat_le to (length packs.now) && nat_lt 0 every then pos 0 else negsuc 0) }
    ensures refused { result ≡ negsuc 0 → (player.new ≡ player.old) × (marks.new ≡ marks.old) }
{
    if to > packs.len() as u64 || every == 0 {
        return -1;
    }
    seek_pack(player, packs, to as usize, marks, every as usize);
    0
}
