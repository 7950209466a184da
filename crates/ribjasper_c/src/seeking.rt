// Seeking in a stream, by marks that earlier seeks left.
ghost use Rattle.std.specs.Prelude.{◌≡◌, ◌<◌, ◌≤◌, ◌&&◌, All, nat_le, nat_lt, length, pos, negsuc};
ghost use Rattle.disc_time.specs.Counts.{most_lead_in};
ghost use Rattle.live_player.specs.Lives.Given.{Drawn, Fed};
ghost use Rattle.live_player.specs.Marks.{given_first, IsMark};
ghost use Rattle.raw_subcode.specs.declared.form.Form.{Form};
ghost use Rattle.ribjasper_c.specs.Answers.{done_if};
ghost use Rattle.ribjasper_c.specs.Handles.{form_of, IsPlaying};

use crate::Playing;
use crate::answers::{DONE, NOT_DONE};
use crate::playing::form_of;
use disc_time::MOST_LEAD_IN;
use live_player::{Mark, seek_block, seek_pack};
use raw_subcode::BLOCK_BYTES;
use rw_code::SYMBOLS;

/// Brings an open player to the state after the first `to` blocks of a stream, from the last mark before, and
/// leaves marks: mark k, from 0, is for place (k + 1) * every. Returns 0, or -1 if the player is closed or a
/// number is out of its range.
#[unsafe(no_mangle)]
pub extern "C" fn ribjasper_player_seek(
    player: &mut Playing,
    form: u32,
    lead_in: u32,
    blocks: &[[u8; BLOCK_BYTES]],
    to: u64,
    marks: &mut [Mark],
    every: u32,
) -> i32
    ensures there { result ≡ pos 0 → All (IsMark Fed (form_of form) lead_in blocks.now) marks.old
        → IsPlaying (form_of form) lead_in (given_first Fed to blocks.now) player.new.handle.players }
    ensures marks { All (IsMark Fed (form_of form) lead_in blocks.now) marks.old
        → All (IsMark Fed (form_of form) lead_in blocks.now) marks.new }
    ensures answer { result ≡ done_if (player.old.is_open && nat_lt form 2 && nat_le lead_in most_lead_in
        && nat_le to (length blocks.now) && nat_lt 0 every) }
    ensures stays { player.new.is_open ≡ player.old.is_open }
    ensures refused { result ≡ negsuc 0
        → (player.new.handle.players ≡ player.old.handle.players) × (marks.new ≡ marks.old) }
{
    if !player.is_open
        || form >= 2
        || lead_in > MOST_LEAD_IN
        || to > blocks.len() as u64
        || every == 0
    {
        return NOT_DONE;
    }
    seek_block(
        player.handle.lend(),
        lead_in,
        form_of(form),
        blocks,
        to as usize,
        marks,
        every as usize,
    );
    DONE
}

/// Brings an open player to the state after the first `to` packs of a file, from the last mark before, and
/// leaves marks like `ribjasper_player_seek`. Returns 0, or -1 if the player is closed or a number is out of
/// its range.
#[unsafe(no_mangle)]
pub extern "C" fn ribjasper_player_seek_packs(
    player: &mut Playing,
    packs: &[[u8; SYMBOLS]],
    to: u64,
    marks: &mut [Mark],
    every: u32,
) -> i32
    ensures there { result ≡ pos 0 → All (IsMark Drawn Form.Raw 0 packs.now) marks.old
        → IsPlaying Form.Raw 0 (given_first Drawn to packs.now) player.new.handle.players }
    ensures marks { All (IsMark Drawn Form.Raw 0 packs.now) marks.old
        → All (IsMark Drawn Form.Raw 0 packs.now) marks.new }
    ensures answer { result
        ≡ done_if (player.old.is_open && nat_le to (length packs.now) && nat_lt 0 every) }
    ensures stays { player.new.is_open ≡ player.old.is_open }
    ensures refused { result ≡ negsuc 0
        → (player.new.handle.players ≡ player.old.handle.players) × (marks.new ≡ marks.old) }
{
    if !player.is_open || to > packs.len() as u64 || every == 0 {
        return NOT_DONE;
    }
    seek_pack(
        player.handle.lend(),
        packs,
        to as usize,
        marks,
        every as usize,
    );
    DONE
}
