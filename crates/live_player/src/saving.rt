// Saving a player to the file of a checkpoint, and restoring it.
ghost use Rattle.std.specs.Prelude.{◌≡◌, ◌≤◌, ◌<◌, ◌^◌, ◌⊎◌, ◌↔◌, if◌then◌else◌, IsTrue, true, List, ℕ, length, pos, negsuc};
ghost use Rattle.cdg_checkpoint.specs.Checkpoint.{checkpoint_in, file_of};
ghost use Rattle.cdg_checkpoint.specs.Table.{IsCheckpointFile};
ghost use Rattle.disc_time.specs.Counts.{most_lead_in};
ghost use Rattle.raw_subcode.specs.Sizes.{most_units};
ghost use Rattle.raw_subcode.specs.declared.form.Form.{Form};
ghost use Rattle.live_player.specs.Lives.{Given, HasPlayed, blocks_in};
ghost use Rattle.live_player.specs.Saving.{checkpoint_of, IsAt, SavesLive};
ghost use Rattle.live_player.specs.declared.live.LivePlayer.{LivePlayer};

use crate::AnyPlayer;
use cdg_checkpoint::{FILE_BYTES, PlainFile, files_are_read_back};
use disc_time::MOST_LEAD_IN;
use raw_subcode::MOST_UNITS;

/// Writes the file of a player's checkpoint, which it makes in `checkpoint`. Returns whether the player can
/// be saved. If not, the file is unchanged.
pub fn save<P: AnyPlayer>(
    player: &P,
    checkpoint: &mut PlainFile,
    file: &mut [u8; FILE_BYTES],
) -> bool
    ensures { SavesLive (P.played player.now) file.old file.new (if result then pos 0 else negsuc 0) }
{
    a_saved_player_goes_on();
    if !player.fits_checkpoint() {
        return false;
    }
    player.write_checkpoint(checkpoint);
    match checkpoint.check() {
        Ok(()) => {
            file.copy_from_slice(checkpoint.bytes());
            true
        }
        Err(_) => false,
    }
}

/// Whether a player with these counts has read more blocks than a checkpoint can count.
pub(crate) fn is_too_long(lead_in: u32, blocks: u32) -> bool
    ensures long { IsTrue result ↔ ((most_lead_in < lead_in) ⊎ (most_units < blocks)) }
    ensures refused { result ≡ true → (player : LivePlayer) → player.lead_in ≡ lead_in
        → player.blocks ≡ blocks → ¬ IsCheckpointFile (file_of (checkpoint_of player)) }
{
    files_are_read_back();
    is_above(lead_in, MOST_LEAD_IN) || is_above(blocks, MOST_UNITS)
}

fn is_above(count: u32, most: u32) -> bool
    ensures above { IsTrue result ↔ (most < count) }
    ensures fits { count < 2 ^ 32 }
{
    count > most
}

/// A law: a player of a raw stream that a checkpoint can count has a valid file, and a player at the checkpoint of this
/// file behaves as the one that was saved.
pub fn a_saved_player_goes_on()
    ensures raw { (lead_in : ℕ) (given : List Given) (saved : LivePlayer)
        → HasPlayed Form.Raw lead_in given saved → saved.words.form ≡ Form.Raw }
    ensures accepted { (lead_in : ℕ) (given : List Given) (saved : LivePlayer)
        → HasPlayed Form.Raw lead_in given saved → lead_in ≤ most_lead_in
        → length (blocks_in given) ≤ most_units → IsCheckpointFile (file_of (checkpoint_of saved)) }
    ensures goes_on { (lead_in : ℕ) (given : List Given) (saved back : LivePlayer)
        → HasPlayed Form.Raw lead_in given saved → lead_in ≤ most_lead_in
        → length (blocks_in given) ≤ most_units
        → IsAt (checkpoint_in (file_of (checkpoint_of saved))) back → HasPlayed Form.Raw lead_in given back }
{}
