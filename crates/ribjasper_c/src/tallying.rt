// A call that feeds a block and counts its words and its frame.
ghost use Rattle.std.specs.Prelude.{◌≡◌, ◌∷◌, [], List, ℕ, pos, negsuc};
ghost use Rattle.live_player.specs.Lives.{Given};
ghost use Rattle.live_player.specs.Lives.Given.{Fed};
ghost use Rattle.live_player.specs.Steps.{TakesBlock, words_come};
ghost use Rattle.live_player.specs.declared.live.LivePlayer.{LivePlayer};
ghost use Rattle.block_survey.specs.Tallies.{tallied, IsTallyOf};
ghost use Rattle.raw_subcode.specs.declared.form.Form.{Form};
ghost use Rattle.ribjasper_c.specs.Handles.{IsPlaying};
ghost use Rattle.stream_stages.specs.Steps.{words_give};
ghost use Rattle.ribjasper_c.specs.Answers.{done_if};
ghost use Rattle.ribjasper_c.specs.Giving.{GivesPlayer};

use crate::Playing;
use crate::answers::{DONE, NOT_DONE};
use block_survey::{PlayerTally, feed_and_count};
use raw_subcode::BLOCK_BYTES;

/// Feeds an open player the next block, and counts its words and its frame. Returns 0, or -1 if the player is
/// closed.
#[unsafe(no_mangle)]
pub extern "C" fn ribjasper_player_feed_counted(
    player: &mut Playing,
    block: &[u8; BLOCK_BYTES],
    tally: &mut PlayerTally,
) -> i32
    ensures counts { result ≡ pos 0 → (live : LivePlayer) → player.old.handle.players ≡ live ∷ []
        → tally.new ≡ tallied live.words.form (words_come (words_give live.words block.now)) block.now
        tally.old }
    // If it is known what the player was given, and the tally counts all of it.
    ensures tallies { result ≡ pos 0 → (form : Form) (lead_in : ℕ) (given : List Given)
        → IsPlaying form lead_in given player.old.handle.players → IsTallyOf form lead_in given tally.old
        → IsTallyOf form lead_in (Fed block.now ∷ given) tally.new }
    ensures feeds { GivesPlayer (Fed block.now ∷ []) (TakesBlock block.now) player.old.handle.players
        player.new.handle.players result }
    ensures answer { result ≡ done_if player.old.is_open }
    ensures stays { player.new.is_open ≡ player.old.is_open }
    ensures same { result ≡ negsuc 0 → tally.new ≡ tally.old }
{
    if !player.is_open {
        return NOT_DONE;
    }
    feed_and_count(player.handle.lend(), block, tally);
    DONE
}
