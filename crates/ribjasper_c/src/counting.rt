// The counts of a player.
ghost use Rattle.std.specs.Prelude.{◌≡◌, ◌^◌, ◌-◌, ◌∷◌, [], List, ℕ, length, min, pos, negsuc};
ghost use Rattle.live_player.specs.Lives.{Given, bad_words_in, blocks_in};
ghost use Rattle.live_player.specs.declared.live.LivePlayer.{LivePlayer};
ghost use Rattle.raw_subcode.specs.declared.form.Form.{Form};
ghost use Rattle.ribjasper_c.specs.Counts.{player_counts, form_number};
ghost use Rattle.ribjasper_c.specs.Handles.{IsPlaying};
ghost use Rattle.rw_interleave.specs.Stream.{word_count};
ghost use Rattle.ribjasper_c.specs.Looking.{IsUnchanged};
ghost use Rattle.ribjasper_c.specs.Answers.{done_if};

use crate::Playing;
use crate::answers::{DONE, NOT_DONE};
use live_player::LivePlayer;
use raw_subcode::{Form, SLOTS_A_BLOCK};
use rw_interleave::PACKS_KEPT_BACK;

/// The counts of a player since it began.
#[repr(C)]
#[derive(Clone, Copy)]
pub struct PlayerCounts {
    /// The number of words so far. Each word is a pack.
    pub words: u64,
    /// The form of the blocks: 0 raw, 1 packs.
    pub form: u32,
    /// The number of lead-in blocks, read or not.
    pub lead_in: u32,
    /// The number of blocks that were read.
    pub blocks: u32,
    /// The number of words with no codeword near.
    pub bad: u32,
}

/// Writes the counts of a player. Returns 0, or -1 if the player is closed.
#[unsafe(no_mangle)]
pub extern "C" fn ribjasper_player_counts(player: &mut Playing, counts: &mut PlayerCounts) -> i32
    ensures counts { result ≡ pos 0 → (live : LivePlayer) → player.old.handle.players ≡ live ∷ []
        → counts.new ≡ player_counts live }
    // If it is known what the player was given.
    ensures blocks { result ≡ pos 0 → (form : Form) (lead_in : ℕ) (given : List Given)
        → IsPlaying form lead_in given player.old.handle.players
        → counts.new.blocks ≡ min (length (blocks_in given)) (2 ^ 32 - 1) }
    ensures bad { result ≡ pos 0 → (form : Form) (lead_in : ℕ) (given : List Given)
        → IsPlaying form lead_in given player.old.handle.players
        → counts.new.bad ≡ min (bad_words_in form lead_in (blocks_in given)) (2 ^ 32 - 1) }
    ensures answer { result ≡ done_if player.old.is_open }
    ensures same { IsUnchanged player.old player.new }
    ensures refused { result ≡ negsuc 0 → counts.new ≡ counts.old }
{
    if !player.is_open {
        return NOT_DONE;
    }
    *counts = counted(player.handle.lend());
    DONE
}

fn counted(live: &LivePlayer) -> PlayerCounts
    ensures { result ≡ player_counts live.now }
{
    PlayerCounts {
        words: words_of(live.words.form, live.blocks.saturating_sub(live.lead_in)),
        form: form_number(live.words.form),
        lead_in: live.lead_in,
        blocks: live.blocks,
        bad: live.bad,
    }
}

// The number of words in this number of program blocks.
fn words_of(form: Form, blocks: u32) -> u64
    ensures { result ≡ word_count form blocks }
{
    let slots = SLOTS_A_BLOCK as u64 * u64::from(blocks);
    match form {
        Form::Raw | Form::Sector => slots.saturating_sub(PACKS_KEPT_BACK as u64),
        Form::Cooked => slots,
    }
}

fn form_number(form: Form) -> u32
    ensures { result ≡ form_number form }
{
    match form {
        Form::Raw => 0,
        Form::Cooked => 1,
        Form::Sector => 2,
    }
}
