// The counts of a player.
ghost use Rattle.std.specs.Prelude.{◌≡◌};
ghost use Rattle.rw_interleave.specs.Stream.{word_count};
ghost use Rattle.live_player.specs.Plain.{numbered_form, player_of};
ghost use Rattle.ribjasper_web.specs.Shown.{web_counts};

use live_player::PlainPlayer;
use raw_subcode::SLOTS_A_BLOCK;
use rw_interleave::PACKS_KEPT_BACK;

#[repr(C)]
#[derive(Clone, Copy)]
pub struct WebCounts {
    /// The number of words so far. Each word is a pack.
    pub words: u64,
    /// The form of the blocks: 0 raw, 1 packs, 2 sectors.
    pub form: u32,
    /// The number of lead-in blocks, read or not.
    pub lead_in: u32,
    pub blocks: u32,
    /// The number of words with no codeword near.
    pub bad: u32,
}

/// Writes the counts of a player.
#[unsafe(no_mangle)]
pub extern "C" fn ribjasper_web_counts(player: &PlainPlayer, counts: &mut WebCounts)
    ensures { counts.new ≡ web_counts player.now.words.form (player_of player.now) }
{
    *counts = WebCounts {
        words: words_of(
            player.words.form,
            player.blocks.saturating_sub(player.lead_in),
        ),
        form: player.words.form,
        lead_in: player.lead_in,
        blocks: player.blocks,
        bad: player.bad,
    };
}

// The number of words in this number of program blocks, in a stream of the form with this number.
fn words_of(form: u32, blocks: u32) -> u64
    ensures { result ≡ word_count (numbered_form form) blocks }
{
    let slots = SLOTS_A_BLOCK as u64 * u64::from(blocks);
    match form {
        1 => slots,
        _ => slots.saturating_sub(PACKS_KEPT_BACK as u64),
    }
}
