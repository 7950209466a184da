// The trait of both kinds of players.
ghost use Rattle.std.specs.Prelude.{◌≡◌, ◌-◌, [], length, min, true, false};
ghost use Rattle.cdg_checkpoint.specs.Checkpoint.{checkpoint_in, file_of};
ghost use Rattle.cdg_checkpoint.specs.Table.{IsCheckpointFile};
ghost use Rattle.cdg_io.specs.Run.{run_state};
ghost use Rattle.live_player.specs.Changes.{sees, IsWithinScreen};
ghost use Rattle.live_player.specs.Lives.{drawn_for, instruction_of, HasPlayed};
ghost use Rattle.live_player.specs.Plain.{player_of};
ghost use Rattle.live_player.specs.Saving.{checkpoint_of, CannotBeSaved, IsAt, IsTooLong};
ghost use Rattle.live_player.specs.Steps.{DrawsPack, TakesBlock};
ghost use Rattle.live_player.specs.declared.live.LivePlayer.{LivePlayer};
ghost use Rattle.raw_subcode.specs.Sizes.{block_bytes};
ghost use Rattle.raw_subcode.specs.declared.form.Form.{Form};
ghost use Rattle.stream_stages.specs.Steps.{words_give};

use crate::LivePlayer;
use crate::plain::{PlainPlayer, PlainWords};
use crate::saving::is_too_long;
use crate::seeing::{draw_seen, idle_block_changes_nothing, play_busy, play_seen};
use crate::watch::Watch;
use cdg_checkpoint::{PlainFile, StreamCounts, gathered_slots};
use cdg_screen::PlainScreen;
use raw_subcode::{BLOCK_BYTES, Form};
use rw_code::SYMBOLS;
use stream_stages::BlockWords;

/// A player that reads blocks and packs, and watches the changes of its screen.
pub trait AnyPlayer {
    /// The same player as a `LivePlayer`.
    ghost played: { Self → LivePlayer };

    fn shown(&self) -> &PlainScreen
        ensures { result.now ≡ (played self.now).screen };

    /// Restarts with a stream of this form.
    fn start_over(&mut self, lead_in: u32, form: Form)
        ensures { HasPlayed form lead_in [] (played self.new) };

    /// Reads the next block.
    fn play_block(&mut self, watch: &mut Watch, block: &[u8; BLOCK_BYTES])
        requires { IsWithinScreen watch.old.change }
        ensures takes { TakesBlock block.now (played self.old) (played self.new) }
        ensures sees { watch.new
            ≡ run_state sees watch.old (drawn_for (words_give (played self.old).words block.now)) }
        ensures within { IsWithinScreen watch.new.change }
        ensures size { length block.now ≡ block_bytes };

    /// Draws a pack.
    fn play_pack(&mut self, watch: &mut Watch, pack: &[u8; SYMBOLS])
        ensures draws { DrawsPack pack.now (played self.old) (played self.new) }
        ensures sees { watch.new ≡ sees watch.old (instruction_of pack.now) };

    /// Copies the player to one of plain numbers.
    fn leave(&self, player: &mut PlainPlayer)
        ensures { player_of player.new ≡ played self.now };

    /// Copies a player of plain numbers.
    fn go_back(&mut self, player: &PlainPlayer)
        ensures { played self.new ≡ player_of player.now };

    /// Whether the player's stream is raw and no longer than a checkpoint can count.
    fn fits_checkpoint(&self) -> bool
        ensures fits { result ≡ true
            → ((played self.now).words.form ≡ Form.Raw) × (¬ IsTooLong (played self.now)) }
        ensures refused { result ≡ false → CannotBeSaved (played self.now) };

    /// Makes the file of the player's checkpoint.
    fn write_checkpoint(&self, file: &mut PlainFile)
        ensures { file.new ≡ file_of (checkpoint_of (played self.now)) };

    /// Restores the player from a valid file.
    fn restore(&mut self, file: &PlainFile)
        requires { IsCheckpointFile file.now }
        ensures { IsAt (checkpoint_in file.now) (played self.new) };
}

impl AnyPlayer for LivePlayer {
    ghost played = { λ live. live };

    fn shown(&self) -> &PlainScreen {
        &self.screen
    }

    fn start_over(&mut self, lead_in: u32, form: Form) {
        self.begin(lead_in, form);
    }

    #[inline(always)]
    fn play_block(&mut self, watch: &mut Watch, block: &[u8; BLOCK_BYTES]) {
        self.blocks = self.blocks.saturating_add(1);
        play_seen(
            &mut self.words,
            &mut self.screen,
            &mut self.bad,
            watch,
            block,
        );
    }

    #[inline(always)]
    fn play_pack(&mut self, watch: &mut Watch, pack: &[u8; SYMBOLS]) {
        draw_seen(&mut self.screen, watch, pack);
    }

    fn leave(&self, player: &mut PlainPlayer) {
        self.put_down(player);
    }

    fn go_back(&mut self, player: &PlainPlayer) {
        self.take_up(player);
    }

    fn fits_checkpoint(&self) -> bool {
        matches!(self.words.form, Form::Raw) && !is_too_long(self.lead_in, self.blocks)
    }

    fn write_checkpoint(&self, file: &mut PlainFile) {
        let counts = stream_counts(self.lead_in, self.blocks, self.bad);
        let slots = self.words.gather.symbols();
        file.compose(&counts, &slots, &self.screen);
    }

    fn restore(&mut self, file: &PlainFile) {
        let counts = file.counts();
        let lead_in = counts.to_come + counts.lead_in;
        let blocks = counts.lead_in + counts.program;
        self.lead_in = lead_in;
        self.blocks = blocks;
        self.bad = counts.bad;
        let words = &mut self.words;
        words.form = Form::Raw;
        words.lead_in = counts.to_come;
        words.gather = gathered_slots(file);
        file.bring_back(&mut self.screen);
    }
}

impl AnyPlayer for PlainPlayer {
    ghost played = { player_of };

    fn shown(&self) -> &PlainScreen {
        &self.screen
    }

    fn start_over(&mut self, lead_in: u32, form: Form) {
        self.begin(lead_in, form);
    }

    #[inline(always)]
    fn play_block(&mut self, watch: &mut Watch, block: &[u8; BLOCK_BYTES]) {
        self.blocks = self.blocks.saturating_add(1);
        let mut words = self.words.words();
        // An idle block leaves the words unchanged, so they are not stored again.
        if words.stays_idle(block) {
            idle_block_changes_nothing(&words, &self.screen, &self.bad, watch, block);
        } else {
            play_busy(&mut words, &mut self.screen, &mut self.bad, watch, block);
            self.words = PlainWords::of(&words);
        }
    }

    #[inline(always)]
    fn play_pack(&mut self, watch: &mut Watch, pack: &[u8; SYMBOLS]) {
        draw_seen(&mut self.screen, watch, pack);
    }

    fn leave(&self, player: &mut PlainPlayer) {
        player.copy_from(self);
    }

    fn go_back(&mut self, player: &PlainPlayer) {
        self.copy_from(player);
    }

    fn fits_checkpoint(&self) -> bool {
        self.words.form == 0 && !is_too_long(self.lead_in, self.blocks)
    }

    fn write_checkpoint(&self, file: &mut PlainFile) {
        let counts = stream_counts(self.lead_in, self.blocks, self.bad);
        let slots = self.words.words().gather.symbols();
        file.compose(&counts, &slots, &self.screen);
    }

    fn restore(&mut self, file: &PlainFile) {
        let counts = file.counts();
        let words = BlockWords {
            form: Form::Raw,
            lead_in: counts.to_come,
            gather: gathered_slots(file),
        };
        self.words = PlainWords::of(&words);
        self.lead_in = counts.to_come + counts.lead_in;
        self.blocks = counts.lead_in + counts.program;
        self.bad = counts.bad;
        file.bring_back(&mut self.screen);
    }
}

// The counts of a checkpoint, by those of a player.
fn stream_counts(lead_in: u32, blocks: u32, bad: u32) -> StreamCounts
    ensures { result ≡ record {
      to_come = lead_in - blocks;
      lead_in = min blocks lead_in;
      program = blocks - lead_in;
      bad = bad;
    } }
{
    let read = blocks.min(lead_in);
    StreamCounts {
        to_come: lead_in - read,
        lead_in: read,
        program: blocks - read,
        bad,
    }
}
