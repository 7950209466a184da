// The counts of the blocks that a player is fed.
ghost use Rattle.std.specs.Prelude.{◌≡◌, ◌≤◌, ◌∷◌, [], List, ℕ, length};
ghost use Rattle.raw_subcode.specs.declared.form.Form.{Form};
ghost use Rattle.block_survey.specs.Rows.{bad_words, reading_in, wrong_count};
ghost use Rattle.live_player.specs.Lives.{Given, HasPlayed, PlaysOn};
ghost use Rattle.live_player.specs.Lives.Given.{Fed};
ghost use Rattle.live_player.specs.Steps.{TakesBlock, words_come};
ghost use Rattle.stream_stages.specs.Steps.{words_give};
ghost use Rattle.block_survey.specs.Tallies.{tallied_count, frame_after, more_read, more_refused, place_after, tallied, IsTallyOf};

use crate::counting::WordMarks;
use crate::from_frame::{of_kind, plain_of};
use crate::plain::{PlainFrame, kinds};
use live_player::LivePlayer;
use q_channel::decode;
use raw_subcode::{BLOCK_BYTES, Block, Form};
use rw_code::Word;

/// The counts of blocks and of their words and frames. A count saturates at 18,446,744,073,709,551,615.
#[repr(C)]
#[derive(Clone, Copy)]
pub struct PlayerTally {
    pub blocks: u64,
    pub clean: u64,
    /// Words one symbol from a codeword.
    pub one: u64,
    /// Words two symbols from a codeword.
    pub two: u64,
    /// Words with no codeword within two symbols.
    pub bad: u64,
    /// Frames of the Q channel that were read.
    pub frames: u64,
    pub bad_frames: u64,
    /// The number of the block with the last frame that was read, from 1; or 0.
    pub frame_block: u64,
    /// The last frame that was read, or zeros if none was read.
    pub frame: PlainFrame,
}

impl PlayerTally {
    pub fn nothing() -> PlayerTally
        ensures { (form : Form) (lead_in : ℕ) → IsTallyOf form lead_in [] result }
    {
        PlayerTally {
            blocks: 0,
            clean: 0,
            one: 0,
            two: 0,
            bad: 0,
            frames: 0,
            bad_frames: 0,
            frame_block: 0,
            frame: of_kind(kinds::PROGRAM, 0),
        }
    }

    /// Counts a block of a stream of this form, and the words that end with it.
    pub(crate) fn count(&mut self, form: Form, words: &[Word], block: &[u8; BLOCK_BYTES])
        requires { length words.now ≤ 4 }
        ensures { self.new ≡ tallied form words.now block.now self.old }
    {
        self.blocks = self.blocks.saturating_add(1);
        self.count_words(words);
        self.count_frame(form, block);
    }

    fn count_words(&mut self, words: &[Word])
        requires { length words.now ≤ 4 }
        ensures { self.new ≡ record self.old {
          clean = tallied_count self.old.clean (wrong_count 0 words.now);
          one = tallied_count self.old.one (wrong_count 1 words.now);
          two = tallied_count self.old.two (wrong_count 2 words.now);
          bad = tallied_count self.old.bad (bad_words words.now);
        } }
    {
        let marks = WordMarks::of(words);
        self.clean = self.clean.saturating_add(u64::from(marks.clean));
        self.one = self.one.saturating_add(u64::from(marks.one));
        self.two = self.two.saturating_add(u64::from(marks.two));
        self.bad = self.bad.saturating_add(u64::from(marks.bad));
    }

    // Counts the frame of a block, and keeps a frame that is read.
    fn count_frame(&mut self, form: Form, block: &[u8; BLOCK_BYTES])
        ensures { self.new ≡ record self.old {
          frames = more_read self.old.frames (reading_in form block.now);
          bad_frames = more_refused self.old.bad_frames (reading_in form block.now);
          frame_block = place_after self.old.frame_block self.old.blocks (reading_in form block.now);
          frame = frame_after self.old.frame (reading_in form block.now);
        } }
    {
        match form {
            Form::Raw | Form::Sector => self.count_bits(block),
            Form::Cooked => {}
        }
    }

    fn count_bits(&mut self, block: &[u8; BLOCK_BYTES])
        ensures { self.new ≡ record self.old {
          frames = more_read self.old.frames (reading_in Form.Raw block.now);
          bad_frames = more_refused self.old.bad_frames (reading_in Form.Raw block.now);
          frame_block = place_after self.old.frame_block self.old.blocks (reading_in Form.Raw block.now);
          frame = frame_after self.old.frame (reading_in Form.Raw block.now);
        } }
    {
        match decode(&Block::from_bytes(block).q_frame()) {
            Ok(frame) => {
                self.frames = self.frames.saturating_add(1);
                self.frame_block = self.blocks;
                self.frame = plain_of(&frame);
            }
            Err(_) => self.bad_frames = self.bad_frames.saturating_add(1),
        }
    }
}

/// Feeds a player the next block, and counts its words and its frame.
pub fn feed_and_count(live: &mut LivePlayer, block: &[u8; BLOCK_BYTES], tally: &mut PlayerTally)
    ensures takes { TakesBlock block.now live.old live.new }
    ensures counts { tally.new ≡ tallied live.old.words.form
        (words_come (words_give live.old.words block.now)) block.now tally.old }
    ensures fed { PlaysOn (Fed block.now ∷ []) live.old live.new }
    // If the tally was that of the player's stream so far, it becomes that of the stream with this block.
    ensures tallies { (form : Form) (lead_in : ℕ) (given : List Given)
        → HasPlayed form lead_in given live.old → IsTallyOf form lead_in given tally.old
        → IsTallyOf form lead_in (Fed block.now ∷ given) tally.new }
{
    let form = live.words.form;
    let words = live.take(block);
    tally.count(form, words.as_slice(), block);
}
