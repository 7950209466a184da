// A player that is fed block by block.
ghost use Rattle.std.specs.Prelude.{◌≡◌, ◌<◌, ◌≤◌, ◌+◌, ◌-◌, ◌^◌, ◌/◌, ◌%◌, ◌++◌, ◌∷◌, [], List, ℕ, length, map, min, slice_index, IfOk};
ghost use Rattle.cdg_instructions.specs.Sizes.{colour_values, screen_height, screen_pixels, screen_width};
ghost use Rattle.cdg_screen.specs.Standing.{blank, screen_pixel, standing_after};
ghost use Rattle.raw_subcode.specs.declared.form.Form.{Form};
ghost use Rattle.stream_stages.specs.Steps.{words_next, words_give};
ghost use Rattle.live_player.specs.Lives.{Given, bad_counted, blocks_in, drawn_for, instruction_of, packs_given, picture_byte, picture_bytes, standing_on, stream_words, HasPlayed, IsLiveView, IsLiveViewAt, PlaysOn};
ghost use Rattle.live_player.specs.Lives.Given.{Drawn, Fed};
ghost use Rattle.live_player.specs.Parts.{HasRoomFor, IsOnScreen, ShowsPart};
ghost use Rattle.live_player.specs.Steps.{DrawsPack, TakesBlock, words_come};

use crate::drawing::play;
use crate::looking::{self, PICTURE_BYTES, ScreenPart};
use arrayvec::ArrayVec;
use cdg_instructions::{SCREEN_PIXELS, read_word};
use cdg_screen::PlainScreen;
use raw_subcode::{BLOCK_BYTES, Form};
use rw_code::{SYMBOLS, Word};
use rw_interleave::Gather;
use std::alloc::{AllocError, Global};
use stream_stages::{BlockOfWords, BlockWords};

/// Plays a stream block by block, without an end. The struct has a fixed size and holds only numbers, so playing never
/// allocates.
#[derive(Drop)]
pub struct LivePlayer {
    /// Gathers the words of the stream.
    pub words: BlockWords,
    /// The screen that the words have drawn.
    pub screen: PlainScreen,
    /// The blocks of the lead-in, read or not.
    pub lead_in: u32,
    /// The blocks that were read. This count and that of bad words saturate at `u32::MAX`.
    pub blocks: u32,
    /// The words so far with no codeword near.
    pub bad: u32,
}

impl LivePlayer {
    /// A player of a raw stream with no lead-in, before its first block.
    pub fn start(alloc: Global) -> Result<Box<LivePlayer>, AllocError>
        ensures { IfOk result (λ live. HasPlayed Form.Raw 0 [] live.value) }
    {
        Ok(Box::new(alloc, LivePlayer::fresh())?)
    }

    // A new player. It is inlined, so that it is built in place and needs no stack.
    #[inline(always)]
    fn fresh() -> LivePlayer
        ensures { HasPlayed Form.Raw 0 [] result }
    {
        LivePlayer {
            words: BlockWords::new(),
            screen: PlainScreen::blank(),
            lead_in: 0,
            blocks: 0,
            bad: 0,
        }
    }

    /// Restarts with a stream of this form.
    pub fn begin(&mut self, lead_in: u32, form: Form)
        ensures { HasPlayed form lead_in [] self.new }
    {
        let words = &mut self.words;
        words.form = form;
        words.lead_in = lead_in;
        words.gather.reset();
        self.screen.reset();
        self.lead_in = lead_in;
        self.blocks = 0;
        self.bad = 0;
    }

    /// Reads the next block.
    pub fn feed(&mut self, block: &[u8; BLOCK_BYTES])
        // Whatever the player was given before.
        ensures takes { TakesBlock block.now self.old self.new }
        // If it is known what the player was given.
        ensures fed { PlaysOn (Fed block.now ∷ []) self.old self.new }
    {
        self.step(block);
    }

    /// Reads the next block, and returns the words that end with it, at most four.
    pub fn take(&mut self, block: &[u8; BLOCK_BYTES]) -> ArrayVec<Word, 4>
        ensures takes { TakesBlock block.now self.old self.new }
        ensures gives { result.items ≡ words_come (words_give self.old.words block.now) }
        ensures fed { PlaysOn (Fed block.now ∷ []) self.old self.new }
        ensures words { (form : Form) (lead_in : ℕ) (given : List Given)
            → HasPlayed form lead_in given self.old
            → stream_words form lead_in (blocks_in given ++ block.now ∷ [])
            ≡ stream_words form lead_in (blocks_in given) ++ result.items }
    {
        match self.step(block) {
            Some(words) => words.into_words(),
            None => ArrayVec::new(),
        }
    }

    // Gathers the words that end with a block, and draws them.
    fn step(&mut self, block: &[u8; BLOCK_BYTES]) -> Option<BlockOfWords>
        ensures gathers { self.new.words ≡ words_next self.old.words block.now }
        ensures gives { result ≡ words_give self.old.words block.now }
        ensures draws { standing_on self.new
            ≡ standing_after (standing_on self.old) (drawn_for (words_give self.old.words block.now)) }
        ensures lead_in { self.new.lead_in ≡ self.old.lead_in }
        ensures blocks { self.new.blocks ≡ min (self.old.blocks + 1) (2 ^ 32 - 1) }
        ensures bad { self.new.bad ≡ bad_counted self.old.bad (words_give self.old.words block.now) }
    {
        self.blocks = self.blocks.saturating_add(1);
        play(&mut self.words, &mut self.screen, &mut self.bad, block)
    }

    /// Draws a pack of 24 bytes, as in a .cdg file. The low six bits of each byte are its symbols. Its parity is
    /// ignored. The stream is unaffected.
    pub fn draw(&mut self, pack: &[u8; SYMBOLS])
        ensures draws { DrawsPack pack.now self.old self.new }
        ensures drawn { PlaysOn (Drawn pack.now ∷ []) self.old self.new }
    {
        self.screen.obey(&read_word(&Word::new(pack)));
    }

    /// A law: if no packs were drawn, the screen shows the blocks since the start.
    pub fn shows_its_blocks(&self)
        ensures last { (form : Form) (lead_in : ℕ) (given : List Given)
            → HasPlayed form lead_in given self.now → packs_given given ≡ []
            → IsLiveView form lead_in (blocks_in given) (standing_on self.now) }
        // For a raw stream, this is the screen at the end of the program so far.
        ensures so_far { (lead_in : ℕ) (given : List Given) → HasPlayed Form.Raw lead_in given self.now
            → packs_given given ≡ [] → IsLiveViewAt Form.Raw lead_in (length (blocks_in given) - lead_in)
            (blocks_in given) (standing_on self.now) }
    {}

    /// A law: if no blocks were fed, the screen shows the packs since the start.
    pub fn shows_its_packs(&self)
        ensures { (form : Form) (lead_in : ℕ) (given : List Given)
            → HasPlayed form lead_in given self.now → blocks_in given ≡ []
            → standing_on self.now ≡ standing_after blank (map instruction_of (packs_given given)) }
    {}

    /// The pixel of the screen at a place: `x` below 300 from the left, `y` below 216 from the top.
    pub fn pixel(&self, x: u32, y: u32) -> u8
        requires width { x < screen_width }
        requires height { y < screen_height }
        ensures pixel { result ≡ screen_pixel (standing_on self.now) x y }
        ensures range { result < 16 }
    {
        self.screen.pixel(x, y)
    }

    /// Colour `k` of the table, as 0xRGB. `k` is below 16.
    pub fn colour(&self, k: u8) -> u16
        requires { k < 16 }
        ensures colour { result ≡ slice_index (standing_on self.now).colours k }
        ensures range { result < colour_values }
    {
        self.screen.colour(k)
    }

    /// Writes the colour numbers of the screen's pixels, row by row: (x, y) is number 300 y + x.
    pub fn screen(&self, pixels: &mut [u8; SCREEN_PIXELS])
        ensures { (n : ℕ) → n < screen_pixels
            → slice_index pixels.new n
            ≡ screen_pixel (standing_on self.now) (n % screen_width) (n / screen_width) }
    {
        looking::pixels(&self.screen, pixels);
    }

    /// Writes the colour numbers of a part of the screen, row by row: row j begins at byte `stride` times j.
    pub fn part(&self, part: &ScreenPart, pixels: &mut [u8], stride: usize)
        requires part { IsOnScreen part.now }
        requires apart { part.now.width ≤ stride }
        requires room { HasRoomFor part.now stride (length pixels.old) }
        ensures { ShowsPart (standing_on self.now) part.now stride pixels.old pixels.new }
    {
        looking::part_of_screen(&self.screen, part, pixels, stride);
    }

    /// Writes the colours of the table, each as 0xRGB.
    pub fn colours(&self, table: &mut [u16; 16])
        ensures { (k : ℕ) → k < 16 → slice_index table.new k ≡ slice_index (standing_on self.now).colours k }
    {
        looking::colours(&self.screen, table);
    }

    /// Writes the levels of the colours.
    pub fn levels(&self, levels: &mut [u8; 16])
        ensures { (k : ℕ) → k < 16 → slice_index levels.new k ≡ slice_index (standing_on self.now).levels k }
    {
        looking::levels(&self.screen, levels);
    }

    /// Writes red, green and blue of the screen's pixels, row by row: (x, y) begins at byte 3 (300 y + x).
    pub fn bytes(&self, bytes: &mut [u8; PICTURE_BYTES])
        ensures { (n : ℕ) → n < picture_bytes
            → slice_index bytes.new n ≡ picture_byte (standing_on self.now) n }
    {
        looking::bytes(&self.screen, bytes);
    }

    /// The number of the border's colour.
    pub fn border(&self) -> u8
        ensures border { result ≡ (standing_on self.now).border }
        ensures range { result < 16 }
    {
        self.screen.border()
    }

    /// How many pixels further right and further down in the memory the screen begins.
    pub fn offsets(&self) -> (u8, u8)
        ensures across { result.0 ≡ (standing_on self.now).h }
        ensures down { result.1 ≡ (standing_on self.now).v }
        ensures ranges { (result.0 ≤ 5) × (result.1 ≤ 11) }
    {
        looking::offsets(&self.screen)
    }

    /// Copies another player.
    pub fn copy_from(&mut self, other: &LivePlayer)
        ensures { self.new ≡ other.now }
    {
        self.lead_in = other.lead_in;
        self.blocks = other.blocks;
        self.bad = other.bad;
        let words = &mut self.words;
        words.form = other.words.form;
        words.lead_in = other.words.lead_in;
        words.gather = copy_of(&other.words.gather);
        self.screen.copy_from(&other.screen);
    }
}

// A copy of a gatherer.
fn copy_of(gather: &Gather) -> Gather
    ensures { result ≡ gather.now }
{
    Gather {
        early: gather.early,
        late: gather.late,
        count: gather.count,
        quiet: gather.quiet,
    }
}
