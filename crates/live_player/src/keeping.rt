// A player of plain numbers, and its conversion from and to a `LivePlayer`.
ghost use Rattle.std.specs.Prelude.{◌≡◌, ◌∷◌, [], length};
ghost use Rattle.live_player.specs.Lives.{HasPlayed, PlaysOn};
ghost use Rattle.live_player.specs.Lives.Given.{Drawn, Fed};
ghost use Rattle.live_player.specs.Plain.{gatherer_of, numbered_form, player_of};
ghost use Rattle.live_player.specs.Steps.{DrawsPack, TakesBlock};
ghost use Rattle.raw_subcode.specs.Sizes.{block_bytes};
ghost use Rattle.stream_stages.specs.Steps.{words_give};

use crate::LivePlayer;
use crate::drawing::play;
use crate::plain::{PlainPlayer, PlainWords};
use crate::seeing::read_pack;
use raw_subcode::{BLOCK_BYTES, Form};
use rw_code::SYMBOLS;
use rw_interleave::Gather;
use stream_stages::{BlockOfWords, BlockWords};

impl PlainWords {
    pub fn of(words: &BlockWords) -> PlainWords
        ensures { gatherer_of result ≡ words.now }
    {
        let gather = &words.gather;
        PlainWords {
            early: gather.early,
            late: gather.late,
            count: gather.count,
            quiet: gather.quiet,
            form: number_of(words.form),
            lead_in: words.lead_in,
        }
    }

    pub fn words(&self) -> BlockWords
        ensures { result ≡ gatherer_of self.now }
    {
        let gather = Gather {
            early: self.early,
            late: self.late,
            count: self.count,
            quiet: self.quiet,
        };
        BlockWords {
            form: form_of(self.form),
            lead_in: self.lead_in,
            gather,
        }
    }
}

impl PlainPlayer {
    /// Restarts with a stream of this form.
    pub fn begin(&mut self, lead_in: u32, form: Form)
        ensures { HasPlayed form lead_in [] (player_of self.new) }
    {
        let mut words = BlockWords::new();
        words.begin(lead_in, form);
        self.words = PlainWords::of(&words);
        self.screen.reset();
        self.lead_in = lead_in;
        self.blocks = 0;
        self.bad = 0;
    }

    /// Reads the next block, and returns the words that end with it.
    pub fn step(&mut self, block: &[u8; BLOCK_BYTES]) -> Option<BlockOfWords>
        ensures takes { TakesBlock block.now (player_of self.old) (player_of self.new) }
        ensures gives { result ≡ words_give (player_of self.old).words block.now }
        ensures size { length block.now ≡ block_bytes }
    {
        let mut words = self.words.words();
        let came = play(&mut words, &mut self.screen, &mut self.bad, block);
        self.words = PlainWords::of(&words);
        self.blocks = self.blocks.saturating_add(1);
        came
    }

    /// Reads the next block.
    pub fn feed(&mut self, block: &[u8; BLOCK_BYTES])
        ensures takes { TakesBlock block.now (player_of self.old) (player_of self.new) }
        ensures fed { PlaysOn (Fed block.now ∷ []) (player_of self.old) (player_of self.new) }
    {
        self.step(block);
    }

    /// Draws a pack of 24 bytes. Its parity is ignored. The stream is unaffected.
    pub fn draw(&mut self, pack: &[u8; SYMBOLS])
        ensures draws { DrawsPack pack.now (player_of self.old) (player_of self.new) }
        ensures drawn { PlaysOn (Drawn pack.now ∷ []) (player_of self.old) (player_of self.new) }
    {
        self.screen.obey(&read_pack(pack));
    }

    /// Copies another player.
    pub fn copy_from(&mut self, other: &PlainPlayer)
        ensures { player_of self.new ≡ player_of other.now }
    {
        self.words = PlainWords::of(&other.words.words());
        self.screen.copy_from(&other.screen);
        self.lead_in = other.lead_in;
        self.blocks = other.blocks;
        self.bad = other.bad;
    }
}

impl LivePlayer {
    /// Converts a player to plain numbers.
    pub fn put_down(&self, plain: &mut PlainPlayer)
        ensures { player_of plain.new ≡ self.now }
    {
        plain.words = PlainWords::of(&self.words);
        plain.screen.copy_from(&self.screen);
        plain.lead_in = self.lead_in;
        plain.blocks = self.blocks;
        plain.bad = self.bad;
    }

    /// Copies a player of plain numbers.
    pub fn take_up(&mut self, plain: &PlainPlayer)
        ensures { self.new ≡ player_of plain.now }
    {
        self.words = plain.words.words();
        self.screen.copy_from(&plain.screen);
        self.lead_in = plain.lead_in;
        self.blocks = plain.blocks;
        self.bad = plain.bad;
    }
}

/// The form with a number.
pub fn form_of(number: u32) -> Form
    ensures { result ≡ numbered_form number }
{
    match number {
        0 => Form::Raw,
        1 => Form::Cooked,
        _ => Form::Sector,
    }
}

fn number_of(form: Form) -> u32
    ensures { numbered_form result ≡ form }
{
    match form {
        Form::Raw => 0,
        Form::Cooked => 1,
        Form::Sector => 2,
    }
}
