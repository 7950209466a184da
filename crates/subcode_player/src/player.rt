// The parts of a player, and a call for each.
ghost use Rattle.std.specs.Prelude.{◌≡◌, ◌≢◌, ◌≤◌, List, ℕ, IfSome, IfOk};
ghost use Rattle.std.specs.List.{concat};
ghost use Rattle.disc_time.specs.Counts.{last_block, most_lead_in};
ghost use Rattle.cdg_screen.specs.Texts.{pixmap, state_text};
ghost use Rattle.rw_interleave.specs.Stream.{all_packs};
ghost use Rattle.stream_stages.specs.Plays.{Plays, PlaysThenWrites, checking, conversion, frame_listing, showing, text_listing};
ghost use Rattle.stream_stages.specs.Convert.{IsDamagedStream, Restores};
ghost use Rattle.stream_stages.specs.Screen.{moment};
ghost use Rattle.stream_stages.specs.Steps.{fresh_words};

use cdg_io::{Sink, Source};
use raw_subcode::Form;
use std::alloc::{AllocError, Global};
use stream_stages::{Checker, Converter, PlayStop, Played, TextLister, Viewer, list_frames};

/// Plays streams, one stream in each call. A call never depends on an earlier call. All memory is allocated at the
/// start.
///
/// A call has two parameters for its input: the number of lead-in blocks, at most 450,000, and the form of the units
/// (blocks of 96 bytes, or sectors of 2,448 bytes). It reads at most one byte after 1,000,000 units.
#[derive(Drop)]
pub struct Player {
    /// Converts streams; it allocates nothing.
    pub converter: Converter,
    /// Shows moments; it has one screen.
    pub viewer: Viewer,
    /// Counts; it allocates nothing.
    pub checker: Checker,
    /// Lists texts; it contains a table of text packs.
    pub lister: TextLister,
}

impl Player {
    /// Allocates the screen.
    pub fn start(alloc: Global) -> Result<Player, AllocError>
        ensures { IfOk result (λ p. (p.converter.stages.blocks.words ≡ fresh_words Form.Raw 0)
            × (p.converter.stages.blocks.bad ≡ 0)) }
    {
        let viewer = Viewer::start(alloc)?;
        let lister = TextLister::start(alloc)?;
        Ok(Player {
            converter: Converter::new(),
            viewer,
            checker: Checker::new(),
            lister,
        })
    }

    /// Writes the packs of a stream while it reads the blocks: 24 bytes for each pack, every byte below 64.
    ///
    /// `lead_in` is at most 450,000 blocks, which are skipped. A word with no codeword within two symbols is written
    /// as 24 zeros, and counted in `Played::bad`. For B program blocks, 4B - 7 packs are written, or 4B packs if the
    /// form is cooked.
    ///
    /// # Errors
    ///
    /// `Torn` and `TooLong` come after the packs of all whole blocks were written, and `ReadFault` after those of the
    /// blocks that were read. After `WriteFault` the sink has a prefix of the packs, and no later block was read.
    pub fn convert<S: Source, K: Sink>(
        &mut self,
        lead_in: u32,
        form: Form,
        source: &mut S,
        out: &mut K,
    ) -> Result<Played, PlayStop>
        requires { lead_in ≤ most_lead_in }
        ensures plays { Plays (conversion form lead_in) S.Source K.Sink
            (source.old, out.old) (source.new, out.new) result }
        // Damage of at most two symbols in each word changes no pack.
        ensures restores { IfSome (S.left source.old) (λ all. (blocks : ℕ) (packs : List (List ℕ))
            → IsDamagedStream form lead_in blocks packs all
            → Restores result (K.held out.old) (K.held out.new) (concat (all_packs form blocks packs))) }
    {
        self.converter.convert(lead_in, form, source, out)
    }

    /// Reads a whole stream, and then writes the picture at a moment: a pixmap of the screen after the packs that are
    /// complete at program block `at`, which are the first 4 * at - 7 packs.
    ///
    /// `lead_in` is at most 450,000 blocks, and `at` is at most 449,999. A word with no codeword within two symbols
    /// draws nothing; `Played::bad` is the number of such words among the packs up to the moment.
    ///
    /// # Errors
    ///
    /// `PastEnd` if the program has fewer than `at` blocks. After `PastEnd`, `Torn`, `TooLong` or `ReadFault`
    /// nothing is written. After `WriteFault` the sink has a prefix of the picture.
    pub fn screen_at<S: Source, K: Sink>(
        &mut self,
        lead_in: u32,
        form: Form,
        at: u32,
        source: &mut S,
        out: &mut K,
    ) -> Result<Played, PlayStop>
        requires lead_in { lead_in ≤ most_lead_in }
        requires at { at ≤ last_block }
        ensures plays { PlaysThenWrites (showing pixmap (moment form lead_in at))
            S.Source K.Sink (source.old, out.old) (source.new, out.new) result }
    {
        self.viewer.screen_at(lead_in, form, at, source, out)
    }

    /// Writes the state at a moment: the border, offsets, colours and levels of the screen that `screen_at` shows.
    /// Units and errors are those of `screen_at`.
    pub fn state_at<S: Source, K: Sink>(
        &mut self,
        lead_in: u32,
        form: Form,
        at: u32,
        source: &mut S,
        out: &mut K,
    ) -> Result<Played, PlayStop>
        requires lead_in { lead_in ≤ most_lead_in }
        requires at { at ≤ last_block }
        ensures plays { PlaysThenWrites (showing state_text (moment form lead_in at))
            S.Source K.Sink (source.old, out.old) (source.new, out.new) result }
    {
        self.viewer.state_at(lead_in, form, at, source, out)
    }

    /// Reads a whole stream, and then writes its counts: of its blocks, of its words by their wrong symbols and by
    /// their kind, and of the frames of its Q channel. A cooked stream has no frames.
    ///
    /// `lead_in` is at most 450,000 blocks. `Played::bad` is the number of words with no codeword within two symbols;
    /// a bad frame counts only in the text.
    ///
    /// # Errors
    ///
    /// After `Torn`, `TooLong` or `ReadFault` nothing is written. After `WriteFault` the sink has a prefix of
    /// the text.
    pub fn check<S: Source, K: Sink>(
        &mut self,
        lead_in: u32,
        form: Form,
        source: &mut S,
        out: &mut K,
    ) -> Result<Played, PlayStop>
        requires { lead_in ≤ most_lead_in }
        ensures plays { PlaysThenWrites (checking form lead_in) S.Source K.Sink
            (source.old, out.old) (source.new, out.new) result }
    {
        self.checker.check(lead_in, form, source, out)
    }

    /// Calls `list_frames`. It uses no part of the player.
    pub fn q_list<S: Source, K: Sink>(
        &mut self,
        lead_in: u32,
        form: Form,
        source: &mut S,
        out: &mut K,
    ) -> Result<Played, PlayStop>
        requires lead_in { lead_in ≤ most_lead_in }
        requires form { form ≢ Form.Cooked }
        ensures plays { Plays (frame_listing form lead_in) S.Source K.Sink
            (source.old, out.old) (source.new, out.new) result }
        ensures player { self.new ≡ self.old }
    {
        list_frames(lead_in, form, source, out)
    }

    /// Reads a whole stream, and then writes the texts of its lead-in: a line for each string that is not empty, and
    /// a line for the packs. It allocates only the texts, after it read everything.
    ///
    /// `lead_in` is at most 450,000 blocks. The form is raw or sector: a cooked stream has no lead-in. `Played::bad`
    /// is 0.
    ///
    /// # Errors
    ///
    /// `Text` if the packs hold no texts, or if no memory is available for the texts. After `Text`, `Torn`,
    /// `TooLong` or `ReadFault` nothing is written. After `WriteFault` the sink has a prefix of the lines.
    pub fn text_list<S: Source, K: Sink>(
        &mut self,
        alloc: Global,
        lead_in: u32,
        form: Form,
        source: &mut S,
        out: &mut K,
    ) -> Result<Played, PlayStop>
        requires lead_in { lead_in ≤ most_lead_in }
        requires form { form ≢ Form.Cooked }
        ensures plays { PlaysThenWrites (text_listing form lead_in) S.Source K.Sink
            (source.old, out.old) (source.new, out.new) result }
    {
        self.lister.text_list(alloc, lead_in, form, source, out)
    }
}
