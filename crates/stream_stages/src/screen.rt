// The screen at a moment of a stream.
ghost use Rattle.std.specs.Prelude.{◌≡◌, ◌≤◌, ◌-◌, List, ℕ, length, IfSome, IfOk, IfErr, Err};
ghost use Rattle.disc_time.specs.Counts.{last_block, most_lead_in};
ghost use Rattle.cdg_io.specs.Causes.{ReportsFault};
ghost use Rattle.cdg_io.specs.Change.{change};
ghost use Rattle.raw_subcode.specs.Channels.{unit_size};
ghost use Rattle.rw_interleave.specs.Interleave.{whole_packs};
ghost use Rattle.cdg_screen.specs.Standing.{blank};
ghost use Rattle.cdg_screen.specs.Texts.{pixmap, state_text};
ghost use Rattle.stream_stages.specs.Plays.{PlaysThenWrites, showing};
ghost use Rattle.stream_stages.specs.Calls.{EndFirst, IsMomentStop};
ghost use Rattle.stream_stages.specs.Steps.{fresh_words};
ghost use Rattle.stream_stages.specs.Stages.{painting_of, words_of};
ghost use Rattle.stream_stages.specs.Screen.{IsShownBy, moment};
ghost use Rattle.stream_stages.specs.Watch.{Views, viewed};

use crate::{BlockWords, Painting, PlayStop, Played, SectorBlocks, play_stop, watch};
use cdg_io::{Failed, Pumped, Sink, Source, Then};
use cdg_screen::Screen;
use raw_subcode::Form;
use rw_interleave::whole_packs;
use std::alloc::{AllocError, Global};

/// Shows moments of streams, one stream in each call. A call never depends on an earlier call. The viewer has one
/// screen.
#[derive(Drop)]
pub struct Viewer {
    /// The stage that draws a stream up to a moment.
    pub views: SectorBlocks<Then<BlockWords, Painting>>,
}

impl Viewer {
    /// Allocates the screen.
    pub fn start(alloc: Global) -> Result<Viewer, AllocError>
        ensures words { IfOk result (λ viewer. words_of viewer.views.blocks ≡ fresh_words Form.Raw 0) }
        ensures painting { IfOk result (λ viewer. ((painting_of viewer.views.blocks).screen ≡ blank)
            × ((painting_of viewer.views.blocks).left ≡ 0) × ((painting_of viewer.views.blocks).bad ≡ 0)) }
    {
        let painting = Painting {
            screen: Screen::start(alloc)?,
            left: 0,
            bad: 0,
        };
        Ok(Viewer {
            views: SectorBlocks {
                blocks: Then::new(BlockWords::new(), painting),
            },
        })
    }

    /// Reads a whole stream, and then writes the picture at a moment: a pixmap of the screen after the packs that are
    /// complete at program block `at`, which are the first 4 * at - 7 packs.
    ///
    /// `lead_in` is at most 450,000 blocks, and `at` is at most 449,999. A word with no codeword within two symbols
    /// draws nothing; `Played::bad` is the number of such words among the packs up to the moment.
    ///
    /// # Errors
    ///
    /// `PastEnd` if the program has fewer than `at` blocks. After `PastEnd`, `Torn`, `TooLong` or `ReadFault`
    /// nothing is written. After `WriteFault` the sink has a prefix of the picture.
    pub fn screen_at<S: Source, K: Sink>(
        &mut self,
        lead_in: u32,
        form: Form,
        at: u32,
        source: &mut S,
        out: &mut K,
    ) -> Result<Played, PlayStop>
        requires lead_in { lead_in ≤ most_lead_in }
        requires at { at ≤ last_block }
        ensures plays { PlaysThenWrites (showing pixmap (moment form lead_in at))
            S.Source K.Sink (source.old, out.old) (source.new, out.new) result }
    {
        match self.view(lead_in, form, at, source) {
            Ok(played) => {
                let painting = &self.views.blocks.second;
                match painting.screen.write_ppm(out) {
                    Ok(()) => Ok(played),
                    Err(Failed) => Err(PlayStop::WriteFault),
                }
            }
            Err(stop) => Err(stop),
        }
    }

    /// Writes the state at a moment: the border, offsets, colours and levels of the screen that `screen_at` shows.
    /// Units and errors are those of `screen_at`.
    pub fn state_at<S: Source, K: Sink>(
        &mut self,
        lead_in: u32,
        form: Form,
        at: u32,
        source: &mut S,
        out: &mut K,
    ) -> Result<Played, PlayStop>
        requires lead_in { lead_in ≤ most_lead_in }
        requires at { at ≤ last_block }
        ensures plays { PlaysThenWrites (showing state_text (moment form lead_in at))
            S.Source K.Sink (source.old, out.old) (source.new, out.new) result }
    {
        match self.view(lead_in, form, at, source) {
            Ok(played) => {
                let painting = &self.views.blocks.second;
                match painting.screen.write_state(out) {
                    Ok(()) => Ok(played),
                    Err(Failed) => Err(PlayStop::WriteFault),
                }
            }
            Err(stop) => Err(stop),
        }
    }

    // Draws the packs of a whole stream that are complete at a moment.
    fn view<S: Source>(
        &mut self,
        lead_in: u32,
        form: Form,
        at: u32,
        source: &mut S,
    ) -> Result<Played, PlayStop>
        requires lead_in { lead_in ≤ most_lead_in }
        requires at { at ≤ last_block }
        ensures views { (taken : List ℕ)
            × Views (moment form lead_in at) (change S.left source.old source.new)
            (painting_of self.new.views.blocks).screen result taken }
        ensures stops { IfErr result IsMomentStop }
        ensures answer { IfSome (S.left source.old) (λ all.
            IsShownBy result lead_in at (unit_size form) (length all)) }
        ensures read_fault { ReportsFault PlayStop.ReadFault
            (S.faults source.old) (S.faults source.new) result }
        ensures ended { EndFirst result (S.ends source.old) (S.ends source.new) }
    {
        self.begin_view(lead_in, form, at);
        match watch(form, source, &mut self.views) {
            Ok(pumped) => self.viewed(pumped, lead_in, at),
            Err(stop) => Err(play_stop(stop)),
        }
    }

    // The result, or `PastEnd` if the program ends before the moment.
    fn viewed(&self, pumped: Pumped, lead_in: u32, at: u32) -> Result<Played, PlayStop>
        ensures { result ≡ viewed (pumped.units - lead_in) at (painting_of self.now.views.blocks).bad }
    {
        let blocks = pumped.units.saturating_sub(lead_in);
        if blocks < at {
            return Err(PlayStop::PastEnd { blocks });
        }
        let painting = &self.views.blocks.second;
        Ok(Played {
            blocks,
            bad: painting.bad,
        })
    }

    // Sets the state before the first block of a stream of this form, for a moment.
    fn begin_view(&mut self, lead_in: u32, form: Form, at: u32)
        requires { at ≤ last_block }
        ensures words { words_of self.new.views.blocks ≡ fresh_words form lead_in }
        ensures left { (painting_of self.new.views.blocks).left ≡ whole_packs at }
        ensures bad { (painting_of self.new.views.blocks).bad ≡ 0 }
        ensures blank { (painting_of self.new.views.blocks).screen ≡ blank }
    {
        self.views.blocks.first.begin(lead_in, form);
        let painting = &mut self.views.blocks.second;
        painting.left = whole_packs(at);
        painting.bad = 0;
        painting.screen.reset();
    }
}
