// Saving the checkpoint after a stream.
ghost use Rattle.std.specs.Prelude.{IfOk, ◌≡◌, ◌≢◌, ◌≤◌, ◌-◌, List, ℕ, length, min, IfSome, IfErr, Err};
ghost use Rattle.cdg_checkpoint.specs.Keeping.{HasReadNothing, IsKept};
ghost use Rattle.disc_time.specs.Counts.{most_lead_in};
ghost use Rattle.cdg_io.specs.Causes.{ReportsFault};
ghost use Rattle.std.specs.Io.KnownBytes.{Consumes};
ghost use Rattle.cdg_io.specs.Change.{change, from_to, passed};
ghost use Rattle.cdg_io.specs.Pump.{IsUnlessFault, answer_of};
ghost use Rattle.raw_subcode.specs.Sizes.{block_bytes, most_units};
ghost use Rattle.rw_interleave.specs.Interleave.{whole_packs};
ghost use Rattle.cdg_screen.specs.Standing.{blank};
ghost use Rattle.stream_stages.specs.Steps.{fresh_words};
ghost use Rattle.stream_stages.specs.Stages.{painting_of, words_of};
ghost use Rattle.cdg_checkpoint.specs.Saved.{EndsAsSaved, KeepsFile, Saves};

use crate::watch::watch;
use crate::{CheckpointFile, StreamCounts};
use cdg_io::{Failed, PumpStop, Pumped, Sink, Source, Then, put_all};
use cdg_screen::Screen;
use raw_subcode::{Form, MOST_UNITS};
use rw_interleave::whole_packs;
use std::alloc::{AllocError, Global};
use stream_stages::{BlockWords, Painting};

/// Saves checkpoints of streams and resumes from them, one at a time. All memory is allocated at the start. Each call
/// is independent of the calls before.
#[derive(Drop)]
pub struct Checkpointer {
    /// The last slots of a stream, and its picture.
    pub words: Then<BlockWords, Painting>,
    /// The file of a checkpoint.
    pub file: CheckpointFile,
}

impl Checkpointer {
    /// Allocates the screen and a file.
    ///
    /// # Errors
    ///
    /// `AllocError` if out of memory.
    pub fn start(alloc: Global) -> Result<Checkpointer, AllocError>
        ensures { IfOk result HasReadNothing }
    {
        let painting = Painting {
            screen: Screen::start(alloc)?,
            left: 0,
            bad: 0,
        };
        Ok(Checkpointer {
            words: Then::new(BlockWords::new(), painting),
            file: CheckpointFile::start(alloc)?,
        })
    }

    /// Writes the checkpoint after a stream of raw blocks, after reading all of it. `lead_in` is at most 450,000
    /// blocks.
    ///
    /// # Errors
    /// After `Torn`, `TooLong` or `ReadFault` nothing is written. After `WriteFault` the sink has a prefix of
    /// the file.
    pub fn save<S: Source, K: Sink>(
        &mut self,
        lead_in: u32,
        source: &mut S,
        out: &mut K,
    ) -> Result<Pumped, PumpStop>
        requires { lead_in ≤ most_lead_in }
        ensures saves { (taken : List ℕ) × Saves lead_in
            (passed S.left K.held (source.old, out.old) (source.new, out.new)) result taken }
        // The written file is kept, and no file is changed before the input was read to its end.
        ensures file { (taken : List ℕ) × Consumes (S.left source.old) (S.left source.new) taken
            × KeepsFile lead_in taken (change K.held out.old out.new) (from_to self.old.file self.new.file)
            result }
        // If nothing failed, the length of the whole input determines the result.
        ensures answer { IfSome (S.left source.old)
            (λ all. IsUnlessFault result (answer_of block_bytes most_units (length all))) }
        // If nothing is written, the output is unchanged.
        ensures untouched { IfErr result (λ stop. stop ≢ PumpStop.WriteFault → out.new ≡ out.old) }
        ensures read_fault { ReportsFault PumpStop.ReadFault
            (S.faults source.old) (S.faults source.new) result }
        ensures ended { EndsAsSaved result (S.ends source.old) (S.ends source.new) }
        ensures write_fault { ReportsFault PumpStop.WriteFault
            (K.faults out.old) (K.faults out.new) result }
    {
        self.begin(lead_in);
        match watch(MOST_UNITS, source, &mut self.words) {
            Ok(pumped) => {
                self.keep(pumped, lead_in);
                match put_all(out, self.file.bytes()) {
                    Ok(()) => Ok(pumped),
                    Err(Failed) => Err(PumpStop::WriteFault),
                }
            }
            Err(stop) => Err(stop),
        }
    }

    // Restores the state before a stream. All packs are drawn at once.
    fn begin(&mut self, lead_in: u32)
        ensures words { words_of self.new.words ≡ fresh_words Form.Raw lead_in }
        ensures left { (painting_of self.new.words).left ≡ whole_packs most_units }
        ensures bad { (painting_of self.new.words).bad ≡ 0 }
        ensures blank { (painting_of self.new.words).screen ≡ blank }
        ensures file { self.new.file ≡ self.old.file }
    {
        self.words.first.begin(lead_in, Form::Raw);
        let painting = &mut self.words.second;
        painting.left = whole_packs(MOST_UNITS);
        painting.bad = 0;
        painting.screen.reset();
    }

    // Makes the file of the part of the stream that was read.
    fn keep(&mut self, pumped: Pumped, lead_in: u32)
        ensures { IsKept pumped.units lead_in self.old.words self.new.file }
    {
        let read = pumped.units.min(lead_in);
        let painting = &self.words.second;
        let counts = StreamCounts {
            to_come: lead_in - read,
            lead_in: read,
            program: pumped.units - read,
            bad: painting.bad,
        };
        let slots = self.words.first.gather.symbols();
        self.file.compose(&counts, &slots, &painting.screen);
    }
}
