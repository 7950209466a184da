// Resuming from a checkpoint.
ghost use Rattle.std.specs.Prelude.{◌≡◌, ◌≢◌, ◌≤◌, ◌<◌, ◌+◌, ◌-◌, ◌^◌, List, ℕ, [], length, IfSome, IfErr, IsErr, IsOk, Err};
ghost use Rattle.disc_time.specs.Counts.{last_block};
ghost use Rattle.cdg_io.specs.Causes.{ReportsFault};
ghost use Rattle.cdg_io.specs.Change.{change, passed};
ghost use Rattle.cdg_io.specs.Reads.{input};
ghost use Rattle.cdg_io.specs.Run.{run_state};
ghost use Rattle.rw_interleave.specs.Gathering.{gather_next};
ghost use Rattle.cdg_checkpoint.specs.Table.{IsCheckpointFile};
ghost use Rattle.cdg_checkpoint.specs.Checkpoint.{checkpoint_in, standing_in};
ghost use Rattle.stream_stages.specs.Stages.{painting_of, words_of};
ghost use Rattle.cdg_checkpoint.specs.Resumed.{GoesOn, IsAcceptedBy, IsGoneOnBy, IsResumedBy, ReadsSaved, Resumes, acceptance, EndsAsResumed, packs_until, reached, saved_slots, time_after, ReportsResume};

use crate::watch::watch_some;
use crate::{Checkpointer, PlainFile, ResumeStop, Resumed, StreamCounts};
use cdg_io::{Failed, PumpStop, Pumped, Sink, Source};
use raw_subcode::{Form, MOST_UNITS, SLOTS_A_BLOCK};
use rw_interleave::{Gather, PACKS_KEPT_BACK, Slot, whole_packs};

impl Checkpointer {
    /// Writes the picture at a moment of a stream of raw blocks, from a checkpoint and the rest of the stream: a
    /// pixmap of the screen after the packs that are whole at program block `at`, at most 449,999. At most 65,046
    /// bytes of `saved` are read, into `file`. The rest is not read before the checkpoint is found valid.
    ///
    /// # Errors
    ///
    /// In this order: `BadSave` if the first input is not a valid checkpoint, `BeforeSave` if the moment is before the
    /// checkpoint; `TooLong`, `Torn` and `PastEnd` for the whole stream. Then nothing is written. `FirstFault` and
    /// `SecondFault` are failed reads of the first and second input. After `WriteFault` the sink holds a prefix.
    pub fn resume<S: Source, T: Source, K: Sink>(
        &mut self,
        at: u32,
        saved: &mut S,
        rest: &mut T,
        out: &mut K,
    ) -> Result<Resumed, ResumeStop>
        requires { at ≤ last_block }
        // The checkpoint is valid, or refused for the first reason.
        ensures accepted { IsAcceptedBy (acceptance result) at self.new.file }
        ensures reads { ReadsSaved (input S.Source saved.old saved.new) result self.new.file }
        // If the checkpoint is refused, the rest is not read.
        ensures rest_untouched { IsErr (acceptance result) → rest.new ≡ rest.old }
        ensures resumes { IsOk (acceptance result)
            → (taken : List ℕ) × Resumes self.new.file at
            (passed T.left K.held (rest.old, out.old) (rest.new, out.new)) result taken }
        // If nothing failed, the checkpoint and the length of the rest determine the result.
        ensures answer { IsOk (acceptance result) → IfSome (T.left rest.old)
            (λ all. IsResumedBy result (checkpoint_in self.new.file) at (length all)) }
        // If nothing is written, the output is unchanged.
        ensures untouched { IfErr result (λ stop. stop ≢ ResumeStop.WriteFault → out.new ≡ out.old) }
        ensures faults { ReportsResume (change S.faults saved.old saved.new)
            (change T.faults rest.old rest.new) (change K.faults out.old out.new) result }
        ensures rest_reported { IsOk (acceptance result)
            → EndsAsResumed result (T.ends rest.old) (T.ends rest.new) }
    {
        match self.accept(at, saved) {
            Ok(()) => self.show(at, rest, out),
            Err(stop) => Err(stop),
        }
    }

    // Plays the rest of a stream up to a moment, and writes the picture.
    fn show<T: Source, K: Sink>(
        &mut self,
        at: u32,
        rest: &mut T,
        out: &mut K,
    ) -> Result<Resumed, ResumeStop>
        requires at { at ≤ last_block }
        requires file { IsCheckpointFile self.old.file }
        requires not_later { (checkpoint_in self.old.file).program ≤ at }
        ensures file { self.new.file ≡ self.old.file }
        ensures accepted { IsOk (acceptance result) }
        ensures no_first { result ≢ Err ResumeStop.FirstFault }
        ensures resumes { (taken : List ℕ) × Resumes self.old.file at
            (passed T.left K.held (rest.old, out.old) (rest.new, out.new)) result taken }
        ensures answer { IfSome (T.left rest.old)
            (λ all. IsResumedBy result (checkpoint_in self.old.file) at (length all)) }
        ensures untouched { IfErr result (λ stop. stop ≢ ResumeStop.WriteFault → out.new ≡ out.old) }
        ensures second_fault { ReportsFault ResumeStop.SecondFault
            (T.faults rest.old) (T.faults rest.new) result }
        ensures write_fault { ReportsFault ResumeStop.WriteFault
            (K.faults out.old) (K.faults out.new) result }
        ensures rest_reported { EndsAsResumed result (T.ends rest.old) (T.ends rest.new) }
    {
        match self.go_on(at, rest) {
            Ok(resumed) => {
                let painting = &self.words.second;
                match painting.screen.write_ppm(out) {
                    Ok(()) => Ok(resumed),
                    Err(Failed) => Err(ResumeStop::WriteFault),
                }
            }
            Err(stop) => Err(stop),
        }
    }

    /// Reads a checkpoint that is not later than a moment.
    pub(crate) fn accept<S: Source>(&mut self, at: u32, saved: &mut S) -> Result<(), ResumeStop>
        ensures accepted { IsAcceptedBy result at self.new.file }
        ensures reads { ReadsSaved (input S.Source saved.old saved.new) result self.new.file }
        ensures fault { ReportsFault ResumeStop.FirstFault
            (S.faults saved.old) (S.faults saved.new) result }
    {
        match self.file.read(saved) {
            Ok(()) => self.accepted(at),
            Err(Failed) => Err(ResumeStop::FirstFault),
        }
    }

    // Checks that the file is a valid checkpoint that is not later than a moment.
    fn accepted(&self, at: u32) -> Result<(), ResumeStop>
        ensures accepted { IsAcceptedBy result at self.now.file }
        ensures no_fault { result ≢ Err ResumeStop.FirstFault }
    {
        match self.file.check() {
            Ok(()) => self.not_later(at),
            Err(byte) => Err(ResumeStop::BadSave { byte }),
        }
    }

    fn not_later(&self, at: u32) -> Result<(), ResumeStop>
        requires { IsCheckpointFile self.now.file }
        ensures accepted { IsAcceptedBy result at self.now.file }
        ensures no_fault { result ≢ Err ResumeStop.FirstFault }
    {
        let blocks = self.file.counts().program;
        if at < blocks {
            return Err(ResumeStop::BeforeSave { blocks });
        }
        Ok(())
    }

    /// Plays the rest of a stream up to a moment.
    pub(crate) fn go_on<S: Source>(&mut self, at: u32, rest: &mut S) -> Result<Resumed, ResumeStop>
        requires at { at ≤ last_block }
        requires file { IsCheckpointFile self.old.file }
        requires not_later { (checkpoint_in self.old.file).program ≤ at }
        ensures goes_on { (taken : List ℕ)
            × GoesOn (time_after (checkpoint_in self.old.file) at) (change S.left rest.old rest.new)
            (painting_of self.new.words).screen result taken }
        ensures answer { IfSome (S.left rest.old)
            (λ all. IsGoneOnBy result (checkpoint_in self.old.file) at (length all)) }
        ensures file { self.new.file ≡ self.old.file }
        ensures fault { ReportsFault ResumeStop.SecondFault
            (S.faults rest.old) (S.faults rest.new) result }
        ensures ended { EndsAsResumed result (S.ends rest.old) (S.ends rest.new) }
        ensures no_write { result ≢ Err ResumeStop.WriteFault }
        ensures no_first { result ≢ Err ResumeStop.FirstFault }
        ensures accepted { IsOk (acceptance result) }
    {
        let counts = self.file.counts();
        self.begin_again(&counts, at);
        let read = counts.lead_in + counts.program;
        match watch_some(MOST_UNITS - read, rest, &mut self.words) {
            Ok(pumped) => self.resumed(&counts, pumped, at),
            Err(stop) => match stop {
                PumpStop::ReadFault | PumpStop::WriteFault => Err(ResumeStop::SecondFault),
                PumpStop::Torn { unit } => Err(ResumeStop::Torn { block: read + unit }),
                PumpStop::TooLong => Err(ResumeStop::TooLong),
            },
        }
    }

    // The result, or `PastEnd` if the program ends before the moment.
    fn resumed(&self, counts: &StreamCounts, pumped: Pumped, at: u32) -> Result<Resumed, ResumeStop>
        requires { counts.now.program + pumped.units < 2 ^ 32 }
        ensures accepted { IsOk (acceptance result) }
        ensures answer { result ≡ reached (counts.now.program + (pumped.units - counts.now.to_come)) at
            (painting_of self.now.words).bad }
    {
        let blocks = counts.program + pumped.units.saturating_sub(counts.to_come);
        if blocks < at {
            return Err(ResumeStop::PastEnd { blocks });
        }
        let painting = &self.words.second;
        Ok(Resumed {
            blocks,
            bad: painting.bad,
        })
    }

    // Restores the state of a checkpoint.
    fn begin_again(&mut self, counts: &StreamCounts, at: u32)
        requires at { at ≤ last_block }
        requires file { IsCheckpointFile self.old.file }
        requires to_come { counts.now.to_come ≡ (checkpoint_in self.old.file).to_come }
        requires program { counts.now.program ≡ (checkpoint_in self.old.file).program }
        requires not_later { counts.now.program ≤ at }
        ensures words { words_of self.new.words ≡ record {
          form = Form.Raw;
          lead_in = counts.now.to_come;
          gather = run_state gather_next [] (saved_slots (checkpoint_in self.old.file));
        } }
        ensures left { (painting_of self.new.words).left ≡ packs_until (checkpoint_in self.old.file) at }
        ensures bad { (painting_of self.new.words).bad ≡ counts.now.bad }
        ensures stands { (painting_of self.new.words).screen ≡ standing_in self.old.file }
        ensures file { self.new.file ≡ self.old.file }
    {
        let words = &mut self.words.first;
        words.gather = gathered_slots(&self.file.plain);
        words.form = Form::Raw;
        words.lead_in = counts.to_come;
        let painting = &mut self.words.second;
        painting.left = whole_packs(at) - whole_packs(counts.program);
        painting.bad = counts.bad;
        self.file.bring_back(&mut painting.screen);
    }
}

/// A gatherer of the slots of a checkpoint, the oldest first. It continues as the one that was saved.
pub fn gathered_slots(file: &PlainFile) -> Gather
    requires { IsCheckpointFile file.now }
    ensures { result ≡ run_state gather_next [] (saved_slots (checkpoint_in file.now)) }
{
    let mut gather = Gather::new();
    let program = file.counts().program as usize;
    let kept = PACKS_KEPT_BACK.min(SLOTS_A_BLOCK * program);
    for k in 0..kept {
        let slot = file.slot(PACKS_KEPT_BACK - kept + k);
        gather.push(&Slot::new(&slot));
    }
    gather
}
