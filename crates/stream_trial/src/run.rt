// A sink that is a trial: it plays each block at once and keeps none.
ghost use Rattle.std.specs.Prelude.{◌≡◌, ◌<◌, ◌≤◌, ◌+◌, ◌/◌, ◌++◌, ℕ, List, [], ◌∷◌, Some, length, take, IfOk};
ghost use Rattle.cdg_io.specs.Causes.{HasCause};
ghost use Rattle.raw_subcode.specs.Channels.{symbols_of};
ghost use Rattle.raw_subcode.specs.Sizes.{block_bytes, most_units};
ghost use Rattle.cdg_workload.specs.Generated.{generated_drawings};
ghost use Rattle.cdg_workload.specs.Scratches.{scratched};
ghost use Rattle.stream_trial.specs.Course.{Knows};
ghost use Rattle.stream_trial.specs.Replay.{IsDamagedSchedule, IsPlayedOut};

use crate::course::Course;
use cdg_io::{Failed, History, Sink};
use cdg_workload::scratches_are_bursts;
use picture_script::Script;
use raw_subcode::{BLOCK_BYTES, MOST_UNITS};
use std::alloc::AllocError;
use subcode_author::Heap;

/// The counts of a trial.
#[derive(Clone, Copy)]
pub(crate) struct Found {
    /// The number of words that were corrected in one symbol, and in two.
    pub(crate) one: u32,
    pub(crate) two: u32,
    /// The number of words without a codeword nearby.
    pub(crate) bad: u32,
    /// The number of pictures that were shown in time.
    pub(crate) equal: u32,
}

/// A running trial of the generated script of a seed. Each block is processed as soon as it is complete, and only the
/// current block is kept.
#[derive(Drop)]
pub(crate) struct TrialRun<'a> {
    script: &'a Script,
    pub(crate) seed: u64,
    pub(crate) pictures: u32,
    course: Course,
    /// The current block, and the number of its bytes so far.
    block: [u8; BLOCK_BYTES],
    filled: usize,
    faults: u64,
    pub(crate) history: History,
    ghost few: { course.blocks ≤ most_units },
    ghost full: { 0 < faults → course.blocks ≡ most_units },
    ghost begun: { filled < block_bytes },
    ghost known: { ∥ Knows script.now seed pictures course block filled history.bytes ∥₁ },
}

impl<'a> TrialRun<'a> {
    /// A trial before the first byte.
    pub(crate) fn start(
        heap: &mut Heap,
        script: &'a Script,
        seed: u64,
        pictures: u32,
    ) -> Result<TrialRun<'a>, AllocError>
        requires { script.now ≡ generated_drawings seed pictures }
        ensures of { IfOk result (λ run. (run.seed ≡ seed) × (run.pictures ≡ pictures)) }
        ensures nothing { IfOk result (λ run. run.history.bytes ≡ []) }
        ensures counted { HasCause heap.old heap.new result }
    {
        Ok(TrialRun {
            script,
            seed,
            pictures,
            course: Course::start(heap, seed)?,
            block: [0; BLOCK_BYTES],
            filled: 0,
            faults: 0,
            history: History::nothing(),
        })
    }

    /// The counts of the complete blocks so far.
    pub(crate) fn found(&self) -> Found
        ensures { let others = scratched 0 self.now.seed self.now.history.bytes in
            let script = generated_drawings self.now.seed self.now.pictures in
            (symbols : List ℕ) (packs : List (List ℕ))
            → IsDamagedSchedule script (length others / block_bytes) symbols packs (symbols_of others)
            → IsPlayedOut script (length others / block_bytes) symbols (symbols_of others) result }
    {
        // A law on the size of the stream with scratches.
        scratches_are_bursts();
        // A law: the pictures of a script are in order.
        self.script.times_rise_and_colours_are_in_range();
        Found {
            one: self.course.replay.one,
            two: self.course.replay.two,
            bad: self.course.replay.bad,
            equal: self.course.gallery.equal,
        }
    }

    // Adds bytes to the current block, and processes it if it is complete.
    fn take(&mut self, part: &[u8])
        requires few { self.old.course.blocks < most_units }
        requires fits { self.old.filled + length part.now ≤ block_bytes }
        ensures of { (self.new.seed ≡ self.old.seed) × (self.new.pictures ≡ self.old.pictures) }
        ensures history { self.new.history.bytes ≡ self.old.history.bytes ++ part.now }
        ensures faults { self.new.faults ≡ self.old.faults }
    {
        let end = self.filled + part.len();
        self.block[self.filled..end].copy_from_slice(part);
        self.history.note(part);
        if end < BLOCK_BYTES {
            self.filled = end;
        } else {
            self.course.go_over(self.script, &self.block);
            self.filled = 0;
        }
    }
}

impl<'a> Sink for TrialRun<'a> {
    // The seed and the number of pictures, which never change, and then the bytes that were written.
    ghost held = { λ s. Some (s.seed ∷ s.pictures ∷ s.history.bytes) };

    ghost faults = { λ s. s.faults };

    fn put(&mut self, piece: &[u8]) -> Result<usize, Failed> {
        if self.course.blocks == MOST_UNITS {
            self.faults = self.faults.saturating_add(1);
            return Err(Failed);
        }
        let count = piece.len().min(BLOCK_BYTES - self.filled);
        self.take(&piece[..count]);
        Ok(count)
    }
}
