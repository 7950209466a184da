// A file on the heap.
ghost use Rattle.std.specs.Prelude.{◌≡◌, ◌≤◌, ◌+◌, ◌<◌, [], ℕ, length, MatchResult, IfOk, OnOk, OnErr};
ghost use Rattle.cdg_checkpoint.specs.Checkpoint.{file_of, kept, standing_in};
ghost use Rattle.cdg_checkpoint.specs.Table.{Bad, IsBadAt, IsCheckpointFile, LeadIn, Program, ToCome, file_size, number};
ghost use Rattle.cdg_checkpoint.specs.Reading.{ReadsCheckpointFile};

use crate::StreamCounts;
use crate::plain_file::{PlainFile, SLOTS_BYTES};
use cdg_io::{Failed, Source};
use cdg_screen::Screen;
use std::alloc::{AllocError, Global};
use std::marker::Model;

/// A `PlainFile` on the heap, viewed as the list of its bytes. All memory is allocated at the start; the file never
/// grows.
#[derive(Drop)]
pub struct CheckpointFile {
    pub plain: Box<PlainFile>,
}

impl Model for CheckpointFile {
    ghost use Rattle.std.specs.Prelude.{List, ℕ};

    ghost Value = { List ℕ };

    ghost view = { λ f. f.plain.value };
}

impl CheckpointFile {
    /// An empty file, with memory for a whole file.
    pub fn start(alloc: Global) -> Result<CheckpointFile, AllocError>
        ensures { IfOk result (λ f. f ≡ []) }
    {
        let plain = Box::new(alloc, PlainFile::empty())?;
        Ok(CheckpointFile { plain })
    }

    pub fn bytes(&self) -> &[u8]
        ensures same { result.now ≡ self.now }
        ensures most { length result.now ≤ file_size + 1 }
    {
        self.plain.bytes()
    }

    /// Reads an input to its end, at most 65,046 bytes.
    ///
    /// # Errors
    /// `Failed` if a read failed.
    pub fn read<S: Source>(&mut self, source: &mut S) -> Result<(), Failed>
        ensures reads { ReadsCheckpointFile S.Source source.old source.new self.new result }
    {
        self.plain.read(source)
    }

    /// Checks that this is the valid file of a checkpoint.
    ///
    /// # Errors
    /// The number of the first invalid byte, as in `judge`.
    pub fn check(&self) -> Result<(), u32>
        ensures { MatchResult result (λ _. IsCheckpointFile self.now) (IsBadAt self.now) }
    {
        self.plain.check()
    }

    /// The counts in a file of full length.
    pub fn counts(&self) -> StreamCounts
        requires { length self.now ≡ file_size }
        ensures to_come { result.to_come ≡ number self.now ToCome 0 }
        ensures lead_in { result.lead_in ≡ number self.now LeadIn 0 }
        ensures program { result.program ≡ number self.now Program 0 }
        ensures bad { result.bad ≡ number self.now Bad 0 }
    {
        self.plain.counts()
    }

    /// Sets the bytes to the file of these counts, of the symbols of the last seven slots (zeros before the
    /// first slot) and of the screen.
    pub fn compose(&mut self, counts: &StreamCounts, slots: &[u8; SLOTS_BYTES], screen: &Screen)
        ensures { self.new ≡ file_of (kept counts.now slots.now screen.now) }
    {
        self.plain.compose(counts, slots, &screen.plain);
    }

    /// Restores the screen from the valid file of a checkpoint.
    pub fn bring_back(&self, screen: &mut Screen)
        requires { IsCheckpointFile self.now }
        ensures { screen.new ≡ standing_in self.now }
    {
        self.plain.bring_back(&mut screen.plain);
    }
}
