// The bytes of a file.
ghost use Rattle.std.specs.Prelude.{◌≡◌, ◌<◌, ◌≤◌, ◌+◌, ◌*◌, [], ◌++◌, List, ℕ, length, MatchResult, OnOk, OnErr, drop, take};
ghost use Rattle.cdg_screen.specs.Memory.{seen};
ghost use Rattle.raw_subcode.specs.Sizes.{symbols_a_slot};
ghost use Rattle.rw_interleave.specs.Interleave.{packs_kept_back};
ghost use Rattle.cdg_checkpoint.specs.Checkpoint.{checkpoint_in, standing_in};
ghost use Rattle.cdg_checkpoint.specs.Table.{Bad, IsBadAt, IsCheckpointFile, LeadIn, Program, ToCome, file_size, number};
ghost use Rattle.cdg_checkpoint.specs.Reading.{ReadsCheckpointFile};

use crate::StreamCounts;
use crate::checking::judge;
use crate::fields::counts_in;
use crate::restoring::{restore, slot_in};
use cdg_io::{Failed, Source};
use cdg_screen::PlainScreen;
use raw_subcode::SYMBOLS_A_SLOT;
use rw_interleave::PACKS_KEPT_BACK;
use std::marker::Model;

pub const FILE_BYTES: usize = 65_045;

/// The bytes of the last seven slots in a file.
pub const SLOTS_BYTES: usize = PACKS_KEPT_BACK * SYMBOLS_A_SLOT;

/// A file, and one more byte to detect a longer input.
pub(crate) const ROOM: usize = FILE_BYTES + 1;

const CHUNK: usize = 4096;

// Zeros. An element of a table is copied in one go.
static EMPTY: [[u8; ROOM]; 1] = [[0; ROOM]];

/// A file of at most 65,046 bytes, viewed as the list of its bytes. It needs no heap: a caller can allocate it
/// anywhere.
#[derive(Drop)]
pub struct PlainFile {
    pub(crate) bytes: [u8; ROOM],
    pub(crate) count: usize,
}

impl Model for PlainFile {
    ghost use Rattle.std.specs.Prelude.{◌≤◌, ◌+◌, List, ℕ, take};
    ghost use Rattle.cdg_checkpoint.specs.Table.{file_size};

    ghost Value = { List ℕ };

    ghost view = { λ f. take f.count f.bytes };

    ghost invariant = { λ f. f.count ≤ file_size + 1 };
}

impl PlainFile {
    /// An empty file. It is inlined, so that it is built in place and needs no stack.
    #[inline(always)]
    pub fn empty() -> PlainFile
        ensures { result ≡ [] }
    {
        PlainFile {
            bytes: EMPTY[0],
            count: 0,
        }
    }

    pub fn bytes(&self) -> &[u8]
        ensures same { result.now ≡ self.now }
        ensures most { length result.now ≤ file_size + 1 }
    {
        &self.bytes[..self.count]
    }

    /// Checks that this is the valid file of a checkpoint.
    ///
    /// # Errors
    /// The number of the first invalid byte, as in `judge`.
    pub fn check(&self) -> Result<(), u32>
        ensures { MatchResult result (λ _. IsCheckpointFile self.now) (IsBadAt self.now) }
    {
        judge(self.bytes())
    }

    /// The counts in a file of full length.
    pub fn counts(&self) -> StreamCounts
        requires { length self.now ≡ file_size }
        ensures to_come { result.to_come ≡ number self.now ToCome 0 }
        ensures lead_in { result.lead_in ≡ number self.now LeadIn 0 }
        ensures program { result.program ≡ number self.now Program 0 }
        ensures bad { result.bad ≡ number self.now Bad 0 }
    {
        counts_in(self.bytes())
    }

    /// Slot k of the last seven of a checkpoint's file, the oldest first.
    pub fn slot(&self, k: usize) -> [u8; SYMBOLS_A_SLOT]
        requires file { length self.now ≡ file_size }
        requires k { k < packs_kept_back }
        ensures { result ≡ take symbols_a_slot (drop (symbols_a_slot * k) (checkpoint_in self.now).slots) }
    {
        slot_in(self.bytes(), k)
    }

    /// Restores the screen from the valid file of a checkpoint.
    pub fn bring_back(&self, screen: &mut PlainScreen)
        requires { IsCheckpointFile self.now }
        ensures { seen screen.new ≡ standing_in self.now }
    {
        restore(screen, self.bytes());
    }

    pub(crate) fn clear(&mut self)
        ensures { self.new ≡ [] }
    {
        self.count = 0;
    }

    pub(crate) fn put(&mut self, bytes: &[u8])
        requires { length self.old + length bytes.now ≤ file_size + 1 }
        ensures { self.new ≡ self.old ++ bytes.now }
    {
        self.bytes[self.count..self.count + bytes.len()].copy_from_slice(bytes);
        self.count += bytes.len();
    }

    /// Reads an input to its end, at most 65,046 bytes.
    ///
    /// # Errors
    /// `Failed` if a read failed.
    pub fn read<S: Source>(&mut self, source: &mut S) -> Result<(), Failed>
        ensures reads { ReadsCheckpointFile S.Source source.old source.new self.new result }
    {
        let mut chunk = [0; CHUNK];
        self.clear();
        while self.count < ROOM {
            let room = (ROOM - self.count).min(CHUNK);
            let count = source.take(&mut chunk[..room])?;
            if count == 0 {
                return Ok(());
            }
            self.put(&chunk[..count]);
        }
        Ok(())
    }
}
