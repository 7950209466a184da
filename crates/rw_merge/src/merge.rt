// Two readings of one stream, block by block in turn.
ghost use Rattle.std.specs.Prelude.{◌≡◌, ◌≤◌, [], List, ℕ, Err, length, IsOk, IfOk, IfSome, replicate, true};
ghost use Rattle.std.specs.List.{concat};
ghost use Rattle.disc_time.specs.Counts.{most_lead_in};
ghost use Rattle.cdg_io.specs.Causes.{ReportsFault};
ghost use Rattle.cdg_io.specs.Change.{change};
ghost use Rattle.rw_merge.specs.Merging.{EndsBoth, EndsSecond, FirstIsAtEnd, IsMergedText, Merges, ReadsBoth, full_reads, read_input, IsAnswerTo};
ghost use Rattle.rw_merge.specs.Readings.{IsDamagedTwice, IsReadTwice, MergeRestores};
ghost use Rattle.rw_interleave.specs.Windows.{slots_after_block, words_from_block};
ghost use Rattle.rw_merge.specs.Steps.{CountsFaults, MergesBlocks};
ghost use Rattle.raw_subcode.specs.Sizes.{slots_a_block};
ghost use Rattle.rw_code.specs.Packs.{idle_pack};

use crate::packs::Packs;
use crate::pairs::{end_merge, next_pair};
use cdg_io::{Failed, Sink, Source, put_all};
use raw_subcode::{BLOCK_BYTES, MOST_UNITS};
use rw_interleave::{Gather, found_packs_are_the_text};
use std::alloc::{AllocError, Global};
use std::marker::Model;

/// The result for two whole inputs.
#[derive(Clone, Copy, Debug, PartialEq, Eq)]
pub struct Merged {
    /// The number of program blocks: all blocks after the lead-in.
    pub blocks: u32,
    /// The number of words with no agreed codeword.
    pub bad: u32,
}

/// Why a merge ended before it had done its work. Blocks are counted from 0.
#[derive(Clone, Copy, Debug, PartialEq, Eq)]
pub enum MergeStop {
    /// A read of the first input failed.
    FirstFault,
    /// A read of the second input failed.
    SecondFault,
    /// A write failed; the sink has a prefix of the text.
    WriteFault,
    /// Both inputs have 1,000,000 blocks, and one of them has more.
    TooLong,
    /// The first input ended within the block of this number.
    Torn { block: u32 },
    /// The second input ended within the block of this number.
    SecondTorn { block: u32 },
    /// One input has only this many whole blocks and the other has more.
    Unequal { blocks: u32 },
}

/// A law: every pack is recovered from two readings that agree on the codeword of each word. They agree if
/// each reading is damaged in at most two symbols of each word.
pub fn two_readings_give_packs()
    ensures text { (lead_in blocks : ℕ) (packs : List (List ℕ)) (first second text : List ℕ) (bad : ℕ)
        → IsReadTwice lead_in blocks packs first second → IsMergedText lead_in first second text bad
        → (text ≡ concat packs) × (bad ≡ 0) }
    ensures damage { (lead_in blocks : ℕ) (packs : List (List ℕ)) (first second : List ℕ)
        → IsDamagedTwice lead_in blocks packs first second → IsReadTwice lead_in blocks packs first second }
{
    found_packs_are_the_text();
}

/// Merges two readings of a stream, one pair in each call. A call never depends on an earlier call. It allocates
/// nothing. The model is the pair of the most recent slots of both readings.
#[derive(Drop)]
pub struct Merger {
    first: Gather,
    second: Gather,
}

impl Model for Merger {
    ghost use Rattle.rw_merge.specs.Windows.{Windows};

    ghost Value = { Windows };

    ghost view = { λ m. record { first = m.first; second = m.second } };
}

impl Merger {
    /// A merger before its first pair of readings. It contains both windows.
    pub fn new() -> Merger
        ensures { result ≡ record { first = []; second = [] } }
    {
        Merger {
            first: Gather::new(),
            second: Gather::new(),
        }
    }

    /// Makes a merger like `new`. Older callers expect this signature; it allocates nothing and never fails.
    pub fn start(_alloc: Global) -> Result<Merger, AllocError>
        ensures made { IsOk result }
        ensures fresh { IfOk result (λ m. m ≡ record { first = []; second = [] }) }
    {
        Ok(Merger::new())
    }

    /// Writes the packs on which two readings of a stream agree, as their blocks are read: 24 bytes each, every
    /// byte below 64.
    ///
    /// `lead_in` is at most 450,000 blocks, which are skipped. A block of the first input is read, and then a
    /// block of the second. A word with no agreed codeword is written as 24 zeros, and counted in
    /// `Merged::bad`. For B program blocks, 4B - 7 packs are written.
    ///
    /// # Errors
    ///
    /// The first block that is not whole in both inputs decides: `Torn` if the first input ends within it,
    /// else `SecondTorn` if the second input does, else `Unequal` if only one input has it. `TooLong` if both
    /// inputs have 1,000,000 blocks and a byte follows in either. These stops come after the packs of all
    /// whole pairs were written, and a failed read after those of the pairs that were read. After
    /// `WriteFault` the sink has a prefix of the packs, and no later block was read.
    pub fn run<S: Source, T: Source, K: Sink>(
        &mut self,
        lead_in: u32,
        first: &mut S,
        second: &mut T,
        out: &mut K,
    ) -> Result<Merged, MergeStop>
        requires { lead_in ≤ most_lead_in }
        ensures merges { ReadsBoth (Merges lead_in (change K.held out.old out.new) result) (EndsBoth result)
            full_reads (read_input S.Source first.old first.new)
            (read_input T.Source second.old second.new) }
        // Every pack is recovered if both readings together have enough of each word.
        ensures restores { IfSome (S.left first.old) (λ xs. IfSome (T.left second.old) (λ ys.
            (blocks : ℕ) (packs : List (List ℕ)) → IsReadTwice lead_in blocks packs xs ys
            → MergeRestores result blocks (K.held out.old) (K.held out.new) (concat packs))) }
        // The same is true if each reading is damaged in at most two symbols of each word, at any places.
        ensures repairs { IfSome (S.left first.old) (λ xs. IfSome (T.left second.old) (λ ys.
            (blocks : ℕ) (packs : List (List ℕ)) → IsDamagedTwice lead_in blocks packs xs ys
            → MergeRestores result blocks (K.held out.old) (K.held out.new) (concat packs))) }
        // If nothing failed, the lengths of both whole inputs decide the result.
        ensures answer { IsAnswerTo lead_in result (S.left first.old) (T.left second.old) }
        ensures first_end { FirstIsAtEnd result (S.left first.new) }
        ensures second_end { EndsSecond result (T.left second.new) }
        ensures first_fault { ReportsFault MergeStop.FirstFault
            (S.faults first.old) (S.faults first.new) result }
        ensures second_fault { ReportsFault MergeStop.SecondFault
            (T.faults second.old) (T.faults second.new) result }
        ensures write_fault { ReportsFault MergeStop.WriteFault
            (K.faults out.old) (K.faults out.new) result }
    {
        two_readings_give_packs();
        self.first.reset();
        self.second.reset();
        self.merge_pairs(lead_in, first, second, out)
    }

    // Merges two readings like `run`, from empty windows.
    fn merge_pairs<S: Source, T: Source, K: Sink>(
        &mut self,
        lead_in: u32,
        first: &mut S,
        second: &mut T,
        out: &mut K,
    ) -> Result<Merged, MergeStop>
        requires lead_in { lead_in ≤ most_lead_in }
        requires first { self.old.first ≡ [] }
        requires second { self.old.second ≡ [] }
        ensures merges { ReadsBoth (Merges lead_in (change K.held out.old out.new) result) (EndsBoth result)
            full_reads (read_input S.Source first.old first.new)
            (read_input T.Source second.old second.new) }
        ensures answer { IsAnswerTo lead_in result (S.left first.old) (T.left second.old) }
        ensures at_ends { FirstIsAtEnd result (S.left first.new) × EndsSecond result (T.left second.new) }
        ensures faults { CountsFaults result (change S.faults first.old first.new)
            (change T.faults second.old second.new) (change K.faults out.old out.new) }
    {
        let mut one = [0; BLOCK_BYTES];
        let mut other = [0; BLOCK_BYTES];
        let mut packs = Packs::new();
        let mut bad = 0;
        for block in 0..MOST_UNITS {
            match next_pair(first, second, &mut one, &mut other, block, out) {
                Ok(true) => {}
                Ok(false) => {
                    return Ok(Merged {
                        blocks: block.saturating_sub(lead_in),
                        bad,
                    });
                }
                Err(stop) => return Err(stop),
            }
            if block >= lead_in {
                self.merge(&one, &other, &mut packs);
                bad += packs.bad;
                match put_all(out, packs.bytes.bytes()) {
                    Ok(()) => {}
                    Err(Failed) => return Err(MergeStop::WriteFault),
                }
            }
        }
        out.pass_waiting();
        let merged = Merged {
            blocks: MOST_UNITS - lead_in,
            bad,
        };
        end_merge(first, second, merged)
    }

    // Gathers a pair of program blocks, and sets `packs` to the packs that end with it.
    fn merge(&mut self, first: &[u8; BLOCK_BYTES], second: &[u8; BLOCK_BYTES], packs: &mut Packs)
        requires { length self.old.first ≡ length self.old.second }
        ensures first { self.new.first ≡ slots_after_block self.old.first first.now }
        ensures second { self.new.second ≡ slots_after_block self.old.second second.now }
        ensures same { length self.new.first ≡ length self.new.second }
        ensures packs { MergesBlocks self.old first.now second.now packs.new }
    {
        if self.stay_idle(first, second) {
            packs.set_idle();
            return;
        }
        self.merge_words(first, second, packs);
    }

    // Whether each block of a pair completes four words of zeros and leaves its window unchanged.
    fn stay_idle(&self, first: &[u8; BLOCK_BYTES], second: &[u8; BLOCK_BYTES]) -> bool
        ensures first { result ≡ true
            → self.now.first ≡ slots_after_block self.now.first first.now }
        ensures second { result ≡ true
            → self.now.second ≡ slots_after_block self.now.second second.now }
        ensures first_words { result ≡ true → replicate slots_a_block idle_pack
            ≡ words_from_block self.now.first first.now }
        ensures second_words { result ≡ true → replicate slots_a_block idle_pack
            ≡ words_from_block self.now.second second.now }
    {
        self.first.stays_idle(first) && self.second.stays_idle(second)
    }

    // Does the work of `merge` for a pair of blocks that may not be idle.
    #[inline(never)]
    fn merge_words(
        &mut self,
        first: &[u8; BLOCK_BYTES],
        second: &[u8; BLOCK_BYTES],
        packs: &mut Packs,
    )
        requires { length self.old.first ≡ length self.old.second }
        ensures first { self.new.first ≡ slots_after_block self.old.first first.now }
        ensures second { self.new.second ≡ slots_after_block self.old.second second.now }
        ensures same { length self.new.first ≡ length self.new.second }
        ensures packs { MergesBlocks self.old first.now second.now packs.new }
    {
        let one = self.first.push_block(first);
        let other = self.second.push_block(second);
        packs.set_agreed(one.as_slice(), other.as_slice());
    }
}
