// Scratches of a raw stream.
ghost use Rattle.std.specs.Prelude.{◌≡◌, ◌≤◌, ◌+◌, ◌*◌, ◌/◌, List, ℕ, length, map, take, drop, Some};
ghost use Rattle.std.specs.List.{concat};
ghost use Rattle.disc_time.specs.Counts.{most_lead_in};
ghost use Rattle.raw_subcode.specs.Sizes.{block_bytes, most_units};
ghost use Rattle.cdg_io.specs.Causes.{ReportsFault};
ghost use Rattle.cdg_io.specs.Change.{passed};
ghost use Rattle.cdg_io.specs.Pump.{units_of};
ghost use Rattle.cdg_io.specs.Reads.{ReadsUnits};
ghost use Rattle.cdg_io.specs.Run.{run_state, run_gives};
ghost use Rattle.cdg_io.specs.Streams.{Streams};
ghost use Rattle.raw_subcode.specs.Channels.{symbols_of, program_symbols};
ghost use Rattle.rw_interleave.specs.Stream.{DiffersInBursts, IsDamaged};
ghost use Rattle.cdg_workload.specs.Scratches.{scratched, scratching};
ghost use Rattle.cdg_workload.specs.Steps.{fresh_scratches, scratches_after, block_next, block_gives};

use crate::needle::Needle;
use crate::script::generator;
use cdg_io::{
    InPlace, PassedUnits, Piece, PumpStop, Pumped, Sink, Source, UnitStage, pump_units,
    take_in_place, take_row_in_place,
};
use raw_subcode::{BLOCK_BYTES, Form, MOST_UNITS};
use rw_interleave::bursts_are_damage;

/// Leaves the lead-in blocks unchanged, and scratches the program blocks.
#[derive(Drop)]
pub struct Scratches {
    /// The number of lead-in blocks that are still to come.
    pub lead_in: u32,
    pub needle: Needle,
}

impl Scratches {
    /// The state before the first block of a stream with this number of lead-in blocks.
    pub fn start(lead_in: u32, seed: u64) -> Scratches
        ensures { result ≡ fresh_scratches lead_in seed }
    {
        Scratches {
            lead_in,
            needle: Needle {
                gap: 0,
                left: 0,
                change: 0,
                words: generator(seed),
            },
        }
    }

    /// Processes the next block, and scratches it if it is a program block.
    #[inline]
    #[tactic(auto, unfolding(crate::specs::Steps::block_next, crate::specs::Steps::block_gives))]
    pub fn scratch(&mut self, block: &mut [u8; BLOCK_BYTES])
        ensures next { self.new ≡ block_next self.old block.old }
        ensures gives { Some block.new ≡ block_gives self.old block.old }
    {
        if self.lead_in > 0 {
            self.lead_in -= 1;
        } else if !self.needle.skip_block() {
            self.needle.scratch_all(block);
        }
    }
}

impl InPlace for Scratches {
    ghost SIZE = { block_bytes };

    ghost next = { block_next };

    ghost gives = { block_gives };

    const SIZE: usize = BLOCK_BYTES;

    fn change(&mut self, bytes: &mut [u8]) {
        match bytes.first_chunk_mut::<BLOCK_BYTES>() {
            Some(block) => self.scratch(block),
            None => unreachable!(),
        }
    }

    // The lead-in blocks are unchanged, and the program blocks are scratched in place, from burst to burst.
    #[inline]
    fn change_row(&mut self, blocks: &mut [u8], count: usize) {
        let kept = (self.lead_in as usize).min(count);
        self.lead_in -= kept as u32;
        self.needle.scratch_all(&mut blocks[BLOCK_BYTES * kept..]);
    }
}

impl UnitStage for Scratches {
    ghost SIZE = { block_bytes };

    ghost next = { block_next };

    ghost gives = { block_gives };

    const SIZE: usize = BLOCK_BYTES;

    fn take_unit(&mut self, block: &[u8], given: &mut Option<Piece>) {
        take_in_place(self, block, given);
    }

    #[inline]
    fn take_row(
        &mut self,
        row: &mut &[u8],
        _given: &mut Option<Piece>,
        buffer: &mut [u8],
        start: usize,
        most: u32,
    ) -> PassedUnits {
        take_row_in_place(self, row, buffer, start, most)
    }
}

/// Writes a raw stream with the scratches of a seed, while it reads the blocks. Scratches are bursts of up to
/// sixteen neighbouring symbols, at least 192 symbols apart, after `lead_in` blocks. The lead-in and the P
/// and Q bits are unchanged. Blocks have 96 bytes, and at most 1,000,000 are read. The result counts all
/// blocks, also those of the lead-in.
///
/// # Errors
///
/// `Torn` if a part of a block follows the last whole block; this part is not written. `TooLong` if a byte
/// follows the last block that may be read. `ReadFault` comes after the blocks before it were written. After
/// `WriteFault` a prefix of the stream was written.
pub fn scratch<S: Source, K: Sink>(
    lead_in: u32,
    seed: u64,
    source: &mut S,
    out: &mut K,
) -> Result<Pumped, PumpStop>
    requires { lead_in ≤ most_lead_in }
    ensures scratches { (taken : List ℕ) × Streams (scratching lead_in seed)
        (passed S.left K.held (source.old, out.old) (source.new, out.new)) result taken }
    ensures reads { ReadsUnits S.Source block_bytes most_units source.old
        source.new result }
    ensures write_fault { ReportsFault PumpStop.WriteFault (K.faults out.old) (K.faults out.new) result }
{
    let mut scratches = Scratches::start(lead_in, seed);
    pump_units(source, MOST_UNITS, &mut scratches, out)
}

/// A law: scratches change bursts of program symbols in a stream. A burst has up to sixteen symbols, and two
/// bursts are at least 192 symbols apart. The lead-in and the P and Q bits are unchanged.
pub fn scratches_are_bursts()
    ensures bursts { (lead_in seed : ℕ) (bytes : List ℕ)
        → DiffersInBursts (symbols_of (drop (block_bytes * lead_in) bytes))
        (symbols_of (drop (block_bytes * lead_in) (scratched lead_in seed bytes))) }
    ensures lead_in { (lead_in seed : ℕ) (bytes : List ℕ)
        → take (block_bytes * lead_in) (scratched lead_in seed bytes) ≡ take (block_bytes * lead_in) bytes }
    ensures channels { (lead_in seed : ℕ) (bytes : List ℕ)
        → map (λ byte. byte / 64) (scratched lead_in seed bytes) ≡ map (λ byte. byte / 64) bytes }
{}

/// A law: in a stream of whole blocks, scratches change at most two symbols of each word.
pub fn scratches_are_damage()
    ensures { (lead_in seed blocks : ℕ) (bytes : List ℕ) → length bytes ≡ block_bytes * blocks
        → IsDamaged (program_symbols Form.Raw bytes lead_in) Form.Raw
        (program_symbols Form.Raw (scratched lead_in seed bytes) lead_in) }
{
    bursts_are_damage();
}

/// A law: scratches process a stream with no lead-in block by block. They begin in the state before any
/// stream. Their output for block b, after the blocks before it, is block b of the stream with scratches.
pub fn scratches_go_block_by_block()
    ensures start { (seed : ℕ) (bytes : List ℕ)
        → scratches_after seed bytes 0 ≡ fresh_scratches 0 seed }
    ensures next { (seed b : ℕ) (bytes : List ℕ) → block_bytes * b + block_bytes ≤ length bytes
        → scratches_after seed bytes (b + 1)
        ≡ block_next (scratches_after seed bytes b) (take block_bytes (drop (block_bytes * b) bytes)) }
    ensures gives { (seed b : ℕ) (bytes : List ℕ) → block_bytes * b + block_bytes ≤ length bytes
        → Some (take block_bytes (drop (block_bytes * b) (scratched 0 seed bytes)))
        ≡ block_gives (scratches_after seed bytes b) (take block_bytes (drop (block_bytes * b) bytes)) }
{}
