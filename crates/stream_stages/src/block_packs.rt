// From blocks to the bytes of packs.
ghost use Rattle.std.specs.Prelude.{◌≡◌, ◌≤◌, ◌++◌, All, List, ℕ, Some, true, drop, length, map, replicate, take};
ghost use Rattle.cdg_io.specs.Change.{from_to};
ghost use Rattle.cdg_io.specs.Pump.{Works, given_bytes};
ghost use Rattle.raw_subcode.specs.Sizes.{audio_bytes, block_bytes, sector_bytes, symbols_a_slot};
ghost use Rattle.rw_code.specs.Codeword.{IsCodeword};
ghost use Rattle.rw_code.specs.Finding.{finding};
ghost use Rattle.rw_code.specs.Packs.{idle_pack};
ghost use Rattle.rw_interleave.specs.Texts.{cdg_bytes, entry_bytes};
ghost use Rattle.stream_stages.specs.Steps.{bad_after, bad_next, packs_next, packs_give};

use crate::block_words::idle_is_codeword;
use crate::{BlockWords, SectorBlocks};
use arrayvec::ArrayVec;
use cdg_io::{PassedUnits, Piece, UnitStage};
use raw_subcode::{BLOCK_BYTES, SECTOR_BYTES, SLOTS_A_BLOCK, SYMBOLS_A_SLOT};
use rw_code::{Word, correct_by_sums};

/// Outputs the bytes of the corrected packs of each block, and counts the bad words.
#[derive(Drop)]
pub struct BlockPacks {
    pub words: BlockWords,
    pub bad: u32,
}

impl BlockPacks {
    // Writes the corrected words to the front of a buffer.
    #[inline]
    fn put_packs(&mut self, words: &ArrayVec<Word, SLOTS_A_BLOCK>, place: &mut [u8]) -> usize
        requires { block_bytes ≤ length place.old }
        ensures words { self.new.words ≡ self.old.words }
        ensures bad { self.new.bad ≡ bad_after self.old.bad words.now.items }
        ensures put { place.new ≡ cdg_bytes (map finding words.now.items) ++ drop result place.old }
        ensures count { result ≡ length (cdg_bytes (map finding words.now.items)) }
        ensures fits { result ≤ block_bytes }
    {
        idle_is_codeword();
        if are_near_idle(words) {
            return put_zeros(place, SYMBOLS_A_SLOT * words.len());
        }
        let mut at = 0;
        for word in words.as_slice() {
            let pack = recovered(word, &mut self.bad);
            place[at..at + SYMBOLS_A_SLOT].copy_from_slice(&pack);
            at += SYMBOLS_A_SLOT;
        }
        at
    }

    // Skips the blocks at the front of a row that a quick test finds idle. It reads only their bytes, and writes their
    // zeros in one step.
    #[inline]
    fn pass_idle(&self, row: &mut &[u8], buffer: &mut [u8], start: usize, most: u32) -> PassedUnits
        requires start { start ≤ length buffer.old }
        ensures works { (taken : List ℕ)
            × Works block_bytes (record { next = packs_next; gives = packs_give }) (record {
              left = from_to (Some row.old.now) (Some row.new.now);
              state = from_to self.now self.now;
              held = from_to (Some (take start buffer.old)) (Some (take result.end buffer.new));
            }) result.units taken }
        ensures most { result.units ≤ most }
        ensures within { (start ≤ result.end) × (result.end ≤ length buffer.new) }
        ensures behind { drop result.end buffer.new ≡ drop result.end buffer.old }
    {
        if self.words.gather.quiet {
            return self.pass_run(row, buffer, start, most);
        }
        PassedUnits {
            units: 0,
            end: start,
        }
    }

    // The loop of `pass_idle`. It is a separate function so that busy blocks do not pay for its variables.
    #[inline(never)]
    fn pass_run(&self, row: &mut &[u8], buffer: &mut [u8], start: usize, most: u32) -> PassedUnits
        requires start { start ≤ length buffer.old }
        ensures works { (taken : List ℕ)
            × Works block_bytes (record { next = packs_next; gives = packs_give }) (record {
              left = from_to (Some row.old.now) (Some row.new.now);
              state = from_to self.now self.now;
              held = from_to (Some (take start buffer.old)) (Some (take result.end buffer.new));
            }) result.units taken }
        ensures most { result.units ≤ most }
        ensures within { (start ≤ result.end) × (result.end ≤ length buffer.new) }
        ensures behind { drop result.end buffer.new ≡ drop result.end buffer.old }
    {
        idle_is_codeword();
        let (whole, _) = row.as_chunks::<BLOCK_BYTES>();
        let room = (buffer.len() - start) / BLOCK_BYTES;
        let most = whole.len().min(room).min(most as usize);
        let blocks = &whole[..most];
        let mut count = 0;
        while count < blocks.len() && self.words.stays_idle(&blocks[count]) {
            count += 1;
        }
        let size = BLOCK_BYTES * count;
        let end = start + size;
        clear(&mut buffer[start..end]);
        *row = &row[size..];
        PassedUnits {
            units: count as u32,
            end,
        }
    }
}

impl UnitStage for BlockPacks {
    ghost SIZE = { block_bytes };

    ghost next = { packs_next };

    ghost gives = { packs_give };

    const SIZE: usize = BLOCK_BYTES;

    // It is not inlined, so that rows of blocks do not pay for a block that arrives in parts.
    #[cold]
    #[inline(never)]
    fn take_unit(&mut self, unit: &[u8], given: &mut Option<Piece>) {
        idle_is_codeword();
        let block = block_of(unit);
        let mut piece = Piece::new();
        if self.words.stays_idle(block) {
            piece.set_zeros(BLOCK_BYTES);
            *given = Some(piece);
            return;
        }
        let words = self.words.gathered(block);
        let mut packs = [0; BLOCK_BYTES];
        let count = self.put_packs(&words, &mut packs);
        piece.set(&packs[..count]);
        *given = Some(piece);
    }

    /// Each block is tested once: a run of idle blocks by its bytes, any other block when its words are gathered.
    #[inline]
    fn take_row(
        &mut self,
        row: &mut &[u8],
        _given: &mut Option<Piece>,
        buffer: &mut [u8],
        start: usize,
        most: u32,
    ) -> PassedUnits {
        let mut units = 0;
        let mut end = start;
        loop {
            let idle = self.pass_idle(row, buffer, end, most - units);
            units += idle.units;
            end = idle.end;
            if units == most || row.len() < BLOCK_BYTES || buffer.len() - end < BLOCK_BYTES {
                return PassedUnits { units, end };
            }
            let words = self.words.gathered(block_of(*row));
            end += self.put_packs(&words, &mut buffer[end..]);
            *row = &row[BLOCK_BYTES..];
            units += 1;
        }
    }
}

impl UnitStage for SectorBlocks<BlockPacks> {
    ghost SIZE = { sector_bytes };

    ghost next = { λ s sector. record { blocks = packs_next s.blocks (drop audio_bytes sector) } };

    ghost gives = { λ s sector. packs_give s.blocks (drop audio_bytes sector) };

    const SIZE: usize = SECTOR_BYTES;

    fn take_unit(&mut self, sector: &[u8], given: &mut Option<Piece>) {
        self.blocks
            .take_unit(&sector[SECTOR_BYTES - BLOCK_BYTES..], given);
    }
}

// The block at the front of these bytes.
#[inline]
fn block_of(bytes: &[u8]) -> &[u8; BLOCK_BYTES]
    requires { block_bytes ≤ length bytes.now }
    ensures { result.now ≡ take block_bytes bytes.now }
{
    match bytes.first_chunk::<BLOCK_BYTES>() {
        Some(block) => block,
        None => unreachable!(),
    }
}

// The bytes of the corrected word. If a word cannot be corrected, its bytes are zeros and it counts as bad.
fn recovered(word: &Word, bad: &mut u32) -> [u8; SYMBOLS_A_SLOT]
    ensures bytes { result ≡ entry_bytes (finding word.now) }
    ensures size { length result ≡ symbols_a_slot }
    ensures bad { bad.new ≡ bad_next bad.old word.now }
{
    match correct_by_sums(word) {
        Some(fixed) => fixed.pack.word().bytes(),
        None => {
            *bad = bad.saturating_add(1);
            [0; SYMBOLS_A_SLOT]
        }
    }
}

// Whether a quick test shows that each word is corrected to the idle pack.
#[inline]
fn are_near_idle(words: &ArrayVec<Word, SLOTS_A_BLOCK>) -> bool
    requires { IsCodeword idle_pack }
    ensures { result ≡ true
        → map finding words.now.items ≡ replicate (length words.now.items) (Some idle_pack) }
{
    for word in words.as_slice() {
        if !word.is_near_idle() {
            return false;
        }
    }
    true
}

// Writes `count` zeros to the front of a buffer, and returns `count`.
#[inline]
fn put_zeros(place: &mut [u8], count: usize) -> usize
    requires { count ≤ length place.old }
    ensures count { result ≡ count }
    ensures put { place.new ≡ replicate count 0 ++ drop count place.old }
{
    clear(&mut place[..count]);
    count
}

// Overwrites bytes with zeros.
#[inline]
fn clear(bytes: &mut [u8])
    ensures { bytes.new ≡ replicate (length bytes.old) 0 }
{
    bytes.fill(0);
}
