// Converting a whole stream in memory to packs.
ghost use Rattle.std.specs.Prelude.{◌≡◌, ◌≢◌, ◌<◌, ◌≤◌, ◌+◌, ◌*◌, ◌-◌, ◌/◌, ◌++◌, ◌⊎◌, ◌↔◌, List, ℕ, MatchOption, drop, length, pos, take};
ghost use Rattle.raw_subcode.specs.Sizes.{most_units, symbols_a_slot};
ghost use Rattle.disc_time.specs.Counts.{most_lead_in};
ghost use Rattle.raw_subcode.specs.Channels.{block_of, unit_size};
ghost use Rattle.cdg_io.specs.Pump.{given_bytes};
ghost use Rattle.ribjasper_c.specs.Conversions.{stream_form, text_size, IsNoStream, IsConversionReport};
ghost use Rattle.rw_interleave.specs.Stream.{word_count};
ghost use Rattle.stream_stages.specs.Convert.{IsConverted};
ghost use Rattle.stream_stages.specs.Steps.{fresh_words};

use crate::answers::{DAMAGED, DONE, REFUSED, USAGE, WRITE_FAULT};
use crate::playing::form_of;
use cdg_io::{Piece, UnitStage};
use disc_time::MOST_LEAD_IN;
use raw_subcode::{BLOCK_BYTES, Form, MOST_UNITS, SECTOR_BYTES, SLOTS_A_BLOCK};
use rw_code::SYMBOLS;
use rw_interleave::{Gather, PACKS_KEPT_BACK};
use stream_stages::{BlockPacks, BlockWords};

/// The report of a conversion.
#[repr(C)]
#[derive(Clone, Copy)]
pub struct Converted {
    /// The number of bytes that were written.
    pub bytes: u64,
    /// The number of program blocks.
    pub blocks: u32,
    /// The number of packs with no codeword near, which are written as zeros.
    pub bad: u32,
}

/// Writes the packs of a stream to the front of a buffer. The result is an exit status of the program.
#[unsafe(no_mangle)]
pub extern "C" fn ribjasper_convert(
    stream: &[u8],
    form: u32,
    lead_in: u32,
    packs: &mut [u8],
    counts: &mut Converted,
) -> i32
    ensures done { (result ≡ pos 0) ⊎ (result ≡ pos 1) → (text : List ℕ)
        × IsConversionReport (stream_form form) lead_in stream.now text counts.new
        × (packs.new ≡ text ++ drop (length text) packs.old) }
    ensures whole { result ≡ pos 0 → counts.new.bad ≡ 0 }
    ensures damaged { result ≡ pos 1 → 0 < counts.new.bad }
    ensures usage { (result ≡ pos 2) ↔ ((2 < form) ⊎ (most_lead_in < lead_in)) }
    ensures refused { (result ≡ pos 3)
        ↔ (form ≤ 2) × (lead_in ≤ most_lead_in) × IsNoStream (stream_form form) stream.now }
    ensures small { (result ≡ pos 6)
        ↔ (form ≤ 2) × (lead_in ≤ most_lead_in) × (¬ IsNoStream (stream_form form) stream.now)
        × (length packs.old < text_size (stream_form form) lead_in stream.now) }
    ensures answer { (result ≡ pos 0) ⊎ (result ≡ pos 1) ⊎ (result ≡ pos 2) ⊎ (result ≡ pos 3)
        ⊎ (result ≡ pos 6) }
    ensures untouched { result ≢ pos 0 → result ≢ pos 1
        → (packs.new ≡ packs.old) × (counts.new ≡ counts.old) }
{
    if form > 2 || lead_in > MOST_LEAD_IN {
        return USAGE;
    }
    let form = stream_form(form);
    let Some(units) = units_in(form, stream) else {
        return REFUSED;
    };
    let size = size_of_text(form, lead_in, units);
    if size > packs.len() {
        return WRITE_FAULT;
    }
    let bad = write_packs(form, lead_in, stream, units, packs);
    *counts = Converted {
        bytes: size as u64,
        blocks: units.saturating_sub(lead_in),
        bad,
    };
    if bad == 0 { DONE } else { DAMAGED }
}

// The number of units in a stream, if it has whole units and not too many.
fn units_in(form: Form, stream: &[u8]) -> Option<u32>
    ensures { MatchOption result (IsNoStream form stream.now)
        (λ units. (units ≤ most_units) × (length stream.now ≡ units * unit_size form)) }
{
    let size = size_of_unit(form);
    let units = stream.len() / size;
    if stream.len() % size != 0 || units > MOST_UNITS as usize {
        return None;
    }
    Some(units as u32)
}

// The number of bytes in a unit.
fn size_of_unit(form: Form) -> usize
    ensures { result ≡ unit_size form }
{
    match form {
        Form::Sector => SECTOR_BYTES,
        Form::Raw | Form::Cooked => BLOCK_BYTES,
    }
}

// The size in bytes of the packs of this number of units.
fn size_of_text(form: Form, lead_in: u32, units: u32) -> usize
    requires { units ≤ most_units }
    ensures { result ≡ symbols_a_slot * word_count form (units - lead_in) }
{
    let slots = SLOTS_A_BLOCK * units.saturating_sub(lead_in) as usize;
    match form {
        Form::Raw | Form::Sector => SYMBOLS * slots.saturating_sub(PACKS_KEPT_BACK),
        Form::Cooked => SYMBOLS * slots,
    }
}

// Writes the packs of whole units to the front of a buffer, and returns the number of bad packs.
fn write_packs(form: Form, lead_in: u32, stream: &[u8], units: u32, packs: &mut [u8]) -> u32
    requires few { units ≤ most_units }
    requires whole { length stream.now ≡ units * unit_size form }
    requires room { symbols_a_slot * word_count form (units - lead_in) ≤ length packs.old }
    ensures { (text : List ℕ) × IsConverted form lead_in stream.now text result
        × (length text ≡ symbols_a_slot * word_count form (units - lead_in))
        × (packs.new ≡ text ++ drop (length text) packs.old) }
{
    let mut stages = fresh(form, lead_in);
    let mut piece = None;
    let mut at = 0;
    for n in 0..units as usize {
        stages.take_unit(&block_at(form, stream, n), &mut piece);
        at += put(&piece, packs, at);
    }
    stages.bad
}

// A converter of a stream, before its first block.
fn fresh(form: Form, lead_in: u32) -> BlockPacks
    ensures words { result.words ≡ fresh_words form lead_in }
    ensures bad { result.bad ≡ 0 }
{
    let words = BlockWords {
        form,
        lead_in,
        gather: Gather::new(),
    };
    BlockPacks { words, bad: 0 }
}

// The block of unit n.
fn block_at(form: Form, stream: &[u8], n: usize) -> [u8; BLOCK_BYTES]
    requires { n * unit_size form + unit_size form ≤ length stream.now }
    ensures { result ≡ block_of form (take (unit_size form) (drop (n * unit_size form) stream.now)) }
{
    let size = size_of_unit(form);
    let unit = &stream[n * size..n * size + size];
    let mut block = [0; BLOCK_BYTES];
    block.copy_from_slice(&unit[size - BLOCK_BYTES..]);
    block
}

// Writes a piece, if there is one, from a place on, and returns its size in bytes.
fn put(piece: &Option<Piece>, packs: &mut [u8], at: usize) -> usize
    requires { at + length (given_bytes piece.now) ≤ length packs.old }
    ensures count { result ≡ length (given_bytes piece.now) }
    ensures written { packs.new ≡ take at packs.old ++ (given_bytes piece.now
        ++ drop (at + length (given_bytes piece.now)) packs.old) }
{
    match piece {
        Some(piece) => copy_to(piece.bytes(), packs, at),
        None => 0,
    }
}

// Writes bytes to a buffer from a place on, and returns their number.
fn copy_to(bytes: &[u8], packs: &mut [u8], at: usize) -> usize
    requires { at + length bytes.now ≤ length packs.old }
    ensures count { result ≡ length bytes.now }
    ensures written { packs.new
        ≡ take at packs.old ++ (bytes.now ++ drop (at + length bytes.now) packs.old) }
{
    packs[at..at + bytes.len()].copy_from_slice(bytes);
    bytes.len()
}

/// The form of a whole stream that has this number.
pub(crate) fn stream_form(form: u32) -> Form
    ensures { result ≡ stream_form form }
{
    if form == 2 {
        Form::Sector
    } else {
        form_of(form)
    }
}

/// Writes bytes to the front of a buffer.
pub(crate) fn copy_front(text: &[u8], packs: &mut [u8])
    requires { length text.now ≤ length packs.old }
    ensures { packs.new ≡ text.now ++ drop (length text.now) packs.old }
{
    packs[..text.len()].copy_from_slice(text);
}
