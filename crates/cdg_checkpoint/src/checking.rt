// The first field of a file that is not in its range.
ghost use Rattle.std.specs.Prelude.{◌≡◌, ◌≤◌, ◌+◌, ◌<◌, ℕ, length, MatchResult, slice_index, take};
ghost use Rattle.bit_lists.specs.Check.{check_of};
ghost use Rattle.std.specs.List.{AllByRecursion};
ghost use Rattle.cdg_checkpoint.specs.Table.{Across, Bad, Border, Check, Colours, Down, IsBadAt, IsCheckpointFile, IsFirstOut, IsOutOfPart, IsPartInRange, LeadIn, Levels, Mark, Memory, Program, Slots, ToCome, empty_symbols, all_parts, body_size, file_size, slots_bytes, IsFirstAbove};

use crate::composing::MARK;
use crate::fields::{
    ACROSS, BAD, BORDER, CHECK, COLOURS, DOWN, LEAD_IN, LEVELS, MEMORY, PROGRAM, SLOTS, TO_COME,
    counts_in, front, short_number,
};
use crate::plain_file::{FILE_BYTES, SLOTS_BYTES};
use bit_lists::crc16;
use cdg_instructions::{SCREEN_PIXELS, TILE_HEIGHT, TILE_WIDTH};
use disc_time::MOST_LEAD_IN;
use raw_subcode::{MOST_UNITS, SLOTS_A_BLOCK, SYMBOLS_A_SLOT};
use rw_interleave::PACKS_KEPT_BACK;

// The number of bytes of the saved slots that belong to no slot, after this number of program blocks.
fn empty_symbols(program: u32) -> usize
    ensures value { result ≡ empty_symbols program }
    ensures most { result ≤ slots_bytes }
{
    let slots = SLOTS_A_BLOCK * program as usize;
    SYMBOLS_A_SLOT * (PACKS_KEPT_BACK - PACKS_KEPT_BACK.min(slots))
}

/// Checks that these bytes are the valid file of a checkpoint.
///
/// # Errors
/// The number of the first invalid byte: the length of the bytes if it is below 65,045, or 65,045 if there are more
/// bytes, or the first byte of the first field that is not in its range.
pub fn judge(bytes: &[u8]) -> Result<(), u32>
    ensures { MatchResult result (λ _. IsCheckpointFile bytes.now) (IsBadAt bytes.now) }
{
    if bytes.len() != FILE_BYTES {
        return Err(bytes.len().min(FILE_BYTES) as u32);
    }
    check_fields(bytes)
}

// Checks that all fields are in their ranges. The error is the first byte of the first field that is not.
fn check_fields(bytes: &[u8]) -> Result<(), u32>
    requires { length bytes.now ≡ file_size }
    ensures { MatchResult result (λ _. AllByRecursion (IsPartInRange bytes.now) all_parts)
        (IsFirstOut bytes.now) }
{
    check_mark(bytes)?;
    check_to_come(bytes)?;
    check_lead_in(bytes)?;
    check_program(bytes)?;
    check_bad(bytes)?;
    check_slots(bytes)?;
    check_memory(bytes)?;
    check_border(bytes)?;
    check_across(bytes)?;
    check_down(bytes)?;
    check_colours(bytes)?;
    check_levels(bytes)?;
    check_check(bytes)
}

// The next functions check that all fields of a part are in their ranges. The error is the first byte of the first one
// that is not.

fn check_mark(bytes: &[u8]) -> Result<(), u32>
    requires { length bytes.now ≡ file_size }
    ensures { MatchResult result (λ _. IsPartInRange bytes.now Mark) (IsOutOfPart bytes.now Mark) }
{
    if front(bytes) != u64::from_be_bytes(*MARK) {
        return Err(0);
    }
    Ok(())
}

fn check_to_come(bytes: &[u8]) -> Result<(), u32>
    requires { length bytes.now ≡ file_size }
    ensures { MatchResult result (λ _. IsPartInRange bytes.now ToCome) (IsOutOfPart bytes.now ToCome) }
{
    if counts_in(bytes).to_come > MOST_LEAD_IN {
        return Err(TO_COME as u32);
    }
    Ok(())
}

fn check_lead_in(bytes: &[u8]) -> Result<(), u32>
    requires { length bytes.now ≡ file_size }
    ensures { MatchResult result (λ _. IsPartInRange bytes.now LeadIn) (IsOutOfPart bytes.now LeadIn) }
{
    let counts = counts_in(bytes);
    if u64::from(counts.to_come) + u64::from(counts.lead_in) > u64::from(MOST_LEAD_IN) {
        return Err(LEAD_IN as u32);
    }
    Ok(())
}

fn check_program(bytes: &[u8]) -> Result<(), u32>
    requires { length bytes.now ≡ file_size }
    ensures { MatchResult result (λ _. IsPartInRange bytes.now Program) (IsOutOfPart bytes.now Program) }
{
    let counts = counts_in(bytes);
    let blocks = u64::from(counts.lead_in) + u64::from(counts.program);
    if blocks > u64::from(MOST_UNITS) || (counts.to_come > 0 && counts.program > 0) {
        return Err(PROGRAM as u32);
    }
    Ok(())
}

fn check_bad(bytes: &[u8]) -> Result<(), u32>
    requires { length bytes.now ≡ file_size }
    ensures { MatchResult result (λ _. IsPartInRange bytes.now Bad) (IsOutOfPart bytes.now Bad) }
{
    let counts = counts_in(bytes);
    let packs = SLOTS_A_BLOCK as u64 * u64::from(counts.program);
    if u64::from(counts.bad) > packs.saturating_sub(PACKS_KEPT_BACK as u64) {
        return Err(BAD as u32);
    }
    Ok(())
}

fn check_slots(bytes: &[u8]) -> Result<(), u32>
    requires { length bytes.now ≡ file_size }
    ensures { MatchResult result (λ _. IsPartInRange bytes.now Slots) (IsOutOfPart bytes.now Slots) }
{
    let empty = empty_symbols(counts_in(bytes).program);
    check_bytes(bytes, SLOTS, empty, 1)?;
    check_bytes(bytes, SLOTS + empty, SLOTS_BYTES - empty, 64)
}

fn check_memory(bytes: &[u8]) -> Result<(), u32>
    requires { length bytes.now ≡ file_size }
    ensures { MatchResult result (λ _. IsPartInRange bytes.now Memory) (IsOutOfPart bytes.now Memory) }
{
    check_bytes(bytes, MEMORY, SCREEN_PIXELS, 16)
}

fn check_border(bytes: &[u8]) -> Result<(), u32>
    requires { length bytes.now ≡ file_size }
    ensures { MatchResult result (λ _. IsPartInRange bytes.now Border) (IsOutOfPart bytes.now Border) }
{
    check_bytes(bytes, BORDER, 1, 16)
}

fn check_across(bytes: &[u8]) -> Result<(), u32>
    requires { length bytes.now ≡ file_size }
    ensures { MatchResult result (λ _. IsPartInRange bytes.now Across) (IsOutOfPart bytes.now Across) }
{
    check_bytes(bytes, ACROSS, 1, TILE_WIDTH as u8)
}

fn check_down(bytes: &[u8]) -> Result<(), u32>
    requires { length bytes.now ≡ file_size }
    ensures { MatchResult result (λ _. IsPartInRange bytes.now Down) (IsOutOfPart bytes.now Down) }
{
    check_bytes(bytes, DOWN, 1, TILE_HEIGHT as u8)
}

fn check_colours(bytes: &[u8]) -> Result<(), u32>
    requires { length bytes.now ≡ file_size }
    ensures { MatchResult result (λ _. IsPartInRange bytes.now Colours) (IsOutOfPart bytes.now Colours) }
{
    for k in 0..16usize {
        let at = COLOURS + 2 * k;
        if short_number(bytes, at) > 0xfff {
            return Err(at as u32);
        }
    }
    Ok(())
}

fn check_levels(bytes: &[u8]) -> Result<(), u32>
    requires { length bytes.now ≡ file_size }
    ensures { MatchResult result (λ _. IsPartInRange bytes.now Levels) (IsOutOfPart bytes.now Levels) }
{
    check_bytes(bytes, LEVELS, 16, 64)
}

fn check_check(bytes: &[u8]) -> Result<(), u32>
    requires { length bytes.now ≡ file_size }
    ensures { MatchResult result (λ _. IsPartInRange bytes.now Check) (IsOutOfPart bytes.now Check) }
{
    if short_number(bytes, CHECK) != check_of_body(bytes) {
        return Err(CHECK as u32);
    }
    Ok(())
}

// The check of all bytes before the check.
fn check_of_body(bytes: &[u8]) -> u16
    requires { length bytes.now ≡ file_size }
    ensures { result ≡ check_of (take body_size bytes.now) }
{
    crc16(&bytes[..CHECK])
}

// Checks that all these bytes are below a bound. The error is the place of the first one that is not.
fn check_bytes(bytes: &[u8], first: usize, count: usize, bound: u8) -> Result<(), u32>
    requires file { length bytes.now ≡ file_size }
    requires within { first + count ≤ file_size }
    ensures { MatchResult result
        (λ _. (k : ℕ) → k < count → slice_index bytes.now (first + k) < bound)
        (IsFirstAbove bytes.now first count bound) }
{
    for k in 0..count {
        if bytes[first + k] >= bound {
            return Err((first + k) as u32);
        }
    }
    Ok(())
}
