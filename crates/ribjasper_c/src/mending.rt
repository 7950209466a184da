// The calls that mend readings of one stream in memory.
ghost use Rattle.std.specs.Prelude.{◌≡◌, ◌≤◌, ◌-◌, ◌*◌, ◌/◌, ◌%◌, ◌==◌, if◌then◌else◌, Err, IfOk, IfSome, None, Ok, OnOk, length, pos};
ghost use Rattle.raw_subcode.specs.Sizes.{block_bytes, most_units, symbols_a_slot};
ghost use Rattle.rw_interleave.specs.Interleave.{whole_packs};
ghost use Rattle.rw_mend.specs.Refusals.{readings_refusal};
ghost use Rattle.ribjasper_c.specs.Mending.{refusal_of, shape_of, shape_refusal, stream_refusal, AreMendedInto, AreReadingsMended, AreReadingsReported, AreWhole, IsStreamMended, IsStreamReported};

use crate::answers::{DAMAGED, DONE, REFUSED, USAGE, WRITE_FAULT};
use disc_time::MOST_LEAD_IN;
use raw_subcode::{BLOCK_BYTES, MOST_UNITS};
use rw_code::SYMBOLS;
use rw_interleave::whole_packs;
use rw_mend::{
    MOST_READINGS, MendCounts, Tallies, mend_readings, mend_report, mend_stream,
    mend_stream_report, mend_streams,
};

/// The result of mending two readings.
#[repr(C)]
#[derive(Clone, Copy)]
pub struct MendedStream {
    /// The number of bytes that were written.
    pub bytes: u64,
    /// The number of program blocks.
    pub blocks: u32,
    /// The number of words mended in each way.
    pub words: MendCounts,
}

/// Mends two readings of a stream of raw blocks into packs at the front of a buffer. Returns an exit status of the program.
#[unsafe(no_mangle)]
pub extern "C" fn ribjasper_mend(
    first: &[u8],
    second: &[u8],
    lead_in: u32,
    packs: &mut [u8],
    counts: &mut MendedStream,
) -> i32
    ensures mended { refusal_of (length first.now) (length second.now) lead_in (length packs.old) ≡ None
        → AreMendedInto lead_in first.now second.now packs.old packs.new counts.new
        × (result ≡ (if counts.new.words.none == 0 then pos 0 else pos 1)) }
    ensures refused { IfSome (refusal_of (length first.now) (length second.now) lead_in (length packs.old))
        (λ number. (result ≡ pos number) × (packs.new ≡ packs.old) × (counts.new ≡ counts.old)) }
{
    let shape = match Shape::of_two(first.len(), second.len(), lead_in, packs.len()) {
        Ok(shape) => shape,
        Err(status) => return status,
    };
    let words = mend_streams(first, second, lead_in, packs);
    *counts = MendedStream {
        bytes: shape.text() as u64,
        blocks: shape.blocks,
        words,
    };
    outcome(words.none)
}

/// The result of mending any number of readings.
#[repr(C)]
#[derive(Clone, Copy)]
pub struct MendedReadings {
    /// The number of bytes that were written.
    pub bytes: u64,
    /// The number of program blocks.
    pub blocks: u32,
    /// The number of words from each reading, and of codewords that do not count.
    pub words: Tallies,
}

/// Mends readings of a stream of raw blocks, one behind another, into packs at the front of a buffer. Names the source of
/// each word if there is room for sources. Returns an exit status of the program.
#[unsafe(no_mangle)]
pub extern "C" fn ribjasper_mend_readings(
    readings: &[u8],
    count: u32,
    lead_in: u32,
    packs: &mut [u8],
    sources: &mut [u8],
    counts: &mut MendedReadings,
) -> i32
    ensures mended { readings_refusal (length readings.now) count lead_in (length packs.old)
        (length sources.old) ≡ None
        → AreReadingsMended count lead_in readings.now packs.old packs.new sources.old sources.new counts.new
        × (result ≡ (if counts.new.words.none == 0 then pos 0 else pos 1)) }
    ensures refused { IfSome (readings_refusal (length readings.now) count lead_in (length packs.old)
        (length sources.old))
        (λ number. (result ≡ pos number) × (packs.new ≡ packs.old) × (sources.new ≡ sources.old)
        × (counts.new ≡ counts.old)) }
{
    let shape = match Shape::in_packs(readings.len(), count, lead_in, packs.len(), sources.len()) {
        Ok(shape) => shape,
        Err(status) => return status,
    };
    let words = mend_readings(readings, count as usize, lead_in, packs, sources);
    *counts = shape.packs(words);
    outcome(words.none)
}

/// Mends readings of a stream of raw blocks, one behind another, into a stream of blocks at the front of a buffer. Names
/// the source of each word. Returns an exit status of the program.
#[unsafe(no_mangle)]
pub extern "C" fn ribjasper_mend_stream(
    readings: &[u8],
    count: u32,
    lead_in: u32,
    blocks: &mut [u8],
    sources: &mut [u8],
    counts: &mut MendedReadings,
) -> i32
    ensures mended { stream_refusal (length readings.now) count lead_in (length blocks.old)
        (length sources.old) ≡ None
        → IsStreamMended count lead_in readings.now blocks.old blocks.new sources.old sources.new counts.new
        × (result ≡ (if counts.new.words.none == 0 then pos 0 else pos 1)) }
    ensures refused { IfSome (stream_refusal (length readings.now) count lead_in (length blocks.old)
        (length sources.old))
        (λ number. (result ≡ pos number) × (blocks.new ≡ blocks.old) × (sources.new ≡ sources.old)
        × (counts.new ≡ counts.old)) }
{
    let shape = match Shape::in_stream(
        readings.len(),
        count,
        lead_in,
        blocks.len(),
        sources.len(),
    ) {
        Ok(shape) => shape,
        Err(status) => return status,
    };
    let words = mend_stream(readings, count as usize, lead_in, blocks, sources);
    *counts = shape.stream(words);
    outcome(words.none)
}

/// The result of mending readings, and the number of lost words of each.
#[repr(C)]
#[derive(Clone, Copy)]
pub struct MendReported {
    /// The result of the same call without a report.
    pub counts: MendedReadings,
    /// The number of error-free words of each reading that are not in the output.
    pub lost: [u32; MOST_READINGS],
}

/// Mends readings like `ribjasper_mend_readings`, and reports the number of lost words of each.
#[unsafe(no_mangle)]
pub extern "C" fn ribjasper_mend_report(
    readings: &[u8],
    count: u32,
    lead_in: u32,
    packs: &mut [u8],
    sources: &mut [u8],
    report: &mut MendReported,
) -> i32
    ensures mended { readings_refusal (length readings.now) count lead_in (length packs.old)
        (length sources.old) ≡ None
        → AreReadingsReported count lead_in readings.now packs.old packs.new sources.old sources.new
        report.new
        × (result ≡ (if report.new.counts.words.none == 0 then pos 0 else pos 1)) }
    ensures refused { IfSome (readings_refusal (length readings.now) count lead_in (length packs.old)
        (length sources.old))
        (λ number. (result ≡ pos number) × (packs.new ≡ packs.old) × (sources.new ≡ sources.old)
        × (report.new ≡ report.old)) }
{
    let shape = match Shape::in_packs(readings.len(), count, lead_in, packs.len(), sources.len()) {
        Ok(shape) => shape,
        Err(status) => return status,
    };
    let mended = mend_report(readings, count as usize, lead_in, packs, sources);
    let lost = mended.lost;
    *report = MendReported {
        counts: shape.packs(mended.tallies),
        lost,
    };
    outcome(mended.tallies.none)
}

/// Mends readings like `ribjasper_mend_stream`, and reports the number of lost words of each.
#[unsafe(no_mangle)]
pub extern "C" fn ribjasper_mend_stream_report(
    readings: &[u8],
    count: u32,
    lead_in: u32,
    blocks: &mut [u8],
    sources: &mut [u8],
    report: &mut MendReported,
) -> i32
    ensures mended { stream_refusal (length readings.now) count lead_in (length blocks.old)
        (length sources.old) ≡ None
        → IsStreamReported count lead_in readings.now blocks.old blocks.new sources.old sources.new report.new
        × (result ≡ (if report.new.counts.words.none == 0 then pos 0 else pos 1)) }
    ensures refused { IfSome (stream_refusal (length readings.now) count lead_in (length blocks.old)
        (length sources.old))
        (λ number. (result ≡ pos number) × (blocks.new ≡ blocks.old) × (sources.new ≡ sources.old)
        × (report.new ≡ report.old)) }
{
    let shape = match Shape::in_stream(
        readings.len(),
        count,
        lead_in,
        blocks.len(),
        sources.len(),
    ) {
        Ok(shape) => shape,
        Err(status) => return status,
    };
    let mended = mend_stream_report(readings, count as usize, lead_in, blocks, sources);
    let lost = mended.lost;
    *report = MendReported {
        counts: shape.stream(mended.tallies),
        lost,
    };
    outcome(mended.tallies.none)
}

// The sizes of the readings of a call.
#[derive(Clone, Copy)]
struct Shape {
    // The number of bytes in each reading.
    size: usize,
    // The number of program blocks.
    blocks: u32,
    // The number of words in the program.
    words: u32,
}

impl Shape {
    // The shape of readings with this total length. Refuses numbers out of range, and readings that are not
    // whole blocks.
    fn of(length: usize, count: u32, lead_in: u32) -> Result<Shape, i32>
        ensures accepted { shape_refusal length count lead_in ≡ None
            → result ≡ Ok (shape_of (length / count) lead_in) }
        ensures refused { IfSome (shape_refusal length count lead_in) (λ number. result ≡ Err (pos number)) }
        ensures readings { OnOk result (AreWhole length count) }
    {
        if lead_in > MOST_LEAD_IN || count == 0 || count > MOST_READINGS as u32 {
            return Err(USAGE);
        }
        let size = length / count as usize;
        if length % count as usize != 0
            || size % BLOCK_BYTES != 0
            || size > BLOCK_BYTES * MOST_UNITS as usize
        {
            return Err(REFUSED);
        }
        Ok(Shape::of_each(size, lead_in))
    }

    // The shape of readings of this size each.
    fn of_each(size: usize, lead_in: u32) -> Shape
        requires { size ≤ block_bytes * most_units }
        ensures { result ≡ shape_of size lead_in }
    {
        let blocks = ((size / BLOCK_BYTES) as u32).saturating_sub(lead_in);
        Shape {
            size,
            blocks,
            words: whole_packs(blocks),
        }
    }

    // The shape of two readings. Refuses them also if the room is too small for their packs.
    fn of_two(first: usize, second: usize, lead_in: u32, room: usize) -> Result<Shape, i32>
        ensures shape { IfOk result (λ shape. shape ≡ shape_of first lead_in) }
        ensures taken { OnOk result (refusal_of first second lead_in room ≡ None) }
        ensures accepted { refusal_of first second lead_in room ≡ None
            → result ≡ Ok (shape_of first lead_in) }
        ensures refused { IfSome (refusal_of first second lead_in room)
            (λ number. result ≡ Err (pos number)) }
        ensures equal { OnOk result (first ≡ second) }
        ensures whole { OnOk result (first % block_bytes ≡ 0) }
        ensures short { OnOk result (first ≤ block_bytes * most_units) }
        ensures room { OnOk result (symbols_a_slot * whole_packs (first / block_bytes - lead_in) ≤ room) }
    {
        let shape = Shape::of(first, 1, lead_in)?;
        if first != second {
            return Err(REFUSED);
        }
        if room < shape.text() {
            return Err(WRITE_FAULT);
        }
        Ok(shape)
    }

    // The shape of readings. Refuses them also if a room is too small for their packs or their sources, if
    // any.
    fn in_packs(
        length: usize,
        count: u32,
        lead_in: u32,
        room: usize,
        sources: usize,
    ) -> Result<Shape, i32>
        ensures shape { IfOk result (λ shape. shape ≡ shape_of (length / count) lead_in) }
        ensures taken { OnOk result (readings_refusal length count lead_in room sources ≡ None) }
        ensures accepted { readings_refusal length count lead_in room sources ≡ None
            → result ≡ Ok (shape_of (length / count) lead_in) }
        ensures refused { IfSome (readings_refusal length count lead_in room sources)
            (λ number. result ≡ Err (pos number)) }
        ensures readings { OnOk result (AreWhole length count) }
        ensures room { OnOk result
            (symbols_a_slot * whole_packs (length / count / block_bytes - lead_in) ≤ room) }
    {
        let shape = Shape::of(length, count, lead_in)?;
        if room < shape.text() || 0 < sources && sources < shape.words as usize {
            return Err(WRITE_FAULT);
        }
        Ok(shape)
    }

    // The shape of readings. Refuses them also if a room is too small for their stream or their sources.
    fn in_stream(
        length: usize,
        count: u32,
        lead_in: u32,
        room: usize,
        sources: usize,
    ) -> Result<Shape, i32>
        ensures shape { IfOk result (λ shape. shape ≡ shape_of (length / count) lead_in) }
        ensures taken { OnOk result (stream_refusal length count lead_in room sources ≡ None) }
        ensures accepted { stream_refusal length count lead_in room sources ≡ None
            → result ≡ Ok (shape_of (length / count) lead_in) }
        ensures refused { IfSome (stream_refusal length count lead_in room sources)
            (λ number. result ≡ Err (pos number)) }
        ensures readings { OnOk result (AreWhole length count) }
        ensures room { OnOk result (length / count ≤ room) }
        ensures sources { OnOk result (whole_packs (length / count / block_bytes - lead_in) ≤ sources) }
    {
        let shape = Shape::of(length, count, lead_in)?;
        if room < shape.size || sources < shape.words as usize {
            return Err(WRITE_FAULT);
        }
        Ok(shape)
    }

    // The size of the packs in bytes.
    fn text(&self) -> usize
        ensures { result ≡ symbols_a_slot * self.now.words }
    {
        SYMBOLS * self.words as usize
    }

    // The result of a call that writes packs.
    fn packs(&self, words: Tallies) -> MendedReadings
        ensures bytes { result.bytes ≡ symbols_a_slot * self.now.words }
        ensures blocks { result.blocks ≡ self.now.blocks }
        ensures words { result.words ≡ words }
    {
        MendedReadings {
            bytes: self.text() as u64,
            blocks: self.blocks,
            words,
        }
    }

    // The result of a call that writes a stream.
    fn stream(&self, words: Tallies) -> MendedReadings
        ensures bytes { result.bytes ≡ self.now.size }
        ensures blocks { result.blocks ≡ self.now.blocks }
        ensures words { result.words ≡ words }
    {
        MendedReadings {
            bytes: self.size as u64,
            blocks: self.blocks,
            words,
        }
    }
}

// The exit status of a call with this number of words without a codeword.
fn outcome(none: u32) -> i32
    ensures { result ≡ (if none == 0 then pos 0 else pos 1) }
{
    if none == 0 { DONE } else { DAMAGED }
}
