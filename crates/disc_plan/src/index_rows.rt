// A cue sheet as rows: one row for each index line.
ghost use Rattle.std.specs.Prelude.{◌≡◌, ◌<◌, ◌≤◌, ◌+◌, ◌++◌, drop, length, take, IfSome, IsTrue, option_copied, IfErr, IfOk, OnErr};
ghost use Rattle.cdg_io.specs.Causes.{ReportsFault};
ghost use Rattle.cue_sheet.specs.CueSheet.{index_line_of, track_of, is_capital_code, is_catalogue_number};
ghost use Rattle.disc_plan.specs.SheetRows.{sheet_row, sheet_rows, track_rows, flag_of, or_zeros, AreRowsOf, IsRowsStop};

use crate::reports::{SheetReport, sheet_report};
use crate::stops::SheetStop;
use cue_sheet::{CueStop, Sheet};
use disc_time::{CATALOGUE_DIGITS, ISRC_CHARACTERS};
use subcode_author::Heap;
use text_lines::MOST_TEXT_BYTES;

/// An index line of a sheet, with the values of its track. Times are blocks, 75 a second.
#[repr(C)]
#[derive(Clone, Copy)]
pub struct SheetRow {
    /// The time of the index line in the file.
    pub time: u32,
    /// The silence before its track.
    pub pregap: u32,
    /// The silence after its track.
    pub postgap: u32,
    /// The number of its track, 1 to 99.
    pub track: u8,
    /// The number of the index line, 0 to 99.
    pub index: u8,
    /// The control bits of its track.
    pub control: u8,
    /// 1 if its track has an ISRC, otherwise 0.
    pub has_isrc: u8,
    /// The ISRC, or zeros.
    pub isrc: [u8; ISRC_CHARACTERS],
}

/// Writes a row for each index line of a cue sheet to the front of `rows`.
pub fn sheet_rows(
    heap: &mut Heap,
    text: &[u8],
    rows: &mut [SheetRow],
) -> Result<SheetReport, SheetStop>
    ensures rows { IfOk result (AreRowsOf text.now rows.old rows.new) }
    ensures stop { IfErr result (IsRowsStop text.now (length rows.old)) }
    ensures untouched { OnErr result (rows.new ≡ rows.old) }
    // The error is `NoMemory` exactly if a request for memory failed.
    ensures allocations { ReportsFault SheetStop.NoMemory heap.old heap.new result }
{
    if text.len() > MOST_TEXT_BYTES {
        return Err(SheetStop::TooLong);
    }
    let sheet = match heap.sheet(text) {
        Ok(sheet) => sheet,
        Err(CueStop::Fault { line, why }) => return Err(SheetStop::Fault { line, why }),
        Err(CueStop::NoMemory) => return Err(SheetStop::NoMemory),
    };
    let report = sheet_report(&sheet);
    if report.rows as usize > rows.len() {
        return Err(SheetStop::NoRoom { report });
    }
    write_rows(&sheet, rows);
    Ok(report)
}

/// The number of index lines of a sheet, at most 9,900.
pub(crate) fn count_rows(sheet: &Sheet) -> usize
    ensures count { result ≡ length (sheet_rows sheet.now) }
    ensures few { result ≤ 9900 }
{
    let mut count = 0;
    for k in 0..sheet.tracks() {
        count += lines_of(sheet, k);
    }
    count
}

fn lines_of(sheet: &Sheet, k: usize) -> usize
    requires { k < length sheet.now.tracks }
    ensures count { result ≡ length (track_rows (track_of sheet.now k)) }
    ensures few { result ≤ 100 }
{
    sheet.tracks_are_in_order();
    sheet.indices(k)
}

// Writes a row for each index line to the front of `rows`.
fn write_rows(sheet: &Sheet, rows: &mut [SheetRow])
    requires { length (sheet_rows sheet.now) ≤ length rows.old }
    ensures { rows.new ≡ sheet_rows sheet.now ++ drop (length (sheet_rows sheet.now)) rows.old }
{
    let mut at = 0;
    for k in 0..sheet.tracks() {
        write_track(sheet, k, rows, at);
        at += lines_of(sheet, k);
    }
}

// Writes the rows of a track, from a place on.
fn write_track(sheet: &Sheet, k: usize, rows: &mut [SheetRow], at: usize)
    requires track { k < length sheet.now.tracks }
    requires room { at + length (track_rows (track_of sheet.now k)) ≤ length rows.old }
    ensures { rows.new ≡ take at rows.old ++ (track_rows (track_of sheet.now k)
        ++ drop (at + length (track_rows (track_of sheet.now k))) rows.old) }
{
    for j in 0..lines_of(sheet, k) {
        rows[at + j] = row(sheet, k, j);
    }
}

fn row(sheet: &Sheet, k: usize, j: usize) -> SheetRow
    requires track { k < length sheet.now.tracks }
    requires line { j < length (track_of sheet.now k).indices }
    ensures { result ≡ sheet_row (track_of sheet.now k) (index_line_of (track_of sheet.now k) j) }
{
    let (index, time) = sheet.index(k, j);
    let code = sheet.isrc(k);
    SheetRow {
        time,
        pregap: sheet.pregap(k),
        postgap: sheet.postgap(k),
        track: number_of(sheet, k),
        index,
        control: sheet.control(k),
        has_isrc: flag_of(code),
        isrc: isrc_or_zeros(code),
    }
}

fn number_of(sheet: &Sheet, k: usize) -> u8
    requires { k < length sheet.now.tracks }
    ensures { result ≡ (track_of sheet.now k).number }
{
    sheet.tracks_are_in_order();
    (usize::from(sheet.first()) + k) as u8
}

pub(crate) fn catalogue_or_zeros(code: Option<&[u8]>) -> [u8; CATALOGUE_DIGITS]
    requires { IfSome code (λ digits. IsTrue (is_catalogue_number digits.now)) }
    ensures { result ≡ or_zeros 13 (option_copied code.entry) }
{
    let mut bytes = [0; CATALOGUE_DIGITS];
    if let Some(digits) = code {
        bytes.copy_from_slice(digits);
    }
    bytes
}

fn isrc_or_zeros(code: Option<&[u8]>) -> [u8; ISRC_CHARACTERS]
    requires { IfSome code (λ characters. IsTrue (is_capital_code characters.now)) }
    ensures { result ≡ or_zeros 12 (option_copied code.entry) }
{
    let mut bytes = [0; ISRC_CHARACTERS];
    if let Some(characters) = code {
        bytes.copy_from_slice(characters);
    }
    bytes
}

/// 1 if there is an ISRC, otherwise 0.
pub(crate) fn flag_of(code: Option<&[u8]>) -> u8
    ensures { result ≡ flag_of (option_copied code.entry) }
{
    match code {
        Some(_) => 1,
        None => 0,
    }
}
