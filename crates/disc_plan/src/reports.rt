// The counts of a sheet, and the result of a plan, for programs in C.
ghost use Rattle.std.specs.Prelude.{◌≡◌, ◌≤◌, length};
ghost use Rattle.disc_plan.specs.Reports.{plan_report, stop_report, refusal, script_number, disc_refusal, cue_number};
ghost use Rattle.disc_plan.specs.SheetRows.{sheet_rows, refusal_report, sheet_report};

use crate::index_rows::{catalogue_or_zeros, count_rows, flag_of};
use crate::plan::PlannedDisc;
use crate::stops::PlanStop;
use cue_sheet::{CueWhy, Sheet};
use disc_time::CATALOGUE_DIGITS;
use picture_script::ScriptWhy;
use subcode_author::AuthorStop;

#[repr(C)]
#[derive(Clone, Copy)]
pub struct SheetReport {
    /// The number of its index lines, at most 9,900.
    pub rows: u32,
    /// The number of its tracks, 1 to 99.
    pub tracks: u32,
    /// The number of the refused line, or 0.
    pub line: u32,
    /// The number of the reason, or 0.
    pub why: u32,
    /// 1 if it has a catalogue number, otherwise 0.
    pub has_catalogue: u8,
    /// The digits of the catalogue number, or zeros.
    pub catalogue: [u8; CATALOGUE_DIGITS],
}

/// The counts of an accepted sheet.
pub(crate) fn sheet_report(sheet: &Sheet) -> SheetReport
    ensures report { result ≡ sheet_report sheet.now }
    ensures few { result.rows ≤ 9900 }
{
    sheet.tracks_are_in_order();
    let code = sheet.catalogue();
    SheetReport {
        rows: count_rows(sheet) as u32,
        tracks: sheet.tracks() as u32,
        line: 0,
        why: 0,
        has_catalogue: flag_of(code),
        catalogue: catalogue_or_zeros(code),
    }
}

/// The refused line of a sheet.
pub fn refusal_report(line: u32, why: CueWhy) -> SheetReport
    ensures { result ≡ refusal_report line why }
{
    SheetReport {
        rows: 0,
        tracks: 0,
        line,
        why: cue_number(why),
        has_catalogue: 0,
        catalogue: [0; CATALOGUE_DIGITS],
    }
}

#[repr(C)]
#[derive(Clone, Copy)]
pub struct PlanReport {
    /// The number of pictures, if there is a plan or too little room for it.
    pub pictures: u32,
    /// The number of blocks of the program, if there is a plan or too little room for it.
    pub blocks: u32,
    pub late: u32,
    /// The reason why there is no plan: 1 a text is too long, 2 a line of the sheet is refused, 3 one of the script, 4
    /// the audio is short, 5 the disc is too long, 6 a picture is held past the end, 7 the CD-TEXT is too long, 8 the
    /// lead-in is short; or 0.
    pub why: u32,
    /// The number of the refused line, or 0.
    pub line: u32,
    /// The number of its reason, or the number in the reason of a disc, or 0.
    pub number: u32,
}

/// The result for a disc with a plan.
pub fn plan_report(disc: &PlannedDisc) -> PlanReport
    ensures { result ≡ plan_report disc.now }
{
    PlanReport {
        pictures: disc.pictures,
        blocks: disc.blocks,
        late: disc.late,
        why: 0,
        line: 0,
        number: 0,
    }
}

/// The result for a disc without a plan.
pub fn stop_report(stop: &PlanStop) -> PlanReport
    ensures { result ≡ stop_report stop.now }
{
    match *stop {
        PlanStop::SheetTooLong | PlanStop::ScriptTooLong => refusal(1, 0, 0),
        PlanStop::Sheet { line, why } => refusal(2, line, cue_number(why)),
        PlanStop::Script { line, why } => refusal(3, line, script_number(why)),
        PlanStop::Disc { stop } => disc_refusal(stop),
        PlanStop::NoRoom { pictures, blocks } => plan_report(&PlannedDisc {
            pictures,
            blocks,
            late: 0,
        }),
        PlanStop::NoMemory => refusal(0, 0, 0),
    }
}

// The numbers of a refused plan: reason, line and value.
fn refusal(why: u32, line: u32, number: u32) -> PlanReport
    ensures { result ≡ refusal why line number }
{
    PlanReport {
        pictures: 0,
        blocks: 0,
        late: 0,
        why,
        line,
        number,
    }
}

// The result for a sheet and a script that do not fit on their disc. It has no line.
fn disc_refusal(stop: AuthorStop) -> PlanReport
    ensures { result ≡ disc_refusal stop }
{
    match stop {
        AuthorStop::LengthShort { need } => refusal(4, 0, need),
        AuthorStop::DiscTooLong { blocks } => refusal(5, 0, blocks),
        AuthorStop::PastEnd { blocks } => refusal(6, 0, blocks),
        AuthorStop::TextTooLong { packs } => refusal(7, 0, packs),
        AuthorStop::LeadInShort { need } => refusal(8, 0, need),
        AuthorStop::Late { .. } | AuthorStop::WriteFault | AuthorStop::NoMemory => refusal(0, 0, 0),
    }
}

// The number of a reason to refuse a line of a script.
fn script_number(why: ScriptWhy) -> u32
    ensures { result ≡ script_number why }
{
    match why {
        ScriptWhy::UnknownCommand => 1,
        ScriptWhy::BadArgument => 2,
        ScriptWhy::OutOfRange => 3,
        ScriptWhy::TimeOrder => 4,
        ScriptWhy::TooMany => 5,
    }
}

// The number of a reason to refuse a line of a sheet, 1 to 12.
fn cue_number(why: CueWhy) -> u32
    ensures { result ≡ cue_number why }
{
    match why {
        CueWhy::UnknownCommand => 1,
        CueWhy::SecondFile => 2,
        CueWhy::Misplaced => 3,
        CueWhy::BadArgument => 4,
        CueWhy::Repeated => 5,
        CueWhy::NoIndex => 6,
        CueWhy::NotAudio => 7,
        CueWhy::NumberOrder => 8,
        CueWhy::IndexOrder => 9,
        CueWhy::TimeOrder => 10,
        CueWhy::NoFile => 11,
        CueWhy::NoTrack => 12,
    }
}
