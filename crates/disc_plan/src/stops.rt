// The reasons why a sheet has no rows or no text, and why a disc has no plan.
use crate::reports::SheetReport;
use cue_sheet::CueWhy;
use picture_script::ScriptWhy;
use subcode_author::AuthorStop;

/// The reason why a sheet has no rows.
#[derive(Clone, Copy)]
pub enum SheetStop {
    /// The text of the sheet has more than 64 MiB.
    TooLong,
    /// The number of its first refused line, from 1, and the first reason to refuse it.
    Fault { line: u32, why: CueWhy },
    /// The sheet has more index lines than `rows` has room for.
    NoRoom { report: SheetReport },
    NoMemory,
}

/// The reason why a sheet has no text.
#[derive(Clone, Copy)]
pub enum TextStop {
    /// The text of the sheet has more than 64 MiB.
    TooLong,
    /// The number of its first refused line, from 1, and the first reason to refuse it.
    Fault { line: u32, why: CueWhy },
    NoTrack,
    /// The text has this many bytes, and the buffer has fewer.
    NoRoom { bytes: u32 },
    NoMemory,
}

/// The reason why a disc has no plan. Of several reasons the first in this order is reported.
#[derive(Clone, Copy)]
pub enum PlanStop {
    /// The sheet has more than 67,108,864 bytes.
    SheetTooLong,
    /// The number of the first refused line of the sheet, from 1, and the first reason to refuse it.
    Sheet { line: u32, why: CueWhy },
    /// The script has more than 67,108,864 bytes.
    ScriptTooLong,
    /// The number of the first refused line of the script, from 1, and the first reason to refuse it.
    Script { line: u32, why: ScriptWhy },
    /// The sheet and the script do not fit on a disc with this lead-in and audio file. The reason is never a late
    /// picture or a failed write.
    Disc { stop: AuthorStop },
    /// The script has more pictures than `rows` has room for. The program has this many blocks.
    NoRoom { pictures: u32, blocks: u32 },
    /// No line of either text is refused, but memory ran out.
    NoMemory,
}
