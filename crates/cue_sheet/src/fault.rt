// The reasons to refuse a sheet, and the kinds of its texts.
use std::alloc::AllocError;

/// The reason to refuse a line of a cue sheet, or its end.
#[derive(Clone, Copy, PartialEq, Eq, Debug)]
pub enum CueWhy {
    /// The first word is not a command.
    UnknownCommand,
    /// A second FILE.
    SecondFile,
    /// The command is not allowed at this place.
    Misplaced,
    /// The argument is invalid for the command.
    BadArgument,
    /// The track, or the part before the first track, already has a line with this command.
    Repeated,
    /// A track ends without an INDEX 01.
    NoIndex,
    /// A track of a type other than AUDIO.
    NotAudio,
    /// A track's number is not one more than the number of the previous track.
    NumberOrder,
    /// A track's first index is neither 00 nor 01, or an index is not one more than the previous index.
    IndexOrder,
    /// An index time is below an earlier one of the sheet.
    TimeOrder,
    /// The sheet ends without a FILE.
    NoFile,
    /// The sheet ends without a TRACK.
    NoTrack,
}

/// The reason why a cue sheet was not read.
#[derive(PartialEq, Eq, Debug, Drop)]
pub enum CueStop {
    /// The number of the first refused line, from 1, and the first reason to refuse it. The end of a sheet counts as
    /// one more line.
    Fault { line: u32, why: CueWhy },
    /// No line is refused, but memory ran out.
    NoMemory,
}

impl From<AllocError> for CueStop {
    ghost use Rattle.std.specs.Prelude.{◌≡◌};
    ghost use Rattle.cue_sheet.specs.declared.fault.CueStop.TheVariants.{NoMemory};

    ghost from_gives = { λ _ e. e ≡ NoMemory };

    fn from(_error: AllocError) -> CueStop {
        CueStop::NoMemory
    }
}

/// The kinds of texts of a sheet, for the album or a track. They are named after their commands.
#[derive(Clone, Copy, PartialEq, Eq, Debug)]
pub enum CueText {
    Title,
    Performer,
    Songwriter,
}
