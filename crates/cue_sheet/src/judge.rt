// Which lines of a cue sheet are allowed next.
ghost use Rattle.std.specs.Prelude.{◌≡◌, ◌≤◌, None, length};
ghost use Rattle.text_lines.specs.Text.{most_text_bytes};

use crate::command::{SheetCommand, SheetLine, spelled};
use crate::fault::CueWhy;
use text_lines::split_command;

/// The marks of the lines of one track, or of the lines before the first track: which of the lines that are
/// allowed once exist, and the last index line.
#[derive(Clone, Copy, Default)]
pub(crate) struct SectionMarks {
    pub(crate) catalogue: bool,
    pub(crate) title: bool,
    pub(crate) performer: bool,
    pub(crate) songwriter: bool,
    pub(crate) control: bool,
    pub(crate) isrc: bool,
    pub(crate) pregap: bool,
    pub(crate) postgap: bool,
    pub(crate) has_index_one: bool,
    pub(crate) last_index: Option<u8>,
}

impl SectionMarks {
    ghost use Rattle.cue_sheet.specs.CueSheet.{CueSection};
    ghost use Rattle.cue_sheet.specs.Judging.{Marks};
    ghost use Rattle.cue_sheet.specs.Steps.{is_repeated, line_said};

    /// Whether a line that is allowed once is there already.
    pub(crate) fn is_repeated(&self, line: &SheetLine<'_>) -> bool
        ensures { (said : CueSection) → Marks said self.now → result ≡ is_repeated said (line_said line.now) }
    {
        match line {
            SheetLine::Catalogue(_) => self.catalogue,
            SheetLine::Title(_) => self.title,
            SheetLine::Performer(_) => self.performer,
            SheetLine::Songwriter(_) => self.songwriter,
            SheetLine::Flags(_) => self.control,
            SheetLine::Isrc(_) => self.isrc,
            SheetLine::Pregap(_) => self.pregap,
            SheetLine::Postgap(_) => self.postgap,
            _ => false,
        }
    }
}

/// The state that decides whether the next line is allowed. `section` describes the last track, or the lines
/// before the first one. It allocates nothing.
#[derive(Clone, Copy, Default)]
pub(crate) struct SheetJudge {
    pub(crate) has_file: bool,
    pub(crate) latest: u32,
    pub(crate) number: Option<u8>,
    pub(crate) section: SectionMarks,
}

impl SheetJudge {
    ghost use Rattle.cue_sheet.specs.Grammar.{CueState, nothing_said, is_placed};
    ghost use Rattle.cue_sheet.specs.Judging.{Judges};
    ghost use Rattle.cue_sheet.specs.Steps.{after, line_said, later_sheet_reason, end_reason, IsCheckedLine};
    ghost use Rattle.cue_sheet.specs.CueLines.{command_named};
    ghost use Rattle.text_lines.specs.Text.{first_word, argument_of};

    // Whether a command is allowed at this place.
    fn is_placed(&self, command: SheetCommand) -> bool
        ensures { (said : CueState) → Judges said self.now → result ≡ is_placed said command }
    {
        match command {
            SheetCommand::Catalogue => self.number.is_none(),
            SheetCommand::Track => self.has_file,
            SheetCommand::Flags | SheetCommand::Isrc => self.number.is_some(),
            SheetCommand::Pregap => self.number.is_some() && self.section.last_index.is_none(),
            SheetCommand::Index => self.number.is_some() && !self.section.postgap,
            SheetCommand::Postgap => self.number.is_some() && self.section.has_index_one,
            _ => true,
        }
    }

    // The reason to refuse a line whose argument is valid and whose command is allowed at this place.
    #[tactic(auto, unfolding(crate::specs::Steps::later_sheet_reason))]
    fn later_reason(&self, line: &SheetLine<'_>) -> Option<CueWhy>
        ensures { (said : CueState) → Judges said self.now
            → result ≡ later_sheet_reason said (line_said line.now) }
    {
        match line {
            SheetLine::Track { .. } if self.number.is_some() && !self.section.has_index_one => {
                Some(CueWhy::NoIndex)
            }
            SheetLine::Track { audio: false, .. } => Some(CueWhy::NotAudio),
            SheetLine::Track { number, .. } => match self.number {
                Some(last) if last.checked_add(1) != Some(*number) => Some(CueWhy::NumberOrder),
                _ => None,
            },
            SheetLine::Index { number, time } => match self.section.last_index {
                Some(last) if last.checked_add(1) != Some(*number) => Some(CueWhy::IndexOrder),
                None if *number > 1 => Some(CueWhy::IndexOrder),
                _ if *time < self.latest => Some(CueWhy::TimeOrder),
                _ => None,
            },
            _ if self.section.is_repeated(line) => Some(CueWhy::Repeated),
            _ => None,
        }
    }

    /// The reason to refuse the end of the sheet.
    pub(crate) fn end_reason(&self) -> Option<CueWhy>
        ensures { (said : CueState) → Judges said self.now → result ≡ end_reason said }
    {
        if !self.has_file {
            Some(CueWhy::NoFile)
        } else if self.number.is_none() {
            Some(CueWhy::NoTrack)
        } else if self.section.has_index_one {
            None
        } else {
            Some(CueWhy::NoIndex)
        }
    }

    /// The line of a trimmed text that is not empty, or the first reason to refuse it.
    pub(crate) fn checked<'a>(&self, line: &'a [u8]) -> Result<SheetLine<'a>, CueWhy>
        requires { length line.now ≤ most_text_bytes }
        ensures { (said : CueState) → Judges said self.now
            → IsCheckedLine said (command_named (first_word line.now)) (argument_of line.now) result }
    {
        let (word, argument) = split_command(line);
        let Some(command) = SheetCommand::named(word) else {
            return Err(CueWhy::UnknownCommand);
        };
        if self.has_file && matches!(command, SheetCommand::File) {
            return Err(CueWhy::SecondFile);
        }
        if !self.is_placed(command) {
            return Err(CueWhy::Misplaced);
        }
        let Some(said) = spelled(command, argument) else {
            return Err(CueWhy::BadArgument);
        };
        match self.later_reason(&said) {
            Some(why) => Err(why),
            None => Ok(said),
        }
    }

    /// Adds an accepted line.
    pub(crate) fn add(&mut self, line: &SheetLine<'_>)
        ensures { (said : CueState) → Judges said self.old
            → Judges (after said (line_said line.now)) self.new }
    {
        match line {
            SheetLine::Remark => {}
            SheetLine::File => self.has_file = true,
            SheetLine::Catalogue(_) => self.section.catalogue = true,
            SheetLine::Title(_) => self.section.title = true,
            SheetLine::Performer(_) => self.section.performer = true,
            SheetLine::Songwriter(_) => self.section.songwriter = true,
            SheetLine::Flags(_) => self.section.control = true,
            SheetLine::Isrc(_) => self.section.isrc = true,
            SheetLine::Pregap(_) => self.section.pregap = true,
            SheetLine::Postgap(_) => self.section.postgap = true,
            SheetLine::Track { number, .. } => {
                self.number = Some(*number);
                self.section = SectionMarks::default();
            }
            SheetLine::Index { number, time } => {
                self.latest = self.latest.max(*time);
                self.section.has_index_one |= *number == 1;
                self.section.last_index = Some(*number);
            }
        }
    }
}
