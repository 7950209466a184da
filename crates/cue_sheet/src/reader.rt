// Reads a cue sheet line by line. Its contents are kept as long as there is memory for them.
ghost use Rattle.std.specs.Prelude.{◌≡◌, ◌≤◌, length, IfOk, IfErr, Ok, Err, OnOk, ◌++◌, true, false, map, ◌≢◌, ℕ, Bool, [], Some};
ghost use Rattle.text_lines.specs.Text.{most_text_bytes};
ghost use Rattle.cue_sheet.specs.CueSheet.{IsSheet};
ghost use Rattle.cue_sheet.specs.Answers.{IsCueAnswer};
ghost use Rattle.cue_sheet.specs.Grammar.{CueState, nothing_said, read_cue, track_with};
ghost use Rattle.cue_sheet.specs.Steps.{after, line_said, sheet_said};
ghost use Rattle.cue_sheet.specs.Views.{section_of, track_value};

use crate::command::SheetLine;
use crate::fault::{CueStop, CueText, CueWhy};
use crate::judge::SheetJudge;
use crate::sheet::Sheet;
use disc_time::{CATALOGUE_DIGITS, ISRC_CHARACTERS};
use std::alloc::{AllocError, Global};
use std::marker::Model;
use std::mem;
use text_lines::{next_line, trim, without_mark};

/// The lines of one track, or those before the first track. A line that is allowed once is an `Option`.
#[derive(Drop)]
pub(crate) struct Section {
    pub(crate) catalogue: Option<[u8; CATALOGUE_DIGITS]>,
    pub(crate) title: Option<Vec<u8>>,
    pub(crate) performer: Option<Vec<u8>>,
    pub(crate) songwriter: Option<Vec<u8>>,
    pub(crate) control: Option<u8>,
    pub(crate) isrc: Option<[u8; ISRC_CHARACTERS]>,
    pub(crate) pregap: Option<u32>,
    pub(crate) postgap: Option<u32>,
    pub(crate) indices: Vec<(u8, u32)>,
}

/// A track and its lines.
#[derive(Drop)]
pub(crate) struct Track {
    pub(crate) number: u8,
    pub(crate) section: Section,
}

impl Section {
    ghost use Rattle.cue_sheet.specs.Views.{section_of, section_text};
    ghost use Rattle.cue_sheet.specs.Grammar.{nothing_said, no_section};
    ghost use Rattle.cue_sheet.specs.Steps.{line_said, after};
    ghost use Rattle.cue_sheet.specs.CueLines.{SaysTrack};

    /// A section without lines.
    pub(crate) fn new(alloc: Global) -> Section
        ensures { section_of result ≡ no_section }
    {
        Section {
            catalogue: None,
            title: None,
            performer: None,
            songwriter: None,
            control: None,
            isrc: None,
            pregap: None,
            postgap: None,
            indices: Vec::new(alloc),
        }
    }

    /// Adds a line that is not a TRACK line. After an error the state of the section is unspecified.
    pub(crate) fn add(&mut self, alloc: Global, line: &SheetLine<'_>) -> Result<(), AllocError>
        requires { (number : ℕ) (audio : Bool) → line_said line.now ≢ SaysTrack number audio }
        ensures { IfOk result (λ _. section_of self.new
            ≡ (after (record nothing_said { section = section_of self.old }) (line_said line.now)).section) }
    {
        match line {
            SheetLine::Catalogue(digits) => self.catalogue = Some(*digits),
            SheetLine::Title(text) => self.title = Some(Vec::from_slice(alloc, text)?),
            SheetLine::Performer(text) => self.performer = Some(Vec::from_slice(alloc, text)?),
            SheetLine::Songwriter(text) => self.songwriter = Some(Vec::from_slice(alloc, text)?),
            SheetLine::Flags(control) => self.control = Some(*control),
            SheetLine::Isrc(code) => self.isrc = Some(*code),
            SheetLine::Pregap(time) => self.pregap = Some(*time),
            SheetLine::Postgap(time) => self.postgap = Some(*time),
            SheetLine::Index { number, time } => self.indices.push((*number, *time))?,
            SheetLine::Remark | SheetLine::File | SheetLine::Track { .. } => {}
        }
        Ok(())
    }

    /// The text of this kind, empty if there is none.
    pub(crate) fn text(&self, kind: CueText) -> &[u8]
        ensures { result.now ≡ section_text kind (section_of self.now) }
    {
        let text = match kind {
            CueText::Title => &self.title,
            CueText::Performer => &self.performer,
            CueText::Songwriter => &self.songwriter,
        };
        match text {
            Some(bytes) => bytes.as_slice(),
            None => &[],
        }
    }
}

/// The contents of the lines so far. `section` has the lines of the last track, or those before the first one.
#[derive(Drop)]
pub(crate) struct SheetDraft {
    album: Section,
    tracks: Vec<Track>,
    number: Option<u8>,
    section: Section,
}

impl Model for SheetDraft {
    ghost Value = { CueState };

    ghost view = { λ d. record {
      has_file = false;
      latest = 0;
      album = section_of d.album;
      tracks = map track_value d.tracks.items;
      number = d.number;
      section = section_of d.section;
    } };
}

impl SheetDraft {
    ghost use Rattle.cue_sheet.specs.Grammar.{nothing_said};
    ghost use Rattle.cue_sheet.specs.CueSheet.{IsSheet};
    ghost use Rattle.cue_sheet.specs.Steps.{after, line_said, sheet_said, stripped};
    ghost use Rattle.cue_sheet.specs.CueLines.{SaysTrack};

    /// Adds an accepted line. After an error the state of the draft is unspecified.
    pub(crate) fn add(&mut self, alloc: Global, line: &SheetLine<'_>) -> Result<(), AllocError>
        ensures { IfOk result (λ _. self.new ≡ stripped (after self.old (line_said line.now))) }
    {
        let SheetLine::Track { number, .. } = line else {
            return self.section.add(alloc, line);
        };
        let ended = mem::replace(&mut self.section, Section::new(alloc));
        match self.number {
            Some(last) => self.tracks.push(Track {
                number: last,
                section: ended,
            })?,
            None => self.album = ended,
        }
        self.number = Some(*number);
        Ok(())
    }

    /// The sheet of all lines.
    pub(crate) fn finish(self) -> Result<Sheet, AllocError>
        requires { IsSheet (sheet_said self) }
        ensures { IfOk result (λ sheet. sheet ≡ sheet_said self) }
    {
        let SheetDraft {
            album,
            mut tracks,
            number,
            section,
        } = self;
        if let Some(number) = number {
            tracks.push(Track { number, section })?;
        }
        Ok(Sheet { album, tracks })
    }
}

/// The state after some lines. If memory runs out, the draft is dropped, and the later lines are still checked.
#[derive(Drop)]
pub(crate) struct SheetReader {
    pub(crate) judge: SheetJudge,
    pub(crate) draft: Option<SheetDraft>,
}

impl SheetReader {
    ghost use Rattle.cue_sheet.specs.Judging.{HasReadLines, ReadsCueLine};

    /// A reader before the first line.
    pub(crate) fn new(alloc: Global) -> SheetReader
        ensures { HasReadLines nothing_said result }
    {
        SheetReader {
            judge: SheetJudge::default(),
            draft: Some(SheetDraft {
                album: Section::new(alloc),
                tracks: Vec::new(alloc),
                number: None,
                section: Section::new(alloc),
            }),
        }
    }

    // Reads a line, or returns the first reason to refuse it.
    fn take(&mut self, alloc: Global, line: &[u8]) -> Result<(), CueWhy>
        requires { length line.now ≤ most_text_bytes }
        ensures { (said : CueState) → HasReadLines said self.old
            → ReadsCueLine said line.now self.new result }
    {
        let line = trim(line);
        if line.is_empty() {
            return Ok(());
        }
        let said = self.judge.checked(line)?;
        self.judge.add(&said);
        let kept = match &mut self.draft {
            Some(draft) => draft.add(alloc, &said),
            None => return Ok(()),
        };
        if kept.is_err() {
            self.draft = None;
        }
        Ok(())
    }

    /// Reads a whole text, or its lines up to the first refused one.
    pub(crate) fn read(&mut self, alloc: Global, text: &[u8]) -> Result<(), CueStop>
        requires size { length text.now ≤ most_text_bytes }
        requires fresh { HasReadLines nothing_said self.old }
        ensures sheet { OnOk result ((said : CueState) × HasReadLines said self.new
            × (read_cue text.now ≡ Ok (sheet_said said)) × IsSheet (sheet_said said)) }
        ensures stop { IfErr result (λ stop. IsCueAnswer (read_cue text.now) (Err stop)) }
    {
        let mut rest = without_mark(text);
        let mut number = 1u32;
        while let Some((line, after)) = next_line(rest) {
            if let Err(why) = self.take(alloc, line) {
                return Err(CueStop::Fault { line: number, why });
            }
            number += 1;
            rest = after;
        }
        match self.judge.end_reason() {
            Some(why) => Err(CueStop::Fault { line: number, why }),
            None => Ok(()),
        }
    }
}
