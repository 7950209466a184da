// A cue sheet and its readers.
ghost use Rattle.std.specs.Prelude.{◌≡◌, ◌≤◌, ◌<◌, All, IfSome, IsTrue, List, Ok, length, option_copied, ℕ};
ghost use Rattle.disc_time.specs.Counts.{most_tracks, time_count};
ghost use Rattle.disc_time.specs.Fields.{control_values};
ghost use Rattle.text_lines.specs.Text.{most_text_bytes};
ghost use Rattle.cue_sheet.specs.CueSheet.{CueSheet, IsSheet, IsText, is_capital_code, is_catalogue_number, track_of, text_at, index_line_of};
ghost use Rattle.cue_sheet.specs.Grammar.{read_cue};
ghost use Rattle.cue_sheet.specs.SheetBytes.{HasByteTexts};
ghost use Rattle.cue_sheet.specs.Views.{sheet_value};

use crate::fault::{CueStop, CueText};
use crate::reader::{Section, SheetReader, Track};
use std::alloc::Global;
use std::marker::Model;

/// The contents of a cue sheet: an album and its 1 to 99 tracks.
#[derive(Drop)]
pub struct Sheet {
    pub(crate) album: Section,
    pub(crate) tracks: Vec<Track>,
}

impl Model for Sheet {
    ghost Value = { CueSheet };

    ghost view = { λ s. sheet_value s.album s.tracks.items };

    ghost invariant = { λ s. IsSheet (sheet_value s.album s.tracks.items) };
}

impl Sheet {
    ghost use Rattle.cue_sheet.specs.Answers.{IsCueAnswer};

    /// The sheet of a text, or its first refused line. The text is read once, and only the texts that the sheet keeps
    /// are copied. `NoMemory` is returned only if no line is refused.
    pub fn parse(alloc: Global, text: &[u8]) -> Result<Sheet, CueStop>
        requires { length text.now ≤ most_text_bytes }
        ensures { IsCueAnswer (read_cue text.now) result }
    {
        let mut reader = SheetReader::new(alloc);
        reader.read(alloc, text)?;
        match reader.draft {
            Some(draft) => Ok(draft.finish()?),
            None => Err(CueStop::NoMemory),
        }
    }

    /// The number of tracks, 1 to 99.
    pub fn tracks(&self) -> usize
        ensures count { result ≡ length self.now.tracks }
        ensures sheet { IsSheet self.now }
    {
        self.tracks.len()
    }

    /// A law: the tracks of every sheet are in order, and their values are in range.
    pub fn tracks_are_in_order(&self)
        ensures { IsSheet self.now }
    {
        let _album = &self.album;
    }

    /// The first track's number, 1 to 99.
    pub fn first(&self) -> u8
        ensures number { result ≡ (track_of self.now 0).number }
        ensures bound { (1 ≤ result) × (result ≤ most_tracks) }
    {
        self.tracks[0].number
    }

    /// The catalogue number, 13 ASCII digits.
    pub fn catalogue(&self) -> Option<&[u8]>
        ensures number { option_copied result ≡ self.now.catalogue }
        ensures digits { IfSome result (λ number. IsTrue (is_catalogue_number number.now)) }
    {
        match &self.album.catalogue {
            Some(digits) => Some(digits),
            None => None,
        }
    }

    /// A text of the album (place 0) or of the k-th track (place k, from 1). It is empty if the sheet has none. It has
    /// at most 64 MiB, no byte below 20 hexadecimal and no byte 7F.
    pub fn text(&self, kind: CueText, place: usize) -> &[u8]
        requires { place ≤ length self.now.tracks }
        ensures text { result.now ≡ text_at kind self.now place }
        ensures plain { IsText result.now }
    {
        if place == 0 {
            return self.album.text(kind);
        }
        self.tracks[place - 1].section.text(kind)
    }

    /// The ISRC of track k, from 0: two capital letters, three capital letters or digits, and seven digits, in ASCII.
    pub fn isrc(&self, k: usize) -> Option<&[u8]>
        requires { k < length self.now.tracks }
        ensures code { option_copied result ≡ (track_of self.now k).isrc }
        ensures characters { IfSome result (λ code. IsTrue (is_capital_code code.now)) }
    {
        match &self.tracks[k].section.isrc {
            Some(code) => Some(code),
            None => None,
        }
    }

    /// The control bits of track k, counted from 0: 8 four channels, 2 copying permitted, 1 pre-emphasis.
    pub fn control(&self, k: usize) -> u8
        requires { k < length self.now.tracks }
        ensures control { result ≡ (track_of self.now k).control }
        ensures bound { result < control_values }
    {
        self.tracks[k].section.control.unwrap_or(0)
    }

    /// The length of the gap before track k, counted from 0, in blocks, 75 a second: below 450,000.
    pub fn pregap(&self, k: usize) -> u32
        requires { k < length self.now.tracks }
        ensures gap { result ≡ (track_of self.now k).pregap }
        ensures bound { result < time_count }
    {
        self.tracks[k].section.pregap.unwrap_or(0)
    }

    /// The length of the gap after track k, counted from 0, in blocks, 75 a second: below 450,000.
    pub fn postgap(&self, k: usize) -> u32
        requires { k < length self.now.tracks }
        ensures gap { result ≡ (track_of self.now k).postgap }
        ensures bound { result < time_count }
    {
        self.tracks[k].section.postgap.unwrap_or(0)
    }

    /// The number of index lines of track k, counted from 0: 1 to 100.
    pub fn indices(&self, k: usize) -> usize
        requires { k < length self.now.tracks }
        ensures count { result ≡ length (track_of self.now k).indices }
        ensures some { 1 ≤ result }
    {
        self.tracks[k].section.indices.len()
    }

    /// The number, 0 to 99, and the file time of index line j of track k, both counted from 0. The time is in blocks,
    /// 75 a second, below 450,000.
    pub fn index(&self, k: usize, j: usize) -> (u8, u32)
        requires track { k < length self.now.tracks }
        requires line { j < length (track_of self.now k).indices }
        ensures line { result ≡ index_line_of (track_of self.now k) j }
        ensures bound { (result.0 ≤ 99) × (result.1 < time_count) }
    {
        self.tracks[k].section.indices[j]
    }
}

/// A law: every accepted sheet is in order, and the sheet of a text of bytes has texts of bytes.
pub fn accepted_sheets_are_in_order()
    ensures order { (text : List ℕ) (sheet : CueSheet) → length text ≤ most_text_bytes
        → read_cue text ≡ Ok sheet → IsSheet sheet }
    ensures texts { (text : List ℕ) (sheet : CueSheet) → All (λ byte. byte < 256) text
        → length text ≤ most_text_bytes
        → read_cue text ≡ Ok sheet → HasByteTexts sheet }
{}
