// The layout of a disc.
ghost use Rattle.std.specs.Prelude.{◌≡◌, ◌<◌, ◌≤◌, ◌+◌, ◌*◌, length, slice_index_or, IfOk};
ghost use Rattle.disc_time.specs.Counts.{most_lead_in, most_program};
ghost use Rattle.disc_time.specs.Fields.{control_values};
ghost use Rattle.q_channel.specs.QFrame.{IsValid, IsValidPoint};
ghost use Rattle.toc_model.specs.Places.{DiscLayout, audio_need, layout_of, program_blocks};
ghost use Rattle.toc_model.specs.Layout.{IsLayout, disc_entries, entry_copies, p_bit, program_frame, toc_entries, toc_frame};
ghost use Rattle.q_channel.specs.declared.frame.TocPoint.TheVariants.{First};
ghost use Rattle.toc_model.specs.Answers.{IsBlockCount};

use crate::place::{Place, gaps, places};
use cue_sheet::Sheet;
use disc_time::{CATALOGUE_DIGITS, MOST_PROGRAM, Msf, PAUSE_BLOCKS, TIME_COUNT};
use q_channel::{QFrame, TocPoint};
use std::alloc::{AllocError, Global};
use std::marker::Model;

// Each entry of the table of contents is repeated this often in a row.
const ENTRY_COPIES: u32 = 3;

// The entries for the whole disc: the first track number, the last one, and the lead-out.
const DISC_ENTRIES: usize = 3;

// One of this many program blocks may carry the catalogue number, and one its track's ISRC.
const CODE_PERIOD: u32 = 100;

// The block in each period that may carry the catalogue number.
const CATALOGUE_TURN: u32 = 49;

// The block in each period that may carry its track's ISRC.
const ISRC_TURN: u32 = 99;

/// The reason why a sheet has no layout for an audio file.
#[derive(PartialEq, Eq, Debug, Drop)]
pub enum LayoutStop {
    /// The audio is too short: the index lines need this many blocks.
    LengthShort { need: u32 },
    /// The program would have this many blocks.
    DiscTooLong { blocks: u32 },
    /// Memory ran out.
    NoMemory,
}

impl From<AllocError> for LayoutStop {
    ghost use Rattle.toc_model.specs.declared.layout.LayoutStop.TheVariants.{NoMemory};

    ghost from_gives = { λ _ e. e ≡ NoMemory };

    fn from(_error: AllocError) -> LayoutStop {
        LayoutStop::NoMemory
    }
}

/// The number of program blocks of a sheet with an audio file of `length` blocks, or the reason why it has no layout.
/// It allocates nothing.
///
/// # Errors
///
/// The errors of `Layout::from_cue` except `NoMemory`, in the same order.
pub fn count_blocks(sheet: &Sheet, length: u32) -> Result<u32, LayoutStop>
    requires { length ≤ most_program }
    ensures { IsBlockCount sheet.now length result }
{
    let last = sheet.tracks() - 1;
    let (_, time) = sheet.index(last, sheet.indices(last) - 1);
    let need = time + 1;
    if need > length {
        return Err(LayoutStop::LengthShort { need });
    }
    let blocks = PAUSE_BLOCKS + length + gaps(sheet);
    if blocks > MOST_PROGRAM {
        return Err(LayoutStop::DiscTooLong { blocks });
    }
    Ok(blocks)
}

/// The number of lead-in blocks that repeat each entry of a sheet's table of contents three times.
pub fn toc_need(sheet: &Sheet) -> u32
    ensures { result ≡ entry_copies * (length sheet.now.tracks + disc_entries) }
{
    // A law, since there are at most 99 tracks.
    sheet.tracks_are_in_order();
    ENTRY_COPIES * (sheet.tracks() as u32 + DISC_ENTRIES as u32)
}

/// The places of the tracks of a sheet on a disc.
#[derive(Drop)]
pub struct Layout {
    catalogue: Option<[u8; CATALOGUE_DIGITS]>,
    tracks: Vec<Place>,
    blocks: u32,
}

impl Model for Layout {
    ghost Value = { DiscLayout };

    ghost view = { λ l. record { catalogue = l.catalogue; tracks = l.tracks.items; blocks = l.blocks } };

    ghost invariant = { λ l. IsLayout (record {
      catalogue = l.catalogue;
      tracks = l.tracks.items;
      blocks = l.blocks;
    }) };
}

impl Layout {
    ghost use Rattle.toc_model.specs.Answers.{IsLayoutAnswer};

    /// The layout of a sheet whose audio file has `length` blocks, 75 a second, at most 449,999.
    ///
    /// # Errors
    ///
    /// `LengthShort` if an index time is not inside the audio; then `DiscTooLong` if the program has more than 449,999
    /// blocks; then `NoMemory`.
    pub fn from_cue(alloc: Global, sheet: &Sheet, length: u32) -> Result<Layout, LayoutStop>
        requires { length ≤ most_program }
        ensures { IsLayoutAnswer sheet.now length result }
    {
        count_blocks(sheet, length)?;
        Ok(Layout::of_sheet(alloc, sheet, length)?)
    }

    /// The layout of a sheet and an audio file of `length` blocks. The caller knows that there is one.
    pub fn of_sheet(alloc: Global, sheet: &Sheet, length: u32) -> Result<Layout, AllocError>
        requires need { audio_need sheet.now ≤ length }
        requires fits { program_blocks sheet.now length ≤ most_program }
        ensures { IfOk result (λ layout. layout ≡ layout_of sheet.now length) }
    {
        // A law: a layout is in order if its sheet is in order.
        sheet.tracks_are_in_order();
        let catalogue = match sheet.catalogue() {
            Some(digits) => digits.as_array().copied(),
            None => None,
        };
        Ok(Layout {
            catalogue,
            tracks: places(alloc, sheet)?,
            blocks: PAUSE_BLOCKS + length + gaps(sheet),
        })
    }

    /// The number of program blocks. The lead-out begins at the block with this number.
    pub fn blocks(&self) -> u32
        ensures blocks { result ≡ self.now.blocks }
        ensures bound { result ≤ most_program }
    {
        self.blocks
    }

    /// The frame of a program block.
    pub fn program_frame(&self, block: u32) -> QFrame
        requires { block < self.now.blocks }
        ensures frame { result ≡ program_frame self.now block }
        ensures valid { IsValid result }
    {
        let begun = self.tracks.partition_point(|place| place.begin <= block);
        let place = &self.tracks[begun - 1];
        match (block % CODE_PERIOD, self.catalogue, place.isrc) {
            (CATALOGUE_TURN, Some(digits), _) => QFrame::Catalogue {
                control: place.control,
                digits,
                frame: Msf::of_block(block).frame(),
            },
            (ISRC_TURN, _, Some(code)) if place.index_at(block) != 0 => QFrame::Isrc {
                control: place.control,
                code,
                frame: Msf::of_block(block).frame(),
            },
            _ => place.time_frame(block),
        }
    }

    /// The P bit of a program block. It is set in the pause before the music of a track, for at least two seconds.
    pub fn p_bit(&self, block: u32) -> bool
        requires { block < self.now.blocks }
        ensures { result ≡ p_bit self.now block }
    {
        let past = self
            .tracks
            .partition_point(|place| place.music_begin() <= block);
        let Some(next) = self.tracks.get(past) else {
            return false;
        };
        // The music of the next track is still to come.
        let music = next.music_begin();
        let pause = (music - next.begin).max(PAUSE_BLOCKS);
        music - pause <= block
    }

    /// The number of lead-in blocks that repeat each entry of the table of contents three times. `toc_need` computes it
    /// from a sheet.
    pub fn toc_blocks(&self) -> u32
        ensures { result ≡ entry_copies * (length self.now.tracks + disc_entries) }
    {
        ENTRY_COPIES * (self.tracks.len() as u32 + DISC_ENTRIES as u32)
    }

    /// The frame of lead-in block `l` of `n`. The lead-in ends at 00:00:00.
    pub fn toc_frame(&self, l: u32, n: u32) -> QFrame
        requires block { l < n }
        requires lead_in { n ≤ most_lead_in }
        ensures frame { result ≡ toc_frame self.now n l }
        ensures valid { IsValid result }
    {
        let (control, point) = self.entry(
            (l / ENTRY_COPIES) as usize % (self.tracks.len() + DISC_ENTRIES),
        );
        QFrame::Toc {
            control,
            point,
            time: Msf::of_block(TIME_COUNT - n + l),
        }
    }

    // An entry of the table of contents with its control bits: the tracks, the first, the last, the lead-out.
    fn entry(&self, k: usize) -> (u8, TocPoint)
        requires { k < length self.now.tracks + disc_entries }
        ensures entry { result ≡ slice_index_or (toc_entries self.now) k (0, First 0 0) }
        ensures valid { (result.0 < control_values) × IsValidPoint result.1 }
    {
        let count = self.tracks.len();
        if k < count {
            let track = &self.tracks[k];
            let number = track.number;
            let start = Msf::of_block(track.music_begin());
            return (track.control, TocPoint::Track { number, start });
        }
        let first = &self.tracks[0];
        let last = &self.tracks[count - 1];
        match k - count {
            0 => {
                let track = first.number;
                (first.control, TocPoint::First { track, kind: 0 }) // CD-DA
            }
            1 => {
                let track = last.number;
                (last.control, TocPoint::Last { track })
            }
            _ => {
                let start = Msf::of_block(self.blocks);
                (last.control, TocPoint::LeadOut { start })
            }
        }
    }
}
