// The places of a sheet's tracks on the disc.
ghost use Rattle.std.specs.Prelude.{◌≡◌, ◌<◌, ◌≤◌, ◌+◌, ◌*◌, length, map, IfOk};
ghost use Rattle.disc_time.specs.Counts.{most_tracks, time_count, most_program};
ghost use Rattle.toc_model.specs.Places.{TrackPlace, audio_need, pregaps_to, postgaps_to, place_of, program_blocks};
ghost use Rattle.toc_model.specs.Layout.{IsPlace, music_begin, index_at, time_frame};
ghost use Rattle.q_channel.specs.QFrame.{IsValid};
ghost use Rattle.bit_lists.specs.Counting.{below};

use cue_sheet::Sheet;
use disc_time::{ISRC_CHARACTERS, Msf, PAUSE_BLOCKS};
use q_channel::QFrame;
use std::alloc::{AllocError, Global};
use std::marker::Model;

/// A track on the disc. `lines` has the number and the block of each index line.
#[derive(Drop)]
pub(crate) struct Place {
    pub(crate) number: u8,
    pub(crate) control: u8,
    pub(crate) isrc: Option<[u8; ISRC_CHARACTERS]>,
    pub(crate) begin: u32,
    pub(crate) lines: Vec<(u8, u32)>,
}

impl Model for Place {
    ghost Value = { TrackPlace };

    ghost view = { λ p. record {
      number = p.number;
      control = p.control;
      isrc = p.isrc;
      begin = p.begin;
      lines = p.lines.items;
    } };

    ghost invariant = { λ p. IsPlace (record {
      number = p.number;
      control = p.control;
      isrc = p.isrc;
      begin = p.begin;
      lines = p.lines.items;
    }) };
}

impl Place {
    /// The block at which index 01 begins.
    pub(crate) fn music_begin(&self) -> u32
        ensures block { result ≡ music_begin self.now }
        ensures place { IsPlace self.now }
        ensures bound { result < time_count }
    {
        let one = usize::from(1 - self.lines[0].0);
        self.lines[one].1
    }

    /// The number of the index line in which a block of the track lies, 0 before the first one.
    pub(crate) fn index_at(&self, block: u32) -> u8
        ensures index { result ≡ index_at self.now block }
        ensures bound { result ≤ 99 }
    {
        let begun = self.lines.partition_point(|line| line.1 <= block);
        if begun == 0 {
            return 0;
        }
        self.lines[begun - 1].0
    }

    /// The frame with the time of a block of the track.
    pub(crate) fn time_frame(&self, block: u32) -> QFrame
        requires { block < time_count }
        ensures frame { result ≡ time_frame self.now block }
        ensures valid { IsValid result }
    {
        let music = self.music_begin();
        let time = if block < music {
            music - block
        } else {
            block - music
        };
        QFrame::Program {
            control: self.control,
            track: self.number,
            index: self.index_at(block),
            time: Msf::of_block(time),
            absolute: Msf::of_block(block),
        }
    }
}

/// The lengths of all gaps, in blocks.
pub(crate) fn gaps(sheet: &Sheet) -> u32
    ensures sum { result ≡ pregaps_to sheet.now (length sheet.now.tracks) + postgaps_to sheet.now
        (length sheet.now.tracks) }
    ensures bound { result ≤ 2 * most_tracks * time_count }
{
    let mut sum = 0;
    for k in 0..sheet.tracks() {
        sum += sheet.pregap(k) + sheet.postgap(k);
    }
    sum
}

// The place of track k, after `gaps` blocks of gaps.
fn track_place(alloc: Global, sheet: &Sheet, k: usize, gaps: u32) -> Result<Place, AllocError>
    requires track { k < length sheet.now.tracks }
    requires gaps { gaps ≡ pregaps_to sheet.now k + postgaps_to sheet.now k }
    requires fits { program_blocks sheet.now (audio_need sheet.now) ≤ most_program }
    requires small { gaps ≤ most_program }
    ensures { IfOk result (λ p. p ≡ place_of sheet.now k) }
{
    // A law: the numbers of tracks are consecutive and at most 99.
    sheet.tracks_are_in_order();
    let isrc = match sheet.isrc(k) {
        Some(code) => code.as_array().copied(),
        None => None,
    };
    let begin = if k == 0 {
        0
    } else {
        PAUSE_BLOCKS + gaps + sheet.index(k, 0).1
    };
    let before = PAUSE_BLOCKS + gaps + sheet.pregap(k);
    let count = sheet.indices(k);
    let mut lines = Vec::with_capacity(alloc, count)?;
    for j in 0..count {
        let (number, time) = sheet.index(k, j);
        lines.push((number, before + time))?;
    }
    Ok(Place {
        number: sheet.first() + k as u8,
        control: sheet.control(k),
        isrc,
        begin,
        lines,
    })
}

/// The places of all tracks in order.
pub(crate) fn places(alloc: Global, sheet: &Sheet) -> Result<Vec<Place>, AllocError>
    requires fits { program_blocks sheet.now (audio_need sheet.now) ≤ most_program }
    ensures { IfOk result (λ v. v.items ≡ map (place_of sheet.now) (below (length sheet.now.tracks))) }
{
    let count = sheet.tracks();
    let mut places = Vec::with_capacity(alloc, count)?;
    let mut gaps = 0;
    for k in 0..count {
        places.push(track_place(alloc, sheet, k, gaps)?)?;
        gaps += sheet.pregap(k) + sheet.postgap(k);
    }
    Ok(places)
}
