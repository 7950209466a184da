// The fields of a row for the Q channel of a block.
ghost use Rattle.std.specs.Prelude.{◌≡◌, Some, Ok};
ghost use Rattle.q_channel.specs.declared.frame.QFrame.TheVariants.{Toc};
ghost use Rattle.block_survey.specs.Rows.{row_fields, row_kind, no_time, reading_in, row_time};
ghost use Rattle.block_survey.specs.Plain.{plain_of};

use crate::plain::kinds;
use crate::surveying::NO_TIME;
use q_channel::{QFault, QFrame, TocPoint, decode};
use raw_subcode::{BLOCK_BYTES, Block, Form};

// No frame is read: a stream of packs has no frames.
const NOT_READ: u8 = 253;

const BAD_FIELD: u8 = 254;

const BAD_CHECK: u8 = 255;

/// The fields of a row for the Q channel of a block.
#[derive(Clone, Copy)]
pub(crate) struct FrameMark {
    pub kind: u8,
    pub track: u8,
    pub index: u8,
    pub absolute: u32,
}

impl FrameMark {
    // The fields if no frame is read, and why.
    #[inline]
    fn none(kind: u8) -> FrameMark
        ensures kind { result.kind ≡ kind }
        ensures track { result.track ≡ 0 }
        ensures index { result.index ≡ 0 }
        ensures absolute { result.absolute ≡ no_time }
    {
        FrameMark {
            kind,
            track: 0,
            index: 0,
            absolute: NO_TIME,
        }
    }

    fn of_entry(kind: u8, track: u8) -> FrameMark
        ensures kind { result.kind ≡ kind }
        ensures track { result.track ≡ track }
        ensures index { result.index ≡ 0 }
        ensures absolute { result.absolute ≡ no_time }
    {
        FrameMark {
            kind,
            track,
            index: 0,
            absolute: NO_TIME,
        }
    }

    #[inline]
    fn of(frame: &QFrame) -> FrameMark
        ensures kind { result.kind ≡ (plain_of frame.now).kind }
        ensures track { result.track ≡ (plain_of frame.now).track }
        ensures index { result.index ≡ (plain_of frame.now).index }
        ensures absolute { result.absolute ≡ row_time (Some (Ok frame.now)) }
    {
        match frame {
            QFrame::Program {
                track,
                index,
                absolute,
                ..
            } => FrameMark {
                kind: kinds::PROGRAM as u8,
                track: *track,
                index: *index,
                absolute: absolute.block(),
            },
            QFrame::Toc { point, .. } => FrameMark::of_point(point),
            QFrame::Catalogue { .. } => FrameMark::none(kinds::CATALOGUE as u8),
            QFrame::Isrc { .. } => FrameMark::none(kinds::CODE as u8),
            QFrame::Other { .. } => FrameMark::none(kinds::OTHER as u8),
        }
    }

    fn of_point(point: &TocPoint) -> FrameMark
        ensures kind { result.kind ≡ (plain_of (Toc 0 point.now 0)).kind }
        ensures track { result.track ≡ (plain_of (Toc 0 point.now 0)).track }
        ensures index { result.index ≡ 0 }
        ensures absolute { result.absolute ≡ no_time }
    {
        match point {
            TocPoint::Track { number, .. } => FrameMark::of_entry(kinds::TRACK as u8, *number),
            TocPoint::First { track, .. } => FrameMark::of_entry(kinds::FIRST as u8, *track),
            TocPoint::Last { track } => FrameMark::of_entry(kinds::LAST as u8, *track),
            TocPoint::LeadOut { .. } => FrameMark::none(kinds::LEAD_OUT as u8),
        }
    }

    /// The fields for a block of a stream of this form.
    pub(crate) fn of_block(form: Form, block: &[u8; BLOCK_BYTES]) -> FrameMark
        ensures kind { result.kind ≡ row_kind (reading_in form block.now) }
        ensures track { result.track ≡ (row_fields (reading_in form block.now)).track }
        ensures index { result.index ≡ (row_fields (reading_in form block.now)).index }
        ensures absolute { result.absolute ≡ row_time (reading_in form block.now) }
    {
        match form {
            Form::Raw | Form::Sector => FrameMark::read(block),
            Form::Cooked => FrameMark::none(NOT_READ),
        }
    }

    #[inline]
    fn read(block: &[u8; BLOCK_BYTES]) -> FrameMark
        ensures kind { result.kind ≡ row_kind (reading_in Form.Raw block.now) }
        ensures track { result.track ≡ (row_fields (reading_in Form.Raw block.now)).track }
        ensures index { result.index ≡ (row_fields (reading_in Form.Raw block.now)).index }
        ensures absolute { result.absolute ≡ row_time (reading_in Form.Raw block.now) }
    {
        match decode(&Block::from_bytes(block).q_frame()) {
            Ok(frame) => FrameMark::of(&frame),
            Err(QFault::BadField { .. }) => FrameMark::none(BAD_FIELD),
            Err(QFault::BadCrc) => FrameMark::none(BAD_CHECK),
        }
    }
}
