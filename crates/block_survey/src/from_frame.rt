// The plain frame of a frame.
ghost use Rattle.std.specs.Prelude.{◌≡◌, ◌≤◌, ◌-◌, ◌++◌, Some, length, replicate, take};
ghost use Rattle.disc_time.specs.Fields.{catalogue_digits};
ghost use Rattle.block_survey.specs.Plain.{frame_of_plain, plain_kind, plain_of};
ghost use Rattle.q_channel.specs.declared.frame.QFrame.TheVariants.{Toc};

use crate::plain::{PlainFrame, kinds};
use disc_time::CATALOGUE_DIGITS;
use q_channel::{QFrame, TocPoint};

/// Converts a frame to a plain frame. The fields that its kind does not use are zero.
pub fn plain_of(frame: &QFrame) -> PlainFrame
    ensures exact { result ≡ plain_of frame.now }
    ensures back { frame_of_plain result ≡ Some frame.now }
{
    match frame {
        QFrame::Program {
            control,
            track,
            index,
            time,
            absolute,
        } => PlainFrame {
            track: *track,
            index: *index,
            time: time.block(),
            absolute: absolute.block(),
            ..of_kind(kinds::PROGRAM, *control)
        },
        QFrame::Toc {
            control,
            point,
            time,
        } => PlainFrame {
            time: time.block(),
            ..entry(*control, point)
        },
        QFrame::Catalogue {
            control,
            digits,
            frame,
        } => PlainFrame {
            text: *digits,
            frame: *frame,
            ..of_kind(kinds::CATALOGUE, *control)
        },
        QFrame::Isrc {
            control,
            code,
            frame,
        } => PlainFrame {
            text: text(code),
            frame: *frame,
            ..of_kind(kinds::CODE, *control)
        },
        QFrame::Other { control, adr, rest } => PlainFrame {
            mode: *adr,
            text: text(rest),
            ..of_kind(kinds::OTHER, *control)
        },
    }
}

fn entry(control: u8, point: &TocPoint) -> PlainFrame
    ensures { result ≡ plain_of (Toc control point.now 0) }
{
    match point {
        TocPoint::Track { number, start } => PlainFrame {
            track: *number,
            absolute: start.block(),
            ..of_kind(kinds::TRACK, control)
        },
        TocPoint::First { track, kind } => PlainFrame {
            track: *track,
            disc: *kind,
            ..of_kind(kinds::FIRST, control)
        },
        TocPoint::Last { track } => PlainFrame {
            track: *track,
            ..of_kind(kinds::LAST, control)
        },
        TocPoint::LeadOut { start } => PlainFrame {
            absolute: start.block(),
            ..of_kind(kinds::LEAD_OUT, control)
        },
    }
}

/// A plain frame of a kind, with zeros in all other fields.
pub(crate) fn of_kind(kind: u32, control: u8) -> PlainFrame
    ensures { result ≡ plain_kind kind control }
{
    PlainFrame {
        kind,
        time: 0,
        absolute: 0,
        control,
        mode: 0,
        track: 0,
        index: 0,
        disc: 0,
        frame: 0,
        text: [0; CATALOGUE_DIGITS],
    }
}

// Pads bytes with zeros.
fn text(bytes: &[u8]) -> [u8; CATALOGUE_DIGITS]
    requires { length bytes.now ≤ catalogue_digits }
    ensures bytes { result ≡ bytes.now ++ replicate (catalogue_digits - length bytes.now) 0 }
    ensures front { take (length bytes.now) result ≡ bytes.now }
{
    let mut text = [0; CATALOGUE_DIGITS];
    text[..bytes.len()].copy_from_slice(bytes);
    text
}
