// The frame of a plain frame.
ghost use Rattle.std.specs.Prelude.{◌≡◌, take};
ghost use Rattle.block_survey.specs.Plain.{IsValidOf, IsWhereValid};
ghost use Rattle.disc_time.specs.Fields.{isrc_characters};
ghost use Rattle.q_channel.specs.QFrame.{IsValidPoint};
ghost use Rattle.q_channel.specs.Sizes.{rest_bytes};
ghost use Rattle.q_channel.specs.declared.frame.QFrame.TheVariants.{Program, Toc, Catalogue, Isrc, Other};
ghost use Rattle.q_channel.specs.declared.frame.TocPoint.TheVariants.{Track, First, Last, LeadOut};

use crate::checks::{is_code, is_other, is_track, time};
use crate::plain::{PlainFrame, kinds};
use disc_time::{CATALOGUE_DIGITS, CONTROL_VALUES, ISRC_CHARACTERS};
use q_channel::{MODE_VALUES, QFrame, REST_BYTES, TocPoint};
use text_lines::are_digits;

/// Converts a plain frame to a frame, if its kind and fields are valid.
pub fn frame_of(plain: &PlainFrame) -> Option<QFrame>
    ensures { IsValidOf result plain.now }
{
    match plain.kind {
        kinds::PROGRAM => program(plain),
        kinds::TRACK => track(plain),
        kinds::FIRST => first(plain),
        kinds::LAST => last(plain),
        kinds::LEAD_OUT => lead_out(plain),
        kinds::CATALOGUE => catalogue(plain),
        kinds::CODE => code(plain),
        kinds::OTHER => other(plain),
        _ => None,
    }
}

fn program(plain: &PlainFrame) -> Option<QFrame>
    ensures { IsWhereValid result
        (Program plain.now.control plain.now.track plain.now.index plain.now.time plain.now.absolute) }
{
    if plain.control >= CONTROL_VALUES || !is_track(plain.track) || plain.index > 99 {
        return None;
    }
    let from_track = time(plain.time)?;
    let absolute = time(plain.absolute)?;
    Some(QFrame::Program {
        control: plain.control,
        track: plain.track,
        index: plain.index,
        time: from_track,
        absolute,
    })
}

fn track(plain: &PlainFrame) -> Option<QFrame>
    ensures { IsWhereValid result
        (Toc plain.now.control (Track plain.now.track plain.now.absolute) plain.now.time) }
{
    if !is_track(plain.track) {
        return None;
    }
    let start = time(plain.absolute)?;
    entry(
        plain,
        TocPoint::Track {
            number: plain.track,
            start,
        },
    )
}

// The entry of the first track and the kind of the disc.
fn first(plain: &PlainFrame) -> Option<QFrame>
    ensures { IsWhereValid result
        (Toc plain.now.control (First plain.now.track plain.now.disc) plain.now.time) }
{
    first_entry(plain, plain.track, plain.disc)
}

// The entry of the first track with this number, and this kind of disc.
fn first_entry(plain: &PlainFrame, track: u8, kind: u8) -> Option<QFrame>
    ensures { IsWhereValid result (Toc plain.now.control (First track kind) plain.now.time) }
{
    if !is_track(track) {
        return None;
    }
    entry(plain, TocPoint::First { track, kind })
}

fn last(plain: &PlainFrame) -> Option<QFrame>
    ensures { IsWhereValid result (Toc plain.now.control (Last plain.now.track) plain.now.time) }
{
    if !is_track(plain.track) {
        return None;
    }
    entry(plain, TocPoint::Last { track: plain.track })
}

fn lead_out(plain: &PlainFrame) -> Option<QFrame>
    ensures { IsWhereValid result (Toc plain.now.control (LeadOut plain.now.absolute) plain.now.time) }
{
    let start = time(plain.absolute)?;
    entry(plain, TocPoint::LeadOut { start })
}

fn entry(plain: &PlainFrame, point: TocPoint) -> Option<QFrame>
    requires { IsValidPoint point }
    ensures { IsWhereValid result (Toc plain.now.control point plain.now.time) }
{
    if plain.control >= CONTROL_VALUES {
        return None;
    }
    let running = time(plain.time)?;
    Some(QFrame::Toc {
        control: plain.control,
        point,
        time: running,
    })
}

// A frame with the thirteen digits of the disc.
fn catalogue(plain: &PlainFrame) -> Option<QFrame>
    ensures { IsWhereValid result (Catalogue plain.now.control plain.now.text plain.now.frame) }
{
    if plain.control >= CONTROL_VALUES || plain.frame > 74 || !are_digits(&plain.text) {
        return None;
    }
    Some(QFrame::Catalogue {
        control: plain.control,
        digits: plain.text,
        frame: plain.frame,
    })
}

// A frame with the code of a track, which is the first twelve bytes of the text.
fn code(plain: &PlainFrame) -> Option<QFrame>
    ensures { IsWhereValid result
        (Isrc plain.now.control (take isrc_characters plain.now.text) plain.now.frame) }
{
    recorded(plain, first_twelve(&plain.text))
}

// A frame with this code: two letters, three letters or digits, and seven digits.
fn recorded(plain: &PlainFrame, code: [u8; ISRC_CHARACTERS]) -> Option<QFrame>
    ensures { IsWhereValid result (Isrc plain.now.control code plain.now.frame) }
{
    if plain.control >= CONTROL_VALUES || plain.frame > 74 || !is_code(&code) {
        return None;
    }
    Some(QFrame::Isrc {
        control: plain.control,
        code,
        frame: plain.frame,
    })
}

fn first_twelve(text: &[u8; CATALOGUE_DIGITS]) -> [u8; ISRC_CHARACTERS]
    ensures { result ≡ take isrc_characters text.now }
{
    let mut first = [0; ISRC_CHARACTERS];
    first.copy_from_slice(&text[..ISRC_CHARACTERS]);
    first
}

// A frame of another mode, whose nine bytes are the first of the text.
fn other(plain: &PlainFrame) -> Option<QFrame>
    ensures { IsWhereValid result (Other plain.now.control plain.now.mode (take rest_bytes plain.now.text)) }
{
    bare(plain, &first_nine(&plain.text))
}

// A frame of another mode with these nine bytes.
fn bare(plain: &PlainFrame, rest: &[u8; REST_BYTES]) -> Option<QFrame>
    ensures { IsWhereValid result (Other plain.now.control plain.now.mode rest.now) }
{
    if plain.control >= CONTROL_VALUES
        || plain.mode >= MODE_VALUES
        || !is_other(plain.mode, rest[0], rest[1])
    {
        return None;
    }
    Some(QFrame::Other {
        control: plain.control,
        adr: plain.mode,
        rest: *rest,
    })
}

fn first_nine(text: &[u8; CATALOGUE_DIGITS]) -> [u8; REST_BYTES]
    ensures { result ≡ take rest_bytes text.now }
{
    let mut first = [0; REST_BYTES];
    first.copy_from_slice(&text[..REST_BYTES]);
    first
}
