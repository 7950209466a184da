// The survey of the blocks of a stream.
ghost use Rattle.std.specs.Prelude.{◌≡◌, ◌≢◌, ◌++◌, drop, length, pos};
ghost use Rattle.block_survey.specs.Rows.{survey_rows};
ghost use Rattle.ribjasper_c.specs.Conversions.{stream_form};
ghost use Rattle.ribjasper_c.specs.Surveys.{survey_answer, survey_counts, whole_blocks};

use crate::answers::{DONE, REFUSED, USAGE, WRITE_FAULT};
use crate::converting::stream_form;
use block_survey::{BlockRow, survey, unit_bytes};
use disc_time::MOST_LEAD_IN;
use raw_subcode::MOST_UNITS;

/// The report of a survey.
#[repr(C)]
#[derive(Clone, Copy)]
pub struct Surveyed {
    /// The number of whole blocks, of the lead-in and of the program.
    pub blocks: u32,
    /// The number of bytes after the last whole block.
    pub rest: u32,
}

/// Writes a row for each whole block of a stream to the front of some rows. The result is an exit status of the
/// program.
#[unsafe(no_mangle)]
pub extern "C" fn ribjasper_survey(
    stream: &[u8],
    form: u32,
    lead_in: u32,
    rows: &mut [BlockRow],
    counts: &mut Surveyed,
) -> i32
    ensures answer { result
        ≡ survey_answer form lead_in (whole_blocks (stream_form form) stream.now) (length rows.old) }
    ensures rows { result ≡ pos 0 → rows.new ≡ survey_rows (stream_form form) lead_in stream.now
        ++ drop (whole_blocks (stream_form form) stream.now) rows.old }
    ensures counts { result ≡ pos 0 → counts.new ≡ survey_counts (stream_form form) stream.now }
    ensures untouched { result ≢ pos 0 → (rows.new ≡ rows.old) × (counts.new ≡ counts.old) }
{
    if form > 2 || lead_in > MOST_LEAD_IN {
        return USAGE;
    }
    let form = stream_form(form);
    let size = unit_bytes(form);
    let blocks = stream.len() / size;
    if blocks > MOST_UNITS as usize {
        return REFUSED;
    }
    if blocks > rows.len() {
        return WRITE_FAULT;
    }
    survey(form, lead_in, stream, rows);
    *counts = Surveyed {
        blocks: blocks as u32,
        rest: (stream.len() % size) as u32,
    };
    DONE
}
