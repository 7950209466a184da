// The survey of the blocks of a stream.
ghost use Rattle.std.specs.Prelude.{◌≡◌, ◌≢◌, ◌/◌, ◌++◌, ◌||◌, nat_lt, if◌then◌else◌, drop, length, pos};
ghost use Rattle.block_survey.specs.Rows.{survey_rows};
ghost use Rattle.disc_time.specs.Counts.{most_lead_in};
ghost use Rattle.raw_subcode.specs.Channels.{unit_size};
ghost use Rattle.live_player.specs.Plain.{numbered_form};

use block_survey::{BlockRow, survey, unit_bytes};
use disc_time::MOST_LEAD_IN;
use live_player::form_of;

/// Writes a row for each whole block of a stream to the front of some rows. Returns 0; or 2 if the form is
/// above 2 or the lead-in above 450,000 blocks, or 6 if there are fewer rows than blocks. Unless the result
/// is 0, nothing is written.
#[unsafe(no_mangle)]
pub extern "C" fn ribjasper_web_survey(
    stream: &[u8],
    form: u32,
    lead_in: u32,
    rows: &mut [BlockRow],
) -> i32
    ensures answer { result ≡ (if nat_lt 2 form || nat_lt most_lead_in lead_in then pos 2
        else (if nat_lt (length rows.old) (length stream.now / unit_size (numbered_form form)) then pos 6
        else pos 0)) }
    ensures rows { result ≡ pos 0 → rows.new ≡ survey_rows (numbered_form form) lead_in stream.now
        ++ drop (length stream.now / unit_size (numbered_form form)) rows.old }
    ensures untouched { result ≢ pos 0 → rows.new ≡ rows.old }
{
    if form > 2 || lead_in > MOST_LEAD_IN {
        return 2;
    }
    let form = form_of(form);
    if rows.len() < stream.len() / unit_bytes(form) {
        return 6;
    }
    survey(form, lead_in, stream, rows);
    0
}
