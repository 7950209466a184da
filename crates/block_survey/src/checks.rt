// The valid values of fields.
ghost use Rattle.std.specs.Prelude.{◌≡◌, ◌≤◌, ◌<◌, ◌↔◌, ◌||◌, All, IsTrue, MatchOption, true, take, drop};
ghost use Rattle.std.specs.Char.{is_ascii_digit, is_ascii_uppercase};
ghost use Rattle.disc_time.specs.Counts.{most_tracks, time_count};
ghost use Rattle.q_channel.specs.QFrame.{is_bcd_within, is_other, is_point};

use disc_time::{ISRC_CHARACTERS, MOST_TRACKS, Msf, TIME_COUNT, from_bcd};
use text_lines::{are_capitals, are_capitals_or_digits, are_digits};

/// The time at which a block of a disc begins. `None` for a block past the end of any disc.
pub(crate) fn time(block: u32) -> Option<Msf>
    ensures { MatchOption result (time_count ≤ block) (λ time. (time ≡ block) × (block < time_count)) }
{
    if block >= TIME_COUNT {
        return None;
    }
    Some(Msf::of_block(block))
}

pub(crate) fn is_track(number: u8) -> bool
    ensures { IsTrue result ↔ ((1 ≤ number) × (number ≤ most_tracks)) }
{
    (1..=MOST_TRACKS).contains(&number)
}

/// Whether a code is two capital letters, three capital letters or digits, and seven digits.
pub(crate) fn is_code(code: &[u8; ISRC_CHARACTERS]) -> bool
    ensures { IsTrue result ↔ All (λ c. is_ascii_uppercase c ≡ true) (take 2 code.now)
        × All (λ c. is_ascii_digit c || is_ascii_uppercase c ≡ true) (take 3 (drop 2 code.now))
        × All (λ c. is_ascii_digit c ≡ true) (drop 5 code.now) }
{
    if !are_capitals(&code[..2]) || !are_capitals_or_digits(&code[2..5]) {
        return false;
    }
    let (_, number) = code.split_at(5);
    are_digits(number)
}

/// Whether bits with this mode and these next two bytes have no fields of their own.
#[tactic(auto, unfolding(q_channel::specs::QFrame::is_other))]
pub(crate) fn is_other(mode: u8, track: u8, point: u8) -> bool
    ensures { result ≡ is_other mode track point }
{
    match mode {
        1 => track == 0xaa || (track == 0 && !is_point(point)),
        _ => !(mode == 2 || mode == 3),
    }
}

// Whether a byte is the point of an entry of the table of contents.
#[tactic(auto, unfolding(q_channel::specs::QFrame::is_point))]
fn is_point(byte: u8) -> bool
    ensures { result ≡ is_point byte }
{
    is_bcd_track(byte) || byte == 0xa0 || byte == 0xa1 || byte == 0xa2
}

#[tactic(auto, unfolding(q_channel::specs::QFrame::is_bcd_within))]
fn is_bcd_track(byte: u8) -> bool
    ensures { result ≡ is_bcd_within 1 99 byte }
{
    matches!(from_bcd(byte), Some(1..=MOST_TRACKS))
}
