// Frames of the program, which most blocks have. Their fields are tested without the table of ranges, and the
// digits of the frame are copied into the line.
ghost use Rattle.std.specs.Prelude.{◌≡◌, ◌≤◌, ◌+◌, ◌/◌, ◌%◌, ◌++◌, ◌∷◌, [], true, None, Ok, length, take, drop};
ghost use Rattle.bit_lists.specs.Bits.{bits_of_bytes};
ghost use Rattle.q_channel.specs.QFrame.{field_value, is_bcd_within};
ghost use Rattle.q_channel.specs.QLine.{q_line};
ghost use Rattle.q_channel.specs.QReading.{first_outside, program_ranges};
ghost use Rattle.q_channel.specs.ReadingOf.{reading_of};
ghost use Rattle.q_channel.specs.Kinds.{frame_at};
ghost use Rattle.q_channel.specs.Sizes.{frame_bits};

use crate::Message;
use crate::frame::{CHECK_BITS, FIELD_BITS, FIELD_BYTES, FRAME_BYTES};
use crate::kinds::{Kind, is_bcd_within};
use crate::lines::{digit, six_digits};
use bit_lists::crc16;

/// The number of bytes in the line of a frame of the program. Each part of this line has a fixed width.
pub(crate) const PROGRAM_LINE: usize = 49;

pub(crate) fn is_program_frame(bytes: &[u8; FRAME_BYTES]) -> bool
    ensures reading { result ≡ true
        → reading_of (bits_of_bytes bytes.now) ≡ Ok (frame_at Kind.ProgramFrame (bits_of_bytes bytes.now)) }
    ensures ranges { result ≡ true → first_outside (bits_of_bytes bytes.now) program_ranges ≡ None }
{
    let message = Message::of_frame(bytes);
    if message.field(FIELD_BITS, CHECK_BITS) != crc16(&bytes[..FIELD_BYTES]) {
        return false;
    }
    let kind = Kind::of(message.field(4, 4), message.byte(8), message.byte(16));
    match kind {
        Kind::ProgramFrame => has_program_fields(&message),
        _ => false,
    }
}

/// Whether the fields of a frame of the program are in their ranges. Clauses use only the result `true`.
#[inline]
#[tactic(auto, using(crate::proofs::Ranges::program_within))]
pub(crate) fn has_program_fields(message: &Message) -> bool
    requires size { length message.now ≡ frame_bits }
    ensures { result ≡ true → first_outside message.now program_ranges ≡ None }
{
    has_track_and_index(message)
        && has_time(message, 24)
        && message.byte_of_frame(48) == 0
        && has_time(message, 56)
}

// Whether the first two fields are a track and an index in their ranges.
#[inline]
fn has_track_and_index(message: &Message) -> bool
    requires size { length message.now ≡ frame_bits }
    ensures track { result ≡ true → is_bcd_within 1 99 (field_value message.now 8 8) ≡ true }
    ensures index { result ≡ true → is_bcd_within 0 99 (field_value message.now 16 8) ≡ true }
{
    is_bcd_within(message.byte_of_frame(8), 1, 99)
        && is_bcd_within(message.byte_of_frame(16), 0, 99)
}

// Whether a time in its range begins at a bit.
#[inline]
fn has_time(message: &Message, first: u8) -> bool
    requires size { length message.now ≡ frame_bits }
    requires within { first ≤ 72 }
    ensures minute { result ≡ true → is_bcd_within 0 99 (field_value message.now first 8) ≡ true }
    ensures second { result ≡ true → is_bcd_within 0 59 (field_value message.now (first + 8) 8) ≡ true }
    ensures frame { result ≡ true → is_bcd_within 0 74 (field_value message.now (first + 16) 8) ≡ true }
{
    is_bcd_within(message.byte_of_frame(first), 0, 99)
        && is_bcd_within(message.byte_of_frame(first + 8), 0, 59)
        && is_bcd_within(message.byte_of_frame(first + 16), 0, 74)
}

/// The line of a block with a frame of the program.
pub(crate) fn program_line(block: u32, bytes: &[u8; FRAME_BYTES]) -> [u8; PROGRAM_LINE]
    requires ranges { first_outside (bits_of_bytes bytes.now) program_ranges ≡ None }
    ensures { result ≡ q_line block (Ok (frame_at Kind.ProgramFrame (bits_of_bytes bytes.now))) }
{
    let message = Message::of_frame(bytes);
    // Each digit has a fixed place.
    let mut text = *b"000000 0 track 00 index 00 00:00:00 abs 00:00:00\n";
    put(&mut text, 0, &six_digits(block));
    put(&mut text, 7, &[digit(message.field(0, 4) as u8)]);
    put(&mut text, 15, &digits_of(message.byte_of_frame(8)));
    put(&mut text, 24, &digits_of(message.byte_of_frame(16)));
    put(&mut text, 27, &digits_of(message.byte_of_frame(24)));
    put(&mut text, 30, &digits_of(message.byte_of_frame(32)));
    put(&mut text, 33, &digits_of(message.byte_of_frame(40)));
    put(&mut text, 40, &digits_of(message.byte_of_frame(56)));
    put(&mut text, 43, &digits_of(message.byte_of_frame(64)));
    put(&mut text, 46, &digits_of(message.byte_of_frame(72)));
    text
}

// The ASCII digits of a byte of two decimal digits.
#[inline]
fn digits_of(byte: u8) -> [u8; 2]
    ensures { result ≡ (48 + byte / 16) ∷ (48 + byte % 16) ∷ [] }
{
    [b'0' + byte / 16, b'0' + byte % 16]
}

// Writes characters at a place of a line.
#[inline]
fn put(text: &mut [u8; PROGRAM_LINE], at: usize, characters: &[u8])
    requires { at + length characters.now ≤ length text.old }
    ensures { text.new ≡ take at text.old ++ characters.now ++ drop (at + length characters.now) text.old }
{
    text[at..at + characters.len()].copy_from_slice(characters);
}
