// Lines, words and times of small texts, bytes of two decimal digits and a check, whose values are known.
ghost use Rattle.std.specs.Prelude.{◌≡◌, ◌<◌, length, not, true};
ghost use Rattle.std.specs.List.{list_all};
ghost use Rattle.text_lines.specs.Text.{is_blank};

use bit_lists::crc16;
use disc_time::{Msf, from_bcd, parse_time, to_bcd};
use text_lines::{
    after_word, next_line, next_word, number, split_command, time, trim, trim_start, two_digits,
    without_mark,
};

fn is_text(found: &[u8], wanted: &[u8]) -> bool {
    found == wanted
}

// Whether a text begins with this line, and this text follows it.
fn begins_with_line(text: &[u8], line: &[u8], rest: &[u8]) -> bool {
    match next_line(text) {
        Some((found, after)) => found == line && after == rest,
        None => false,
    }
}

#[test]
fn lines_of_a_text(rt: HostRuntime) {
    assert!(rt; begins_with_line(without_mark(b"\xef\xbb\xbfa\r\nb\r"), b"a", b"b\r"));
    assert!(rt; begins_with_line(b"b\r", b"b\r", b""));
    assert!(rt; next_line(b"").is_none());
}

// Whether a line has this command, and these arguments.
fn has_command(line: &[u8], command: &[u8], arguments: &[u8]) -> bool {
    let (found, after) = split_command(line);
    found == command && after == arguments
}

#[test]
fn words_of_a_line(rt: HostRuntime) {
    assert!(rt; is_text(trim(b" \ta b\t "), b"a b"));
    assert!(rt; is_text(trim_start(b"  a "), b"a "));
    assert!(rt; has_command(b"a \tb c", b"a", b"b c"));
}

// Whether this is the next word of a line, and this text follows it.
fn has_next_word(line: &[u8], word: &[u8], rest: &[u8]) -> bool {
    match next_word(line) {
        Some((found, after)) => found == word && after == rest,
        None => false,
    }
}

#[test]
fn next_words(rt: HostRuntime) {
    assert!(rt; has_next_word(b" ab c", b"ab", b" c"));
    assert!(rt; next_word(b" \t").is_none());
}

// Whether this is the first word of a line, and this text follows it.
fn has_first_word(line: &[u8], word: &[u8], rest: &[u8]) -> bool
    requires some { 0 < length word.now }
    requires whole { list_all (λ b. not (is_blank b)) word.now ≡ true }
{
    match after_word(trim_start(line), word) {
        Some(after) => after == rest,
        None => false,
    }
}

fn lacks_first_word(line: &[u8], word: &[u8]) -> bool
    requires some { 0 < length word.now }
    requires whole { list_all (λ b. not (is_blank b)) word.now ≡ true }
{
    after_word(trim_start(line), word).is_none()
}

// A word is the first word of a line only if a blank or the end of the line follows it.
#[test]
fn first_words(rt: HostRuntime) {
    assert!(rt; has_first_word(b" ab c", b"ab", b" c"));
    assert!(rt; lacks_first_word(b" ab c", b"a"));
    assert!(rt; lacks_first_word(b" ab c", b"b"));
    assert!(rt; has_first_word(b"ab", b"ab", b""));
    assert!(rt; lacks_first_word(b"ab", b"abc"));
    assert!(rt; lacks_first_word(b" ", b"ab"));
}

fn is_time(text: &[u8], block: u32) -> bool {
    time(text) == Some(block)
}

fn is_no_time(text: &[u8]) -> bool {
    time(text).is_none()
}

#[test]
fn numbers_and_times(rt: HostRuntime) {
    assert!(rt; number(b"288", 1, 3) == Some(288));
    assert!(rt; number(b"1000", 1, 3).is_none());
    assert!(rt; two_digits(b"07") == Some(7));
    assert!(rt; is_time(b"00:02:00", 150) && is_time(b"99:59:74", 449_999));
    assert!(rt; is_no_time(b"00:60:00") && is_no_time(b"00:00:75") && is_no_time(b"0:00:00"));
}

// The check of the ASCII digits 1 to 9 is that of the catalogue of checks (CRC-16/GSM).
#[test]
fn checks(rt: HostRuntime) {
    assert!(rt; crc16(b"123456789") == 0xce3c);
    assert!(rt; crc16(&[0; 10]) == 0xffff);
}

// Whether the command line reads this text as the time of this block.
fn is_parsed(text: &[u8], block: u32) -> bool {
    parse_time(text) == Some(block)
}

fn is_not_parsed(text: &[u8]) -> bool {
    parse_time(text).is_none()
}

#[test]
fn times(rt: HostRuntime) {
    assert!(rt; is_parsed(b"00:00:00", 0) && is_parsed(b"00:02:00", 150));
    assert!(rt; is_parsed(b"99:59:74", 449_999));
    assert!(rt; is_not_parsed(b"00:60:00") && is_not_parsed(b"00:00:75"));
    assert!(rt; is_not_parsed(b"0:00:00") && is_not_parsed(b"00:02:000"));
    assert!(rt; is_not_parsed(b"00.02:00"));
}

#[test]
fn parts_of_a_time(rt: HostRuntime) {
    let end = Msf::of_block(449_999);
    assert!(rt; [end.min(), end.sec(), end.frame()] == [99, 59, 74] && end.text() == *b"99:59:74");
    assert!(rt; Msf::new(0, 2, 0) == Some(Msf::of_block(150)));
    assert!(rt; Msf::new(0, 60, 0).is_none());
}

#[test]
fn decimal_bytes(rt: HostRuntime) {
    assert!(rt; to_bcd(74) == 0x74 && disc_time::two_digits(7) == *b"07");
    assert!(rt; from_bcd(0x74) == Some(74));
    assert!(rt; from_bcd(0x1a).is_none() && from_bcd(0xa0).is_none());
}
