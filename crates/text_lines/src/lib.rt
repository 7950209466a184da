//! Reads texts line by line without copies: lines, blanks, words, numbers and times.
#![tactic(auto)]

ghost use Rattle.std.specs.Prelude.{◌≡◌, ◌<◌, ◌≤◌, ◌+◌, ◌∷◌, [], length, MatchOption, IfSome, ◌==◌, ◌≢◌, ◌↔◌, drop, not, true, slice_index_or, IsNone, IsTrue, ◌^◌, ◌||◌, ℕ, All, Some};
ghost use Rattle.std.specs.List.{list_all};
ghost use Rattle.text_lines.specs.Text.{without_mark, lines_in, after_line, is_blank, without_blanks, trimmed, words_in, first_word, argument_of, number_in, two_digit_number, parsed_time};
ghost use Rattle.std.specs.Char.{is_ascii_digit, is_ascii_uppercase};
ghost use Rattle.disc_time.specs.Counts.{time_count};
ghost use Rattle.disc_time.specs.Time.{time_text};

pub use disc_time::MOST_TEXT_BYTES;
use disc_time::parse_time;

/// The text without the byte order mark EF BB BF, if it begins with one.
#[tactic(auto, unfolding(crate::specs::Text::without_mark))]
pub fn without_mark(text: &[u8]) -> &[u8]
    ensures rest { result.now ≡ without_mark text.now }
    ensures length { length result.now ≤ length text.now }
{
    if text.starts_with(&[0xef, 0xbb, 0xbf]) {
        &text[3..]
    } else {
        text
    }
}

/// The first line of a text and the text after it, or `None` for an empty text. A line ends at a line feed or at the
/// end of the text. A carriage return before the line feed does not belong to the line.
pub fn next_line(text: &[u8]) -> Option<(&[u8], &[u8])>
    ensures lines { MatchOption result (lines_in text.now ≡ [])
        (λ found. lines_in text.now ≡ found.0.now ∷ lines_in found.1.now) }
    ensures rest { IfSome result (λ found. found.1.now ≡ after_line text.now) }
    ensures shorter { MatchOption result (text.now ≡ [])
        (λ found. length found.0.now + length found.1.now ≤ length text.now) }
    ensures ends { MatchOption result (text.now ≡ []) (λ found. length found.1.now < length text.now) }
{
    if text.is_empty() {
        return None;
    }
    let Some(end) = text.iter().position(|byte| *byte == b'\n') else {
        return Some((text, &[]));
    };
    let line = match &text[..end] {
        [front @ .., b'\r'] => front,
        line => line,
    };
    Some((line, &text[end + 1..]))
}

/// Whether a byte is a space or a tab.
pub fn is_blank(byte: u8) -> bool
    ensures { result ≡ is_blank byte }
{
    byte == b' ' || byte == b'\t'
}

/// A line without leading blanks.
pub fn trim_start(line: &[u8]) -> &[u8]
    ensures rest { result.now ≡ without_blanks line.now }
    ensures trimmed { without_blanks result.now ≡ result.now }
    ensures words { words_in result.now ≡ words_in line.now }
    ensures length { length result.now ≤ length line.now }
{
    let start = line
        .iter()
        .position(|byte| !is_blank(*byte))
        .unwrap_or(line.len());
    &line[start..]
}

/// A line without leading and trailing blanks.
#[tactic(auto, unfolding(crate::specs::Text::trimmed))]
pub fn trim(line: &[u8]) -> &[u8]
    ensures rest { result.now ≡ trimmed line.now }
    ensures length { length result.now ≤ length line.now }
{
    let rest = trim_start(line);
    let mut end = rest.len();
    while end > 0 && is_blank(rest[end - 1]) {
        end -= 1;
    }
    &rest[..end]
}

/// The first word of a trimmed line, and its argument: the rest after this word and the blanks that follow
/// it.
pub fn split_command(line: &[u8]) -> (&[u8], &[u8])
    ensures word { result.0.now ≡ first_word line.now }
    ensures argument { result.1.now ≡ argument_of line.now }
    ensures length { length result.0.now + length result.1.now ≤ length line.now }
{
    let (word, after) = split_word(line);
    (word, trim_start(after))
}

/// The first word of a line and the rest of the line, or `None` if the line has no word.
pub fn next_word(line: &[u8]) -> Option<(&[u8], &[u8])>
    ensures words { MatchOption result (words_in line.now ≡ [])
        (λ found. words_in line.now ≡ found.0.now ∷ words_in found.1.now) }
    ensures rest { IfSome result
        (λ found. found.1.now ≡ drop (length found.0.now) (without_blanks line.now)) }
    ensures shorter { MatchOption result (words_in line.now ≡ [])
        (λ found. (0 < length found.0.now) × (length found.0.now + length found.1.now ≤ length line.now)) }
{
    let line = trim_start(line);
    if line.is_empty() {
        return None;
    }
    Some(split_word(line))
}

/// The rest of a trimmed line after a word, if that word is the line's first one.
#[inline]
pub fn after_word<'a>(line: &'a [u8], word: &[u8]) -> Option<&'a [u8]>
    requires trimmed { without_blanks line.now ≡ line.now }
    requires some { 0 < length word.now }
    requires whole { list_all (λ b. not (is_blank b)) word.now ≡ true }
    ensures words { IfSome result (λ rest. words_in line.now ≡ word.now ∷ words_in rest.now) }
    ensures rest { IfSome result (λ rest. rest.now ≡ drop (length word.now) line.now) }
    ensures none { IsNone result → slice_index_or (words_in line.now) 0 [] ≢ word.now }
{
    if line.len() < word.len() {
        return None;
    }
    // A loop is faster than a call, since words are short.
    for i in 0..word.len() {
        if line[i] != word[i] {
            return None;
        }
    }
    let (_, rest) = line.split_at(word.len());
    if !rest.is_empty() && !is_blank(rest[0]) {
        return None;
    }
    Some(rest)
}

// The bytes before the first blank, and the rest from that blank on.
fn split_word(line: &[u8]) -> (&[u8], &[u8])
    ensures word { result.0.now ≡ first_word line.now }
    ensures rest { result.1.now ≡ drop (length result.0.now) line.now }
    ensures length { length result.0.now + length result.1.now ≡ length line.now }
{
    let end = line
        .iter()
        .position(|byte| is_blank(*byte))
        .unwrap_or(line.len());
    line.split_at(end)
}

/// The value of a word of decimal digits, if their number is within the limits.
#[tactic(auto, unfolding(crate::specs::Text::number_in))]
pub fn number(word: &[u8], least: usize, most: usize) -> Option<u32>
    requires { most ≤ 9 }
    ensures value { result ≡ number_in least most word.now }
    ensures bound { IfSome result (λ n. n < 10 ^ most) }
{
    if word.len() < least || word.len() > most {
        return None;
    }
    let mut value = 0u32;
    for byte in word {
        if !byte.is_ascii_digit() {
            return None;
        }
        value = 10 * value + u32::from(*byte - b'0');
    }
    Some(value)
}

/// The value of a word of two decimal digits.
#[tactic(auto, unfolding(crate::specs::Text::two_digit_number))]
pub fn two_digits(word: &[u8]) -> Option<u8>
    ensures value { result ≡ two_digit_number word.now }
    ensures bound { IfSome result (λ n. n ≤ 99) }
{
    let value = number(word, 2, 2)?;
    Some(value as u8)
}

/// The block of a time `MM:SS:FF`, if each part is in its range. It is below 450,000.
pub fn time(word: &[u8]) -> Option<u32>
    ensures value { result ≡ parsed_time word.now }
    ensures written { IfSome result (λ block. word.now ≡ time_text block) }
    ensures all { (block : ℕ) → block < time_count → word.now ≡ time_text block → result ≡ Some block }
    ensures bound { IfSome result (λ block. block < time_count) }
{
    parse_time(word)
}

/// Whether all bytes are decimal digits.
pub fn are_digits(text: &[u8]) -> bool
    ensures all { result ≡ list_all is_ascii_digit text.now }
    ensures each { IsTrue result ↔ All (λ c. is_ascii_digit c ≡ true) text.now }
{
    text.iter().all(|byte| byte.is_ascii_digit())
}

/// Whether all bytes are capital letters of ASCII.
pub fn are_capitals(text: &[u8]) -> bool
    ensures all { result ≡ list_all is_ascii_uppercase text.now }
    ensures each { IsTrue result ↔ All (λ c. is_ascii_uppercase c ≡ true) text.now }
{
    text.iter().all(|byte| byte.is_ascii_uppercase())
}

/// Whether all bytes are capital letters of ASCII or decimal digits.
pub fn are_capitals_or_digits(text: &[u8]) -> bool
    ensures all { result ≡ list_all (λ c. is_ascii_digit c || is_ascii_uppercase c) text.now }
    ensures each { IsTrue result ↔ All (λ c. is_ascii_digit c || is_ascii_uppercase c ≡ true) text.now }
{
    text.iter()
        .all(|byte| byte.is_ascii_digit() || byte.is_ascii_uppercase())
}
