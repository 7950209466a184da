// The commands of a script: the reader accepts a line, or refuses it with the first reason.
ghost use Rattle.std.specs.Prelude.{◌≡◌, ◌<◌, ◌+◌, ◌&&◌, List, Some, Err, IfOk, IfErr, nat_le, nat_lt, ◌≢◌, ◌∷◌, [], length, MatchOption, None, if◌then◌else◌, IfSome, All, map, true};
ghost use Rattle.picture_script.specs.Script.{Drawing, Rect, Colour, Row, Show};
ghost use Rattle.text_lines.specs.Text.{words_in, without_blanks, is_some_bytes};
ghost use Rattle.picture_script.specs.ScriptGrammar.{is_in_range, checked_line, checked_words, colour_line, border_line, fill_line, rect_line, row_line, show_line, IsColourNumber, IsWrongAs, small_number, numbers_in, colour_in};
ghost use Rattle.picture_script.specs.Reader.{Followed, Takes};
ghost use Rattle.picture_script.specs.Sizes.{small_number_values};
ghost use Rattle.cdg_instructions.specs.Sizes.{window_height, window_width, colour_values};
ghost use Rattle.disc_time.specs.Counts.{time_count};
ghost use Rattle.std.specs.Char.{is_ascii_hexdigit, digit_value};
ghost use Rattle.std.specs.List.{list_all};

use crate::reader::ScriptReader;
use crate::reasons::ScriptWhy;
use crate::script::{MOST_PICTURES, ScriptLine};
use cdg_instructions::{COLOURS, WINDOW_HEIGHT, WINDOW_WIDTH};
use text_lines::{after_word, next_word, number, time};

// The value of a word of one to three decimal digits.
fn small_number(word: &[u8]) -> Option<u16>
    ensures value { result ≡ small_number word.now }
    ensures below { IfSome result (λ n. n < small_number_values) }
{
    let value = number(word, 1, 3)?;
    Some(value as u16)
}

/// The numbers in the words of a line, if it has exactly `N` words.
pub(crate) fn numbers<const N: usize>(line: &[u8]) -> Option<[u16; N]>
    ensures value { result ≡ numbers_in N (words_in line.now) }
    ensures count { IfSome result (λ xs. length xs ≡ N) }
    ensures below { IfSome result (All (λ n. n < small_number_values)) }
{
    let mut numbers = [0; N];
    let mut rest = line;
    for i in 0..N {
        let (word, after) = next_word(rest)?;
        numbers[i] = small_number(word)?;
        rest = after;
    }
    match next_word(rest) {
        Some(_) => None,
        None => Some(numbers),
    }
}

/// The value of a hexadecimal digit, in upper or lower case.
pub(crate) fn hex_digit(byte: u8) -> Option<u8>
    ensures value { result ≡ (if is_ascii_hexdigit byte then Some (digit_value byte) else None) }
    ensures below { IfSome result (λ d. d < 16) }
{
    let mut value = [0];
    match hex::decode_to_slice([b'0', byte], &mut value) {
        Ok(()) => Some(value[0]),
        Err(_) => None,
    }
}

// The colour in a word of four hexadecimal digits. The first digit is 0.
#[tactic(auto, unfolding(crate::specs::ScriptGrammar::colour_in))]
fn colour(word: &[u8]) -> Option<u16>
    ensures value { result ≡ colour_in word.now }
    ensures below { IfSome result (λ value. value < colour_values) }
{
    if word.len() != 4 || word[0] != b'0' {
        return None;
    }
    let mut bytes = [0; 2];
    match hex::decode_to_slice(word, &mut bytes) {
        Ok(()) => Some(u16::from_be_bytes(bytes)),
        Err(_) => None,
    }
}

// Whether a word is one or more hexadecimal digits.
fn is_pixels(word: &[u8]) -> bool
    ensures { result ≡ (is_some_bytes word.now && list_all is_ascii_hexdigit word.now) }
{
    !word.is_empty() && word.iter().all(|byte| byte.is_ascii_hexdigit())
}

/// The number and the value of a `colour` line.
pub(crate) fn colour_words(words: &[u8]) -> Option<(u16, u16)>
    ensures value { MatchOption result (colour_line (words_in words.now) ≡ None)
        (λ said. colour_line (words_in words.now) ≡ Some (Colour said.0 said.1)) }
    ensures below { IfSome result (λ said. said.1 < colour_values) }
{
    let (number_word, colour_word) = two_words(words)?;
    let number = small_number(number_word)?;
    let value = colour(colour_word)?;
    Some((number, value))
}

/// The place and the digits of a `row` line.
pub(crate) fn row_words(words: &[u8]) -> Option<(u16, u16, &[u8])>
    ensures value { MatchOption result (row_line (words_in words.now) ≡ None)
        (λ said. row_line (words_in words.now) ≡ Some (Row said.0 said.1 (map digit_value said.2.now))) }
    ensures digits { IfSome result (λ said. list_all is_ascii_hexdigit said.2.now ≡ true) }
    ensures below { IfSome result (λ said. (said.0 < small_number_values) × (said.1 < small_number_values)) }
{
    let (x_word, y_word, pixels) = three_words(words)?;
    let x = small_number(x_word)?;
    let y = small_number(y_word)?;
    if !is_pixels(pixels) {
        return None;
    }
    Some((x, y, pixels))
}

/// The two times of a `show` line.
pub(crate) fn show_words(words: &[u8]) -> Option<(u32, u32)>
    ensures value { MatchOption result (show_line (words_in words.now) ≡ None)
        (λ said. show_line (words_in words.now) ≡ Some (Show said.0 said.1)) }
    ensures below { IfSome result (λ said. said.1 < time_count) }
{
    let (ready_word, hold_word) = two_words(words)?;
    let ready = time(ready_word)?;
    let hold = time(hold_word)?;
    Some((ready, hold))
}

// The words of a line, if it has exactly two.
fn two_words(line: &[u8]) -> Option<(&[u8], &[u8])>
    ensures { MatchOption result (length (words_in line.now) ≢ 2)
        (λ found. words_in line.now ≡ found.0.now ∷ found.1.now ∷ []) }
{
    let (first, rest) = next_word(line)?;
    let (second, rest) = next_word(rest)?;
    match next_word(rest) {
        Some(_) => None,
        None => Some((first, second)),
    }
}

// The words of a line, if it has exactly three.
fn three_words(line: &[u8]) -> Option<(&[u8], &[u8], &[u8])>
    ensures { MatchOption result (length (words_in line.now) ≢ 3)
        (λ found. words_in line.now ≡ found.0.now ∷ found.1.now ∷ found.2.now ∷ []) }
{
    let (first, rest) = next_word(line)?;
    let (second, third) = two_words(rest)?;
    Some((first, second, third))
}

impl ScriptReader {
    fn take_colour(&mut self, words: &[u8]) -> Result<(), ScriptWhy>
        requires { (before : List Drawing) × Followed before self.old }
        ensures { (before : List Drawing) → Followed before self.old
            → Takes before (checked_line before (colour_line (words_in words.now))) self.new result }
    {
        let Some((number, value)) = colour_words(words) else {
            return Err(ScriptWhy::BadArgument);
        };
        if usize::from(number) >= COLOURS {
            return Err(ScriptWhy::OutOfRange);
        }
        self.take_drawing(ScriptLine::TableColour {
            number: number as u8,
            value,
        });
        Ok(())
    }

    fn take_border(&mut self, words: &[u8]) -> Result<(), ScriptWhy>
        requires { (before : List Drawing) × Followed before self.old }
        ensures { (before : List Drawing) → Followed before self.old
            → Takes before (checked_line before (border_line (words_in words.now))) self.new result }
    {
        let colour = colour_number(words)?;
        self.take_drawing(ScriptLine::BorderColour { colour });
        Ok(())
    }

    fn take_fill(&mut self, words: &[u8]) -> Result<(), ScriptWhy>
        requires { (before : List Drawing) × Followed before self.old }
        ensures { (before : List Drawing) → Followed before self.old
            → Takes before (checked_line before (fill_line (words_in words.now))) self.new result }
    {
        let colour = colour_number(words)?;
        self.take_drawing(ScriptLine::Filled { colour });
        Ok(())
    }

    fn take_rect(&mut self, words: &[u8]) -> Result<(), ScriptWhy>
        requires { (before : List Drawing) × Followed before self.old }
        ensures { (before : List Drawing) → Followed before self.old
            → Takes before (checked_line before (rect_line (words_in words.now))) self.new result }
    {
        let Some(numbers) = numbers::<5>(words) else {
            return Err(ScriptWhy::BadArgument);
        };
        let [x, y, width, height, colour] = numbers;
        if !is_rect(x, y, width, height, colour) {
            return Err(ScriptWhy::OutOfRange);
        }
        self.take_drawing(ScriptLine::Rectangle {
            x,
            y: y as u8,
            width,
            height: height as u8,
            colour: colour as u8,
        });
        Ok(())
    }

    fn take_row(&mut self, words: &[u8]) -> Result<(), ScriptWhy>
        requires { (before : List Drawing) × Followed before self.old }
        ensures { (before : List Drawing) → Followed before self.old
            → Takes before (checked_line before (row_line (words_in words.now))) self.new result }
    {
        let Some((x, y, digits)) = row_words(words) else {
            return Err(ScriptWhy::BadArgument);
        };
        if !is_row(x, y, digits.len()) {
            return Err(ScriptWhy::OutOfRange);
        }
        self.take_pixels(x, y as u8, digits);
        Ok(())
    }

    fn take_show(&mut self, words: &[u8]) -> Result<(), ScriptWhy>
        requires { (before : List Drawing) × Followed before self.old }
        ensures { (before : List Drawing) → Followed before self.old
            → Takes before (checked_line before (show_line (words_in words.now))) self.new result }
    {
        let Some((ready, hold)) = show_words(words) else {
            return Err(ScriptWhy::BadArgument);
        };
        if hold < ready {
            return Err(ScriptWhy::TimeOrder);
        }
        if !self.is_after_hold(ready) {
            return Err(ScriptWhy::TimeOrder);
        }
        if self.pictures >= MOST_PICTURES {
            return Err(ScriptWhy::TooMany);
        }
        self.take_picture(ready, hold);
        Ok(())
    }

    /// Reads a trimmed line: its command and the words after it.
    pub(crate) fn take_line(&mut self, line: &[u8]) -> Result<(), ScriptWhy>
        requires read { (before : List Drawing) × Followed before self.old }
        requires trimmed { without_blanks line.now ≡ line.now }
        ensures { (before : List Drawing) → Followed before self.old
            → Takes before (checked_words before (words_in line.now)) self.new result }
    {
        if let Some(words) = after_word(line, b"colour") {
            self.take_colour(words)
        } else if let Some(words) = after_word(line, b"border") {
            self.take_border(words)
        } else if let Some(words) = after_word(line, b"fill") {
            self.take_fill(words)
        } else if let Some(words) = after_word(line, b"rect") {
            self.take_rect(words)
        } else if let Some(words) = after_word(line, b"row") {
            self.take_row(words)
        } else if let Some(words) = after_word(line, b"show") {
            self.take_show(words)
        } else {
            Err(ScriptWhy::UnknownCommand)
        }
    }
}

// Whether the numbers of a `rect` line are in their ranges.
fn is_rect(x: u16, y: u16, width: u16, height: u16, colour: u16) -> bool
    requires x { x < small_number_values }
    requires y { y < small_number_values }
    requires width { width < small_number_values }
    requires height { height < small_number_values }
    ensures { result ≡ is_in_range (Rect x y width height colour) }
{
    width >= 1
        && height >= 1
        && usize::from(x + width) <= WINDOW_WIDTH
        && usize::from(y + height) <= WINDOW_HEIGHT
        && usize::from(colour) < COLOURS
}

// Whether a row of `count` pixels is in the window. The first test prevents an overflow of the sum.
fn is_row(x: u16, y: u16, count: usize) -> bool
    ensures { result ≡ (nat_le (x + count) window_width && nat_lt y window_height) }
{
    count <= WINDOW_WIDTH
        && usize::from(x) + count <= WINDOW_WIDTH
        && usize::from(y) < WINDOW_HEIGHT
}

// The colour number after `border` or `fill`. Most lines have a space and one digit there. This case is read
// without splitting the line into words.
#[inline(always)]
fn colour_number(words: &[u8]) -> Result<u8, ScriptWhy>
    ensures ok { IfOk result (IsColourNumber words.now) }
    ensures border { IfErr result (IsWrongAs border_line words.now) }
    ensures fill { IfErr result (IsWrongAs fill_line words.now) }
{
    match words {
        [b' ', digit] if digit.is_ascii_digit() => Ok(*digit - b'0'),
        _ => any_colour_number(words),
    }
}

// The colour number after `border` or `fill`, in any spelling.
#[inline(never)]
fn any_colour_number(words: &[u8]) -> Result<u8, ScriptWhy>
    ensures ok { IfOk result (IsColourNumber words.now) }
    ensures border { IfErr result (IsWrongAs border_line words.now) }
    ensures fill { IfErr result (IsWrongAs fill_line words.now) }
{
    let Some(numbers) = numbers::<1>(words) else {
        return Err(ScriptWhy::BadArgument);
    };
    let colour = numbers[0];
    if usize::from(colour) >= COLOURS {
        return Err(ScriptWhy::OutOfRange);
    }
    Ok(colour as u8)
}
