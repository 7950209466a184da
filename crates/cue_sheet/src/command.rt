// The commands of a cue sheet and their arguments.
ghost use Rattle.std.specs.Prelude.{◌≡◌, ◌≤◌, ◌<◌, IfSome, None, Some, if◌then◌else◌, length, option_map, option_copied};
ghost use Rattle.std.specs.List.{list_all};
ghost use Rattle.text_lines.specs.Text.{most_text_bytes, words_in};
ghost use Rattle.cue_sheet.specs.CueSheet.{IsText, is_capital_code};
ghost use Rattle.cue_sheet.specs.CueLines.{IsLineInRange, SaysCatalogue, SaysFile, SaysFlags, SaysIndex, SaysIsrc, SaysTrack, catalogue_argument, code_argument, flags_argument, index_argument, is_file, is_flag, names_flag, quoted, said_by, text_argument, track_argument, two_words};
ghost use Rattle.cue_sheet.specs.Steps.{line_said};

use disc_time::{CATALOGUE_DIGITS, ISRC_CHARACTERS};
use text_lines::{are_capitals, are_capitals_or_digits, are_digits, next_word, time, two_digits};

#[derive(Clone, Copy)]
pub(crate) enum SheetCommand {
    Remark,
    Catalogue,
    File,
    Title,
    Performer,
    Songwriter,
    Track,
    Flags,
    Isrc,
    Pregap,
    Index,
    Postgap,
}

impl SheetCommand {
    ghost use Rattle.cue_sheet.specs.CueLines.{command_named};

    /// The command of this name, in upper or lower case.
    #[tactic(auto, unfolding(crate::specs::CueLines::command_named))]
    pub(crate) fn named(word: &[u8]) -> Option<SheetCommand>
        ensures { result ≡ command_named word.now }
    {
        if word.eq_ignore_ascii_case(b"REM") || word.eq_ignore_ascii_case(b"CDTEXTFILE") {
            Some(SheetCommand::Remark)
        } else if word.eq_ignore_ascii_case(b"CATALOG") {
            Some(SheetCommand::Catalogue)
        } else if word.eq_ignore_ascii_case(b"FILE") {
            Some(SheetCommand::File)
        } else if word.eq_ignore_ascii_case(b"TITLE") {
            Some(SheetCommand::Title)
        } else if word.eq_ignore_ascii_case(b"PERFORMER") {
            Some(SheetCommand::Performer)
        } else if word.eq_ignore_ascii_case(b"SONGWRITER") {
            Some(SheetCommand::Songwriter)
        } else if word.eq_ignore_ascii_case(b"TRACK") {
            Some(SheetCommand::Track)
        } else if word.eq_ignore_ascii_case(b"FLAGS") {
            Some(SheetCommand::Flags)
        } else if word.eq_ignore_ascii_case(b"ISRC") {
            Some(SheetCommand::Isrc)
        } else if word.eq_ignore_ascii_case(b"PREGAP") {
            Some(SheetCommand::Pregap)
        } else if word.eq_ignore_ascii_case(b"INDEX") {
            Some(SheetCommand::Index)
        } else if word.eq_ignore_ascii_case(b"POSTGAP") {
            Some(SheetCommand::Postgap)
        } else {
            None
        }
    }
}

/// A line with a valid argument. It borrows its texts from the text of the sheet.
#[derive(Drop)]
pub(crate) enum SheetLine<'a> {
    Remark,
    Catalogue([u8; CATALOGUE_DIGITS]),
    File,
    Title(&'a [u8]),
    Performer(&'a [u8]),
    Songwriter(&'a [u8]),
    Track { number: u8, audio: bool },
    Flags(u8),
    Isrc([u8; ISRC_CHARACTERS]),
    Pregap(u32),
    Index { number: u8, time: u32 },
    Postgap(u32),
}

/// The line of a command and its argument, if the argument is valid.
pub(crate) fn spelled(command: SheetCommand, argument: &[u8]) -> Option<SheetLine<'_>>
    requires { length argument.now ≤ most_text_bytes }
    ensures line { option_map line_said result ≡ said_by command argument.now }
    ensures range { IfSome result (λ line. IsLineInRange (line_said line)) }
{
    match command {
        SheetCommand::Remark => Some(SheetLine::Remark),
        SheetCommand::Catalogue => catalogue(argument),
        SheetCommand::File => file(argument),
        SheetCommand::Title => Some(SheetLine::Title(text(argument)?)),
        SheetCommand::Performer => Some(SheetLine::Performer(text(argument)?)),
        SheetCommand::Songwriter => Some(SheetLine::Songwriter(text(argument)?)),
        SheetCommand::Track => track(argument),
        SheetCommand::Flags => flags(argument),
        SheetCommand::Isrc => code(argument),
        SheetCommand::Pregap => Some(SheetLine::Pregap(time(argument)?)),
        SheetCommand::Index => index(argument),
        SheetCommand::Postgap => Some(SheetLine::Postgap(time(argument)?)),
    }
}

// The bytes between the first two quotes of an argument that begins with one, and the rest after them.
#[tactic(auto, unfolding(crate::specs::CueLines::quoted))]
fn quoted(argument: &[u8]) -> Option<(&[u8], &[u8])>
    requires { 0 < length argument.now }
    ensures parts { option_map (λ parts. (parts.0.now, parts.1.now)) result ≡ quoted argument.now }
    ensures length { IfSome result (λ parts. length parts.0.now ≤ length argument.now) }
{
    let rest = &argument[1..];
    let end = rest.iter().position(|byte| *byte == b'"')?;
    Some((&rest[..end], &rest[end + 1..]))
}

// A text: in quotes with nothing after them, or not empty and without quotes.
#[tactic(auto, unfolding(crate::specs::CueLines::text_argument))]
fn text(argument: &[u8]) -> Option<&[u8]>
    requires { length argument.now ≤ most_text_bytes }
    ensures text { option_copied result ≡ text_argument argument.now }
    ensures range { IfSome result (λ s. IsText s.now) }
{
    let text = match argument {
        [] => return None,
        [b'"', ..] => {
            let (inside, after) = quoted(argument)?;
            if !after.is_empty() {
                return None;
            }
            inside
        }
        _ => argument,
    };
    if !text.iter().all(|byte| *byte >= 32 && *byte != 127) {
        return None;
    }
    Some(text)
}

// The line of a file: a name in quotes and then one word, or two or more words.
#[tactic(auto, unfolding(crate::specs::CueLines::is_file))]
fn file(argument: &[u8]) -> Option<SheetLine<'_>>
    ensures { option_map line_said result ≡ (if is_file argument.now then Some SaysFile else None) }
{
    if let [b'"', ..] = argument {
        let (_, after) = quoted(argument)?;
        let (_, rest) = next_word(after)?;
        if next_word(rest).is_some() {
            return None;
        }
    } else {
        let (_, rest) = next_word(argument)?;
        next_word(rest)?;
    }
    Some(SheetLine::File)
}

// The line of a catalogue number, 13 digits.
#[tactic(auto, unfolding(crate::specs::CueLines::catalogue_argument))]
fn catalogue(argument: &[u8]) -> Option<SheetLine<'_>>
    ensures line { option_map line_said result ≡ option_map SaysCatalogue (catalogue_argument argument.now) }
    ensures range { IfSome result (λ line. IsLineInRange (line_said line)) }
{
    if argument.len() != CATALOGUE_DIGITS || !are_digits(argument) {
        return None;
    }
    let mut digits = [0; CATALOGUE_DIGITS];
    digits.copy_from_slice(argument);
    Some(SheetLine::Catalogue(digits))
}

// The line of a track's ISRC. Its letters become capital letters.
#[tactic(auto, unfolding(crate::specs::CueLines::code_argument))]
fn code(argument: &[u8]) -> Option<SheetLine<'_>>
    ensures line { option_map line_said result ≡ option_map SaysIsrc (code_argument argument.now) }
    ensures range { IfSome result (λ line. IsLineInRange (line_said line)) }
{
    if argument.len() != ISRC_CHARACTERS {
        return None;
    }
    let mut code = [0; ISRC_CHARACTERS];
    code.copy_from_slice(argument);
    code.make_ascii_uppercase();
    let (head, digits) = code.split_at(5);
    let (country, owner) = head.split_at(2);
    if !(are_capitals(country) && are_capitals_or_digits(owner) && are_digits(digits)) {
        return None;
    }
    Some(SheetLine::Isrc(code))
}

// The words of an argument, if it has exactly two.
fn two_words(argument: &[u8]) -> Option<(&[u8], &[u8])>
    ensures { option_map (λ words. (words.0.now, words.1.now)) result
        ≡ two_words (words_in argument.now) }
{
    let (first, rest) = next_word(argument)?;
    let (second, rest) = next_word(rest)?;
    if next_word(rest).is_some() {
        return None;
    }
    Some((first, second))
}

// The line of a track: its number, and whether its type is AUDIO.
fn track(argument: &[u8]) -> Option<SheetLine<'_>>
    ensures line { option_map line_said result
        ≡ option_map (λ t. SaysTrack t.0 t.1) (track_argument (words_in argument.now)) }
    ensures range { IfSome result (λ line. IsLineInRange (line_said line)) }
{
    let (number, kind) = two_words(argument)?;
    let number = two_digits(number)?;
    if number == 0 {
        return None;
    }
    let audio = kind.eq_ignore_ascii_case(b"AUDIO");
    Some(SheetLine::Track { number, audio })
}

// An index line: its number and time.
fn index(argument: &[u8]) -> Option<SheetLine<'_>>
    ensures line { option_map line_said result
        ≡ option_map (λ line. SaysIndex line.0 line.1) (index_argument (words_in argument.now)) }
    ensures range { IfSome result (λ line. IsLineInRange (line_said line)) }
{
    let (number, at) = two_words(argument)?;
    let number = two_digits(number)?;
    let time = time(at)?;
    Some(SheetLine::Index { number, time })
}

// The line of flags with their control bits.
#[tactic(auto, unfolding(crate::specs::CueLines::flags_argument))]
fn flags(argument: &[u8]) -> Option<SheetLine<'_>>
    ensures line { option_map line_said result
        ≡ option_map SaysFlags (flags_argument (words_in argument.now)) }
    ensures range { IfSome result (λ line. IsLineInRange (line_said line)) }
{
    if next_word(argument).is_none() {
        return None;
    }
    if !are_flags(argument) {
        return None;
    }
    let four_channels = 8 * u8::from(names_flag(argument, b"4CH"));
    let copy = 2 * u8::from(names_flag(argument, b"DCP"));
    Some(SheetLine::Flags(four_channels + copy + u8::from(names_flag(argument, b"PRE"))))
}

fn are_flags(argument: &[u8]) -> bool
    ensures { result ≡ list_all is_flag (words_in argument.now) }
{
    let mut rest = argument;
    while let Some((word, after)) = next_word(rest) {
        if !is_flag(word) {
            return false;
        }
        rest = after;
    }
    true
}

fn is_flag(word: &[u8]) -> bool
    ensures { result ≡ is_flag word.now }
{
    word == b"4CH".as_slice()
        || word == b"DCP".as_slice()
        || word == b"PRE".as_slice()
        || word == b"SCMS".as_slice()
}

fn names_flag(argument: &[u8], flag: &[u8]) -> bool
    ensures { result ≡ names_flag flag.now (words_in argument.now) }
{
    let mut rest = argument;
    while let Some((word, after)) = next_word(rest) {
        if word == flag {
            return true;
        }
        rest = after;
    }
    false
}
