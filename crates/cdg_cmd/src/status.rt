// How a run ends: the status for each result of another crate, the exit status of the process, and the line that is
// printed.
ghost use Rattle.std.specs.Prelude.{◌≡◌, ◌≤◌, ◌++◌, ◌+◌, length, [], OnOk, OnErr};
ghost use Rattle.cdg_cmd.specs.Line.{exit_of, cue_words, script_words, words_and_count, error_line, late_words, line_words, refusal_words};
ghost use Rattle.cdg_cmd.specs.Stops.{author_status, merge_status, play_status, press_status, pump_status, read_status, resume_status, script_status, sheet_status, text_fault_status, thin_status};
ghost use Rattle.std.specs.Io.KnownBytes.{Appends};
ghost use Rattle.cdg_io.specs.Causes.{HasCause};
ghost use Rattle.cdg_io.specs.Moves.{AppendsPrefix};

use arrayvec::ArrayString;
use cdg_checkpoint::{ResumeStop, Resumed};
use cdg_io::{Failed, PumpStop, Pumped, ReadStop, Sink, put_all};
use cdg_press::PressStop;
use cdtext_packs::TextFault;
use cue_sheet::{CueStop, CueWhy};
use itoa::Buffer;
use picture_script::{ScriptStop, ScriptWhy};
use rw_merge::{MergeStop, Merged};
use stream_stages::{PlayStop, Played};
use subcode_author::AuthorStop;

/// One of the two inputs.
#[derive(Clone, Copy, Debug, PartialEq, Eq)]
pub enum Which {
    /// The stream, the file of packs of `thin`, the cue sheet, or the checkpoint.
    First,
    /// The picture script, the file of packs of `press`, the other reading or the rest of a stream.
    Second,
}

/// Why an input was refused.
#[derive(Clone, Copy, Debug, PartialEq, Eq)]
pub enum Refusal {
    /// The input ended within the block of this number.
    Torn { block: u32 },
    /// The input has more than 1,000,000 blocks or 4,000,000 packs, or is a text or a file of more than 67,108,864
    /// bytes.
    TooLong,
    /// The moment, or the last hold time of a script, is later than the end of this many program blocks.
    PastEnd { blocks: u32 },
    /// The line of the cue sheet with this number, counted from 1, is refused.
    Cue { line: u32, why: CueWhy },
    /// The line of the picture script with this number, counted from 1, is refused.
    Script { line: u32, why: ScriptWhy },
    /// The audio is too short: the index lines need `need` blocks.
    LengthShort { need: u32 },
    /// The program of the disc would have `blocks` blocks, which is too many.
    DiscTooLong { blocks: u32 },
    /// The lead-in is too short: it needs `need` blocks.
    LeadInShort { need: u32 },
    /// The texts need `packs` packs, which is too many.
    TextTooLong { packs: u32 },
    /// No good text pack has the number `seq`, which is needed.
    TextMissing { seq: u8 },
    /// There are text packs, but not all three packs with their sizes.
    TextNoSize,
    /// This byte of the text pack of this number contradicts the other packs.
    TextMalformed { seq: u8, byte: u8 },
    /// The second reading ended within the block of this number.
    SecondTorn { block: u32 },
    /// One reading has only `blocks` whole blocks, and the other has more.
    Unequal { blocks: u32 },
    /// The file ended within the pack of this number.
    PackTorn { pack: u32 },
    /// A track has a gap. The number is that of the first such track.
    Gap { track: u8 },
    /// The file has `packs` packs, but the audio has room for only `room` packs.
    CdgTooLong { packs: u32, room: u32 },
    /// The first input is no checkpoint, as this byte shows.
    BadSave { byte: u32 },
    /// The moment is before the checkpoint, which was made after `blocks` program blocks.
    BeforeSave { blocks: u32 },
}

/// How a run ended.
#[derive(Clone, Copy, Debug, PartialEq, Eq)]
pub enum Status {
    /// All work was done.
    Done,
    /// The output is complete, but this number of packs or frames could not be recovered.
    Damaged(u32),
    /// The words are no command; nothing was read.
    Usage,
    /// An input was refused.
    Refused(Refusal),
    /// `picture` is the first picture that cannot be ready: it needs `need` packs, and `free` packs are free for it.
    Late { picture: u32, need: u32, free: u32 },
    /// A read of this input failed.
    ReadFault(Which),
    /// A write failed. The output has a prefix of the bytes.
    WriteFault,
    /// An allocation failed. Nothing was written.
    NoMemory,
}

impl Status {
    /// The exit status of the process.
    pub fn exit(&self) -> u8
        ensures { result ≡ exit_of self.now }
    {
        match self {
            Status::Done => 0,
            Status::Damaged(_) => 1,
            Status::Usage => 2,
            Status::Refused(_) => 3,
            Status::Late { .. } => 4,
            Status::ReadFault(_) => 5,
            Status::WriteFault => 6,
            Status::NoMemory => 7,
        }
    }
}

pub(crate) fn read_status(which: Which, stop: ReadStop) -> Status
    ensures { result ≡ read_status which stop }
{
    match stop {
        ReadStop::Failed => Status::ReadFault(which),
        ReadStop::TooLong => Status::Refused(Refusal::TooLong),
        ReadStop::NoMemory => Status::NoMemory,
    }
}

pub(crate) fn sheet_status(stop: CueStop) -> Status
    ensures { result ≡ sheet_status stop }
{
    match stop {
        CueStop::Fault { line, why } => Status::Refused(Refusal::Cue { line, why }),
        CueStop::NoMemory => Status::NoMemory,
    }
}

pub(crate) fn script_status(stop: ScriptStop) -> Status
    ensures { result ≡ script_status stop }
{
    match stop {
        ScriptStop::Fault { line, why } => Status::Refused(Refusal::Script { line, why }),
        ScriptStop::NoMemory => Status::NoMemory,
    }
}

pub(crate) fn play_status(answer: Result<Played, PlayStop>) -> Status
    ensures { result ≡ play_status answer }
{
    match answer {
        Ok(played) if played.bad == 0 => Status::Done,
        Ok(played) => Status::Damaged(played.bad),
        Err(PlayStop::ReadFault) => Status::ReadFault(Which::First),
        Err(PlayStop::WriteFault) => Status::WriteFault,
        Err(PlayStop::Torn { block }) => Status::Refused(Refusal::Torn { block }),
        Err(PlayStop::TooLong) => Status::Refused(Refusal::TooLong),
        Err(PlayStop::PastEnd { blocks }) => Status::Refused(Refusal::PastEnd { blocks }),
        Err(PlayStop::Text(fault)) => text_fault_status(fault),
    }
}

// The status if the text packs of a lead-in hold no texts.
fn text_fault_status(fault: TextFault) -> Status
    ensures { result ≡ text_fault_status fault }
{
    match fault {
        TextFault::Missing { seq } => Status::Refused(Refusal::TextMissing { seq }),
        TextFault::NoSize => Status::Refused(Refusal::TextNoSize),
        TextFault::Malformed { seq, byte } => Status::Refused(Refusal::TextMalformed { seq, byte }),
        TextFault::NoMemory => Status::NoMemory,
    }
}

pub(crate) fn pump_status(answer: Result<Pumped, PumpStop>) -> Status
    ensures { result ≡ pump_status answer }
{
    match answer {
        Ok(_) => Status::Done,
        Err(PumpStop::ReadFault) => Status::ReadFault(Which::First),
        Err(PumpStop::WriteFault) => Status::WriteFault,
        Err(PumpStop::Torn { unit }) => Status::Refused(Refusal::Torn { block: unit }),
        Err(PumpStop::TooLong) => Status::Refused(Refusal::TooLong),
    }
}

pub(crate) fn thin_status(answer: Result<Pumped, PumpStop>) -> Status
    ensures { result ≡ thin_status answer }
{
    match answer {
        Ok(_) => Status::Done,
        Err(PumpStop::ReadFault) => Status::ReadFault(Which::First),
        Err(PumpStop::WriteFault) => Status::WriteFault,
        Err(PumpStop::Torn { unit }) => Status::Refused(Refusal::PackTorn { pack: unit }),
        Err(PumpStop::TooLong) => Status::Refused(Refusal::TooLong),
    }
}

pub(crate) fn merge_status(answer: Result<Merged, MergeStop>) -> Status
    ensures { result ≡ merge_status answer }
{
    match answer {
        Ok(merged) if merged.bad == 0 => Status::Done,
        Ok(merged) => Status::Damaged(merged.bad),
        Err(MergeStop::FirstFault) => Status::ReadFault(Which::First),
        Err(MergeStop::SecondFault) => Status::ReadFault(Which::Second),
        Err(MergeStop::WriteFault) => Status::WriteFault,
        Err(MergeStop::TooLong) => Status::Refused(Refusal::TooLong),
        Err(MergeStop::Torn { block }) => Status::Refused(Refusal::Torn { block }),
        Err(MergeStop::SecondTorn { block }) => Status::Refused(Refusal::SecondTorn { block }),
        Err(MergeStop::Unequal { blocks }) => Status::Refused(Refusal::Unequal { blocks }),
    }
}

pub(crate) fn resume_status(answer: Result<Resumed, ResumeStop>) -> Status
    ensures { result ≡ resume_status answer }
{
    match answer {
        Ok(resumed) if resumed.bad == 0 => Status::Done,
        Ok(resumed) => Status::Damaged(resumed.bad),
        Err(ResumeStop::FirstFault) => Status::ReadFault(Which::First),
        Err(ResumeStop::SecondFault) => Status::ReadFault(Which::Second),
        Err(ResumeStop::WriteFault) => Status::WriteFault,
        Err(ResumeStop::BadSave { byte }) => Status::Refused(Refusal::BadSave { byte }),
        Err(ResumeStop::BeforeSave { blocks }) => Status::Refused(Refusal::BeforeSave { blocks }),
        Err(ResumeStop::Torn { block }) => Status::Refused(Refusal::Torn { block }),
        Err(ResumeStop::TooLong) => Status::Refused(Refusal::TooLong),
        Err(ResumeStop::PastEnd { blocks }) => Status::Refused(Refusal::PastEnd { blocks }),
    }
}

pub(crate) fn author_status(answer: Result<(), AuthorStop>) -> Status
    ensures { result ≡ author_status answer }
{
    match answer {
        Ok(()) => Status::Done,
        Err(AuthorStop::LengthShort { need }) => Status::Refused(Refusal::LengthShort { need }),
        Err(AuthorStop::DiscTooLong { blocks }) => {
            Status::Refused(Refusal::DiscTooLong { blocks })
        }
        Err(AuthorStop::PastEnd { blocks }) => Status::Refused(Refusal::PastEnd { blocks }),
        Err(AuthorStop::TextTooLong { packs }) => Status::Refused(Refusal::TextTooLong { packs }),
        Err(AuthorStop::LeadInShort { need }) => Status::Refused(Refusal::LeadInShort { need }),
        Err(
            AuthorStop::Late {
                picture,
                need,
                free,
            },
        ) => Status::Late {
            picture,
            need,
            free,
        },
        Err(AuthorStop::WriteFault) => Status::WriteFault,
        Err(AuthorStop::NoMemory) => Status::NoMemory,
    }
}

pub(crate) fn press_status(answer: Result<(), PressStop>) -> Status
    ensures { result ≡ press_status answer }
{
    match answer {
        Ok(()) => Status::Done,
        Err(PressStop::PackTorn { pack }) => Status::Refused(Refusal::PackTorn { pack }),
        Err(PressStop::LengthShort { need }) => Status::Refused(Refusal::LengthShort { need }),
        Err(PressStop::DiscTooLong { blocks }) => Status::Refused(Refusal::DiscTooLong { blocks }),
        Err(PressStop::Gap { track }) => Status::Refused(Refusal::Gap { track }),
        Err(PressStop::CdgTooLong { packs, room }) => {
            Status::Refused(Refusal::CdgTooLong { packs, room })
        }
        Err(PressStop::TextTooLong { packs }) => Status::Refused(Refusal::TextTooLong { packs }),
        Err(PressStop::LeadInShort { need }) => Status::Refused(Refusal::LeadInShort { need }),
        Err(PressStop::WriteFault) => Status::WriteFault,
        Err(PressStop::NoMemory) => Status::NoMemory,
    }
}

// Why a line of a cue sheet is refused.
fn cue_words(why: CueWhy) -> &'static str
    ensures words { result.now ≡ cue_words why }
    ensures short { length result.now ≤ 20 }
{
    match why {
        CueWhy::UnknownCommand => "unknown-command",
        CueWhy::SecondFile => "second-file",
        CueWhy::Misplaced => "misplaced",
        CueWhy::BadArgument => "bad-argument",
        CueWhy::Repeated => "repeated",
        CueWhy::NoIndex => "no-index",
        CueWhy::NotAudio => "not-audio",
        CueWhy::NumberOrder => "number-order",
        CueWhy::IndexOrder => "index-order",
        CueWhy::TimeOrder => "time-order",
        CueWhy::NoFile => "no-file",
        CueWhy::NoTrack => "no-track",
    }
}

// Why a line of a picture script is refused.
fn script_words(why: ScriptWhy) -> &'static str
    ensures words { result.now ≡ script_words why }
    ensures short { length result.now ≤ 20 }
{
    match why {
        ScriptWhy::UnknownCommand => "unknown-command",
        ScriptWhy::BadArgument => "bad-argument",
        ScriptWhy::OutOfRange => "out-of-range",
        ScriptWhy::TimeOrder => "time-order",
        ScriptWhy::TooMany => "too-many",
    }
}

// The line of a status, which has at most 128 bytes.
type ErrorLine = ArrayString<128>;

// Appends a blank and a number.
fn push_number(text: &mut ErrorLine, number: u32)
    requires { length text.old.bytes ≤ 80 }
    ensures text { text.new.bytes ≡ words_and_count text.old.bytes number }
    ensures short { length text.new.bytes ≤ length text.old.bytes + 11 }
{
    let mut digits = Buffer::new();
    text.push_str(" ");
    text.push_str(digits.format(number));
}

fn push_counted(text: &mut ErrorLine, words: &str, number: u32)
    requires { length text.old.bytes + length words.now ≤ 80 }
    ensures text { text.new.bytes ≡ text.old.bytes ++ words_and_count words.now number }
    ensures short { length text.new.bytes ≤ length text.old.bytes + length words.now + 11 }
{
    text.push_str(words);
    push_number(text, number);
}

fn push_line(text: &mut ErrorLine, name: &str, line: u32, why: &str)
    requires room { length text.old.bytes + length name.now ≤ 40 }
    requires why { length why.now ≤ 20 }
    ensures text { text.new.bytes ≡ text.old.bytes ++ line_words name.now line why.now }
    ensures short { length text.new.bytes ≤ 80 }
{
    push_counted(text, name, line);
    text.push_str(" ");
    text.push_str(why);
}

fn push_refusal(text: &mut ErrorLine, refusal: Refusal)
    requires { length text.old.bytes ≤ 20 }
    ensures text { text.new.bytes ≡ text.old.bytes ++ refusal_words refusal }
    ensures short { length text.new.bytes ≤ 100 }
{
    match refusal {
        Refusal::Torn { block } => push_counted(text, "torn", block),
        Refusal::TooLong => text.push_str("too-long"),
        Refusal::PastEnd { blocks } => push_counted(text, "past-end", blocks),
        Refusal::Cue { line, why } => push_line(text, "cue", line, cue_words(why)),
        Refusal::Script { line, why } => push_line(text, "script", line, script_words(why)),
        Refusal::LengthShort { need } => push_counted(text, "length-short", need),
        Refusal::DiscTooLong { blocks } => push_counted(text, "disc-too-long", blocks),
        Refusal::LeadInShort { need } => push_counted(text, "lead-in-short", need),
        Refusal::TextTooLong { packs } => push_counted(text, "text-too-long", packs),
        Refusal::TextMissing { seq } => push_counted(text, "text-missing", u32::from(seq)),
        Refusal::TextNoSize => text.push_str("text-no-size"),
        Refusal::TextMalformed { seq, byte } => {
            push_counted(text, "text-malformed", u32::from(seq));
            push_number(text, u32::from(byte));
        }
        Refusal::SecondTorn { block } => push_counted(text, "second-torn", block),
        Refusal::Unequal { blocks } => push_counted(text, "unequal", blocks),
        Refusal::PackTorn { pack } => push_counted(text, "pack-torn", pack),
        Refusal::Gap { track } => push_counted(text, "gap", u32::from(track)),
        Refusal::CdgTooLong { packs, room } => {
            push_counted(text, "cdg-too-long", packs);
            push_number(text, room);
        }
        Refusal::BadSave { byte } => push_counted(text, "bad-save", byte),
        Refusal::BeforeSave { blocks } => push_counted(text, "before-save", blocks),
    }
}

fn push_late(text: &mut ErrorLine, picture: u32, need: u32, free: u32)
    requires { text.old.bytes ≡ [] }
    ensures text { text.new.bytes ≡ late_words picture need free }
    ensures short { length text.new.bytes ≤ 100 }
{
    text.push_str("late");
    push_number(text, picture);
    text.push_str(" need");
    push_number(text, need);
    text.push_str(" free");
    push_number(text, free);
}

// The line of a status, with its line feed.
fn error_line(status: Status) -> ErrorLine
    ensures { result.bytes ≡ error_line status }
{
    let mut text = ErrorLine::new();
    match status {
        Status::Done => return text,
        Status::Damaged(count) => {
            text.push_str("damaged");
            push_number(&mut text, count);
        }
        Status::Usage => text.push_str("usage"),
        Status::Refused(refusal) => {
            text.push_str("refused ");
            push_refusal(&mut text, refusal);
        }
        Status::Late {
            picture,
            need,
            free,
        } => push_late(&mut text, picture, need, free),
        Status::ReadFault(Which::First) => text.push_str("read fault first"),
        Status::ReadFault(Which::Second) => text.push_str("read fault second"),
        Status::WriteFault => text.push_str("write fault"),
        Status::NoMemory => text.push_str("no memory"),
    }
    text.push_str("\n");
    text
}

/// Writes the line of a status, with its line feed. `Done` has no line. After `Failed` a prefix of the line
/// was written.
pub fn report_status<E: Sink>(err: &mut E, status: Status) -> Result<(), Failed>
    ensures ok { OnOk result (Appends (E.held err.old) (E.held err.new) (error_line status)) }
    ensures part { OnErr result (AppendsPrefix (E.held err.old) (E.held err.new) (error_line status)) }
    ensures cause { HasCause (E.faults err.old) (E.faults err.new) result }
    ensures done { status ≡ Status.Done → err.new ≡ err.old }
{
    put_all(err, error_line(status).as_str().as_bytes())
}
