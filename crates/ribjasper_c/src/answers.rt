// The results of calls and their meanings: the exit statuses of the program, and more numbers for texts that are
// refused.
ghost use Rattle.std.specs.Prelude.{◌≡◌, ◌-◌, ◌≤◌, ◌++◌, drop, length, replicate};
ghost use Rattle.ribjasper_c.specs.Reporting.{answer_text};

/// The call is refused: a player is closed or cannot be saved, or a number is out of its range.
pub(crate) const NOT_DONE: i32 = -1;

pub(crate) const DONE: i32 = 0;

pub(crate) const DAMAGED: i32 = 1;

pub(crate) const USAGE: i32 = 2;

pub(crate) const REFUSED: i32 = 3;

pub(crate) const LATE: i32 = 4;

pub(crate) const WRITE_FAULT: i32 = 6;

pub(crate) const NO_MEMORY: i32 = 7;

pub(crate) const TEXT_MISSING: i32 = 8;

pub(crate) const TEXT_NO_SIZE: i32 = 9;

pub(crate) const TEXT_MALFORMED: i32 = 10;

// The size of a text, with its padding.
const TEXT: usize = 64;

/// Writes the meaning of a result, in English, padded with zeros.
#[unsafe(no_mangle)]
pub extern "C" fn ribjasper_answer_text(answer: i32, text: &mut [u8; TEXT])
    ensures { text.new ≡ answer_text answer ++ replicate (64 - length (answer_text answer)) 0 }
{
    *text = [0; TEXT];
    put(text, meaning(answer));
}

// Writes bytes to the front of a text.
fn put(text: &mut [u8; TEXT], meaning: &[u8])
    requires { length meaning.now ≤ 63 }
    ensures { text.new ≡ meaning.now ++ drop (length meaning.now) text.old }
{
    text[..meaning.len()].copy_from_slice(meaning);
}

fn meaning(answer: i32) -> &'static [u8]
    ensures text { result.now ≡ answer_text answer }
    ensures short { length result.now ≤ 63 }
{
    match answer {
        NOT_DONE => b"refused: a player is closed, or a number is out of its range",
        DONE => b"done",
        DAMAGED => b"done, but packs are damaged",
        USAGE => b"a number is out of its range",
        REFUSED => b"what was given is refused",
        LATE => b"done, but pictures are late",
        WRITE_FAULT => b"there is too little room",
        NO_MEMORY => b"there is no memory",
        TEXT_MISSING => b"a CD-TEXT pack is missing",
        TEXT_NO_SIZE => b"a CD-TEXT pack with the sizes is missing",
        TEXT_MALFORMED => b"a byte of a CD-TEXT pack cannot be",
        _ => b"no answer of this library",
    }
}
