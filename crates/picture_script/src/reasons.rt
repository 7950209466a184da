// The reasons to refuse a script.
/// The reason to refuse a line of a script. Of several reasons the first in this order is reported.
#[derive(Clone, Copy, PartialEq, Eq, Debug)]
pub enum ScriptWhy {
    /// The first word is not a command.
    UnknownCommand,
    /// There are too few or too many words, or a word is invalid.
    BadArgument,
    /// A number is out of its range, or pixels are outside the window.
    OutOfRange,
    /// The hold time of a picture is before its ready time, or its ready time is not after the previous hold time.
    TimeOrder,
    /// There are 20,000 pictures already.
    TooMany,
}

/// The reason why a script was not read.
#[derive(Clone, Copy, PartialEq, Eq, Debug)]
pub enum ScriptStop {
    /// The number of the first refused line, from 1, and the first reason to refuse it.
    Fault { line: u32, why: ScriptWhy },
    /// No line is refused, but memory ran out.
    NoMemory,
}
