// The inputs of the program, and which is the first.
ghost use Rattle.std.specs.Prelude.{◌≡◌, String, List, ℕ, Ok, IfOk};
ghost use Rattle.std.specs.Io.{ReadsAtMost};
ghost use Rattle.std.specs.Io.KnownBytes.{ReadConsumes};
ghost use Rattle.std.specs.Prelude.{None};
ghost use Rattle.ribjasper.specs.declared.inputs.InputReader.{InputReader};
ghost use Rattle.ribjasper.specs.Inputs.{AreInputs, IsNewSource, OpensAs, ReadsAs, most_a_read, opened};

use crate::machine::{MachineInput, Opener};
use cdg_io::BufferedSource;
use std::alloc::Global;
use std::io::{BufReader, ErrorKind, Read};
use std::{io, mem};

// As much as a pipe holds, so that a read empties it.
const PIPE_READ: usize = 65_536;

// Whole pages and whole blocks.
const FILE_READ: usize = 61_440;

/// The source of an input's bytes. It keeps an opener that opens nothing.
#[derive(Drop)]
pub(crate) enum InputReader<'a, I, F, O> {
    Standard(I, O),
    /// A file of this name, which is opened when it is first read.
    Unopened(O, &'a str),
    Named(F),
    /// A file that could not be opened: each read fails.
    Missing,
    Empty(O),
}

impl<'a, I, F, O> InputReader<'a, I, F, O> {
    /// The maximum number of bytes that one read of the input returns.
    fn most_a_read(&self) -> usize
        ensures { result ≡ most_a_read self.now }
    {
        match self {
            InputReader::Standard(..) => PIPE_READ,
            _ => FILE_READ,
        }
    }

    // The input after the machine opened its file, or failed to open it.
    fn of(answer: io::Result<F>) -> InputReader<'a, I, F, O>
        ensures { result ≡ opened answer }
    {
        match answer {
            Ok(file) => InputReader::Named(file),
            Err(_) => InputReader::Missing,
        }
    }
}

impl<'a, I: Drop, F: Drop, O: Opener<F> + Drop> InputReader<'a, I, F, O> {
    // Opens a file that is not open yet.
    fn open(&mut self)
        ensures { OpensAs O.opens self.old self.new }
    {
        if let InputReader::Unopened(..) = self {
            *self = mem::replace(self, InputReader::Missing).opened();
        }
    }

    fn opened(self) -> InputReader<'a, I, F, O>
        ensures { OpensAs O.opens self.entry result }
    {
        match self {
            InputReader::Unopened(opener, name) => InputReader::of(opener.open(name)),
            reader => reader,
        }
    }
}

impl<I: MachineInput + Drop, F: MachineInput + Drop, O: Opener<F> + Drop> Read
    for InputReader<'_, I, F, O> {
    fn read(&mut self, buf: &mut [u8]) -> io::Result<usize>
        ensures bound { ReadsAtMost result buf.new }
        ensures bytes { ReadConsumes None None result buf.new }
        // A file that is not open is opened, and then there is one read.
        ensures answer { (reader : InputReader I F O) × OpensAs O.opens self.old reader
            × ReadsAs I.reads F.reads reader self.new buf.old buf.new result }
    {
        self.open();
        match self {
            InputReader::Standard(stdin, _) => stdin.read(buf),
            InputReader::Named(file) => file.read(buf),
            InputReader::Unopened(..) | InputReader::Missing => Err(not_found()),
            InputReader::Empty(_) => Ok(0),
        }
    }
}

impl<'a, I: MachineInput + Drop, F: MachineInput + Drop, O: Opener<F> + Drop> InputReader<
    'a,
    I,
    F,
    O,
> {
    /// A buffered source of the input.
    pub(crate) fn source(
        self,
        alloc: Global,
    ) -> io::Result<BufferedSource<InputReader<'a, I, F, O>>>
        ensures { IfOk result (IsNewSource self.entry) }
    {
        let most = self.most_a_read();
        Ok(BufferedSource::new(BufReader::with_capacity(alloc, most, self)?))
    }
}

fn not_found() -> io::Error {
    io::Error::from(ErrorKind::NotFound)
}

/// The two inputs: those that are named, in order, or standard input.
pub(crate) fn named<'a, I: Drop, F, O: Drop>(
    stdin: I,
    openers: (O, O),
    names: &'a [String],
) -> (InputReader<'a, I, F, O>, InputReader<'a, I, F, O>)
    ensures { AreInputs stdin openers names.now result.0 result.1 }
{
    let (one, other) = openers;
    match names {
        [first, second] => (
            InputReader::Unopened(one, first),
            InputReader::Unopened(other, second),
        ),
        [first] => (InputReader::Unopened(one, first), InputReader::Empty(other)),
        _ => (InputReader::Standard(stdin, one), InputReader::Empty(other)),
    }
}
