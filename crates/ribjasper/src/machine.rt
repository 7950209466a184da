// The machine: the program reads its inputs, opens files by their names and writes its outputs.
//
// The rest of the program is proved for every machine, over these traits. A relation of a trait says what one call
// returned. It holds for no other result, so a body must return the result of exactly one call. Only this file names
// the types of std.
ghost use Rattle.std.specs.Prelude.{◌≡◌, ◌++◌, ⊤, ℕ, List, [], None, Result, Some, string_bytes};
ghost use Rattle.std.specs.Io.{ReadsAtMost, WritesAtMost};
ghost use Rattle.std.specs.Io.KnownBytes.{Keeps, WriteAppends};
ghost use Rattle.std.specs.declared.io.Error.{Error};

use cdg_io::History;
use std::fs::{File, Files};
use std::io;
use std::io::{Read, Stderr, Stdin, Stdout, Write};

/// Standard input, or an open file.
pub(crate) trait MachineInput {
    /// One read changed the state and the buffer, and returned this.
    ghost reads: { Self → Self → List ℕ → List ℕ → Result ℕ Error → Type 0 };

    fn read(&mut self, buf: &mut [u8]) -> io::Result<usize>
        ensures bound { ReadsAtMost result buf.new }
        ensures answer { reads self.old self.new buf.old buf.new result };
}

/// Opens one file to read. An opener is used once.
pub(crate) trait Opener<F> {
    /// Opening the file of this name returned this.
    ghost opens: { Self → List ℕ → Result F Error → Type 0 };

    fn open(self, name: &str) -> io::Result<F>
        ensures { opens self name.now result };
}

/// Standard output, or standard error, without a buffer.
pub(crate) trait MachineOutput {
    /// One write of these bytes changed the state, and returned this.
    ghost writes: { Self → Self → List ℕ → Result ℕ Error → Type 0 };

    fn write(&mut self, bytes: &[u8]) -> io::Result<usize>
        ensures bound { WritesAtMost result bytes.now }
        ensures answer { writes self.old self.new bytes.now result };
}

impl MachineInput for Stdin {
    ghost reads = { λ old new before after answer. ⊤ };

    fn read(&mut self, buf: &mut [u8]) -> io::Result<usize> {
        Read::read(self, buf)
    }
}

impl MachineInput for File {
    ghost reads = { λ old new before after answer. ⊤ };

    fn read(&mut self, buf: &mut [u8]) -> io::Result<usize> {
        Read::read(self, buf)
    }
}

impl MachineOutput for Stdout {
    ghost writes = { λ old new bytes answer. ⊤ };

    fn write(&mut self, bytes: &[u8]) -> io::Result<usize> {
        Write::write(self, bytes)
    }
}

impl MachineOutput for Stderr {
    ghost writes = { λ old new bytes answer. ⊤ };

    fn write(&mut self, bytes: &[u8]) -> io::Result<usize> {
        Write::write(self, bytes)
    }
}

/// The files of a machine. One of them is opened.
#[derive(Drop)]
pub(crate) struct FilesOf<'a, R> {
    files: &'a R,
}

impl<'a, R> FilesOf<'a, R> {
    pub(crate) fn new(files: &'a R) -> FilesOf<'a, R> {
        FilesOf { files }
    }
}

impl<R: Files<File = File>> Opener<File> for FilesOf<'_, R> {
    ghost opens = { λ opener name answer. ⊤ };

    fn open(self, name: &str) -> io::Result<File> {
        File::open(self.files, name)
    }
}

/// The streams of the machine, and the openers of its files.
#[derive(Drop)]
pub(crate) struct MachineStreams<I, O, W, E> {
    pub stdin: I,
    /// The openers for the first and for the second input.
    pub openers: (O, O),
    pub stdout: W,
    pub stderr: E,
}

/// A writer over an output. For proofs only, it records the bytes that the output has accepted.
#[derive(Drop)]
pub(crate) struct RecordingWriter<W> {
    writer: W,
    taken: History,
}

impl<W> RecordingWriter<W> {
    pub(crate) fn new(writer: W) -> RecordingWriter<W>
        ensures writer { result.writer ≡ writer }
        ensures nothing { result.taken.bytes ≡ [] }
    {
        RecordingWriter {
            writer,
            taken: History::nothing(),
        }
    }
}

impl<W: MachineOutput> Write for RecordingWriter<W> {
    ghost contents = { λ w. Some w.taken.bytes };

    // One write of the output.
    fn write(&mut self, buf: &[u8]) -> io::Result<usize>
        ensures bound { WritesAtMost result buf.now }
        ensures bytes { WriteAppends (Some self.old.taken.bytes) (Some self.new.taken.bytes) result buf.now }
        ensures answer { W.writes self.old.writer self.new.writer buf.now result }
    {
        match self.writer.write(buf) {
            Ok(count) => {
                self.taken.note(&buf[..count]);
                Ok(count)
            }
            Err(error) => Err(error),
        }
    }

    // This writer has no buffer.
    fn flush(&mut self) -> io::Result<()>
        ensures bytes { Keeps (Some self.old.taken.bytes) (Some self.new.taken.bytes) }
        ensures same { self.new ≡ self.old }
    {
        Ok(())
    }
}
