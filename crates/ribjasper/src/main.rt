//! Works on the subcode of Compact Discs, from standard input or named files to standard output.
#![tactic(auto)]

mod inputs;
mod machine;

ghost use Rattle.std.specs.Prelude.{◌≡◌, ◌≢◌, ◌⊎◌, ◌-◌, [], drop, take, length, Err, IfOk, IsOk, OnErr};
ghost use Rattle.std.specs.Io.KnownBytes.{Appends};
ghost use Rattle.std.specs.IoError.{error_kind};
ghost use Rattle.std.specs.Process.{exit_status};
ghost use Rattle.std.specs.Vec.Iter.{into_iter_items};
ghost use Rattle.std.specs.declared.io.Error.{Error};
ghost use Rattle.cdg_io.specs.Causes.{Rose};
ghost use Rattle.cdg_io.specs.Change.{from_to};
ghost use Rattle.cdg_cmd.specs.Line.{error_line, exit_of};
ghost use Rattle.ribjasper.specs.Runs.{AreOwnWords, EndsProgram, IsSettled, RunsLine, RunsProgram, WritesStatusLine, words_of_command, input_names};

use cdg_cmd::{Status, perform, read_words, report_status, split};
use cdg_io::{BufferedSink, Failed, WriteSink};
use inputs::{InputReader, named};
use machine::{FilesOf, MachineInput, MachineOutput, MachineStreams, Opener, RecordingWriter};
use std::alloc::{AllocError, Global};
use std::env::Args;
use std::io::{ErrorKind, Write};
use std::process::ExitCode;
use std::{env, io};
use subcode_author::Heap;

// The size of the output buffer: more than one read of an input returns.
const BUFFER: usize = 131_072;

// The maximum number of bytes that wait in the output buffer after a put: as many as a pipe can hold.
const TURN: usize = 65_536;

fn main(rt: HostRuntime) -> ExitCode {
    let machine = MachineStreams {
        stdin: rt.stdin(),
        openers: (FilesOf::new(&rt), FilesOf::new(&rt)),
        stdout: rt.stdout(),
        stderr: rt.stderr(),
    };
    run_program(rt.alloc(), env::args(&rt), machine)
}

// Runs the command of these words, prints its status and returns the exit status. It works with every
// machine.
fn run_program<I, F, O, W, E>(
    alloc: Global,
    words: io::Result<Args>,
    machine: MachineStreams<I, O, W, E>,
) -> ExitCode
where
    I: MachineInput + Drop,
    F: MachineInput + Drop,
    O: Opener<F> + Drop,
    W: MachineOutput + Drop,
    E: MachineOutput + Drop,
    ensures { EndsProgram F words machine result }
{
    let MachineStreams {
        stdin,
        openers,
        stdout,
        stderr,
    } = machine;
    let status = ended(run_line::<I, F, O, W>(alloc, words, stdin, openers, stdout));
    print_status(stderr, status);
    ExitCode::from(status.exit())
}

// Runs the command of these words on the inputs that they name. It fails only if an allocation for the words
// or the buffers fails.
fn run_line<
    I: MachineInput + Drop,
    F: MachineInput + Drop,
    O: Opener<F> + Drop,
    W: MachineOutput + Drop,
>(
    alloc: Global,
    words: io::Result<Args>,
    stdin: I,
    openers: (O, O),
    stdout: W,
) -> io::Result<Status>
    ensures { IfOk result (RunsProgram F words stdin openers stdout) }
{
    let line = own_words(alloc, words)?;
    let (words, names) = parted(&line);
    let (first, second): (InputReader<'_, I, F, O>, InputReader<'_, I, F, O>) = named(
        stdin, openers, names,
    );
    let mut first = first.source(alloc)?;
    let mut second = second.source(alloc)?;
    let mut out = BufferedSink::new(alloc, BUFFER, TURN, RecordingWriter::new(stdout))?;
    let status = match read_words(words) {
        Some(command) => {
            let heap = &mut Heap::new(alloc);
            perform(heap, command, &mut first, &mut second, &mut out)
        }
        None => Status::Usage,
    };
    Ok(flushed(status, &mut out))
}

// The words after the name of the program. If the machine reports that they are not text, there are no words.
fn own_words(alloc: Global, answer: io::Result<Args>) -> io::Result<Vec<String>>
    ensures words { IfOk result (λ words. AreOwnWords answer words.items) }
    ensures no_text { (error : Error) → answer ≡ Err error → error_kind error ≡ ErrorKind.InvalidData
        → IsOk result }
    ensures failed { (error : Error) → answer ≡ Err error → error_kind error ≢ ErrorKind.InvalidData
        → result ≡ Err error }
{
    match answer {
        Ok(all) => Ok(after_first(alloc, all)?),
        Err(error) if error.kind() == ErrorKind::InvalidData => Ok(Vec::new(alloc)),
        Err(error) => Err(error),
    }
}

// All words but the first.
fn after_first(alloc: Global, all: Args) -> Result<Vec<String>, AllocError>
    ensures { IfOk result (λ words. words.items ≡ drop 1 (into_iter_items all)) }
{
    all.skip(1).collect(alloc)
}

// The command's words of a line, and the names of its inputs.
fn parted(line: &[String]) -> (&[String], &[String])
    ensures words { result.0.now ≡ words_of_command line.now }
    ensures names { result.1.now ≡ input_names line.now }
{
    let split = split(line);
    (&line[..split.words], &line[line.len() - split.names..])
}

// The status of a run. If an allocation for the words or the buffers failed, nothing was run.
fn ended(ran: io::Result<Status>) -> Status
    ensures ran { IfOk ran (λ status. result ≡ status) }
    ensures no_memory { OnErr ran (result ≡ Status.NoMemory) }
{
    ran.unwrap_or(Status::NoMemory)
}

// Writes the bytes in the buffer. If a write fails, the status is a write fault.
fn flushed<W: Write>(status: Status, out: &mut BufferedSink<W>) -> Status
    ensures { IsSettled W.contents (from_to out.old out.new) status result }
{
    match out.flush() {
        Ok(()) => status,
        Err(Failed) => Status::WriteFault,
    }
}

// Prints the line of a status. A failed write changes nothing.
fn print_status<E: MachineOutput + Drop>(stderr: E, status: Status)
    ensures { WritesStatusLine stderr status }
{
    let mut err = WriteSink::new(RecordingWriter::new(stderr));
    let _reported = report_status(&mut err, status);
}
