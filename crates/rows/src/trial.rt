// The trial of a row.
ghost use Rattle.std.specs.Prelude.{◌≡◌, OnOk};

use crate::own::{Broken, KeptBytes, Lent};
use crate::row::{Ends, Extent, PlacedBytes, Row};
use anyhow::{Result, bail, ensure};
use cdg_cmd::{Status, run, split};
use cdg_io::{MemSink, MemSource, Source};
use sha2::{Digest, Sha256};
use std::alloc::{AllocError, Global};
use std::mem::replace;

fn first_difference(wanted: &[u8], got: &[u8]) -> usize {
    let differs = wanted.iter().zip(got.iter()).position(|(a, b)| a != b);
    differs.unwrap_or(wanted.len().min(got.len()))
}

// Up to sixteen bytes from a place on.
fn shown(alloc: Global, bytes: &[u8], place: usize) -> Result<String, AllocError> {
    let rest = bytes.get(place..).unwrap_or(&[]);
    hex::encode(alloc, &rest[..rest.len().min(16)])
}

fn compare(alloc: Global, what: &str, wanted: &[u8], got: &[u8]) -> Result<()>
    ensures { OnOk result (wanted.now ≡ got.now) }
{
    if wanted != got {
        let place = first_difference(wanted, got);
        let (want, have) = (shown(alloc, wanted, place)?, shown(alloc, got, place)?);
        let (whole, len) = (wanted.len(), got.len());
        bail!("{what}: from byte {place} wanted {want} of {whole} bytes, got {have} of {len}");
    }
    Ok(())
}

// Fails if a number is not the expected one.
fn compare_count(what: &str, wanted: Option<usize>, got: usize) -> Result<()> {
    if let Some(wanted) = wanted {
        ensure!(wanted == got, "{what}: wanted {wanted}, got {got}");
    }
    Ok(())
}

// Fails if these bytes are not at their place.
fn compare_part(alloc: Global, part: &PlacedBytes, got: &[u8]) -> Result<()> {
    let rest = got.get(part.place..).unwrap_or(&[]);
    let there = &rest[..rest.len().min(part.bytes.len())];
    compare(alloc, "part of out", &part.bytes, there)
}

// Fails if the output is not a shorter beginning of the bytes of the row.
fn compare_beginning(alloc: Global, row: &Row, got: &[u8]) -> Result<()> {
    let whole = row.out.bytes.as_slice();
    let (most, len) = (whole.len(), got.len());
    ensure!(len < most, "out: wanted fewer than {most} bytes, got {len}");
    compare(alloc, "out", whole.get(..len).unwrap_or(&[]), got)
}

fn has_line(text: &[u8], line: &str) -> bool {
    let mut rest = text;
    for _ in 0..text.len() {
        let Some(after) = rest.iter().position(|byte| *byte == b'\n') else {
            return false;
        };
        let (front, back) = rest.split_at(after);
        if front == line.as_bytes() {
            return true;
        }
        rest = back.get(1..).unwrap_or(&[]);
    }
    false
}

fn compare_digest(alloc: Global, digest: &str, got: &[u8]) -> Result<()> {
    let found = hex::encode(alloc, Sha256::digest(got))?;
    compare(alloc, "digest of out", digest.as_bytes(), found.as_bytes())
}

// Fails if the bytes of an output are not those of the row.
fn compare_extent(alloc: Global, row: &Row, got: &[u8]) -> Result<()> {
    match row.extent {
        Extent::Whole if row.has_parts() && row.out.bytes.is_empty() => Ok(()),
        Extent::Whole => compare(alloc, "out", &row.out.bytes, got),
        Extent::Beginning => compare_beginning(alloc, row, got),
    }
}

// Fails if an output lacks a part or a line that a row expects.
fn compare_parts(alloc: Global, row: &Row, got: &[u8]) -> Result<()> {
    for part in row.parts.iter() {
        compare_part(alloc, part, got)?;
    }
    for line in row.lines.iter() {
        ensure!(has_line(got, line), "out: lacks the line {line}");
    }
    Ok(())
}

fn compare_output(alloc: Global, row: &Row, got: &[u8]) -> Result<()> {
    compare_extent(alloc, row, got)?;
    compare_count("length of out", row.length, got.len())?;
    if let Some(digest) = row.digest {
        compare_digest(alloc, digest, got)?;
    }
    compare_parts(alloc, row, got)
}

// Fails if a status is not the one that a row expects.
fn compare_status(row: &Row, status: Status) -> Result<()> {
    let (wanted, got) = (row.status, status.exit());
    ensure!(wanted == got, "status: wanted {wanted}, got {got}");
    Ok(())
}

#[derive(Drop)]
struct RunStreams {
    first: MemSource,
    second: MemSource,
    out: MemSink,
    err: MemSink,
}

impl RunStreams {
    // The streams of a row. The bytes of its inputs are moved out of it.
    fn of_row(alloc: Global, row: &mut Row) -> Result<RunStreams, AllocError> {
        let out = row.out.sink(alloc, row.room)?;
        let err = row.err.sink(alloc, 256)?;
        Ok(RunStreams {
            first: row.first.source(alloc),
            second: row.second.source(alloc),
            out,
            err,
        })
    }
}

// Runs the words of a row. It fails if the split of the words or the status is not the expected one.
fn run_words(alloc: Global, row: &Row, streams: &mut RunStreams) -> Result<()> {
    let split = split(&row.words);
    compare_count("names", Some(row.names), split.names)?;
    let status = run(
        alloc,
        &row.words[..split.words],
        &mut streams.first,
        &mut streams.second,
        &mut streams.out,
        &mut streams.err,
    );
    compare_status(row, status)
}

// Fails if the outputs, or the rests of the inputs, are not what a row expects.
fn compare_streams(alloc: Global, row: &Row, streams: &RunStreams) -> Result<()> {
    compare(alloc, "err", &row.err.bytes, streams.err.bytes())?;
    compare_output(alloc, row, streams.out.bytes())?;
    compare_count("left", row.first_left, streams.first.rest().len())?;
    compare_count(
        "left of second",
        row.second_left,
        streams.second.rest().len(),
    )
}

// Runs a row on its streams, and returns its output.
fn run_streams(alloc: Global, row: &Row, streams: &mut RunStreams) -> Result<Vec<u8>> {
    run_words(alloc, row, streams)?;
    compare_streams(alloc, row, streams)?;
    Ok(streams.out.bytes().to_vec(alloc)?)
}

// Runs the words of a row on a first input, with a sink of `KeptBytes`, and returns its output.
fn run_own<S: Source>(alloc: Global, row: &Row, first: &mut S) -> Result<Vec<u8>> {
    let mut second = Lent {
        rest: row.second.bytes.as_slice(),
    };
    let mut out = KeptBytes {
        bytes: Vec::new(alloc),
        faults: 0,
    };
    let mut err = row.err.sink(alloc, 256)?;
    let status = run(alloc, &row.words, first, &mut second, &mut out, &mut err);
    compare_status(row, status)?;
    compare(alloc, "err", &row.err.bytes, err.bytes())?;
    compare_output(alloc, row, &out.bytes)?;
    Ok(out.bytes)
}

// Runs a row on bytes in memory, and returns its output.
fn run_in_memory(alloc: Global, row: &mut Row) -> Result<Vec<u8>> {
    let mut streams = RunStreams::of_row(alloc, row)?;
    run_streams(alloc, row, &mut streams)
}

// Runs a row on a source that borrows the bytes of its first input.
fn run_lent(alloc: Global, row: &Row) -> Result<Vec<u8>> {
    let rest = row.first.bytes.as_slice();
    run_own(alloc, row, &mut Lent { rest })
}

/// Runs a row, and returns its output. It fails if a result is not what the row expects.
pub(crate) fn run_row(alloc: Global, row: &mut Row) -> Result<Vec<u8>> {
    if row.is_given {
        return Ok(replace(&mut row.out.bytes, Vec::new(alloc)));
    }
    match row.ends {
        Ends::Memory => run_in_memory(alloc, row),
        Ends::Own => run_lent(alloc, row),
        Ends::Broken => run_own(alloc, row, &mut Broken { tries: 0 }),
    }
}
