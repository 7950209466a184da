// Bytes as rows spell them: pieces of hex digits, repeated pieces, and what earlier rows wrote.
use anyhow::{Context, Result, bail};
use std::alloc::{AllocError, Global};
use std::collections::BTreeMap;

/// The outputs of earlier rows, by the names of the rows.
pub(crate) type Outputs = BTreeMap<String, Vec<u8>>;

// The output of the earlier row with this name.
fn output_of<'a>(outputs: &'a Outputs, name: &str) -> Result<&'a [u8]> {
    match outputs.get(name) {
        Some(output) => Ok(output.as_slice()),
        None => bail!("no earlier row has this name"),
    }
}

// The part of an output at a range such as `24..96`.
fn part_at<'a>(output: &'a [u8], range: &str) -> Result<&'a [u8]> {
    let (start, end) = range.split_once("..").context("a range lacks its dots")?;
    let part = output.get(start.parse::<usize>()?..end.parse::<usize>()?);
    part.context("the range does not fit the output")
}

// The part of an output that `NAME` or `NAME:24..96` names.
fn part_of<'a>(outputs: &'a Outputs, piece: &str) -> Result<&'a [u8]> {
    match piece.split_once(':') {
        Some((name, range)) => part_at(output_of(outputs, name)?, range),
        None => output_of(outputs, piece),
    }
}

fn add_times(bytes: &mut Vec<u8>, times: u32, unit: &[u8]) -> Result<()> {
    if let [byte] = unit {
        let len = bytes.len().saturating_add(times as usize);
        return Ok(bytes.resize(len, *byte)?);
    }
    for _ in 0..times {
        bytes.extend_from_slice(unit)?;
    }
    Ok(())
}

// Adds the bytes of a unit such as `0a` or `@name`, and repeats them `times` times.
fn add_unit(
    alloc: Global,
    bytes: &mut Vec<u8>,
    times: u32,
    unit: &str,
    outputs: &Outputs,
) -> Result<()> {
    match unit.strip_prefix('@') {
        Some(named) => add_times(bytes, times, part_of(outputs, named)?),
        None => add_times(bytes, times, &hex::decode(alloc, unit)?),
    }
}

// Adds the bytes of a piece such as `0a`, `192*00`, `@name` or `24*@name:0..96`.
fn add_piece(alloc: Global, bytes: &mut Vec<u8>, piece: &str, outputs: &Outputs) -> Result<()> {
    match piece.split_once('*') {
        Some((times, unit)) => add_unit(alloc, bytes, times.parse::<u32>()?, unit, outputs),
        None => add_unit(alloc, bytes, 1, piece, outputs),
    }
}

/// The bytes of pieces, which are separated by blanks.
pub(crate) fn read_pieces(alloc: Global, pieces: &str, outputs: &Outputs) -> Result<Vec<u8>> {
    let mut bytes = Vec::new(alloc);
    for piece in pieces.split_ascii_whitespace() {
        add_piece(alloc, &mut bytes, piece, outputs).context(piece)?;
    }
    Ok(bytes)
}

/// Changes the bits that are set in a mask.
pub(crate) fn change(bytes: &mut [u8], mask: &[u8]) {
    for (byte, bits) in bytes.iter_mut().zip(mask.iter()) {
        *byte ^= *bits;
    }
}

// Adds a line, with a time in place of each `%`.
fn add_timed_line(bytes: &mut Vec<u8>, line: &str, time: &str) -> Result<(), AllocError> {
    for byte in line.bytes() {
        if byte == b'%' {
            bytes.extend_from_slice(time.as_bytes())?;
        } else {
            bytes.push(byte)?;
        }
    }
    Ok(bytes.push(b'\n')?)
}

/// Adds a line for each block below a number, with the time of the block in place of each `%`.
pub(crate) fn add_timed_lines(
    alloc: Global,
    bytes: &mut Vec<u8>,
    blocks: u32,
    line: &str,
) -> Result<(), AllocError> {
    for block in 0..blocks {
        let (minutes, seconds, frames) = (block / 4500, block / 75 % 60, block % 75);
        let time = format!(in alloc; "{minutes:02}:{seconds:02}:{frames:02}")?;
        add_timed_line(bytes, line, &time)?;
    }
    Ok(())
}
