// The inputs and outputs of a run.
use crate::bytes::{Outputs, add_timed_lines, change, read_pieces};
use anyhow::{Context, Result, bail, ensure};
use cdg_io::{MemSink, MemSource};
use std::alloc::{AllocError, Global};
use std::mem::replace;

/// An input or an output: its bytes, the sizes of the pieces that it moves, and the numbers of its calls that
/// fail.
#[derive(Drop)]
pub(crate) struct Side {
    pub(crate) bytes: Vec<u8>,
    cuts: Vec<usize>,
    fails: Vec<u32>,
}

impl Side {
    pub(crate) fn new(alloc: Global) -> Side {
        Side {
            bytes: Vec::new(alloc),
            cuts: Vec::new(alloc),
            fails: Vec::new(alloc),
        }
    }

    /// Reads a line about a side, after the word that names the side.
    pub(crate) fn read(
        &mut self,
        alloc: Global,
        what: &str,
        value: &str,
        outputs: &Outputs,
    ) -> Result<()> {
        match what {
            "" => self.add_pieces(alloc, value, outputs),
            ">" => Ok(self.bytes.extend_from_slice(value.as_bytes())?),
            "|" => Ok(self.add_line(value)?),
            "^" => self.change_bits(alloc, value, outputs),
            "-each" => self.add_timed(alloc, value),
            "-cuts" => self.add_cuts(value),
            "-fails" => self.add_fails(value),
            _ => bail!("unknown: {what}"),
        }
    }

    fn add_pieces(&mut self, alloc: Global, pieces: &str, outputs: &Outputs) -> Result<()> {
        let bytes = read_pieces(alloc, pieces, outputs)?;
        Ok(self.bytes.extend_from_slice(&bytes)?)
    }

    fn add_line(&mut self, line: &str) -> Result<(), AllocError> {
        self.bytes.extend_from_slice(line.as_bytes())?;
        self.bytes.push(b'\n')?;
        Ok(())
    }

    // Changes those bits of the bytes so far that are set in pieces.
    fn change_bits(&mut self, alloc: Global, pieces: &str, outputs: &Outputs) -> Result<()> {
        let mask = read_pieces(alloc, pieces, outputs)?;
        ensure!(mask.len() <= self.bytes.len(), "more bits than bytes");
        change(&mut self.bytes, &mask);
        Ok(())
    }

    // Adds a line for each block below a number.
    fn add_timed(&mut self, alloc: Global, value: &str) -> Result<()> {
        let (blocks, line) = value.split_once(' ').context("a number lacks its line")?;
        let blocks = blocks.parse::<u32>()?;
        Ok(add_timed_lines(alloc, &mut self.bytes, blocks, line)?)
    }

    fn add_cuts(&mut self, numbers: &str) -> Result<()> {
        for word in numbers.split_ascii_whitespace() {
            self.cuts.push(word.parse::<usize>()?)?;
        }
        Ok(())
    }

    fn add_fails(&mut self, numbers: &str) -> Result<()> {
        for word in numbers.split_ascii_whitespace() {
            self.fails.push(word.parse::<u32>()?)?;
        }
        Ok(())
    }

    /// The source of an input. The bytes are moved out of the side.
    pub(crate) fn source(&mut self, alloc: Global) -> MemSource {
        let Side { bytes, cuts, fails } = replace(self, Side::new(alloc));
        MemSource::new(bytes, cuts, fails)
    }

    /// An empty sink with the cuts and the failing calls of an output.
    pub(crate) fn sink(&self, alloc: Global, room: usize) -> Result<MemSink, AllocError> {
        MemSink::new(
            alloc,
            room,
            self.cuts.to_vec(alloc)?,
            self.fails.to_vec(alloc)?,
        )
    }
}
