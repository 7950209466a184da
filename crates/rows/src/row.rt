// A row: the words and the inputs of a run, and its expected result.
use crate::bytes::{Outputs, read_pieces};
use crate::side::Side;
use anyhow::{Context, Result, bail, ensure};
use std::alloc::Global;
use std::str::FromStr;

// The number of bytes that an output can hold if the row does not give it.
const ROOM: usize = 2_000_000;

/// Bytes that are expected at a place of the output.
#[derive(Drop)]
pub(crate) struct PlacedBytes {
    pub(crate) place: usize,
    pub(crate) bytes: Vec<u8>,
}

/// The expected extent of an output.
#[derive(Drop)]
pub(crate) enum Extent {
    /// The output has all bytes of the row.
    Whole,
    /// The output has a shorter beginning of the bytes of the row.
    Beginning,
}

/// The source of the first input and the sink of the output of a row's command.
#[derive(Drop)]
pub(crate) enum Ends {
    /// Memory, in pieces and with calls that fail.
    Memory,
    /// A source with only `take`, and a sink with only `put`.
    Own,
    /// A source whose reads all fail, and a sink with only `put`.
    Broken,
}

#[derive(Drop)]
pub(crate) struct Row<'a> {
    pub(crate) name: &'a str,
    /// Whether the row only gives a name to bytes, and runs no command.
    pub(crate) is_given: bool,
    /// The words of the command line.
    pub(crate) words: Vec<String>,
    /// The number of these words that are names of files.
    pub(crate) names: usize,
    pub(crate) ends: Ends,
    pub(crate) first: Side,
    pub(crate) second: Side,
    pub(crate) out: Side,
    pub(crate) err: Side,
    pub(crate) status: u8,
    pub(crate) extent: Extent,
    pub(crate) room: usize,
    pub(crate) length: Option<usize>,
    /// The SHA-256 of the output.
    pub(crate) digest: Option<&'a str>,
    pub(crate) parts: Vec<PlacedBytes>,
    /// Lines of the output.
    pub(crate) lines: Vec<&'a str>,
    /// The numbers of bytes of both inputs that are not read.
    pub(crate) first_left: Option<usize>,
    pub(crate) second_left: Option<usize>,
}

impl<'a> Row<'a> {
    /// A row before its first line.
    pub(crate) fn new(alloc: Global) -> Row<'a> {
        Row {
            name: "",
            is_given: false,
            words: Vec::new(alloc),
            names: 0,
            ends: Ends::Memory,
            first: Side::new(alloc),
            second: Side::new(alloc),
            out: Side::new(alloc),
            err: Side::new(alloc),
            status: 0,
            extent: Extent::Whole,
            room: ROOM,
            length: None,
            digest: None,
            parts: Vec::new(alloc),
            lines: Vec::new(alloc),
            first_left: None,
            second_left: None,
        }
    }

    /// Whether the row expects something of the output besides its bytes.
    pub(crate) fn has_parts(&self) -> bool {
        self.length.is_some()
            || self.digest.is_some()
            || !self.parts.is_empty()
            || !self.lines.is_empty()
    }

    fn read_name(&mut self, key: &str, name: &'a str) -> Result<()> {
        ensure!(self.name.is_empty(), "a second name");
        self.name = name;
        self.is_given = key == "bytes";
        Ok(())
    }

    fn read_words(&mut self, alloc: Global, words: &str) -> Result<()> {
        for word in words.split(' ') {
            self.words.push(String::from_str(alloc, word)?)?;
        }
        Ok(())
    }

    fn read_number(&mut self, key: &str, value: &str) -> Result<()> {
        let number = value.parse::<usize>()?;
        match key {
            "names" => self.names = number,
            "room" => self.room = number,
            "length" => self.length = Some(number),
            "left" => self.first_left = Some(number),
            _ => self.second_left = Some(number),
        }
        Ok(())
    }

    // Reads a place, and the bytes there.
    fn read_part(&mut self, alloc: Global, value: &str, outputs: &Outputs) -> Result<()> {
        let (place, pieces) = value.split_once(' ').context("a place lacks its bytes")?;
        let place = place.parse::<usize>()?;
        let bytes = read_pieces(alloc, pieces, outputs)?;
        Ok(self.parts.push(PlacedBytes { place, bytes })?)
    }

    // Reads a line that is not about the bytes of an input or an output.
    fn read_rest(
        &mut self,
        alloc: Global,
        key: &str,
        value: &'a str,
        outputs: &Outputs,
    ) -> Result<()> {
        match key {
            "row" | "bytes" => return self.read_name(key, value),
            "words" => return self.read_words(alloc, value),
            "names" | "room" | "length" => return self.read_number(key, value),
            "left" | "left-second" => return self.read_number(key, value),
            "at" => return self.read_part(alloc, value, outputs),
            "status" => self.status = value.parse::<u8>()?,
            "own" => self.ends = Ends::Own,
            "broken" => self.ends = Ends::Broken,
            "beginning" => self.extent = Extent::Beginning,
            "digest" => self.digest = Some(value),
            "line" => self.lines.push(value)?,
            _ => bail!("unknown: {key}"),
        }
        Ok(())
    }

    fn read_line(&mut self, alloc: Global, line: &'a str, outputs: &Outputs) -> Result<()> {
        let (key, value) = line.split_once(' ').unwrap_or((line, ""));
        if let Some(what) = key.strip_prefix("first") {
            self.first.read(alloc, what, value, outputs)
        } else if let Some(what) = key.strip_prefix("second") {
            self.second.read(alloc, what, value, outputs)
        } else if let Some(what) = key.strip_prefix("out") {
            self.out.read(alloc, what, value, outputs)
        } else if let Some(what) = key.strip_prefix("err") {
            self.err.read(alloc, what, value, outputs)
        } else {
            self.read_rest(alloc, key, value, outputs)
        }
    }

    /// Reads the lines of a row, and returns whether any of them is not a comment.
    pub(crate) fn read(
        &mut self,
        alloc: Global,
        stanza: &'a str,
        outputs: &Outputs,
    ) -> Result<bool> {
        let mut is_row = false;
        for line in stanza.lines() {
            if !line.is_empty() && !line.starts_with('#') {
                self.read_line(alloc, line, outputs).context(line)?;
                is_row = true;
            }
        }
        ensure!(!is_row || !self.name.is_empty(), "a row has no name");
        Ok(is_row)
    }
}
