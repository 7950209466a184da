// The packs and the texts of a lead-in.
ghost use Rattle.std.specs.Prelude.{◌≡◌, ◌≢◌, ◌<◌, ◌≤◌, ◌↔◌, ◌++◌, ◌+◌, ◌*◌, IsTrue, IfOk, IfErr, Ok, Some, pos, length, take, drop};
ghost use Rattle.cdg_io.specs.Causes.{HasCause, Rose, ReportsFault};
ghost use Rattle.disc_time.specs.Counts.{most_lead_in};
ghost use Rattle.cdtext_packs.specs.Reading.{read_texts};
ghost use Rattle.cdtext_packs.specs.TextLines.{counted_lines};
ghost use Rattle.cdtext_packs.specs.TextSteps.{HasRead};
ghost use Rattle.cdtext_packs.specs.Texts.{Texts};
ghost use Rattle.cdtext_packs.specs.declared.kinds.TextFault.{TextFault};
ghost use Rattle.ribjasper_c.specs.Conversions.{stream_form};
ghost use Rattle.ribjasper_c.specs.LeadIns.{fault_answer, listed_fault, ArePacksOf, WritesTextsOfLeadIn};
ghost use Rattle.stream_stages.specs.TextListing.{packs_in, IsTextFault, IsTextListed, IsWholeInput, texts_of_lead_in};

use crate::answers::{
    DONE, NO_MEMORY, REFUSED, TEXT_MALFORMED, TEXT_MISSING, TEXT_NO_SIZE, USAGE, WRITE_FAULT,
};
use crate::converting::{copy_front, stream_form};
use block_survey::{block_at, unit_bytes};
use cdg_io::{Failed, Sink, Stage};
use cdtext_packs::{LeadInTexts, TextFault, TextMap, lead_in_packs_are_read, write_lines};
use disc_time::MOST_LEAD_IN;
use raw_subcode::{BLOCK_BYTES, Block, Form, MOST_UNITS};
use std::alloc::{AllocError, Global};
use subcode_author::Heap;

/// The report of the texts of a lead-in.
#[repr(C)]
#[derive(Clone, Copy)]
pub struct Listed {
    /// The number of bytes that were written.
    pub bytes: u64,
    /// The number of the pack that is missing or malformed.
    pub seq: u32,
    /// The number of its invalid byte.
    pub byte: u32,
}

/// Writes the four text packs of a block, one after another.
#[unsafe(no_mangle)]
pub extern "C" fn ribjasper_block_text_packs(block: &[u8; BLOCK_BYTES], packs: &mut [u8; 72])
    ensures { ArePacksOf block.now packs.new }
{
    let block = Block::from_bytes(block);
    for k in 0..4 {
        put_pack(packs, k, &block.text_pack(k));
    }
}

// Puts a pack in its place.
fn put_pack(packs: &mut [u8; 72], k: usize, pack: &[u8; 18])
    requires { k < 4 }
    ensures put { packs.new ≡ take (18 * k) packs.old ++ pack.now ++ drop (18 * k + 18) packs.old }
    ensures size { length pack.now ≡ 18 }
{
    packs[18 * k..18 * k + 18].copy_from_slice(pack);
}

/// Writes the lines of the texts of a lead-in to the front of a buffer. The result is an exit status of the program,
/// or says why the texts are refused.
#[unsafe(no_mangle)]
pub extern "C" fn ribjasper_texts(
    alloc: Global,
    stream: &[u8],
    form: u32,
    lead_in: u32,
    out: &mut [u8],
    listed: &mut Listed,
) -> i32
    ensures { WritesTextsOfLeadIn stream.now form lead_in out.old out.new listed.old listed.new result }
{
    texts_in(&mut Heap::new(alloc), stream, form, lead_in, out, listed)
}

// Does the work of `ribjasper_texts`. The heap counts failed requests for memory.
fn texts_in(
    heap: &mut Heap,
    stream: &[u8],
    form: u32,
    lead_in: u32,
    out: &mut [u8],
    listed: &mut Listed,
) -> i32
    ensures writes { WritesTextsOfLeadIn stream.now form lead_in
        out.old out.new listed.old listed.new result }
    // The answer is 7 exactly if a request for memory failed.
    ensures allocations { result ≡ pos 7 → Rose heap.old heap.new }
    ensures found { result ≢ pos 7 → heap.new ≡ heap.old }
{
    if form == 1 || form > 2 || lead_in > MOST_LEAD_IN {
        return USAGE;
    }
    let form = stream_form(form);
    if !is_whole(form, stream) {
        return REFUSED;
    }
    let lines = match lines_of(heap, form, lead_in, stream) {
        Ok(lines) => lines,
        Err(fault) => return refuse(fault, listed),
    };
    if lines.len() > out.len() {
        return WRITE_FAULT;
    }
    copy_front(&lines, out);
    *listed = Listed {
        bytes: lines.len() as u64,
        seq: 0,
        byte: 0,
    };
    DONE
}

// Whether a stream has whole units, and not too many.
fn is_whole(form: Form, stream: &[u8]) -> bool
    ensures { IsTrue result ↔ IsWholeInput form stream.now }
{
    let size = unit_bytes(form);
    stream.len() <= MOST_UNITS as usize * size && stream.len() % size == 0
}

// Reports why texts are refused.
fn refuse(fault: TextFault, listed: &mut Listed) -> i32
    ensures answer { result ≡ fault_answer fault }
    ensures listed { fault ≢ TextFault.NoMemory → listed.new ≡ listed_fault fault }
    ensures same { fault ≡ TextFault.NoMemory → listed.new ≡ listed.old }
{
    match fault {
        TextFault::Missing { seq } => {
            list_fault(listed, seq, 0);
            TEXT_MISSING
        }
        TextFault::NoSize => {
            list_fault(listed, 0, 0);
            TEXT_NO_SIZE
        }
        TextFault::Malformed { seq, byte } => {
            list_fault(listed, seq, byte);
            TEXT_MALFORMED
        }
        TextFault::NoMemory => NO_MEMORY,
    }
}

// Reports a pack and one of its bytes, and no written bytes.
fn list_fault(listed: &mut Listed, seq: u8, byte: u8)
    ensures { listed.new ≡ record { bytes = 0; seq = seq; byte = byte } }
{
    *listed = Listed {
        bytes: 0,
        seq: u32::from(seq),
        byte: u32::from(byte),
    };
}

fn lines_of(heap: &mut Heap, form: Form, lead_in: u32, stream: &[u8]) -> Result<Vec<u8>, TextFault>
    requires { lead_in ≤ most_lead_in }
    ensures lines { IfOk result (λ lines. IsTextListed form lead_in stream.now lines.items 0) }
    ensures fault { IfErr result (λ fault. IsTextFault fault (texts_of_lead_in form lead_in stream.now)) }
    ensures allocations { ReportsFault TextFault.NoMemory heap.old heap.new result }
{
    let mut texts = LeadInTexts::start();
    read_lead_in(&mut texts, form, lead_in, stream);
    let lines = write_texts(heap, &texts);
    drop(texts);
    lines
}

// Reads the packs of a lead-in.
fn read_lead_in(texts: &mut LeadInTexts, form: Form, lead_in: u32, stream: &[u8])
    requires { lead_in ≤ most_lead_in }
    ensures { HasRead (packs_in form lead_in stream.now) texts.new }
{
    lead_in_packs_are_read();
    texts.begin(lead_in);
    let blocks = stream.len() / unit_bytes(form);
    for b in 0..blocks.min(lead_in as usize) {
        texts.feed(&block_at(form, stream, b));
    }
}

// Writes the lines of the texts that were read.
fn write_texts(heap: &mut Heap, texts: &LeadInTexts) -> Result<Vec<u8>, TextFault>
    ensures lines { IfOk result (λ lines. (map : Texts) × (read_texts texts.now.reader ≡ Ok map)
        × (lines.items ≡ counted_lines map texts.now.good texts.now.bad texts.now.other)) }
    ensures fault { IfErr result (λ fault. IsTextFault fault (read_texts texts.now.reader)) }
    ensures allocations { ReportsFault TextFault.NoMemory heap.old heap.new result }
{
    let map = match finish(heap, texts) {
        Ok(map) => map,
        Err(fault) => return Err(fault),
    };
    let lines = write_map(heap, texts, &map);
    drop(map);
    match lines {
        Ok(lines) => Ok(lines),
        Err(_) => Err(TextFault::NoMemory),
    }
}

// The map of the texts that were read.
fn finish(heap: &mut Heap, texts: &LeadInTexts) -> Result<TextMap, TextFault>
    ensures texts { IfOk result (λ map. read_texts texts.now.reader ≡ Ok map) }
    ensures fault { IfErr result (λ fault. IsTextFault fault (read_texts texts.now.reader)) }
    ensures allocations { ReportsFault TextFault.NoMemory heap.old heap.new result }
{
    heap.asked(|alloc| texts.reader.finish(alloc))
}

// Writes the lines of a map of texts.
fn write_map(heap: &mut Heap, texts: &LeadInTexts, map: &TextMap) -> Result<Vec<u8>, AllocError>
    ensures lines { IfOk result (λ lines.
        lines.items ≡ counted_lines map.now texts.now.good texts.now.bad texts.now.other) }
    ensures counted { HasCause heap.old heap.new result }
{
    let mut lines = LineSink {
        bytes: heap.empty_vec(),
        heap: heap.take(),
    };
    let written = write_lines(map, texts.good, texts.bad, texts.other, &mut lines);
    let LineSink { bytes, heap: left } = lines;
    *heap = left;
    match written {
        Ok(()) => Ok(bytes),
        Err(Failed) => {
            drop(bytes);
            Err(AllocError)
        }
    }
}

// A sink that grows with its content. It fails only if it is out of memory.
#[derive(Drop)]
struct LineSink {
    bytes: Vec<u8>,
    heap: Heap,
}

impl Sink for LineSink {
    ghost held = { λ s. Some s.bytes.items };

    ghost faults = { λ s. s.heap };

    fn put(&mut self, piece: &[u8]) -> Result<usize, Failed> {
        let grown = self
            .heap
            .asked_with(&mut self.bytes, &mut (), |_, bytes, _| {
                bytes.extend_from_slice(piece)
            });
        match grown {
            Ok(()) => Ok(piece.len()),
            Err(AllocError) => Err(Failed),
        }
    }
}
