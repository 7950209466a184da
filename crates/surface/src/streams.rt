// Sources, sinks, stages, blocks, times and Q frames.
ghost use Rattle.std.specs.Prelude.{◌≡◌, ◌≤◌, ◌++◌, Bool, List, length};
ghost use Rattle.bit_lists.specs.Check.{IsChecked};

use cdg_io::{
    Failed, MemSink, MemSource, Piece, PumpStop, Pumped, ReadSource, ReadStop, Sink, Source, Stage,
    SteadySink, SteadySource, Then, WriteSink, pump, put_all, read_whole,
};
use disc_time::{Msf, bursts_fail_the_check, crc16, from_bcd, parse_time, to_bcd};
use q_channel::{QFault, QFrame, TocPoint, decode, encode, line};
use raw_subcode::{Block, text_symbols};
use std::alloc::{AllocError, Global};
use std::io::{Read, Write};

fn parts_of_pump_stop(value: &PumpStop) {
    match value {
        PumpStop::ReadFault => {}
        PumpStop::WriteFault => {}
        PumpStop::Torn { unit } => {
            let _: &u32 = unit;
        }
        PumpStop::TooLong => {}
    }
}

fn parts_of_read_stop(value: &ReadStop) {
    match value {
        ReadStop::Failed => {}
        ReadStop::TooLong => {}
        ReadStop::NoMemory => {}
    }
}

fn parts_of_pumped(value: &Pumped) {
    let Pumped { units } = value;
    let _: &u32 = units;
}

fn calls_of_cdg_io() {
    let _: fn(Vec<u8>, Vec<usize>, Vec<u32>) -> MemSource = MemSource::new;
    let _: fn(Global, usize, Vec<usize>, Vec<u32>) -> Result<MemSink, AllocError> = MemSink::new;
    let _: fn() -> SteadySink = SteadySink::new;
    let _: fn() -> Piece = Piece::new;
    let _: fn(&mut Piece, &[u8]) = Piece::add;
}

fn calls_of_raw_subcode() {
    let _: fn(&[u8; 96]) -> Block = Block::from_bytes;
    let _: fn(&Block) -> [u8; 96] = Block::bytes;
    let _: fn(&Block, usize) -> u8 = Block::symbol;
    let _: fn(&Block, u8, usize) -> bool = Block::bit;
    let _: fn(&Block) -> [u8; 12] = Block::q_frame;
    let _: fn(&Block, usize) -> [u8; 18] = Block::text_pack;
    let _: fn(&[u8; 18]) -> [u8; 24] = text_symbols;
    let _: fn(bool, &[u8; 12], &[u8; 96]) -> Block = Block::build;
    let _: fn(&Block) -> [u8; 96] = Block::to_planar;
    let _: fn(&[u8; 96]) -> Block = Block::from_planar;
    let _: fn(&[u8; 2448]) -> Block = Block::from_sector;
}

fn calls_of_disc_time() {
    let _: fn(u8, u8, u8) -> Option<Msf> = Msf::new;
    let _: fn(&Msf) -> u8 = Msf::min;
    let _: fn(&Msf) -> u8 = Msf::sec;
    let _: fn(&Msf) -> u8 = Msf::frame;
    let _: fn(u32) -> Msf = Msf::of_block;
    let _: fn(&Msf) -> u32 = Msf::block;
    let _: fn(&Msf) -> [u8; 8] = Msf::text;
    let _: fn(u8) -> u8 = to_bcd;
    let _: fn(u8) -> Option<u8> = from_bcd;
    let _: fn(&[u8]) -> Option<u32> = parse_time;
    let _: fn(&[u8]) -> u16 = crc16;
}

fn parts_of_q_frame(value: &QFrame) {
    match value {
        QFrame::Program {
            control,
            track,
            index,
            time,
            absolute,
        } => {
            let _: (u8, u8, u8, Msf, Msf) = (*control, *track, *index, *time, *absolute);
        }
        QFrame::Toc {
            control,
            point,
            time,
        } => {
            let _: (u8, TocPoint, Msf) = (*control, *point, *time);
        }
        QFrame::Catalogue {
            control,
            digits,
            frame,
        } => {
            let _: (u8, [u8; 13], u8) = (*control, *digits, *frame);
        }
        QFrame::Isrc {
            control,
            code,
            frame,
        } => {
            let _: (u8, [u8; 12], u8) = (*control, *code, *frame);
        }
        QFrame::Other { control, adr, rest } => {
            let _: (u8, u8, [u8; 9]) = (*control, *adr, *rest);
        }
    }
}

fn parts_of_toc_point(value: &TocPoint) {
    match value {
        TocPoint::Track { number, start } => {
            let _: (u8, Msf) = (*number, *start);
        }
        TocPoint::First { track, kind } => {
            let _: (u8, u8) = (*track, *kind);
        }
        TocPoint::Last { track } => {
            let _: &u8 = track;
        }
        TocPoint::LeadOut { start } => {
            let _: &Msf = start;
        }
    }
}

fn parts_of_q_fault(value: &QFault) {
    match value {
        QFault::BadCrc => {}
        QFault::BadField { bit } => {
            let _: &u8 = bit;
        }
    }
}

fn calls_of_q_channel() {
    let _: fn(&QFrame) -> [u8; 12] = encode;
    let _: fn(&[u8; 12]) -> Result<QFrame, QFault> = decode;
    let _: fn(u32, &Result<QFrame, QFault>) -> Piece = line;
}

fn steady<'a>(bytes: &'a [u8]) -> SteadySource<'a> {
    SteadySource::new(bytes)
}

fn read<R: Read>(reader: R) -> ReadSource<R> {
    ReadSource::new(reader)
}

fn write<W: Write>(writer: W) -> WriteSink<W> {
    WriteSink::new(writer)
}

fn bytes_left(source: &MemSource) -> &[u8] {
    source.rest()
}

fn bytes_held(sink: &MemSink) -> &[u8] {
    sink.bytes()
}

fn bytes_of(piece: &Piece) -> &[u8] {
    piece.bytes()
}

fn read_all<S: Source>(alloc: Global, source: &mut S, limit: usize) -> Result<Vec<u8>, ReadStop> {
    read_whole(alloc, source, limit)
}

fn put_whole<K: Sink>(out: &mut K, piece: &[u8]) -> Result<(), Failed> {
    put_all(out, piece)
}

// Calls of sources and sinks through their traits.
fn take<S: Source>(source: &mut S, buf: &mut [u8; 1]) -> Result<usize, Failed> {
    source.take(buf)
}

fn put<K: Sink>(sink: &mut K, piece: &[u8; 1]) -> Result<usize, Failed> {
    sink.put(piece)
}

// Calls of stages through their trait: single stages, and stages one behind another.
fn feed<I, O, G: Stage<Item = I, Out = O>>(stage: &mut G, item: &I) -> Option<O> {
    stage.feed(item)
}

fn then<A: Stage, B: Stage<Item = A::Out>>(first: A, second: B) -> (A, B)
where
    A::Out: Drop,
    B::Out: Drop,
{
    let Then { first, second } = Then::new(first, second);
    (first, second)
}

fn pumped_of<S: Source, G: Stage<Item = [u8; 4096], Out = Piece>, K: Sink>(
    source: &mut S,
    stage: &mut G,
    out: &mut K,
) -> Result<Pumped, PumpStop> {
    pump::<4096, S, G, K>(source, 1, stage, out)
}

// The law on bursts in a check.
fn bursts()
    ensures { (before one other after : List Bool) → length one ≤ 16 → length other ≡ length one
        → IsChecked (before ++ one ++ after) → IsChecked (before ++ other ++ after) → one ≡ other }
{
    bursts_fail_the_check();
}
