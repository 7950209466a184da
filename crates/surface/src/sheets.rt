// Cue sheets, layouts and CD-TEXT.
ghost use Rattle.std.specs.Prelude.{◌<◌, ◌≤◌, length};

use cdtext_packs::{
    Offer, PackStop, TextFault, TextKind, TextMap, TextPack, TextReader, lead_in_symbols, pack_all,
};
use cue_sheet::{CueStop, CueText, CueWhy, Sheet};
use q_channel::{QFrame, line};
use std::alloc::{AllocError, Global};
use stream_writer::texts_of_sheet;
use toc_model::{Layout, LayoutStop};

fn parts_of_cue_stop(value: &CueStop) {
    match value {
        CueStop::Fault { line, why } => {
            let _: (u32, CueWhy) = (*line, *why);
        }
        CueStop::NoMemory => {}
    }
}

fn parts_of_cue_why(value: &CueWhy) {
    match value {
        CueWhy::UnknownCommand => {}
        CueWhy::SecondFile => {}
        CueWhy::Misplaced => {}
        CueWhy::BadArgument => {}
        CueWhy::Repeated => {}
        CueWhy::NoIndex => {}
        CueWhy::NotAudio => {}
        CueWhy::NumberOrder => {}
        CueWhy::IndexOrder => {}
        CueWhy::TimeOrder => {}
        CueWhy::NoFile => {}
        CueWhy::NoTrack => {}
    }
}

fn parts_of_cue_text(value: &CueText) {
    match value {
        CueText::Title => {}
        CueText::Performer => {}
        CueText::Songwriter => {}
    }
}

fn calls_of_cue_sheet() {
    let _: fn(Global, &[u8]) -> Result<Sheet, CueStop> = Sheet::parse;
    let _: fn(&Sheet) -> usize = Sheet::tracks;
    let _: fn(&Sheet) -> u8 = Sheet::first;
    let _: fn(&Sheet, usize) -> u8 = Sheet::control;
    let _: fn(&Sheet, usize) -> u32 = Sheet::pregap;
    let _: fn(&Sheet, usize) -> u32 = Sheet::postgap;
    let _: fn(&Sheet, usize) -> usize = Sheet::indices;
    let _: fn(&Sheet, usize, usize) -> (u8, u32) = Sheet::index;
}

fn parts_of_layout_stop(value: &LayoutStop) {
    match value {
        LayoutStop::LengthShort { need } => {
            let _: &u32 = need;
        }
        LayoutStop::DiscTooLong { blocks } => {
            let _: &u32 = blocks;
        }
        LayoutStop::NoMemory => {}
    }
}

fn calls_of_toc_model() {
    let _: fn(Global, &Sheet, u32) -> Result<Layout, LayoutStop> = Layout::from_cue;
    let _: fn(&Layout) -> u32 = Layout::blocks;
    let _: fn(&Layout, u32) -> QFrame = Layout::program_frame;
    let _: fn(&Layout, u32) -> bool = Layout::p_bit;
    let _: fn(&Layout) -> u32 = Layout::toc_blocks;
    let _: fn(&Layout, u32, u32) -> QFrame = Layout::toc_frame;
}

fn parts_of_text_kind(value: &TextKind) {
    match value {
        TextKind::Title => {}
        TextKind::Performer => {}
        TextKind::Songwriter => {}
        TextKind::Composer => {}
        TextKind::Arranger => {}
        TextKind::Message => {}
        TextKind::Code => {}
    }
}

fn parts_of_pack_stop(value: &PackStop) {
    match value {
        PackStop::TooMany { packs } => {
            let _: &u32 = packs;
        }
        PackStop::NoMemory => {}
    }
}

fn parts_of_text_fault(value: &TextFault) {
    match value {
        TextFault::Missing { seq } => {
            let _: &u8 = seq;
        }
        TextFault::NoSize => {}
        TextFault::Malformed { seq, byte } => {
            let _: (u8, u8) = (*seq, *byte);
        }
        TextFault::NoMemory => {}
    }
}

fn parts_of_offer(value: &Offer) {
    match value {
        Offer::Kept => {}
        Offer::Again => {}
        Offer::BadCrc => {}
        Offer::OtherBlock => {}
    }
}

fn calls_of_cdtext_packs() {
    let _: fn(&TextMap) -> u8 = TextMap::first;
    let _: fn(&TextMap) -> u8 = TextMap::last;
    let _: fn(Global, &TextMap) -> Result<Vec<TextPack>, PackStop> = pack_all;
    let _: fn(&TextPack) -> [u8; 18] = TextPack::bytes;
    let _: fn(&[TextPack], u32) -> [u8; 96] = lead_in_symbols;
    let _: fn(Global) -> Result<TextReader, AllocError> = TextReader::start;
    let _: fn(&mut TextReader) = TextReader::reset;
    let _: fn(&mut TextReader, &[u8; 18]) -> Offer = TextReader::offer;
    let _: fn(&TextReader, Global) -> Result<TextMap, TextFault> = TextReader::finish;
}

fn calls_of_stream_writer() {
    let _: fn(Global, &Sheet) -> Result<TextMap, AllocError> = texts_of_sheet;
}

fn catalogue(sheet: &Sheet) -> Option<&[u8]> {
    sheet.catalogue()
}

fn sheet_text(sheet: &Sheet, kind: CueText, place: usize) -> &[u8]
    requires { place ≤ length sheet.now.tracks }
{
    sheet.text(kind, place)
}

fn isrc(sheet: &Sheet, k: usize) -> Option<&[u8]>
    requires { k < length sheet.now.tracks }
{
    sheet.isrc(k)
}

fn map_text(map: &TextMap, kind: TextKind, track: u8) -> &[u8] {
    map.text(kind, track)
}
