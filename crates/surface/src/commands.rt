// The words of the command line, and `run`.
use cdg_cmd::{Command, Refusal, Split, Status, Which, read_words, run, split};
use cdg_io::{Sink, Source};
use cue_sheet::CueWhy;
use picture_script::ScriptWhy;
use q_channel::line;
use std::alloc::Global;
use subcode_player::Form;

fn parts_of_command(value: &Command) {
    match value {
        Command::Convert { lead_in, form } => {
            let _: (u32, Form) = (*lead_in, *form);
        }
        Command::Screen { lead_in, form, at } => {
            let _: (u32, Form, u32) = (*lead_in, *form, *at);
        }
        Command::State { lead_in, form, at } => {
            let _: (u32, Form, u32) = (*lead_in, *form, *at);
        }
        Command::Check { lead_in, form } => {
            let _: (u32, Form) = (*lead_in, *form);
        }
        Command::Q { lead_in, form } => {
            let _: (u32, Form) = (*lead_in, *form);
        }
        Command::Text { lead_in, form } => {
            let _: (u32, Form) = (*lead_in, *form);
        }
        Command::Author { lead_in, length } => {
            let _: (u32, u32) = (*lead_in, *length);
        }
        Command::Planar => {}
        Command::Raw => {}
        Command::Scratch { lead_in, seed } => {
            let _: (u32, u64) = (*lead_in, *seed);
        }
        Command::Gen { seed, pictures } => {
            let _: (u64, u32) = (*seed, *pictures);
        }
        Command::Trial { seed, pictures } => {
            let _: (u64, u32) = (*seed, *pictures);
        }
        Command::Merge { lead_in } => {
            let _: &u32 = lead_in;
        }
        Command::Thin => {}
        Command::Press { lead_in, length } => {
            let _: (u32, u32) = (*lead_in, *length);
        }
        Command::Save { lead_in } => {
            let _: &u32 = lead_in;
        }
        Command::Resume { at } => {
            let _: &u32 = at;
        }
    }
}

fn parts_of_which(value: &Which) {
    match value {
        Which::First => {}
        Which::Second => {}
    }
}

fn parts_of_status(value: &Status) {
    match value {
        Status::Done => {}
        Status::Damaged(part) => {
            let _: &u32 = part;
        }
        Status::Usage => {}
        Status::Refused(part) => {
            let _: &Refusal = part;
        }
        Status::Late {
            picture,
            need,
            free,
        } => {
            let _: (u32, u32, u32) = (*picture, *need, *free);
        }
        Status::ReadFault(part) => {
            let _: &Which = part;
        }
        Status::WriteFault => {}
        Status::NoMemory => {}
    }
}

fn parts_of_refusal(value: &Refusal) {
    match value {
        Refusal::Torn { block } => {
            let _: &u32 = block;
        }
        Refusal::TooLong => {}
        Refusal::PastEnd { blocks } => {
            let _: &u32 = blocks;
        }
        Refusal::Cue { line, why } => {
            let _: (u32, CueWhy) = (*line, *why);
        }
        Refusal::Script { line, why } => {
            let _: (u32, ScriptWhy) = (*line, *why);
        }
        Refusal::LengthShort { need } => {
            let _: &u32 = need;
        }
        Refusal::DiscTooLong { blocks } => {
            let _: &u32 = blocks;
        }
        Refusal::LeadInShort { need } => {
            let _: &u32 = need;
        }
        Refusal::TextTooLong { packs } => {
            let _: &u32 = packs;
        }
        Refusal::TextMissing { seq } => {
            let _: &u8 = seq;
        }
        Refusal::TextNoSize => {}
        Refusal::TextMalformed { seq, byte } => {
            let _: (u8, u8) = (*seq, *byte);
        }
        Refusal::SecondTorn { block } => {
            let _: &u32 = block;
        }
        Refusal::Unequal { blocks } => {
            let _: &u32 = blocks;
        }
        Refusal::PackTorn { pack } => {
            let _: &u32 = pack;
        }
        Refusal::Gap { track } => {
            let _: &u8 = track;
        }
        Refusal::CdgTooLong { packs, room } => {
            let _: (u32, u32) = (*packs, *room);
        }
        Refusal::BadSave { byte } => {
            let _: &u32 = byte;
        }
        Refusal::BeforeSave { blocks } => {
            let _: &u32 = blocks;
        }
    }
}

fn parts_of_split(value: &Split) {
    let Split { words, names } = value;
    let _: (usize, usize) = (*words, *names);
}

fn calls_of_cdg_cmd() {
    let _: fn(&[String]) -> Option<Command> = read_words;
    let _: fn(&[String]) -> Split = split;
}

fn run_words<S: Source, T: Source, K: Sink, E: Sink>(
    alloc: Global,
    words: &[String],
    first: &mut S,
    second: &mut T,
    out: &mut K,
    err: &mut E,
) -> Status {
    run(alloc, words, first, second, out, err)
}
