// Player, author, generator, merge, press, thin and checkpoints.
ghost use Rattle.std.specs.Prelude.{◌≢◌, ◌≤◌, length};
ghost use Rattle.raw_subcode.specs.declared.form.Form.{Form};

use cdg_checkpoint::{Checkpointer, ResumeStop, Resumed};
use cdg_io::{Failed, PumpStop, Pumped, Sink, Source};
use cdg_press::{PressStop, Thinner, press_stream};
use cdg_workload::{scratch, write_script};
use cdtext_packs::TextFault;
use cue_sheet::Sheet;
use picture_script::Script;
use rw_code::{Pack, Word};
use rw_merge::{MergeStop, Merged, Merger, agree};
use std::alloc::{AllocError, Global};
use subcode_player::{AuthorStop, Form, PlayStop, Played, Player, author_stream};

fn parts_of_play_stop(value: &PlayStop) {
    match value {
        PlayStop::ReadFault => {}
        PlayStop::WriteFault => {}
        PlayStop::Torn { block } => {
            let _: &u32 = block;
        }
        PlayStop::TooLong => {}
        PlayStop::PastEnd { blocks } => {
            let _: &u32 = blocks;
        }
        PlayStop::Text(part) => {
            let _: &TextFault = part;
        }
    }
}

fn parts_of_author_stop(value: &AuthorStop) {
    match value {
        AuthorStop::LengthShort { need } => {
            let _: &u32 = need;
        }
        AuthorStop::DiscTooLong { blocks } => {
            let _: &u32 = blocks;
        }
        AuthorStop::PastEnd { blocks } => {
            let _: &u32 = blocks;
        }
        AuthorStop::TextTooLong { packs } => {
            let _: &u32 = packs;
        }
        AuthorStop::LeadInShort { need } => {
            let _: &u32 = need;
        }
        AuthorStop::Late {
            picture,
            need,
            free,
        } => {
            let _: (u32, u32, u32) = (*picture, *need, *free);
        }
        AuthorStop::WriteFault => {}
        AuthorStop::NoMemory => {}
    }
}

fn parts_of_form(value: &Form) {
    match value {
        Form::Raw => {}
        Form::Sector => {}
        Form::Cooked => {}
    }
}

fn parts_of_played(value: &Played) {
    let Played { blocks, bad } = value;
    let _: (u32, u32) = (*blocks, *bad);
}

fn calls_of_subcode_player() {
    let _: fn(Global) -> Result<Player, AllocError> = Player::start;
}

fn parts_of_merge_stop(value: &MergeStop) {
    match value {
        MergeStop::FirstFault => {}
        MergeStop::SecondFault => {}
        MergeStop::WriteFault => {}
        MergeStop::TooLong => {}
        MergeStop::Torn { block } => {
            let _: &u32 = block;
        }
        MergeStop::SecondTorn { block } => {
            let _: &u32 = block;
        }
        MergeStop::Unequal { blocks } => {
            let _: &u32 = blocks;
        }
    }
}

fn parts_of_merged(value: &Merged) {
    let Merged { blocks, bad } = value;
    let _: (u32, u32) = (*blocks, *bad);
}

fn calls_of_rw_merge() {
    let _: fn(&Word, &Word) -> Option<Pack> = agree;
    let _: fn(Global) -> Result<Merger, AllocError> = Merger::start;
}

fn parts_of_press_stop(value: &PressStop) {
    match value {
        PressStop::PackTorn { pack } => {
            let _: &u32 = pack;
        }
        PressStop::LengthShort { need } => {
            let _: &u32 = need;
        }
        PressStop::DiscTooLong { blocks } => {
            let _: &u32 = blocks;
        }
        PressStop::Gap { track } => {
            let _: &u8 = track;
        }
        PressStop::CdgTooLong { packs, room } => {
            let _: (u32, u32) = (*packs, *room);
        }
        PressStop::TextTooLong { packs } => {
            let _: &u32 = packs;
        }
        PressStop::LeadInShort { need } => {
            let _: &u32 = need;
        }
        PressStop::WriteFault => {}
        PressStop::NoMemory => {}
    }
}

fn calls_of_cdg_press() {
    let _: fn(Global) -> Result<Thinner, AllocError> = Thinner::start;
}

fn parts_of_resume_stop(value: &ResumeStop) {
    match value {
        ResumeStop::FirstFault => {}
        ResumeStop::SecondFault => {}
        ResumeStop::WriteFault => {}
        ResumeStop::BadSave { byte } => {
            let _: &u32 = byte;
        }
        ResumeStop::BeforeSave { blocks } => {
            let _: &u32 = blocks;
        }
        ResumeStop::Torn { block } => {
            let _: &u32 = block;
        }
        ResumeStop::TooLong => {}
        ResumeStop::PastEnd { blocks } => {
            let _: &u32 = blocks;
        }
    }
}

fn parts_of_resumed(value: &Resumed) {
    let Resumed { blocks, bad } = value;
    let _: (u32, u32) = (*blocks, *bad);
}

fn calls_of_cdg_checkpoint() {
    let _: fn(Global) -> Result<Checkpointer, AllocError> = Checkpointer::start;
}

fn convert<S: Source, K: Sink>(
    player: &mut Player,
    lead_in: u32,
    form: Form,
    source: &mut S,
    out: &mut K,
) -> Result<Played, PlayStop>
    requires { lead_in ≤ 450000 }
{
    player.convert(lead_in, form, source, out)
}

fn screen_at<S: Source, K: Sink>(
    player: &mut Player,
    lead_in: u32,
    form: Form,
    at: u32,
    source: &mut S,
    out: &mut K,
) -> Result<Played, PlayStop>
    requires lead_in { lead_in ≤ 450000 }
    requires at { at ≤ 449999 }
{
    player.screen_at(lead_in, form, at, source, out)
}

fn state_at<S: Source, K: Sink>(
    player: &mut Player,
    lead_in: u32,
    form: Form,
    at: u32,
    source: &mut S,
    out: &mut K,
) -> Result<Played, PlayStop>
    requires lead_in { lead_in ≤ 450000 }
    requires at { at ≤ 449999 }
{
    player.state_at(lead_in, form, at, source, out)
}

fn check<S: Source, K: Sink>(
    player: &mut Player,
    lead_in: u32,
    form: Form,
    source: &mut S,
    out: &mut K,
) -> Result<Played, PlayStop>
    requires { lead_in ≤ 450000 }
{
    player.check(lead_in, form, source, out)
}

fn q_list<S: Source, K: Sink>(
    player: &mut Player,
    lead_in: u32,
    form: Form,
    source: &mut S,
    out: &mut K,
) -> Result<Played, PlayStop>
    requires lead_in { lead_in ≤ 450000 }
    requires form { form ≢ Form.Cooked }
{
    player.q_list(lead_in, form, source, out)
}

fn text_list<S: Source, K: Sink>(
    player: &mut Player,
    alloc: Global,
    lead_in: u32,
    form: Form,
    source: &mut S,
    out: &mut K,
) -> Result<Played, PlayStop>
    requires lead_in { lead_in ≤ 450000 }
    requires form { form ≢ Form.Cooked }
{
    player.text_list(alloc, lead_in, form, source, out)
}

fn author<K: Sink>(
    alloc: Global,
    sheet: &Sheet,
    script: &Script,
    lead_in: u32,
    length: u32,
    out: &mut K,
) -> Result<(), AuthorStop>
    requires lead_in { lead_in ≤ 450000 }
    requires length { length ≤ 449999 }
{
    author_stream(alloc, sheet, script, lead_in, length, out)
}

fn generate<K: Sink>(seed: u64, pictures: u32, out: &mut K) -> Result<(), Failed>
    requires { (1 ≤ pictures) × (pictures ≤ 500) }
{
    write_script(seed, pictures, out)
}

fn scratch_all<S: Source, K: Sink>(
    lead_in: u32,
    seed: u64,
    source: &mut S,
    out: &mut K,
) -> Result<Pumped, PumpStop>
    requires { lead_in ≤ 450000 }
{
    scratch(lead_in, seed, source, out)
}

fn merge<S: Source, T: Source, K: Sink>(
    merger: &mut Merger,
    lead_in: u32,
    first: &mut S,
    second: &mut T,
    out: &mut K,
) -> Result<Merged, MergeStop>
    requires { lead_in ≤ 450000 }
{
    merger.run(lead_in, first, second, out)
}

fn press<K: Sink>(
    alloc: Global,
    sheet: &Sheet,
    cdg: &[u8],
    lead_in: u32,
    audio: u32,
    out: &mut K,
) -> Result<(), PressStop>
    requires lead_in { lead_in ≤ 450000 }
    requires audio { audio ≤ 449999 }
    requires file { length cdg.now ≤ 67108864 }
{
    press_stream(alloc, sheet, cdg, lead_in, audio, out)
}

fn thin<S: Source, K: Sink>(
    thinner: &mut Thinner,
    source: &mut S,
    out: &mut K,
) -> Result<Pumped, PumpStop> {
    thinner.run(source, out)
}

fn save<S: Source, K: Sink>(
    checkpointer: &mut Checkpointer,
    lead_in: u32,
    source: &mut S,
    out: &mut K,
) -> Result<Pumped, PumpStop>
    requires { lead_in ≤ 450000 }
{
    checkpointer.save(lead_in, source, out)
}

fn resume<S: Source, T: Source, K: Sink>(
    checkpointer: &mut Checkpointer,
    at: u32,
    saved: &mut S,
    rest: &mut T,
    out: &mut K,
) -> Result<Resumed, ResumeStop>
    requires { at ≤ 449999 }
{
    checkpointer.resume(at, saved, rest, out)
}
