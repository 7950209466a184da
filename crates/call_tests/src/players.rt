// The fields of a player: windows and counts, and nothing that could hold a stream. Also calls that a fault
// stops, and the calls after them.
use cdg_io::{MemSink, MemSource, Then};
use cdg_screen::Screen;
use cdtext_packs::{LeadInTexts, TextReader};
use rw_interleave::Gather;
use std::alloc::{AllocError, Global};
use std::test::Fail;
use stream_stages::{
    BlockPacks, BlockWords, Checker, Converter, Counting, FrameCounts, Painting, SectorBlocks,
    TextLister, Viewer, WordCounts,
};
use subcode_player::{Form, PlayStop, Played, Player};

// A player has these fields and no others, so it can hold no stream.
fn see_player(player: &Player) {
    let Player {
        converter,
        viewer,
        checker,
        lister,
    } = player;
    let Converter { stages } = converter;
    see_packs(stages);
    let Viewer { views } = viewer;
    see_all_views(views);
    let Checker { checks } = checker;
    see_checks(checks);
    let TextLister { texts } = lister;
    see_texts(texts);
}

fn see_texts(texts: &SectorBlocks<LeadInTexts>) {
    let SectorBlocks { blocks } = texts;
    let LeadInTexts {
        left,
        reader,
        good,
        bad,
        other,
    } = blocks;
    let _left: &u32 = left;
    let _reader: &TextReader = reader;
    let _good: &u32 = good;
    let _bad: &u32 = bad;
    let _other: &u32 = other;
}

fn see_checks(checks: &SectorBlocks<Counting>) {
    let SectorBlocks { blocks } = checks;
    let Counting { frames, words } = blocks;
    see_frames(frames);
    see_counted_words(words);
}

fn see_frames(frames: &FrameCounts) {
    let FrameCounts { read, good, bad } = frames;
    let _read: &bool = read;
    let _good: &u32 = good;
    let _bad: &u32 = bad;
}

fn see_counted_words(words: &Then<BlockWords, WordCounts>) {
    let Then { first, second } = words;
    see_words(first);
    see_counts(second);
}

fn see_counts(counts: &WordCounts) {
    let WordCounts {
        clean,
        one,
        two,
        bad,
        idle,
        graphics,
        unknown,
        foreign,
    } = counts;
    let _clean: &u32 = clean;
    let _one: &u32 = one;
    let _two: &u32 = two;
    let _bad: &u32 = bad;
    let _idle: &u32 = idle;
    let _graphics: &u32 = graphics;
    let _unknown: &u32 = unknown;
    let _foreign: &u32 = foreign;
}

fn see_packs(stages: &SectorBlocks<BlockPacks>) {
    let SectorBlocks { blocks } = stages;
    let BlockPacks { words, bad } = blocks;
    see_words(words);
    let _bad: &u32 = bad;
}

fn see_all_views(views: &SectorBlocks<Then<BlockWords, Painting>>) {
    let SectorBlocks { blocks } = views;
    see_views(blocks);
}

fn see_views(views: &Then<BlockWords, Painting>) {
    let Then { first, second } = views;
    see_words(first);
    see_painting(second);
}

fn see_painting(painting: &Painting) {
    let Painting { screen, left, bad } = painting;
    let _screen: &Screen = screen;
    let _left: &u32 = left;
    let _bad: &u32 = bad;
}

fn see_words(words: &BlockWords) {
    let BlockWords {
        form,
        lead_in,
        gather,
    } = words;
    let _form: &Form = form;
    let _lead_in: &u32 = lead_in;
    let _gather: &Gather = gather;
}

#[test]
fn a_player_is_made_of_windows_and_counts(rt: HostRuntime) -> Result<(), Fail> {
    let alloc = rt.alloc();
    let mut player = Player::start(alloc)?;
    see_player(&player);
    assert!(rt; is_as_new(alloc, &mut player)?);
    Ok(())
}

const FAULT: Result<Played, PlayStop> = Err(PlayStop::ReadFault);

// A source of five blocks of zeros, of which the third cannot be read.
fn failing(alloc: Global) -> Result<MemSource, AllocError> {
    let bytes = vec![in alloc; 0u8; 480]?;
    Ok(MemSource::new(bytes, vec![in alloc; 96usize]?, vec![in alloc; 2u32]?))
}

fn sink(alloc: Global, room: usize) -> Result<MemSink, AllocError> {
    MemSink::new(alloc, room, Vec::new(alloc), Vec::new(alloc))
}

#[derive(Clone, Copy)]
enum StoppedCall {
    Convert,
    Screen,
    State,
    Check,
    QList,
    TextList,
}

const CALLS: [StoppedCall; 6] = [
    StoppedCall::Convert,
    StoppedCall::Screen,
    StoppedCall::State,
    StoppedCall::Check,
    StoppedCall::QList,
    StoppedCall::TextList,
];

// Whether the fault stops the call.
fn stops(alloc: Global, call: StoppedCall, player: &mut Player) -> Result<bool, AllocError> {
    let (source, sink) = (&mut failing(alloc)?, &mut sink(alloc, 4096)?);
    let answer = match call {
        StoppedCall::Convert => player.convert(0, Form::Raw, source, sink),
        StoppedCall::Screen => player.screen_at(0, Form::Raw, 2, source, sink),
        StoppedCall::State => player.state_at(0, Form::Raw, 2, source, sink),
        StoppedCall::Check => player.check(0, Form::Raw, source, sink),
        StoppedCall::QList => player.q_list(0, Form::Raw, source, sink),
        StoppedCall::TextList => player.text_list(alloc, 2, Form::Raw, source, sink),
    };
    Ok(answer == FAULT)
}

// Whether two blocks of zeros give one pack of zeros.
fn is_as_new(alloc: Global, player: &mut Player) -> Result<bool, AllocError> {
    let mut source = MemSource::new(vec![in alloc; 0u8; 192]?, Vec::new(alloc), Vec::new(alloc));
    let mut sink = sink(alloc, 24)?;
    let played = player.convert(0, Form::Raw, &mut source, &mut sink);
    Ok(played == Ok(Played { blocks: 2, bad: 0 }) && sink.bytes() == [0; 24].as_slice())
}

// Whether the fault stops each call, and the player is as new after it.
fn each_stops(alloc: Global, player: &mut Player) -> Result<bool, AllocError> {
    for call in CALLS {
        if !stops(alloc, call, player)? || !is_as_new(alloc, player)? {
            return Ok(false);
        }
    }
    Ok(true)
}

#[test]
fn a_player_that_a_fault_stopped_is_as_new(rt: HostRuntime) -> Result<(), Fail> {
    let alloc = rt.alloc();
    let mut player = Player::start(alloc)?;
    assert!(rt; each_stops(alloc, &mut player)?);
    Ok(())
}
