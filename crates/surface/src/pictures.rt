// Instructions, the screen, tiles, scripts and schedules.
ghost use Rattle.std.specs.Prelude.{◌≡◌, ◌++◌, List};
ghost use Rattle.cdg_instructions.specs.declared.instr.Instr.{Instr};
ghost use Rattle.cdg_screen.specs.Standing.{Standing, standing_after};
ghost use Rattle.pack_schedule.specs.Survey.{IsSurvey};

use arrayvec::ArrayVec;
use cdg_instructions::{Instr, Tile, read, write};
use cdg_io::{Failed, Sink};
use cdg_screen::{Screen, further_instructions_keep_it_the_same};
use pack_schedule::{Stop, Survey, Weaver, survey};
use picture_script::{Canvas, Script, ScriptStop, ScriptWhy};
use q_channel::line;
use rw_code::Pack;
use std::alloc::{AllocError, Global};
use tile_author::{plan, steps, weight};

fn parts_of_instr(value: &Instr) {
    match value {
        Instr::Idle => {}
        Instr::Foreign => {}
        Instr::Unknown => {}
        Instr::MemoryPreset { colour, repeat } => {
            let _: (u8, u8) = (*colour, *repeat);
        }
        Instr::BorderPreset { colour } => {
            let _: &u8 = colour;
        }
        Instr::SetTile {
            colour0,
            colour1,
            row,
            column,
            lines,
        } => {
            let _: (u8, u8, u8, u8, [u8; 12]) = (*colour0, *colour1, *row, *column, *lines);
        }
        Instr::XorTile {
            colour0,
            colour1,
            row,
            column,
            lines,
        } => {
            let _: (u8, u8, u8, u8, [u8; 12]) = (*colour0, *colour1, *row, *column, *lines);
        }
        Instr::ScrollPreset {
            colour,
            across,
            h,
            down,
            v,
        } => {
            let _: (u8, u8, u8, u8, u8) = (*colour, *across, *h, *down, *v);
        }
        Instr::ScrollCopy {
            colour,
            across,
            h,
            down,
            v,
        } => {
            let _: (u8, u8, u8, u8, u8) = (*colour, *across, *h, *down, *v);
        }
        Instr::Transparency { levels } => {
            let _: &[u8; 16] = levels;
        }
        Instr::ColoursLow { colours } => {
            let _: &[u16; 8] = colours;
        }
        Instr::ColoursHigh { colours } => {
            let _: &[u16; 8] = colours;
        }
    }
}

fn calls_of_cdg_instructions() {
    let _: fn(&[u8; 72]) -> Option<Tile> = Tile::new;
    let _: fn(&Tile, usize) -> u8 = Tile::get;
    let _: fn(&Pack) -> Instr = read;
    let _: fn(&Instr) -> Pack = write;
}

fn calls_of_cdg_screen() {
    let _: fn(Global) -> Result<Screen, AllocError> = Screen::start;
    let _: fn(&mut Screen) = Screen::reset;
    let _: fn(&mut Screen, &Instr) = Screen::obey;
    let _: fn(&Screen, u32, u32) -> u8 = Screen::memory;
    let _: fn(&Screen, u32, u32) -> u8 = Screen::pixel;
    let _: fn(&Screen, u8) -> u16 = Screen::colour;
    let _: fn(&Screen, u8) -> u8 = Screen::level;
    let _: fn(&Screen) -> u8 = Screen::border;
    let _: fn(&Screen) -> u8 = Screen::offset_h;
    let _: fn(&Screen) -> u8 = Screen::offset_v;
    let _: fn(&Screen, &Instr) -> bool = Screen::changes;
}

fn calls_of_tile_author() {
    let _: fn(&Tile, &Tile) -> u8 = steps;
    let _: fn(&Tile, &Tile, u8, u8) -> ArrayVec<Instr, 4> = plan;
    let _: fn(&Tile) -> u8 = weight;
}

fn parts_of_script_stop(value: &ScriptStop) {
    match value {
        ScriptStop::Fault { line, why } => {
            let _: (u32, ScriptWhy) = (*line, *why);
        }
        ScriptStop::NoMemory => {}
    }
}

fn parts_of_script_why(value: &ScriptWhy) {
    match value {
        ScriptWhy::UnknownCommand => {}
        ScriptWhy::BadArgument => {}
        ScriptWhy::OutOfRange => {}
        ScriptWhy::TimeOrder => {}
        ScriptWhy::TooMany => {}
    }
}

fn calls_of_picture_script() {
    let _: fn(Global, &[u8]) -> Result<Script, ScriptStop> = Script::parse;
    let _: fn(&Script) -> u32 = Script::pictures;
    let _: fn(&Script, u32) -> u32 = Script::ready;
    let _: fn(&Script, u32) -> u32 = Script::hold;
    let _: fn(Global) -> Result<Canvas, AllocError> = Canvas::start;
    let _: fn(&mut Canvas) = Canvas::reset;
    let _: fn(&mut Canvas, &Script, u32) = Canvas::draw_until;
    let _: fn(&Canvas) -> Option<u32> = Canvas::at;
    let _: fn(&Canvas, u32, u32) -> u8 = Canvas::pixel;
    let _: fn(&Canvas, u8, u8) -> Tile = Canvas::tile;
    let _: fn(&Canvas, u8) -> u16 = Canvas::colour;
    let _: fn(&Canvas) -> u8 = Canvas::border;
}

fn parts_of_stop(value: &Stop) {
    match value {
        Stop::PastEnd { blocks } => {
            let _: &u32 = blocks;
        }
        Stop::Late {
            picture,
            need,
            free,
        } => {
            let _: (u32, u32, u32) = (*picture, *need, *free);
        }
        Stop::NoMemory => {}
    }
}

fn calls_of_pack_schedule() {
    let _: fn(Global, &Script, u32) -> Result<Survey, Stop> = survey;
    let _: fn(&Survey, u32) -> u32 = Survey::start;
    let _: fn(&Survey, u32) -> u32 = Survey::need;
    let _: fn(&Survey, u32) -> Option<u8> = Survey::preset;
}

fn weave(weaver: &mut Weaver<'_>) -> Pack {
    weaver.next()
}

// The law on further instructions.
fn further_instructions()
    ensures { (start begun : Standing) (one other further : List Instr)
        → standing_after start one ≡ standing_after begun other
        → standing_after start (one ++ further) ≡ standing_after begun (other ++ further) }
{
    further_instructions_keep_it_the_same();
}

fn start_weaver<'a>(
    alloc: Global,
    script: &'a Script,
    survey: Survey,
) -> Result<Weaver<'a>, AllocError>
    requires { IsSurvey script.now survey }
{
    Weaver::start(alloc, script, survey)
}

fn write_pixmap<K: Sink>(screen: &Screen, out: &mut K) -> Result<(), Failed> {
    screen.write_ppm(out)
}

fn write_standing<K: Sink>(screen: &Screen, out: &mut K) -> Result<(), Failed> {
    screen.write_state(out)
}
