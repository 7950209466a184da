// The traits that public types derive.
use cdg_checkpoint::{Checkpointer, ResumeStop, Resumed};
use cdg_cmd::{Command, Refusal, Split, Status, Which};
use cdg_instructions::{Instr, Tile};
use cdg_io::{Failed, MemSink, MemSource, Piece, PumpStop, Pumped, ReadStop, SteadySink};
use cdg_press::{PressStop, Thinner};
use cdg_screen::Screen;
use cdtext_packs::{Offer, PackStop, TextFault, TextKind, TextMap, TextPack, TextReader};
use cue_sheet::{CueStop, CueText, CueWhy, Sheet};
use disc_time::Msf;
use gf64::Sym;
use pack_schedule::{Stop, Survey};
use picture_script::{Canvas, Script, ScriptStop, ScriptWhy};
use q_channel::{QFault, QFrame, TocPoint};
use raw_subcode::Block;
use rw_code::{Fixed, Pack, Word};
use rw_interleave::{Gather, Slot, Spread};
use rw_merge::{MergeStop, Merged, Merger};
use std::fmt::Debug;
use subcode_player::{AuthorStop, Form, PlayStop, Played, Player};
use toc_model::{Layout, LayoutStop};

fn is_dropped<T: Drop>() {}

fn is_copied<T: Copy + Clone>() {}

fn is_compared<T: Copy + Clone + PartialEq + Eq>() {}

// Whether a type has the traits of a result of a call, or of a choice that a caller makes.
fn is_plain<T: Copy + Clone + PartialEq + Eq + Debug>() {}

fn is_shown<T: PartialEq + Eq + Debug + Drop>() {}

fn has_default<T: Copy + Default>() {}

fn answers_are_plain() {
    is_plain::<Failed>();
    is_plain::<SteadySink>();
    is_plain::<Pumped>();
    is_plain::<PumpStop>();
    is_plain::<ReadStop>();
    is_plain::<QFrame>();
    is_plain::<TocPoint>();
    is_plain::<QFault>();
    is_plain::<CueWhy>();
    is_plain::<CueText>();
    is_shown::<CueStop>();
    is_shown::<LayoutStop>();
    is_plain::<TextKind>();
    is_plain::<PackStop>();
    is_plain::<TextFault>();
    is_plain::<Offer>();
    is_plain::<ScriptStop>();
    is_plain::<ScriptWhy>();
    is_plain::<Stop>();
    is_plain::<Played>();
    is_plain::<PlayStop>();
    is_plain::<AuthorStop>();
    is_plain::<Form>();
    is_plain::<Merged>();
    is_plain::<MergeStop>();
    is_plain::<PressStop>();
    is_plain::<Resumed>();
    is_plain::<ResumeStop>();
    is_plain::<Command>();
    is_plain::<Split>();
    is_plain::<Status>();
    is_plain::<Which>();
    is_plain::<Refusal>();
}

fn values_are_copied() {
    is_plain::<Block>();
    is_plain::<Msf>();
    is_compared::<TextPack>();
    is_compared::<Sym>();
    is_copied::<Word>();
    is_copied::<Pack>();
    is_copied::<Fixed>();
    is_copied::<Slot>();
    is_plain::<Tile>();
    is_plain::<Instr>();
    has_default::<Word>();
    has_default::<Instr>();
}

fn owners_are_dropped() {
    is_dropped::<MemSource>();
    is_dropped::<MemSink>();
    is_dropped::<Piece>();
    is_dropped::<Sheet>();
    is_dropped::<Layout>();
    is_dropped::<TextMap>();
    is_dropped::<TextReader>();
    is_dropped::<Spread>();
    is_dropped::<Gather>();
    is_dropped::<Screen>();
    is_dropped::<Script>();
    is_dropped::<Canvas>();
    is_dropped::<Survey>();
    is_dropped::<Player>();
    is_dropped::<Merger>();
    is_dropped::<Thinner>();
    is_dropped::<Checkpointer>();
}
