// A player for C that is fed block by block.
ghost use Rattle.std.specs.Prelude.{◌≡◌, ◌&&◌, nat_le, nat_lt, if◌then◌else◌, ◌∷◌, [], pos, negsuc, length, true, false, IfOk};
ghost use Rattle.cdg_io.specs.Causes.{HasCause, Rose};
ghost use Rattle.disc_time.specs.Counts.{most_lead_in};
ghost use Rattle.live_player.specs.Lives.{HasPlayed};
ghost use Rattle.live_player.specs.Lives.Given.{Drawn, Fed};
ghost use Rattle.live_player.specs.Steps.{DrawsPack, TakesBlock};
ghost use Rattle.raw_subcode.specs.declared.form.Form.{Form};
ghost use Rattle.ribjasper_c.specs.Handles.{form_of, IsPlaying};
ghost use Rattle.ribjasper_c.specs.Opening.{OpensPlayer};
ghost use Rattle.ribjasper_c.specs.Answers.{done_if};
ghost use Rattle.ribjasper_c.specs.Giving.{GivesPlayer};

use crate::Handle;
use crate::answers::{DONE, NOT_DONE};
use disc_time::MOST_LEAD_IN;
use live_player::LivePlayer;
use raw_subcode::{BLOCK_BYTES, Form};
use rw_code::SYMBOLS;
use std::alloc::{AllocError, Global};
use std::mem;
use subcode_author::Heap;

/// A player in the memory of a C program. If all its bytes are 0, it is closed.
#[repr(C)]
pub struct Playing {
    pub handle: Handle,
    alloc: Global,
    pub is_open: bool,
    ghost holds: { length handle.players ≡ (if is_open then 1 else 0) },
}

impl Drop for Playing {
    /// Frees the player, if there is one.
    fn drop(self) {
        let Playing {
            handle,
            alloc: _,
            is_open,
        } = self;
        if is_open {
            drop(handle.into_box());
        } else {
            let _alloc = handle.release();
        }
    }
}

impl Playing {
    /// A closed player.
    pub(crate) fn closed(alloc: Global) -> Playing
        ensures closed { result.is_open ≡ false }
        ensures none { result.handle.players ≡ [] }
    {
        Playing {
            handle: Handle::none(alloc),
            alloc,
            is_open: false,
        }
    }

    /// An open player, which owns the player in this box.
    pub(crate) fn of(alloc: Global, player: Box<LivePlayer>) -> Playing
        ensures opened { result.is_open ≡ true }
        ensures held { result.handle.players ≡ player.value ∷ [] }
    {
        Playing {
            handle: Handle::of(player),
            alloc,
            is_open: true,
        }
    }

    // The box of an open player.
    fn into_box(self) -> Box<LivePlayer>
        requires { self.is_open ≡ true }
        ensures { self.handle.players ≡ result.value ∷ [] }
    {
        let Playing {
            handle,
            alloc: _,
            is_open: _,
        } = self;
        handle.into_box()
    }

    // Takes the box out of an open player, which is closed then.
    pub(crate) fn take_out(&mut self) -> Box<LivePlayer>
        requires { self.old.is_open ≡ true }
        ensures { self.old.handle.players ≡ result.value ∷ [] }
    {
        let none = Playing::closed(self.alloc);
        mem::replace(self, none).into_box()
    }

    // Puts a box into a player, which is open then.
    pub(crate) fn put_back(&mut self, player: Box<LivePlayer>)
        ensures opened { self.new.is_open ≡ true }
        ensures held { self.new.handle.players ≡ player.value ∷ [] }
    {
        *self = Playing::of(self.alloc, player);
    }
}

/// Opens a player of a raw stream with no lead-in. An open player keeps its memory and restarts. Returns 0,
/// or -1 if out of memory: then the player is closed.
#[unsafe(no_mangle)]
pub extern "C" fn ribjasper_player_open(alloc: Global, player: &mut Playing) -> i32
    ensures { OpensPlayer player.old.is_open player.new.is_open player.new.handle.players result }
{
    open_in(&mut Heap::new(alloc), player)
}

// Does the work of `ribjasper_player_open`. The heap counts failed requests for memory.
fn open_in(heap: &mut Heap, player: &mut Playing) -> i32
    ensures opens { OpensPlayer player.old.is_open player.new.is_open player.new.handle.players result }
    // The answer is -1 exactly if a request for memory failed.
    ensures allocations { result ≡ negsuc 0 → Rose heap.old heap.new }
    ensures found { result ≡ pos 0 → heap.new ≡ heap.old }
{
    if player.is_open {
        player.handle.lend().begin(0, Form::Raw);
        return DONE;
    }
    match opened(heap) {
        Ok(live) => {
            player.put_back(live);
            DONE
        }
        Err(AllocError) => {
            *player = Playing::closed(player.alloc);
            NOT_DONE
        }
    }
}

// A new player of a raw stream with no lead-in.
fn opened(heap: &mut Heap) -> Result<Box<LivePlayer>, AllocError>
    ensures begun { IfOk result (λ live. HasPlayed Form.Raw 0 [] live.value) }
    ensures counted { HasCause heap.old heap.new result }
{
    heap.asked(LivePlayer::start)
}

/// Closes a player, and frees its memory.
#[unsafe(no_mangle)]
pub extern "C" fn ribjasper_player_close(alloc: Global, player: &mut Playing)
    ensures none { player.new.handle.players ≡ [] }
    ensures closed { player.new.is_open ≡ false }
{
    *player = Playing::closed(alloc);
}

/// Feeds an open player the next block. Returns 0, or -1 if the player is closed.
#[unsafe(no_mangle)]
pub extern "C" fn ribjasper_player_feed(player: &mut Playing, block: &[u8; BLOCK_BYTES]) -> i32
    ensures feeds { GivesPlayer (Fed block.now ∷ []) (TakesBlock block.now) player.old.handle.players
        player.new.handle.players result }
    ensures answer { result ≡ done_if player.old.is_open }
    ensures stays { player.new.is_open ≡ player.old.is_open }
{
    if !player.is_open {
        return NOT_DONE;
    }
    player.handle.lend().feed(block);
    DONE
}

/// Draws a pack of 24 bytes. Its parity is ignored. The stream is unaffected. Returns 0, or -1 if the player
/// is closed.
#[unsafe(no_mangle)]
pub extern "C" fn ribjasper_player_draw(player: &mut Playing, pack: &[u8; SYMBOLS]) -> i32
    ensures draws { GivesPlayer (Drawn pack.now ∷ []) (DrawsPack pack.now) player.old.handle.players
        player.new.handle.players result }
    ensures answer { result ≡ done_if player.old.is_open }
    ensures stays { player.new.is_open ≡ player.old.is_open }
{
    if !player.is_open {
        return NOT_DONE;
    }
    player.handle.lend().draw(pack);
    DONE
}

/// Restarts with this number of lead-in blocks, at most 450,000. The form is 0 for a raw stream, or 1 for a
/// stream of packs, four in each block. Returns 0, or -1 if the player is closed or a number is out of its
/// range.
#[unsafe(no_mangle)]
pub extern "C" fn ribjasper_player_begin(player: &mut Playing, form: u32, lead_in: u32) -> i32
    ensures begun { result ≡ pos 0 → IsPlaying (form_of form) lead_in [] player.new.handle.players }
    ensures answer { result ≡ done_if (player.old.is_open && nat_lt form 2 && nat_le lead_in most_lead_in) }
    ensures stays { player.new.is_open ≡ player.old.is_open }
    ensures refused { result ≡ negsuc 0 → player.new.handle.players ≡ player.old.handle.players }
{
    if !player.is_open || form >= 2 || lead_in > MOST_LEAD_IN {
        return NOT_DONE;
    }
    player.handle.lend().begin(lead_in, form_of(form));
    DONE
}

/// The form of a player's blocks that has this number.
pub(crate) fn form_of(form: u32) -> Form
    ensures { result ≡ form_of form }
{
    if form == 0 { Form::Raw } else { Form::Cooked }
}
