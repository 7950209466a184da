// Saving a player to a file, restoring it, and copying it to another.
ghost use Rattle.std.specs.Prelude.{◌≡◌, ◌≢◌, ◌&&◌, ◌∷◌, [], pos, negsuc, IfOk};
ghost use Rattle.cdg_checkpoint.specs.Checkpoint.{checkpoint_in};
ghost use Rattle.cdg_checkpoint.specs.Table.{IsCheckpointFile};
ghost use Rattle.cdg_io.specs.Causes.{HasCause, Rose};
ghost use Rattle.live_player.specs.Saving.{IsAt, LoadsLive, SavesLive};
ghost use Rattle.ribjasper_c.specs.Saving.{LoadsPlayer, SavesPlayer};
ghost use Rattle.ribjasper_c.specs.Answers.{done_if};
ghost use Rattle.ribjasper_c.specs.Looking.{IsUnchanged};

use crate::Playing;
use crate::answers::{DONE, NO_MEMORY, NOT_DONE, REFUSED};
use cdg_checkpoint::{CheckpointFile, FILE_BYTES, judge};
use cdg_io::SteadySource;
use live_player::{AnyPlayer, LivePlayer};
use std::alloc::{AllocError, Global};
use subcode_author::Heap;

/// Writes the file of an open player's checkpoint. Returns 0, or -1 if the player is closed or cannot be
/// saved, or 7 if the call is out of memory.
#[unsafe(no_mangle)]
pub extern "C" fn ribjasper_player_save(
    alloc: Global,
    player: &mut Playing,
    file: &mut [u8; FILE_BYTES],
) -> i32
    ensures { SavesPlayer player.old player.new file.old file.new result }
{
    save_in(&mut Heap::new(alloc), player, file)
}

// Does the work of `ribjasper_player_save`. The heap counts failed requests for memory.
fn save_in(heap: &mut Heap, player: &mut Playing, file: &mut [u8; FILE_BYTES]) -> i32
    ensures saves { SavesPlayer player.old player.new file.old file.new result }
    // The answer is 7 exactly if a request for memory failed.
    ensures allocations { result ≡ pos 7 → Rose heap.old heap.new }
    ensures found { result ≢ pos 7 → heap.new ≡ heap.old }
{
    if !player.is_open {
        return NOT_DONE;
    }
    save(heap, player.handle.lend(), file)
}

// Writes the file of a player.
fn save(heap: &mut Heap, live: &LivePlayer, file: &mut [u8; FILE_BYTES]) -> i32
    ensures saves { SavesLive live.now file.old file.new result }
    // The answer is 7 exactly if a request for memory failed.
    ensures allocations { result ≡ pos 7 → Rose heap.old heap.new }
    ensures found { result ≢ pos 7 → heap.new ≡ heap.old }
{
    if !live.fits_checkpoint() {
        return NOT_DONE;
    }
    let Ok(mut checkpoint) = take_file(heap) else {
        return NO_MEMORY;
    };
    if live_player::save(live, &mut checkpoint.plain, file) {
        DONE
    } else {
        NOT_DONE
    }
}

/// Restores an open player from a file. Returns 0, or -1 if the player is closed, 7 if the call is out of
/// memory, or 3 if the file is not valid: then the first byte of the first invalid field is written.
#[unsafe(no_mangle)]
pub extern "C" fn ribjasper_player_load(
    alloc: Global,
    player: &mut Playing,
    file: &[u8; FILE_BYTES],
    byte: &mut u32,
) -> i32
    ensures { LoadsPlayer file.now player.old player.new byte.old byte.new result }
{
    load_in(&mut Heap::new(alloc), player, file, byte)
}

// Does the work of `ribjasper_player_load`. The heap counts failed requests for memory.
fn load_in(heap: &mut Heap, player: &mut Playing, file: &[u8; FILE_BYTES], byte: &mut u32) -> i32
    ensures loads { LoadsPlayer file.now player.old player.new byte.old byte.new result }
    // The answer is 7 exactly if a request for memory failed.
    ensures allocations { result ≡ pos 7 → Rose heap.old heap.new }
    ensures found { result ≢ pos 7 → heap.new ≡ heap.old }
{
    if !player.is_open {
        return NOT_DONE;
    }
    load(heap, player.handle.lend(), file, byte)
}

// Restores a player from a file.
fn load(heap: &mut Heap, live: &mut LivePlayer, file: &[u8; FILE_BYTES], byte: &mut u32) -> i32
    ensures loads { LoadsLive file.now live.old live.new byte.old byte.new result }
    // The answer is 7 exactly if a request for memory failed.
    ensures allocations { result ≡ pos 7 → Rose heap.old heap.new }
    ensures found { result ≢ pos 7 → heap.new ≡ heap.old }
{
    if let Err(bad) = judge(file) {
        *byte = bad;
        return REFUSED;
    }
    let Ok(checkpoint) = read_file(heap, file) else {
        return NO_MEMORY;
    };
    restore(live, &checkpoint);
    DONE
}

fn restore(live: &mut LivePlayer, checkpoint: &CheckpointFile)
    requires { IsCheckpointFile checkpoint.now }
    ensures { IsAt (checkpoint_in checkpoint.now) live.new }
{
    live.restore(&checkpoint.plain);
}

// The file with these bytes.
fn read_file(heap: &mut Heap, bytes: &[u8; FILE_BYTES]) -> Result<CheckpointFile, AllocError>
    ensures file { IfOk result (λ file. file ≡ bytes.now) }
    ensures counted { HasCause heap.old heap.new result }
{
    let mut file = take_file(heap)?;
    let mut source = SteadySource::new(bytes);
    let Ok(()) = file.read(&mut source) else {
        unreachable!();
    };
    Ok(file)
}

// An empty file.
fn take_file(heap: &mut Heap) -> Result<CheckpointFile, AllocError>
    ensures empty { IfOk result (λ file. file ≡ []) }
    ensures counted { HasCause heap.old heap.new result }
{
    heap.asked(CheckpointFile::start)
}

/// Copies an open player to another open player. Returns 0, or -1 if one of them is closed.
#[unsafe(no_mangle)]
pub extern "C" fn ribjasper_player_copy(from: &mut Playing, to: &mut Playing) -> i32
    ensures copied { result ≡ pos 0 → to.new.handle.players ≡ from.old.handle.players }
    ensures answer { result ≡ done_if (from.old.is_open && to.old.is_open) }
    ensures stays { (from.new.is_open ≡ from.old.is_open) × (to.new.is_open ≡ to.old.is_open) }
    ensures same { from.new.handle.players ≡ from.old.handle.players }
    ensures refused { result ≡ negsuc 0 → to.new.handle.players ≡ to.old.handle.players }
{
    if !to.is_open {
        return NOT_DONE;
    }
    // `to` is closed while its player is taken out, and so is `from` if a program passes one player twice.
    let mut live = to.take_out();
    let answer = go_on_as(&mut live, from);
    to.put_back(live);
    answer
}

// Copies an open player to a player.
#[inline(never)]
fn go_on_as(live: &mut LivePlayer, from: &mut Playing) -> i32
    ensures copied { result ≡ pos 0 → from.old.handle.players ≡ live.new ∷ [] }
    ensures answer { result ≡ done_if from.old.is_open }
    ensures same { IsUnchanged from.old from.new }
    ensures refused { result ≡ negsuc 0 → live.new ≡ live.old }
{
    if !from.is_open {
        return NOT_DONE;
    }
    live.copy_from(from.handle.lend());
    DONE
}
