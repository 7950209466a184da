// Saving a player to the file of a checkpoint, and restoring it.
ghost use Rattle.std.specs.Prelude.{◌≡◌, ◌≢◌, pos};
ghost use Rattle.live_player.specs.Plain.{player_of};
ghost use Rattle.live_player.specs.Saving.{LoadsLive, SavesLive};

use cdg_checkpoint::{FILE_BYTES, PlainFile, judge};
use cdg_io::SteadySource;
use live_player::{AnyPlayer, PlainPlayer, save};

/// Writes the file of a player's checkpoint, and returns 0. If the player's stream is not raw or is longer
/// than a checkpoint can count, it returns -1 and the file is unchanged.
#[unsafe(no_mangle)]
pub extern "C" fn ribjasper_web_save(player: &PlainPlayer, file: &mut [u8; FILE_BYTES]) -> i32
    ensures saves { SavesLive (player_of player.now) file.old file.new result }
    // The call does not allocate.
    ensures memory { result ≢ pos 7 }
{
    let mut checkpoint = PlainFile::empty();
    if save(player, &mut checkpoint, file) {
        0
    } else {
        -1
    }
}

/// Restores a player from a file, and returns 0. If the file is not valid, it returns 3 and writes the first
/// byte of the first invalid field; the player is unchanged.
#[unsafe(no_mangle)]
pub extern "C" fn ribjasper_web_load(
    player: &mut PlainPlayer,
    file: &[u8; FILE_BYTES],
    byte: &mut u32,
) -> i32
    ensures loads { LoadsLive file.now (player_of player.old) (player_of player.new) byte.old byte.new
        result }
    // The call does not allocate.
    ensures memory { result ≢ pos 7 }
    ensures refused { result ≢ pos 0 → player.new ≡ player.old }
{
    if let Err(bad) = judge(file) {
        *byte = bad;
        return 3;
    }
    let mut checkpoint = PlainFile::empty();
    copy_bytes(&mut checkpoint, file);
    player.restore(&checkpoint);
    0
}

fn copy_bytes(checkpoint: &mut PlainFile, file: &[u8; FILE_BYTES])
    ensures { checkpoint.new ≡ file.now }
{
    let mut source = SteadySource::new(file);
    checkpoint.read(&mut source).unwrap();
}
