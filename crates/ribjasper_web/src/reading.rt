// A call that feeds a block and writes the packs that end with it.
ghost use Rattle.std.specs.Prelude.{◌≡◌, ◌≤◌, ◌∷◌, [], pos, length};
ghost use Rattle.live_player.specs.Lives.{PlaysOn};
ghost use Rattle.live_player.specs.Lives.Given.{Fed};
ghost use Rattle.live_player.specs.Steps.{TakesBlock, words_come};
ghost use Rattle.stream_stages.specs.Steps.{words_give};
ghost use Rattle.ribjasper_web.specs.Packs.{AreTakenAs, IsTakenAs};
ghost use Rattle.live_player.specs.Plain.{player_of};
ghost use Rattle.raw_subcode.specs.Channels.{IsPlanarForm};

use live_player::PlainPlayer;
use raw_subcode::{BLOCK_BYTES, Block};
use rw_code::{SYMBOLS, Word, correct};

/// The codeword near 24 symbols and the number of wrong symbols, or the symbols and -1 if no codeword is
/// near.
#[repr(C)]
#[derive(Clone, Copy)]
pub struct WebPack {
    pub symbols: [u8; SYMBOLS],
    pub wrong: i32,
}

/// Feeds a player the next block, and writes the packs that end with it; the rest of the four is unchanged.
/// Returns the number of packs, 0 to 4.
#[unsafe(no_mangle)]
pub extern "C" fn ribjasper_web_take(
    player: &mut PlainPlayer,
    block: &[u8; BLOCK_BYTES],
    packs: &mut [WebPack; 4],
) -> i32
    ensures takes { TakesBlock block.now (player_of player.old) (player_of player.new) }
    ensures fed { PlaysOn (Fed block.now ∷ []) (player_of player.old) (player_of player.new) }
    ensures count { result ≡ pos (length (words_come (words_give (player_of player.old).words block.now))) }
    ensures packs { AreTakenAs (words_come (words_give (player_of player.old).words block.now))
        packs.old packs.new }
{
    match player.step(block) {
        Some(words) => read_all(words.into_words().as_slice(), packs),
        None => 0,
    }
}

// Corrects words, and returns their number.
fn read_all(words: &[Word], packs: &mut [WebPack; 4]) -> i32
    requires { length words.now ≤ 4 }
    ensures count { result ≡ pos (length words.now) }
    ensures packs { AreTakenAs words.now packs.old packs.new }
{
    for i in 0..words.len() {
        packs[i] = read(&words[i]);
    }
    words.len() as i32
}

// The codeword near a word and the number of wrong symbols, or the word and -1 if no codeword is near.
fn read(word: &Word) -> WebPack
    ensures { IsTakenAs word.now result.symbols result.wrong }
{
    match correct(word) {
        Some(fixed) => WebPack {
            symbols: fixed.pack.word().bytes(),
            wrong: i32::from(fixed.wrong),
        },
        None => WebPack {
            symbols: word.bytes(),
            wrong: -1,
        },
    }
}

/// Writes the block with a planar form, as some drives return it.
#[unsafe(no_mangle)]
pub extern "C" fn ribjasper_web_from_planar(
    planar: &[u8; BLOCK_BYTES],
    block: &mut [u8; BLOCK_BYTES],
)
    ensures { IsPlanarForm block.new planar.now }
{
    *block = Block::from_planar(planar).bytes();
}
