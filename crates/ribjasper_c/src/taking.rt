// The correction of a word, and a call that feeds a block and writes the packs that end with it.
ghost use Rattle.std.specs.Prelude.{◌≡◌, ◌≤◌, ◌++◌, ◌∷◌, [], List, ℕ, pos, negsuc, length, true, false, ◌%◌, map};
ghost use Rattle.live_player.specs.Lives.{Given, blocks_in, stream_words};
ghost use Rattle.live_player.specs.Lives.Given.{Fed};
ghost use Rattle.live_player.specs.Steps.{TakesBlock, words_come};
ghost use Rattle.live_player.specs.declared.live.LivePlayer.{LivePlayer};
ghost use Rattle.raw_subcode.specs.declared.form.Form.{Form};
ghost use Rattle.ribjasper_c.specs.Answers.{IsCorrected};
ghost use Rattle.ribjasper_c.specs.Handles.{IsPlaying, PlayersGo};
ghost use Rattle.ribjasper_c.specs.Packs.{AreReadAs};
ghost use Rattle.stream_stages.specs.Steps.{words_give};

use crate::Playing;
use crate::answers::NOT_DONE;
use raw_subcode::BLOCK_BYTES;
use rw_code::{SYMBOLS, Word, correct};

/// A corrected pack: the codeword near its 24 symbols, and the number of wrong symbols. If no codeword is
/// near, it has the symbols as they were read, and -1.
#[repr(C)]
#[derive(Clone, Copy)]
pub struct ReadPack {
    pub symbols: [u8; SYMBOLS],
    pub wrong: i32,
}

/// Feeds an open player the next block, and writes the packs that end with it; the rest of the four is
/// unchanged. Returns the number of packs, 0 to 4, or -1 if the player is closed.
#[unsafe(no_mangle)]
pub extern "C" fn ribjasper_player_take(
    player: &mut Playing,
    block: &[u8; BLOCK_BYTES],
    packs: &mut [ReadPack; 4],
) -> i32
    ensures fed { player.old.is_open ≡ true → (form : Form) (lead_in : ℕ) (given : List Given)
        → IsPlaying form lead_in given player.old.handle.players
        → IsPlaying form lead_in (Fed block.now ∷ given) player.new.handle.players }
    ensures packs { player.old.is_open ≡ true → (words : List (List ℕ)) × (length words ≤ 4)
        × (result ≡ pos (length words)) × AreReadAs words packs.old packs.new
        × ((form : Form) (lead_in : ℕ) (given : List Given)
        → IsPlaying form lead_in given player.old.handle.players
        → stream_words form lead_in (blocks_in given ++ block.now ∷ [])
        ≡ stream_words form lead_in (blocks_in given) ++ words) }
    // Whatever the player was given before, also if it was loaded from a file.
    ensures takes { player.old.is_open ≡ true
        → PlayersGo player.old.handle.players player.new.handle.players (TakesBlock block.now) }
    ensures came { (live : LivePlayer) → player.old.is_open ≡ true → player.old.handle.players ≡ live ∷ []
        → (result ≡ pos (length (words_come (words_give live.words block.now))))
        × AreReadAs (words_come (words_give live.words block.now)) packs.old packs.new }
    ensures refused { player.old.is_open ≡ false → result ≡ negsuc 0 }
    ensures untouched { player.old.is_open ≡ false
        → (player.new.handle.players ≡ player.old.handle.players) × (packs.new ≡ packs.old) }
    ensures stays { player.new.is_open ≡ player.old.is_open }
{
    if !player.is_open {
        return NOT_DONE;
    }
    let words = player.handle.lend().take(block);
    read_all(words.as_slice(), packs)
}

// Corrects words, and returns their number.
fn read_all(words: &[Word], packs: &mut [ReadPack; 4]) -> i32
    requires { length words.now ≤ 4 }
    ensures count { result ≡ pos (length words.now) }
    ensures packs { AreReadAs words.now packs.old packs.new }
{
    for i in 0..words.len() {
        packs[i] = read(&words[i]);
    }
    words.len() as i32
}

// The codeword near a word and the number of wrong symbols, or the word and -1 if no codeword is near.
fn read(word: &Word) -> ReadPack
    ensures { IsCorrected word.now word.now result.symbols result.wrong }
{
    match correct(word) {
        Some(fixed) => ReadPack {
            symbols: fixed.pack.word().bytes(),
            wrong: i32::from(fixed.wrong),
        },
        None => ReadPack {
            symbols: word.bytes(),
            wrong: -1,
        },
    }
}

/// Writes the codeword near a word. Returns the number of wrong symbols, or -1 if no codeword is near.
#[unsafe(no_mangle)]
pub extern "C" fn ribjasper_correct(word: &[u8; SYMBOLS], out: &mut [u8; SYMBOLS]) -> i32
    ensures { IsCorrected (map (λ byte. byte % 64) word.now) out.old out.new result }
{
    match correct(&Word::new(word)) {
        Some(fixed) => {
            *out = fixed.pack.word().bytes();
            i32::from(fixed.wrong)
        }
        None => -1,
    }
}
