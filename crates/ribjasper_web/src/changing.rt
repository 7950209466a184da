// What a pack changes on the screen.
ghost use Rattle.std.specs.Prelude.{◌≡◌, ◌↔◌, ◌∷◌, [], IsTrue};
ghost use Rattle.cdg_screen.specs.Standing.{standing_after};
ghost use Rattle.cdg_screen.specs.Touched.{touched_by};
ghost use Rattle.live_player.specs.Lives.{instruction_of, standing_on};
ghost use Rattle.live_player.specs.Plain.{player_of};
ghost use Rattle.ribjasper_web.specs.Shown.{number_touched};

use cdg_instructions::SCREEN_COLUMNS;
use cdg_screen::{Touched, touches};
use live_player::{PlainPlayer, read_pack};
use rw_code::SYMBOLS;

// Tiles are numbered row by row.
const COLUMNS: u32 = SCREEN_COLUMNS as u32;

/// Whether a pack would change the screen.
#[unsafe(no_mangle)]
pub extern "C" fn ribjasper_web_changes(player: &PlainPlayer, pack: &[u8; SYMBOLS]) -> bool
    ensures { ¬ IsTrue result
        ↔ (standing_after (standing_on (player_of player.now)) (instruction_of pack.now ∷ [])
        ≡ standing_on (player_of player.now)) }
{
    player.screen.changes(&read_pack(pack))
}

/// What the instruction of a pack touches: below 900 a tile of the memory (50 times its row plus its column); 900
/// nothing; 901 the whole memory and the offsets; 902 the border; 903 colours; 904 levels. The parity of the pack is
/// ignored.
#[unsafe(no_mangle)]
pub extern "C" fn ribjasper_web_touches(pack: &[u8; SYMBOLS]) -> u32
    ensures { result ≡ number_touched (touched_by (instruction_of pack.now)) }
{
    number(touches(&read_pack(pack)))
}

fn number(touched: Touched) -> u32
    ensures { result ≡ number_touched touched }
{
    match touched {
        Touched::Nothing => 900,
        Touched::Tile { row, column } => COLUMNS * u32::from(row) + u32::from(column),
        Touched::All => 901,
        Touched::Border => 902,
        Touched::Colours => 903,
        Touched::Levels => 904,
    }
}
