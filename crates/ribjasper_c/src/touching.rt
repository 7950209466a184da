// The part of the screen that a pack can change.
ghost use Rattle.std.specs.Prelude.{◌≡◌, ◌∷◌, [], pos};
ghost use Rattle.cdg_screen.specs.Standing.{IsWholeStanding, Standing, standing_after};
ghost use Rattle.cdg_screen.specs.Touched.{KeepsTheRest, touched_by};
ghost use Rattle.live_player.specs.Lives.{instruction_of};
ghost use Rattle.ribjasper_c.specs.Touches.{touched_number};

use cdg_instructions::{SCREEN_COLUMNS, read_word};
use cdg_screen::{Touched, touches, untouched_stays};
use rw_code::{SYMBOLS, Word};

// Tiles are numbered row by row.
const COLUMNS: i32 = SCREEN_COLUMNS as i32;

// The numbers that are not tiles.
const NOTHING: i32 = 900;

const ALL: i32 = 901;

const BORDER: i32 = 902;

const COLOURS: i32 = 903;

const LEVELS: i32 = 904;

/// What the instruction of a pack touches: below 900 a tile of the memory (50 times its row plus its column); 900
/// nothing; 901 the whole memory and the offsets; 902 the border; 903 colours; 904 levels. The parity of the pack is
/// ignored.
#[unsafe(no_mangle)]
pub extern "C" fn ribjasper_pack_touches(pack: &[u8; SYMBOLS]) -> i32
    ensures touched { result ≡ pos (touched_number (touched_by (instruction_of pack.now))) }
    ensures keeps { (now : Standing) → IsWholeStanding now
        → KeepsTheRest (touched_by (instruction_of pack.now)) now
        (standing_after now (instruction_of pack.now ∷ [])) }
{
    untouched_stays();
    number(touched(pack))
}

// What the instruction of a pack touches.
fn touched(pack: &[u8; SYMBOLS]) -> Touched
    ensures { result ≡ touched_by (instruction_of pack.now) }
{
    touches(&read_word(&Word::new(pack)))
}

// The number of a touched part.
fn number(touched: Touched) -> i32
    ensures { result ≡ pos (touched_number touched) }
{
    match touched {
        Touched::Nothing => NOTHING,
        Touched::Tile { row, column } => COLUMNS * i32::from(row) + i32::from(column),
        Touched::All => ALL,
        Touched::Border => BORDER,
        Touched::Colours => COLOURS,
        Touched::Levels => LEVELS,
    }
}
