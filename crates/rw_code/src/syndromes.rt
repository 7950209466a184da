// The six sums of a word. A word is a codeword if all six are 0.
ghost use Rattle.std.specs.Prelude.{◌≡◌, ◌<◌, ◌↔◌, IsTrue};
ghost use Rattle.rw_code.specs.Sizes.{word_symbols, symbol_values};
ghost use Rattle.rw_code.specs.Codeword.{IsCodeword};
ghost use Rattle.rw_code.specs.Syndromes.{AreLanes, AreSyndromes, IsEntry, lane};

use crate::word::{SYMBOL_VALUES, words_have_24_symbols};
use crate::{SYMBOLS, Word};
use gf64::Sym;

/// The six sums of a word in one number, six bits each: the four over all symbols, and the two over the first four.
#[derive(Clone, Copy)]
pub(crate) struct Syndromes {
    pub(crate) lanes: u64,
}

/// Sums 0 to 3 of a word, over all its symbols.
#[derive(Clone, Copy)]
pub(crate) struct Sums {
    pub(crate) zeroth: Sym,
    pub(crate) first: Sym,
    pub(crate) second: Sym,
    pub(crate) third: Sym,
}

impl Syndromes {
    /// The six sums of a word, in one pass.
    #[inline]
    pub(crate) fn of(word: &Word) -> Syndromes
        ensures { AreSyndromes word.now result.lanes }
    {
        let bytes = word.bytes();
        let mut lanes = 0;
        for i in 0..SYMBOLS {
            lanes ^= SYNDROMES[i][bytes[i] as usize];
        }
        Syndromes { lanes }
    }

    /// The four sums over all symbols, separately.
    #[inline]
    pub(crate) fn sums(self) -> Sums
        ensures { AreLanes self.lanes result }
    {
        Sums {
            zeroth: self.lane(0),
            first: self.lane(1),
            second: self.lane(2),
            third: self.lane(3),
        }
    }

    // One of the six sums.
    #[inline]
    fn lane(self, j: u32) -> Sym
        requires { j < 6 }
        ensures { result ≡ lane j self.lanes }
    {
        Sym::new(((self.lanes >> (6 * j)) % 64) as u8).unwrap()
    }
}

/// What a symbol at a position adds to the six sums.
#[inline]
pub(crate) fn entry(position: usize, symbol: usize) -> u64
    requires position { position < word_symbols }
    requires symbol { symbol < symbol_values }
    ensures { IsEntry position symbol result }
{
    SYNDROMES[position][symbol]
}

// What each symbol at a position adds to the sums, from the numbers for the symbols 1, 2, 4, 8, 16 and 32.
// The number for a sum of symbols is the sum of their numbers.
macro_rules! parts {
    ($one:literal, $two:literal, $four:literal, $eight:literal, $sixteen:literal, $last:literal) => {
        parts!($one, $two, $four; 0, $eight, $sixteen, $eight ^ $sixteen, $last, $eight ^ $last,
            $sixteen ^ $last, $eight ^ $sixteen ^ $last)
    };
    ($one:literal, $two:literal, $four:literal; $($high:expr),*) => {
        [$($high, $high ^ $one, $high ^ $two, $high ^ $one ^ $two, $high ^ $four,
            $high ^ $one ^ $four, $high ^ $two ^ $four, $high ^ $one ^ $two ^ $four),*]
    };
}

// What a symbol adds to the six sums, by its position and its value. Each sum has six bits. From the lowest
// bit on, the order is: the four sums over all symbols, and the two sums over the first four symbols.
static SYNDROMES: [[u64; SYMBOL_VALUES]; SYMBOLS] = [
    parts!(
        8607705665,
        17215157314,
        34430048388,
        3361841608,
        6723683216,
        13431125792
    ),
    parts!(
        4314029377,
        8627788354,
        17255572548,
        34494904456,
        3491287504,
        6982575008
    ),
    parts!(
        2164764353,
        4329274690,
        8658278980,
        17316287560,
        34632575120,
        3766645216
    ),
    parts!(
        1105657601,
        2194005698,
        4370967876,
        8724642376,
        17449014352,
        34897762464
    ),
    parts!(16365441, 16740098, 16187076, 15064392, 13085264, 8877152),
    parts!(6120385, 12240770, 8240900, 16477896, 16710992, 16112224),
    parts!(11422081, 5551042, 11102084, 6213384, 12173008, 8351072),
    parts!(3445953, 6891906, 13779908, 11319176, 5598992, 11194080),
    parts!(6765057, 13259970, 10262916, 3482568, 6965136, 13680416),
    parts!(15320321, 14649858, 12006596, 6707592, 13145040, 10299296),
    parts!(14185089, 12379394, 7719428, 15434952, 14629264, 11949024),
    parts!(5837121, 11674242, 7107844, 14215688, 12436688, 7834016),
    parts!(4937921, 9605442, 2953860, 5907720, 11565584, 7136480),
    parts!(13618177, 9943234, 2576708, 4887176, 9508112, 3025440),
    parts!(3732993, 7465986, 14928068, 13611336, 9917072, 2528544),
    parts!(4535041, 9070082, 1899524, 3795144, 7586128, 14922400),
    parts!(15548801, 14058242, 10827268, 4615176, 8976592, 1958240),
    parts!(3952833, 7905666, 15811332, 15631880, 13974544, 10905824),
    parts!(10684417, 5124290, 9982340, 3973896, 7947792, 15895584),
    parts!(1360897, 2721794, 5439684, 10629512, 5002000, 10004000),
    parts!(6304257, 12608514, 9226244, 1409224, 2818448, 5387040),
    parts!(852225, 1704450, 3159044, 6318088, 12632272, 9273760),
    parts!(2113665, 4227330, 8454660, 918536, 1587216, 3170528),
    parts!(266305, 532610, 1065220, 2130440, 4260880, 8521760),
];
