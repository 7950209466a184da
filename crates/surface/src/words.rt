// The field, codewords and the delay.
use gf64::Sym;
use rw_code::{Fixed, Pack, Word, correct};
use rw_interleave::{Gather, Slot, Spread, place};
use std::alloc::{AllocError, Global};

fn calls_of_gf64() {
    let _: fn(u8) -> Option<Sym> = Sym::new;
    let _: fn(Sym) -> u8 = Sym::value;
    let _: fn(Sym, Sym) -> Sym = Sym::add;
    let _: fn(Sym, Sym) -> Sym = Sym::mul;
    let _: fn(Sym) -> Sym = Sym::inv;
    let _: fn(u32) -> Sym = Sym::alpha;
}

fn parts_of_fixed(value: &Fixed) {
    let Fixed { pack, wrong } = value;
    let _: (Pack, u8) = (*pack, *wrong);
}

fn calls_of_rw_code() {
    let _: fn(&[u8; 24]) -> Word = Word::new;
    let _: fn(&Word, usize) -> Sym = Word::get;
    let _: fn(&Word) -> [u8; 24] = Word::bytes;
    let _: fn([Sym; 2], [Sym; 16]) -> Pack = Pack::seal;
    let _: fn(&Word) -> Option<Pack> = Pack::check;
    let _: fn(&Pack) -> Word = Pack::word;
    let _: fn() -> Pack = Pack::idle;
    let _: fn(&Word) -> Option<Fixed> = correct;
}

fn calls_of_rw_interleave() {
    let _: fn(&[u8; 24]) -> Slot = Slot::new;
    let _: fn(&Slot) -> [u8; 24] = Slot::bytes;
    let _: fn(usize) -> u32 = place;
    let _: fn(Global) -> Result<Spread, AllocError> = Spread::start;
    let _: fn(&mut Spread) = Spread::reset;
    let _: fn(&mut Spread, &Pack) -> Slot = Spread::push;
    let _: fn(Global) -> Result<Gather, AllocError> = Gather::start;
    let _: fn(&mut Gather) = Gather::reset;
    let _: fn(&mut Gather, &Slot) -> Option<Word> = Gather::push;
}
