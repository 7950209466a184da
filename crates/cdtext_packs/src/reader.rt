// Reads packs in any order, with repeats.
ghost use Rattle.std.specs.Prelude.{◌≡◌, ◌≤◌, ◌⊎◌, List, ℕ, Option, true, length, IsOk, IfOk, IfErr, Ok, Err};
ghost use Rattle.cdtext_packs.specs.Kept.{AreGood, nothing_kept, offer_of, kept_by};
ghost use Rattle.cdtext_packs.specs.declared.kinds.Offer.TheVariants.{Again};
ghost use Rattle.cdtext_packs.specs.Packs.{most_text_packs};
ghost use Rattle.cdtext_packs.specs.Reading.{keeps_nothing, first_missing, read_numbers, read_sized, read_texts};
ghost use Rattle.disc_time.specs.Counts.{most_tracks};

use crate::kinds::{FIRST_TRACK, LAST_NUMBER, LAST_TRACK, Offer, TextFault};
use crate::map::TextMap;
use crate::pack::{CHECKED_BYTES, HEAD_BYTES, MOST_PACKS, PACK_BYTES, TEXT_BYTES, TextPack};
use crate::reading::{first_missing, first_short, keeps_nothing, size_pack};
use disc_time::MOST_TRACKS;
use std::alloc::{AllocError, Global};
use std::marker::Model;

/// The kept packs: at most one for each number. Each of them is good.
#[derive(Drop)]
pub struct TextReader {
    kept: [Option<TextPack>; MOST_PACKS as usize],
}

impl Model for TextReader {
    ghost Value = { List (Option (List ℕ)) };

    ghost view = { λ r. r.kept };

    ghost invariant = { λ r. AreGood r.kept };
}

impl TextReader {
    /// A reader without packs. It allocates nothing.
    pub fn start(alloc: Global) -> Result<TextReader, AllocError>
        ensures fresh { IfOk result (λ reader. reader ≡ nothing_kept) }
        ensures memory { IsOk result }
    {
        Ok(TextReader::new())
    }

    /// A reader without packs.
    pub fn new() -> TextReader
        ensures { result ≡ nothing_kept }
    {
        TextReader {
            kept: [None; MOST_PACKS as usize],
        }
    }

    /// Forgets all packs.
    pub fn reset(&mut self)
        ensures { self.new ≡ nothing_kept }
    {
        *self = TextReader::new();
    }

    /// Keeps a good pack whose number is new.
    pub fn offer(&mut self, pack: &[u8; PACK_BYTES]) -> Offer
        ensures answer { result ≡ offer_of self.old pack.now }
        ensures kept { self.new ≡ kept_by result self.old pack.now }
    {
        let pack = TextPack::from_bytes(pack);
        // A lead-in repeats its packs.
        if self.keeps(&pack) {
            Offer::Again
        } else {
            self.offer_other(pack)
        }
    }

    // Whether this pack is kept.
    #[inline]
    fn keeps(&self, pack: &TextPack) -> bool
        ensures { result ≡ true → offer_of self.now pack.now ≡ Again }
    {
        match &self.kept[usize::from(pack.number())] {
            Some(kept) => kept.has_bytes_of(pack),
            None => false,
        }
    }

    // Keeps a pack if it is good and its number is new.
    #[inline(never)]
    fn offer_other(&mut self, pack: TextPack) -> Offer
        ensures answer { result ≡ offer_of self.old pack }
        ensures kept { self.new ≡ kept_by result self.old pack }
    {
        if !pack.check_matches() {
            return Offer::BadCrc;
        }
        if !pack.is_first_block() {
            return Offer::OtherBlock;
        }
        let number = usize::from(pack.number());
        if self.kept[number].is_some() {
            return Offer::Again;
        }
        self.kept[number] = Some(pack);
        Offer::Kept
    }

    /// The texts of the kept packs, whatever the order of their offers, or the first reason why they have none.
    /// `NoMemory` is returned only if they have texts. Without packs it allocates nothing.
    pub fn finish(&self, alloc: Global) -> Result<TextMap, TextFault>
        ensures texts { IfOk result (λ map. read_texts self.now ≡ Ok map) }
        ensures fault { IfErr result
            (λ fault. (fault ≡ TextFault.NoMemory) ⊎ (read_texts self.now ≡ Err fault)) }
        ensures refused { IfErr (read_texts self.now) (λ fault. result ≡ Err fault) }
        ensures memory { keeps_nothing self.now ≡ true → IsOk result }
    {
        let kept: &[Option<TextPack>] = &self.kept;
        if keeps_nothing(kept) {
            return Ok(TextMap::empty(alloc));
        }
        let Some(tracks) = size_pack(kept, 0) else {
            return Err(TextFault::NoSize);
        };
        let Some(counts) = size_pack(kept, 1) else {
            return Err(TextFault::NoSize);
        };
        if size_pack(kept, 2).is_none() {
            return Err(TextFault::NoSize);
        }
        read_sized(alloc, kept, &tracks, &counts)
    }
}

// The texts of kept packs by the first two size packs.
fn read_sized(
    alloc: Global,
    kept: &[Option<TextPack>],
    tracks: &TextPack,
    counts: &TextPack,
) -> Result<TextMap, TextFault>
    requires { length kept.now ≡ most_text_packs }
    ensures texts { IfOk result (λ map. read_sized kept.now tracks.now counts.now ≡ Ok map) }
    ensures fault { IfErr result
        (λ fault. (fault ≡ TextFault.NoMemory) ⊎ (read_sized kept.now tracks.now counts.now ≡ Err fault)) }
    ensures refused { IfErr (read_sized kept.now tracks.now counts.now) (λ fault. result ≡ Err fault) }
{
    let seq = tracks.number();
    let first = tracks.text()[FIRST_TRACK];
    let last = tracks.text()[LAST_TRACK];
    if first < 1 || first > MOST_TRACKS {
        return Err(TextFault::Malformed {
            seq,
            byte: (HEAD_BYTES + FIRST_TRACK) as u8,
        });
    }
    if last < first || last > MOST_TRACKS {
        return Err(TextFault::Malformed {
            seq,
            byte: (HEAD_BYTES + LAST_TRACK) as u8,
        });
    }
    // The text of the second size pack continues the text of the first one.
    let count = usize::from(counts.text()[LAST_NUMBER - TEXT_BYTES]) + 1;
    read_numbers(alloc, kept, count, first, last)
}

// The texts of the packs with the numbers from 0 on, for these tracks.
fn read_numbers(
    alloc: Global,
    kept: &[Option<TextPack>],
    count: usize,
    first: u8,
    last: u8,
) -> Result<TextMap, TextFault>
    requires kept { count ≤ length kept.now }
    requires few { count ≤ most_text_packs }
    requires first { 1 ≤ first }
    requires last { first ≤ last }
    requires limit { last ≤ most_tracks }
    ensures texts { IfOk result
        (λ map. read_numbers kept.now count first last (first_missing kept.now count) ≡ Ok map) }
    ensures fault { IfErr result (λ fault. (fault ≡ TextFault.NoMemory)
        ⊎ (read_numbers kept.now count first last (first_missing kept.now count) ≡ Err fault)) }
    ensures refused { IfErr (read_numbers kept.now count first last (first_missing kept.now count))
        (λ fault. result ≡ Err fault) }
{
    if let Some(seq) = first_missing(kept, count) {
        return Err(TextFault::Missing { seq });
    }
    let used = &kept[..count];
    if let Some(seq) = first_short(used, usize::from(last - first) + 2) {
        return Err(TextFault::Malformed {
            seq,
            byte: (CHECKED_BYTES - 1) as u8,
        });
    }
    Ok(TextMap::of_packs(alloc, used, first, last)?)
}
