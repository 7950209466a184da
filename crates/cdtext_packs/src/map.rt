// The texts of a disc.
ghost use Rattle.std.specs.Prelude.{replicate, ◌≡◌, ◌≤◌, ◌+◌, ◌-◌, length, None, IfOk, All, ◌<◌, ◌*◌, ◌∷◌, ◌++◌, [], List, ℕ, MatchResult, slice_index_or, map};
ghost use Rattle.disc_time.specs.Counts.{most_tracks, most_text_bytes};
ghost use Rattle.cdtext_packs.specs.Packs.{most_text_packs};
ghost use Rattle.cdtext_packs.specs.Texts.{no_texts, strings_of, text_of, texts_with, unless_empty, AreTexts, IsString, are_empty};
ghost use Rattle.cdtext_packs.specs.Reading.{first_short, all_texts, meant};
ghost use Rattle.cdtext_packs.specs.Writing.{joined, holders, kind_contents, most_kind_packs};

use crate::kinds::TextKind;
use crate::pack::{TEXT_BYTES, TextPack};
use crate::reading::kind_texts;
use std::alloc::{AllocError, Global};
use std::marker::Model;

/// The album's string and each track's.
#[derive(Drop)]
pub struct Strings {
    items: Vec<Vec<u8>>,
}

impl Model for Strings {
    ghost Value = { List (List ℕ) };

    ghost view = { λ s. map (λ v. v.items) s.items.items };
}

impl Strings {
    /// An empty list.
    pub fn new(alloc: Global) -> Strings
        ensures { result ≡ [] }
    {
        Strings {
            items: Vec::new(alloc),
        }
    }

    /// Appends a string.
    pub fn push(&mut self, string: Vec<u8>) -> Result<(), AllocError>
        ensures pushed { MatchResult result (λ _. self.new ≡ self.old ++ string.items ∷ [])
            (λ _. self.new ≡ self.old) }
    {
        self.items.push(string)?;
        Ok(())
    }

    /// The string at a place, or an empty string past the end.
    pub(crate) fn get(&self, place: usize) -> &[u8]
        ensures { result.now ≡ slice_index_or self.now place [] }
    {
        match self.items.get(place) {
            Some(string) => string,
            None => &[],
        }
    }

    /// The meaning of a string after these: a single tab repeats the previous one.
    pub(crate) fn meant<'a>(&'a self, string: &'a [u8]) -> &'a [u8]
        ensures { result.now ≡ meant self.now string.now }
    {
        if string.len() == 1 && string[0] == b'\t' && self.items.len() > 0 {
            self.get(self.items.len() - 1)
        } else {
            string
        }
    }

    /// Whether each string is empty.
    pub(crate) fn are_empty(&self) -> bool
        ensures { result ≡ are_empty self.now }
    {
        self.items.iter().all(|string| string.is_empty())
    }

    /// The bytes of all strings, with a zero byte after each.
    pub(crate) fn joined(&self, alloc: Global) -> Result<Vec<u8>, AllocError>
        ensures { IfOk result (λ bytes. bytes.items ≡ joined self.now) }
    {
        let mut bytes = Vec::new(alloc);
        for string in &self.items {
            bytes.extend_from_slice(string)?;
            bytes.push(0)?;
        }
        Ok(bytes)
    }

    /// The place of the string that contains byte `at` of `joined`, and the offset of this byte in the string.
    pub(crate) fn holder(&self, at: usize) -> (usize, usize)
        requires { at < length (joined self.now) }
        ensures holder { slice_index_or (holders 0 self.now) at (0, 0) ≡ result }
        ensures place { result.0 < length self.now }
    {
        let mut offset = at;
        for place in 0..self.items.len() {
            let len = self.items[place].len();
            if offset <= len {
                return (place, offset);
            }
            offset -= len + 1;
        }
        unreachable!()
    }
}

/// The strings of each kind for the album and each track, or no strings at all.
#[derive(Drop)]
pub struct TextMap {
    first: u8,
    last: u8,
    title: Strings,
    performer: Strings,
    songwriter: Strings,
    composer: Strings,
    arranger: Strings,
    message: Strings,
    code: Strings,
}

impl Model for TextMap {
    ghost use Rattle.cdtext_packs.specs.Texts.{Texts};

    ghost Value = { Texts };

    ghost use Rattle.cdtext_packs.specs.Map.{texts_of_map, HoldsTexts};

    ghost view = { texts_of_map };

    ghost invariant = { HoldsTexts };
}

impl TextMap {
    /// No tracks and no strings.
    pub(crate) fn empty(alloc: Global) -> TextMap
        ensures { result ≡ no_texts }
    {
        TextMap {
            first: 0,
            last: 0,
            title: Strings::new(alloc),
            performer: Strings::new(alloc),
            songwriter: Strings::new(alloc),
            composer: Strings::new(alloc),
            arranger: Strings::new(alloc),
            message: Strings::new(alloc),
            code: Strings::new(alloc),
        }
    }

    /// The titles, performers, songwriters and codes of the album and of the tracks from number `first` on. The strings
    /// of the other kinds are empty. If all strings are empty, the result is the empty map.
    pub fn of_strings(
        alloc: Global,
        first: u8,
        titles: Strings,
        performers: Strings,
        songwriters: Strings,
        codes: Strings,
    ) -> Result<TextMap, AllocError>
        requires first { 1 ≤ first }
        requires some { 2 ≤ length titles }
        requires last { first + length titles ≤ most_tracks + 2 }
        requires performers { length performers ≡ length titles }
        requires songwriters { length songwriters ≡ length titles }
        requires codes { length codes ≡ length titles }
        requires strings { All IsString titles × All IsString performers × All IsString songwriters
            × All IsString codes }
        ensures { IfOk result
            (λ map. map ≡ unless_empty (texts_with first titles performers songwriters codes)) }
    {
        if titles.are_empty()
            && performers.are_empty()
            && songwriters.are_empty()
            && codes.are_empty()
        {
            return Ok(TextMap::empty(alloc));
        }
        let count = titles.items.len();
        let composer = empty_strings(alloc, count)?;
        let arranger = empty_strings(alloc, count)?;
        let message = empty_strings(alloc, count)?;
        Ok(TextMap {
            first,
            last: first + (count - 2) as u8,
            title: titles,
            performer: performers,
            songwriter: songwriters,
            composer,
            arranger,
            message,
            code: codes,
        })
    }

    /// The texts of kept packs, for the album and each track from the first to the last.
    pub(crate) fn of_packs(
        alloc: Global,
        kept: &[Option<TextPack>],
        first: u8,
        last: u8,
    ) -> Result<TextMap, AllocError>
        requires first { 1 ≤ first }
        requires last { first ≤ last }
        requires limit { last ≤ most_tracks }
        requires few { length kept.now ≤ most_text_packs }
        requires enough { first_short kept.now (last - first + 2) ≡ None }
        ensures { IfOk result (λ map. map ≡ all_texts kept.now first last) }
    {
        let count = usize::from(last - first) + 2;
        let title = kind_texts(alloc, kept, count, TextKind::Title)?;
        let performer = kind_texts(alloc, kept, count, TextKind::Performer)?;
        let songwriter = kind_texts(alloc, kept, count, TextKind::Songwriter)?;
        let composer = kind_texts(alloc, kept, count, TextKind::Composer)?;
        let arranger = kind_texts(alloc, kept, count, TextKind::Arranger)?;
        let message = kind_texts(alloc, kept, count, TextKind::Message)?;
        let code = kind_texts(alloc, kept, count, TextKind::Code)?;
        Ok(TextMap {
            first,
            last,
            title,
            performer,
            songwriter,
            composer,
            arranger,
            message,
            code,
        })
    }

    /// The number of the first track, 0 in the empty map.
    pub fn first(&self) -> u8
        ensures number { result ≡ self.now.first }
        ensures texts { AreTexts self.now }
    {
        self.first
    }

    /// The number of the last track, 0 in the empty map.
    pub fn last(&self) -> u8
        ensures number { result ≡ self.now.last }
        ensures texts { AreTexts self.now }
    {
        self.last
    }

    /// A law: a map has no texts at all, or the texts of an album with tracks.
    pub(crate) fn texts_are_of_tracks(&self)
        ensures { AreTexts self.now }
    {
        let _first = self.first;
    }

    /// The string of a track (0 is the album), empty if there is none.
    pub fn text(&self, kind: TextKind, track: u8) -> &[u8]
        ensures text { result.now ≡ text_of kind track self.now }
    {
        let strings = self.strings(kind);
        if track == 0 {
            strings.get(0)
        } else if track < self.first {
            &[]
        } else {
            strings.get(usize::from(track - self.first) + 1)
        }
    }

    pub(crate) fn strings(&self, kind: TextKind) -> &Strings
        ensures strings { result.now ≡ strings_of kind self.now }
    {
        match kind {
            TextKind::Title => &self.title,
            TextKind::Performer => &self.performer,
            TextKind::Songwriter => &self.songwriter,
            TextKind::Composer => &self.composer,
            TextKind::Arranger => &self.arranger,
            TextKind::Message => &self.message,
            TextKind::Code => &self.code,
        }
    }

    /// The number of packs of a kind. There are none if all its strings are empty.
    pub(crate) fn kind_packs(&self, kind: TextKind) -> u32
        ensures value { result ≡ length (kind_contents self.now kind) }
        ensures bound { result ≤ most_kind_packs }
    {
        // A law: it limits the number and the length of the strings.
        self.texts_are_of_tracks();
        let strings = self.strings(kind);
        if strings.are_empty() {
            return 0;
        }
        let mut bytes = 0;
        for string in &strings.items {
            bytes += string.len() + 1;
        }
        ((bytes + (TEXT_BYTES - 1)) / TEXT_BYTES) as u32
    }
}

pub(crate) fn empty_strings(alloc: Global, count: usize) -> Result<Strings, AllocError>
    ensures strings { IfOk result (λ strings. strings ≡ replicate count []) }
    ensures count { IfOk result (λ strings. length strings ≡ count) }
    ensures each { IfOk result (All IsString) }
{
    let mut strings = Strings::new(alloc);
    for _place in 0..count {
        strings.push(Vec::new(alloc))?;
    }
    Ok(strings)
}
