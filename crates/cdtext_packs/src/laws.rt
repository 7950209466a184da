// Laws on the packs that a reader keeps and on the length of their lines.
ghost use Rattle.std.specs.Prelude.{◌≡◌, ◌∷◌, ◌++◌, ◌^◌, ◌<◌, ◌≤◌, [], List, ℕ, Option, Ok, length, ◌≢◌, Bool, false, true};
ghost use Rattle.cdtext_packs.specs.Kept.{nothing_kept, kept_among, kept_by, offer_of};
ghost use Rattle.cdtext_packs.specs.Packs.{most_text_packs, check_matches};
ghost use Rattle.cdtext_packs.specs.Reading.{read_texts};
ghost use Rattle.cdtext_packs.specs.TextLines.{counted_lines};
ghost use Rattle.cdtext_packs.specs.Texts.{Texts, HasTracks, has_no_text};
ghost use Rattle.bit_lists.specs.Bits.{bits_of_bytes};
ghost use Rattle.cdtext_packs.specs.Writing.{packs_of};
ghost use Rattle.cdtext_packs.specs.declared.kinds.Offer.TheVariants.{BadCrc};
ghost use Rattle.cdtext_packs.specs.Copies.{IsPack, AreCopies, HasNoTab};

/// A law: after a list of packs was offered, the reader keeps the first good pack for each number.
pub fn offers_keep_the_first()
    ensures start { kept_among [] ≡ nothing_kept }
    ensures next { (packs : List (List ℕ)) (pack : List ℕ)
        → kept_by (offer_of (kept_among packs) pack) (kept_among packs) pack
        ≡ kept_among (packs ++ pack ∷ []) }
{}

/// A law: the lines of the texts of kept packs are at most 932,154 bytes. The packs have at most 3,072 bytes
/// of text. Each byte is printed as at most three bytes, and at most a hundred times, if tracks repeat the
/// previous string. Apart from its string, each of the 700 lines has at most 15 bytes. The last line has at
/// most 54 bytes.
pub fn texts_of_packs_fit()
    ensures { (kept : List (Option (List ℕ))) (texts : Texts) (good bad other : ℕ)
        → length kept ≤ most_text_packs → read_texts kept ≡ Ok texts
        → good < 2 ^ 32 → bad < 2 ^ 32 → other < 2 ^ 32
        → length (counted_lines texts good bad other) ≤ 932154 }
{}

/// A law: if a pack with a valid CRC changes only within sixteen neighbouring bits, its CRC becomes invalid.
pub fn bursts_are_noticed()
    ensures { (kept : List (Option (List ℕ))) (pack changed : List ℕ) (before one other after : List Bool)
        → IsPack pack → IsPack changed → check_matches pack ≡ true
        → bits_of_bytes pack ≡ before ++ one ++ after → bits_of_bytes changed ≡ before ++ other ++ after
        → length one ≤ 16 → length other ≡ length one → one ≢ other → offer_of kept changed ≡ BadCrc }
{}

/// A law: texts can be read back from their packs, in any order, with repeats, and with damaged packs among
/// them. Some string must not be empty, and no string may be a single tab.
pub fn texts_come_back()
    ensures { (texts : Texts) (offered : List (List ℕ)) → HasTracks texts → has_no_text texts ≡ false
        → HasNoTab texts
        → length (packs_of texts) ≤ most_text_packs → AreCopies texts offered
        → read_texts (kept_among offered) ≡ Ok texts }
{}
