// Making the file of a checkpoint.
ghost use Rattle.std.specs.Prelude.{◌≡◌, ◌≤◌, ◌+◌, ◌++◌, [], ◌∷◌, List, ℕ, length};
ghost use Rattle.cdg_screen.specs.Memory.{seen};
ghost use Rattle.cdg_screen.specs.Standing.{Standing};
ghost use Rattle.cdg_checkpoint.specs.Table.{Mark, ToCome, LeadIn, Program, Bad, Slots, Memory, Border, Across, Down, Colours, Levels, body_size, row};
ghost use Rattle.cdg_checkpoint.specs.Checkpoint.{bytes_of, file_of, kept, part_bytes, with_parts};

use crate::StreamCounts;
use crate::plain_file::{PlainFile, SLOTS_BYTES};
use bit_lists::crc16;
use cdg_instructions::SCREEN_HEIGHT;
use cdg_screen::PlainScreen;

/// The bytes at the front of the file.
pub(crate) const MARK: &[u8; 8] = b"CDGSAVE1";

// The number of colours in the table, which is also the number of levels.
const COLOUR_COUNT: u8 = 16;

impl PlainFile {
    /// Sets the bytes to the file of these counts, of the symbols of the last seven slots (zeros before the
    /// first slot) and of the screen.
    pub fn compose(
        &mut self,
        counts: &StreamCounts,
        slots: &[u8; SLOTS_BYTES],
        screen: &PlainScreen,
    )
        ensures { self.new ≡ file_of (kept counts.now slots.now (seen screen.now)) }
    {
        self.clear();
        self.put_counts(counts);
        self.put(slots);
        self.put_memory(screen);
        self.put_places(screen);
        self.put_colours(screen);
        self.put_levels(screen);
        let check = crc16(self.bytes());
        self.put(&check.to_be_bytes());
    }

    // Appends the mark and the counts.
    fn put_counts(&mut self, counts: &StreamCounts)
        requires { length self.old ≡ 0 }
        ensures parts { (slots : List ℕ) (now : Standing)
            → self.new ≡ with_parts self.old (kept counts.now slots now)
            (Mark ∷ ToCome ∷ LeadIn ∷ Program ∷ Bad ∷ []) }
        ensures size { length self.new ≡ (row Slots).first }
    {
        self.put(MARK);
        self.put_number(counts.to_come);
        self.put_number(counts.lead_in);
        self.put_number(counts.program);
        self.put_number(counts.bad);
    }

    fn put_number(&mut self, number: u32)
        requires { length self.old ≤ 65000 }
        ensures bytes { self.new ≡ self.old ++ bytes_of 4 number }
        ensures size { length self.new ≡ length self.old + 4 }
    {
        self.put(&number.to_be_bytes());
    }

    fn put_memory(&mut self, screen: &PlainScreen)
        requires { length self.old ≡ (row Memory).first }
        ensures part { (counts : StreamCounts) (slots : List ℕ)
            → self.new ≡ self.old ++ part_bytes (kept counts slots (seen screen.now)) Memory }
        ensures size { length self.new ≡ (row Border).first }
    {
        for y in 0..SCREEN_HEIGHT {
            self.put(&screen.memory_row(y));
        }
    }

    // Appends the border and both offsets.
    fn put_places(&mut self, screen: &PlainScreen)
        requires { length self.old ≡ (row Border).first }
        ensures parts { (counts : StreamCounts) (slots : List ℕ)
            → self.new ≡ with_parts self.old (kept counts slots (seen screen.now))
            (Border ∷ Across ∷ Down ∷ []) }
        ensures size { length self.new ≡ (row Colours).first }
    {
        self.put(&[screen.border()]);
        self.put(&[screen.offset_h()]);
        self.put(&[screen.offset_v()]);
    }

    fn put_colours(&mut self, screen: &PlainScreen)
        requires { length self.old ≡ (row Colours).first }
        ensures part { (counts : StreamCounts) (slots : List ℕ)
            → self.new ≡ self.old ++ part_bytes (kept counts slots (seen screen.now)) Colours }
        ensures size { length self.new ≡ (row Levels).first }
    {
        for k in 0..COLOUR_COUNT {
            self.put(&screen.colour(k).to_be_bytes());
        }
    }

    fn put_levels(&mut self, screen: &PlainScreen)
        requires { length self.old ≡ (row Levels).first }
        ensures part { (counts : StreamCounts) (slots : List ℕ)
            → self.new ≡ self.old ++ part_bytes (kept counts slots (seen screen.now)) Levels }
        ensures size { length self.new ≡ body_size }
    {
        for k in 0..COLOUR_COUNT {
            self.put(&[screen.level(k)]);
        }
    }
}
