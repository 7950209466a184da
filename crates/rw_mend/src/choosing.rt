// The block that is chosen among readings.
ghost use Rattle.std.specs.Prelude.{◌≡◌, ◌<◌, ◌≤◌, ◌+◌, ◌*◌, ◌&&◌, ◌||◌, not, [], length, slice_index_or};
ghost use Rattle.std.specs.Cmp.Lexicographic.{slice_cmp};
ghost use Rattle.std.specs.Ordering.{is_gt, nat_cmp};
ghost use Rattle.raw_subcode.specs.Sizes.{block_bytes};
ghost use Rattle.rw_mend.specs.Chosen.{IsChosen, channel_rule, channels_of, completed, rank_of, symbol_rule, votes_for};
ghost use Rattle.rw_mend.specs.HeldReadings.{AreHeld, AreMarks, IsAny, held_blocks, is_eligible_for, part_of, rule_of};

use crate::MOST_READINGS;
use crate::held_readings::HeldReadings;
use crate::parts::{BlockPart, are_same};
use raw_subcode::BLOCK_BYTES;

impl<'a> HeldReadings<'a> {
    /// A reading with the bits P and Q that are chosen for block b.
    pub(crate) fn chosen_channels(&self, b: usize) -> usize
        requires held { AreHeld self.now }
        requires inside { block_bytes * b + block_bytes ≤ self.now.size }
        ensures within { result < self.now.count }
        ensures chosen { IsChosen (channel_rule (held_blocks self.now b))
            (held_blocks self.now b)
            (channels_of (slice_index_or (held_blocks self.now b) result [])) }
    {
        if self.have_same_channels(b) {
            return 0;
        }
        let eligible = self.eligible_channels(b);
        self.highest(b, &BlockPart::Channels, &eligible)
    }

    /// A reading with the symbols that are chosen for block b, in which some are known.
    pub(crate) fn chosen_symbols(&self, b: usize, known: &[Option<u8>; BLOCK_BYTES]) -> usize
        requires held { AreHeld self.now }
        requires inside { block_bytes * b + block_bytes ≤ self.now.size }
        ensures within { result < self.now.count }
        ensures chosen { IsChosen (symbol_rule known.now (held_blocks self.now b))
            (held_blocks self.now b)
            (completed known.now (slice_index_or (held_blocks self.now b) result [])) }
    {
        if self.have_same_block(b) {
            return 0;
        }
        let eligible = self.eligible_symbols(b);
        self.highest(b, &BlockPart::Symbols(known), &eligible)
    }

    // The first eligible reading of the highest rank.
    fn highest(&self, b: usize, part: &BlockPart, eligible: &[bool; MOST_READINGS]) -> usize
        requires held { AreHeld self.now }
        requires inside { block_bytes * b + block_bytes ≤ self.now.size }
        requires eligible { AreMarks (is_eligible_for part.now (held_blocks self.now b))
            (held_blocks self.now b) eligible.now }
        requires some { IsAny (is_eligible_for part.now (held_blocks self.now b))
            (held_blocks self.now b) }
        ensures within { result < self.now.count }
        ensures chosen { IsChosen (rule_of part.now (held_blocks self.now b))
            (held_blocks self.now b)
            (part_of part.now (slice_index_or (held_blocks self.now b) result [])) }
    {
        let mut highest = 0;
        for r in 1..self.count {
            if self.leads(b, part, eligible, r, highest) {
                highest = r;
            }
        }
        highest
    }

    // Whether a reading is eligible, and another is not or has a lower rank.
    fn leads(
        &self,
        b: usize,
        part: &BlockPart,
        eligible: &[bool; MOST_READINGS],
        one: usize,
        other: usize,
    ) -> bool
        requires held { AreHeld self.now }
        requires inside { block_bytes * b + block_bytes ≤ self.now.size }
        requires eligible { AreMarks (is_eligible_for part.now (held_blocks self.now b))
            (held_blocks self.now b) eligible.now }
        requires one { one < self.now.count }
        requires other { other < self.now.count }
        ensures { result ≡ (is_eligible_for part.now (held_blocks self.now b)
            (slice_index_or (held_blocks self.now b) one [])
            && (not (is_eligible_for part.now (held_blocks self.now b)
            (slice_index_or (held_blocks self.now b) other []))
            || is_gt (slice_cmp nat_cmp
            (rank_of (rule_of part.now (held_blocks self.now b)) (held_blocks self.now b)
            (slice_index_or (held_blocks self.now b) one []))
            (rank_of (rule_of part.now (held_blocks self.now b)) (held_blocks self.now b)
            (slice_index_or (held_blocks self.now b) other []))))) }
    {
        if !eligible[one] {
            return false;
        }
        if !eligible[other] {
            return true;
        }
        self.is_higher(b, part, eligible, one, other)
    }

    // Whether the rank of one reading in block b is above that of another.
    fn is_higher(
        &self,
        b: usize,
        part: &BlockPart,
        eligible: &[bool; MOST_READINGS],
        one: usize,
        other: usize,
    ) -> bool
        requires held { AreHeld self.now }
        requires inside { block_bytes * b + block_bytes ≤ self.now.size }
        requires eligible { AreMarks (is_eligible_for part.now (held_blocks self.now b))
            (held_blocks self.now b) eligible.now }
        requires one { one < self.now.count }
        requires other { other < self.now.count }
        ensures { result ≡ is_gt (slice_cmp nat_cmp
            (rank_of (rule_of part.now (held_blocks self.now b)) (held_blocks self.now b)
            (slice_index_or (held_blocks self.now b) one []))
            (rank_of (rule_of part.now (held_blocks self.now b)) (held_blocks self.now b)
            (slice_index_or (held_blocks self.now b) other []))) }
    {
        let matches = part.matches(self.block(one, b));
        let its_matches = part.matches(self.block(other, b));
        if matches != its_matches {
            return matches > its_matches;
        }
        let own = part.of(self.block(one, b));
        let its = part.of(self.block(other, b));
        if are_same(&own, &its) {
            return false;
        }
        let votes = self.votes(b, part, eligible, &own);
        let its_votes = self.votes(b, part, eligible, &its);
        if votes != its_votes {
            return votes > its_votes;
        }
        own[..] > its[..]
    }

    // The number of eligible readings that have this part in block b.
    fn votes(
        &self,
        b: usize,
        part: &BlockPart,
        eligible: &[bool; MOST_READINGS],
        own: &[u8; BLOCK_BYTES],
    ) -> usize
        requires held { AreHeld self.now }
        requires inside { block_bytes * b + block_bytes ≤ self.now.size }
        requires eligible { AreMarks (is_eligible_for part.now (held_blocks self.now b))
            (held_blocks self.now b) eligible.now }
        ensures { result ≡ votes_for (rule_of part.now (held_blocks self.now b))
            (held_blocks self.now b) own.now }
    {
        let mut votes = 0;
        for r in 0..self.count {
            if eligible[r] && are_same(&part.of(self.block(r, b)), own) {
                votes += 1;
            }
        }
        votes
    }
}
