// Processes each block of a stream in a trial.
ghost use Rattle.std.specs.Prelude.{◌≡◌, ◌<◌, ◌≤◌, ◌+◌, ◌*◌, ℕ, List, length, IfOk};
ghost use Rattle.cdg_io.specs.Causes.{HasCause};
ghost use Rattle.raw_subcode.specs.Sizes.{block_bytes, most_units};
ghost use Rattle.picture_script.specs.Script.{Drawing};
ghost use Rattle.stream_trial.specs.Course.{stream_block, HasGoneOver, IsSteady};

use crate::gallery::Gallery;
use crate::replay::Replay;
use cdg_workload::{Scratches, scratches_are_bursts, scratches_go_block_by_block};
use pack_schedule::scheduled_pictures_are_shown;
use picture_script::Script;
use raw_subcode::{BLOCK_BYTES, SLOTS_A_BLOCK};
use rw_interleave::{Gather, gather_gives_words};
use std::alloc::AllocError;
use subcode_author::Heap;

/// Processes a stream without a lead-in block by block: each block is damaged, its words are corrected and played, and
/// the screen is compared with the next picture of a script when that must be ready. It has a window of slots, a screen
/// and a canvas.
#[derive(Drop)]
pub(crate) struct Course {
    pub(crate) scratches: Scratches,
    pub(crate) gather: Gather,
    pub(crate) replay: Replay,
    pub(crate) gallery: Gallery,
    /// The number of blocks so far.
    pub(crate) blocks: u32,
}

impl Course {
    /// A trial before the first block, with the scratches of a seed.
    pub(crate) fn start(heap: &mut Heap, seed: u64) -> Result<Course, AllocError>
        ensures blocks { IfOk result (λ course. course.blocks ≡ 0) }
        ensures steady { IfOk result (λ course. (script : List Drawing) → IsSteady script course) }
        ensures gone_over { IfOk result (λ course. (script : List Drawing) (bytes : List ℕ)
            → HasGoneOver script seed bytes course) }
        ensures counted { HasCause heap.old heap.new result }
    {
        // A law on the scratches before the first block.
        scratches_go_block_by_block();
        Ok(Course {
            scratches: Scratches::start(0, seed),
            gather: Gather::new(),
            replay: Replay::start(heap)?,
            gallery: Gallery::start(heap)?,
            blocks: 0,
        })
    }

    /// Processes the next block.
    pub(crate) fn go_over(&mut self, script: &Script, block: &[u8; BLOCK_BYTES])
        requires few { self.old.blocks < most_units }
        requires steady { IsSteady script.now self.old }
        ensures blocks { self.new.blocks ≡ self.old.blocks + 1 }
        ensures steady { IsSteady script.now self.new }
        ensures gone_over { (seed : ℕ) (bytes : List ℕ)
            → block_bytes * self.old.blocks + block_bytes ≤ length bytes
            → block.now ≡ stream_block bytes self.old.blocks
            → HasGoneOver script.now seed bytes self.old → HasGoneOver script.now seed bytes self.new }
    {
        // Laws on the block with scratches, the words that end with it, and the picture that is shown when it
        // is ready.
        scratches_go_block_by_block();
        scratches_are_bursts();
        gather_gives_words();
        scheduled_pictures_are_shown();
        // A law: the pictures of a script are in order.
        script.times_rise_and_colours_are_in_range();
        let mut scratched = *block;
        self.scratches.scratch(&mut scratched);
        let words = self.gather.push_block(&scratched);
        self.replay.take_words(&words);
        self.blocks += 1;
        self.gallery.look(
            script,
            &self.replay.screen,
            SLOTS_A_BLOCK as u32 * self.blocks,
        );
    }
}
