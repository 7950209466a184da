// Compares the pictures of a script with a screen, one after another.
ghost use Rattle.std.specs.Prelude.{◌≡◌, ◌≢◌, ◌<◌, ◌≤◌, ◌+◌, ◌*◌, List, IfOk};
ghost use Rattle.cdg_io.specs.Causes.{HasCause};
ghost use Rattle.picture_script.specs.Script.{Drawing, pictures, ready_time};
ghost use Rattle.picture_script.specs.Board.{StandsBefore};
ghost use Rattle.pack_schedule.specs.Shown.{ShowsPicture};

use crate::comparing::agrees;
use cdg_screen::Screen;
use picture_script::{Canvas, Script};
use raw_subcode::SLOTS_A_BLOCK;
use std::alloc::AllocError;
use subcode_author::Heap;

/// The pictures that are still to come, and the number of pictures that were shown in time.
#[derive(Drop)]
pub(crate) struct Gallery {
    pub(crate) canvas: Canvas,
    pub(crate) next: u32,
    pub(crate) equal: u32,
}

impl Gallery {
    /// A gallery before the first picture.
    pub(crate) fn start(heap: &mut Heap) -> Result<Gallery, AllocError>
        ensures canvas { IfOk result
            (λ gallery. (script : List Drawing) → StandsBefore script 0 gallery.canvas) }
        ensures counts { IfOk result (λ gallery. (gallery.next ≡ 0) × (gallery.equal ≡ 0)) }
        ensures counted { HasCause heap.old heap.new result }
    {
        Ok(Gallery {
            canvas: heap.asked(Canvas::start)?,
            next: 0,
            equal: 0,
        })
    }

    /// Compares the screen after `slots` slots with the next picture, if that must be ready.
    pub(crate) fn look(&mut self, script: &Script, screen: &Screen, slots: u32)
        requires canvas { StandsBefore script.now self.old.next self.old.canvas }
        requires next { self.old.next ≤ pictures script.now }
        requires equal { self.old.equal ≤ self.old.next }
        ensures canvas { StandsBefore script.now self.new.next self.new.canvas }
        ensures next { self.new.next ≤ pictures script.now }
        ensures equal { self.new.equal ≤ self.new.next }
        ensures waits { (self.old.next < pictures script.now
            → slots ≢ 4 * ready_time script.now self.old.next)
            → (self.new.next ≡ self.old.next) × (self.new.equal ≡ self.old.equal) }
        ensures looks { self.old.next < pictures script.now → slots ≡ 4 * ready_time script.now self.old.next
            → (self.new.next ≡ self.old.next + 1)
            × (ShowsPicture script.now self.old.next screen.now → self.new.equal ≡ self.old.equal + 1) }
        ensures differs { self.old.next < pictures script.now
            → slots ≡ 4 * ready_time script.now self.old.next
            → ¬ ShowsPicture script.now self.old.next screen.now → self.new.equal ≡ self.old.equal }
    {
        let pictures = script.pictures();
        if self.next < pictures && slots == SLOTS_A_BLOCK as u32 * script.ready(self.next) {
            self.canvas.draw_until(script, self.next);
            if agrees(screen, &self.canvas) {
                self.equal += 1;
            }
            self.next += 1;
        }
    }
}
