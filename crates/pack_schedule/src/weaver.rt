// The packs of a program: the packs of the changes, and idle packs between them.
ghost use Rattle.std.specs.Prelude.{◌<◌, ◌-◌};
ghost use Rattle.picture_script.specs.Board.{StandsBefore};
ghost use Rattle.picture_script.specs.Script.{pictures};

use crate::change::ChangeList;
use crate::surveys::{Survey, two_canvases};
use crate::{changes_can_be_written, planned_changes_are_changes};
use cdg_instructions::write;
use picture_script::{Canvas, Script};
use rw_code::Pack;
use std::alloc::{AllocError, Global};
use std::marker::Model;

/// The current change, of picture `k`. If it has packs, this picture and the previous one are on the two
/// canvases.
#[derive(Drop)]
pub(crate) struct ChangeAtHand {
    pub(crate) survey: Survey,
    pub(crate) before: Canvas,
    pub(crate) now: Canvas,
    pub(crate) change: ChangeList,
    pub(crate) k: u32,
    // The number of the first pack of the change, or `u32::MAX` after the last change.
    pub(crate) start: u32,
}

impl ChangeAtHand {
    ghost use Rattle.std.specs.Prelude.{◌≡◌, ◌↔◌, ◌<◌, ◌≤◌, ◌+◌, ◌-◌, length, unwrap_or, IfOk, IsNone};
    ghost use Rattle.picture_script.specs.Board.{StandsBefore};
    ghost use Rattle.picture_script.specs.Script.{pictures};
    ghost use Rattle.rw_code.specs.Packs.{idle_pack};
    ghost use Rattle.pack_schedule.specs.Schedule.{start_of};
    ghost use Rattle.pack_schedule.specs.PlannedChange.{planned_change};
    ghost use Rattle.pack_schedule.specs.Survey.{IsSurvey};
    ghost use Rattle.pack_schedule.specs.Woven.{IsPackAt};
    ghost use Rattle.pack_schedule.specs.Weaving.{IsWeaving};

    /// Begins with the change of the first picture, if there is one.
    pub(crate) fn start(
        alloc: Global,
        script: &Script,
        survey: Survey,
    ) -> Result<ChangeAtHand, AllocError>
        requires { IsSurvey script.now survey }
        ensures { IfOk result (λ at_hand. IsWeaving script.now at_hand 0) }
    {
        let (before, now) = two_canvases(alloc)?;
        let change = ChangeList::start(alloc)?;
        let mut at_hand = ChangeAtHand {
            survey,
            before,
            now,
            change,
            k: 0,
            start: u32::MAX,
        };
        if script.pictures() > 0 {
            at_hand.prepare(script);
        }
        Ok(at_hand)
    }

    // Plans the change of picture `k`. If it is empty, nothing is drawn. The function is not inlined, since most packs are
    // idle.
    #[inline(never)]
    fn prepare(&mut self, script: &Script)
        requires surveyed { IsSurvey script.now self.old.survey }
        requires picture { self.old.k < pictures script.now }
        requires before { StandsBefore script.now (self.old.k - 1) self.old.before }
        requires now { StandsBefore script.now (self.old.k - 1) self.old.now }
        ensures change { self.new.change ≡ planned_change script.now self.old.k }
        ensures start { self.new.start ≡ start_of script.now self.old.k }
        ensures before { StandsBefore script.now self.old.k self.new.before }
        ensures now { StandsBefore script.now self.old.k self.new.now }
        ensures survey { self.new.survey ≡ self.old.survey }
        ensures k { self.new.k ≡ self.old.k }
    {
        // A law: the planned start is allowed.
        planned_changes_are_changes();
        let k = self.k;
        let planned = self.survey.change(k);
        self.start = planned.start;
        if planned.need == 0 {
            self.change.clear();
            return;
        }
        if k > 0 {
            self.now.draw_until(script, k - 1);
            self.before.draw_like(script, k - 1, &self.now);
        }
        self.now.draw_until(script, k);
        self.change
            .plan(script, k, planned.preset, &self.before, &self.now);
    }

    /// Moves to the first change that is not finished after `given` packs.
    pub(crate) fn skip_sent(&mut self, script: &Script, given: u32)
        requires { IsWeaving script.now self.old given }
        ensures weaving { IsWeaving script.now self.new given }
        ensures current { self.new.k < pictures script.now
            → given < start_of script.now self.new.k + length (planned_change script.now self.new.k) }
    {
        if given < self.start {
            return;
        }
        let pictures = script.pictures();
        for _k in self.k..pictures {
            let planned = self.survey.change(self.k);
            if given < planned.start + planned.need {
                return;
            }
            self.k += 1;
            self.start = u32::MAX;
            if self.k < pictures {
                self.prepare(script);
            }
        }
    }

    /// The pack with this number: an instruction of the current change, or `None` if it is idle.
    #[inline]
    pub(crate) fn pack(&self, script: &Script, given: u32) -> Option<Pack>
        requires weaving { IsWeaving script.now self.now given }
        requires current { self.now.k < pictures script.now
            → given < start_of script.now self.now.k + length (planned_change script.now self.now.k) }
        ensures pack { IsPackAt script.now given (unwrap_or result idle_pack) }
        ensures none { IsNone result ↔ (unwrap_or result idle_pack ≡ idle_pack) }
    {
        // Laws: each instruction can be written.
        planned_changes_are_changes();
        changes_can_be_written();
        let pictures = script.pictures();
        if given < self.start || self.k >= pictures {
            return None;
        }
        Some(write(&self.change.get((given - self.start) as usize)))
    }
}

/// Returns the packs of a script one after another.
///
/// A contract sees the script and the number of packs so far.
#[derive(Drop)]
pub struct Weaver<'a> {
    script: &'a Script,
    at_hand: ChangeAtHand,
    given: u32,
}

impl<'a> Model for Weaver<'a> {
    ghost use Rattle.pack_schedule.specs.Woven.{Woven};
    ghost use Rattle.pack_schedule.specs.Weaving.{IsWeaving};

    ghost Value = { Woven };

    ghost view = { λ w. record { script = w.script.now; given = w.given } };

    ghost invariant = { λ w. IsWeaving w.script.now w.at_hand w.given };
}

impl<'a> Weaver<'a> {
    ghost use Rattle.std.specs.Prelude.{◌≡◌, ◌↔◌, ◌<◌, ◌+◌, ℕ, true, false, IfOk, IsNone, min, unwrap_or};
    ghost use Rattle.rw_code.specs.Packs.{idle_pack};
    ghost use Rattle.pack_schedule.specs.Survey.{IsSurvey};
    ghost use Rattle.pack_schedule.specs.Woven.{ArePassedBy, IsPackAt, most_counted};

    /// A weaver before its first pack.
    pub fn start(
        alloc: Global,
        script: &'a Script,
        survey: Survey,
    ) -> Result<Weaver<'a>, AllocError>
        requires { IsSurvey script.now survey }
        ensures script { IfOk result (λ w. w.script ≡ script.now) }
        ensures given { IfOk result (λ w. w.given ≡ 0) }
    {
        let at_hand = ChangeAtHand::start(alloc, script, survey)?;
        Ok(Weaver {
            script,
            at_hand,
            given: 0,
        })
    }

    /// The next pack, which is idle after all changes. The number of packs saturates.
    pub fn next(&mut self) -> Pack
        ensures pack { IsPackAt self.old.script self.old.given result }
        ensures script { self.new.script ≡ self.old.script }
        ensures given { self.new.given ≡ min (self.old.given + 1) most_counted }
    {
        match self.next_unless_idle() {
            Some(pack) => pack,
            None => Pack::idle(),
        }
    }

    /// The next pack, or `None` if it is idle. An idle pack is counted too.
    #[inline]
    pub fn next_unless_idle(&mut self) -> Option<Pack>
        ensures pack { IsPackAt self.old.script self.old.given (unwrap_or result idle_pack) }
        ensures none { IsNone result ↔ (unwrap_or result idle_pack ≡ idle_pack) }
        ensures script { self.new.script ≡ self.old.script }
        ensures given { self.new.given ≡ min (self.old.given + 1) most_counted }
    {
        self.at_hand.skip_sent(self.script, self.given);
        let pack = self.at_hand.pack(self.script, self.given);
        self.given = self.given.saturating_add(1);
        pack
    }

    /// Skips the next `packs` packs if no change has one of them, and returns whether it did so.
    #[inline]
    pub fn pass_idle(&mut self, packs: u32) -> bool
        ensures passes { result ≡ true ↔ ArePassedBy self.old packs }
        ensures idle { result ≡ true → (n : ℕ) → n < packs
            → IsPackAt self.old.script (self.old.given + n) idle_pack }
        ensures given { result ≡ true → self.new.given ≡ self.old.given + packs }
        ensures script { self.new.script ≡ self.old.script }
        ensures stays { result ≡ false → self.new ≡ self.old }
    {
        self.script.times_rise_and_colours_are_in_range();
        self.at_hand.skip_sent(self.script, self.given);
        let Some(given) = self.given.checked_add(packs) else {
            return false;
        };
        if self.at_hand.start < given {
            return false;
        }
        self.given = given;
        true
    }
}
