// The plan of a script: a row for each picture, also after a late one, or a survey up to the first late picture.
ghost use Rattle.std.specs.Prelude.{◌≡◌, ◌<◌, ◌≤◌, ◌-◌, ℕ, slice_index_or, IfOk, IfErr, Err};
ghost use Rattle.disc_time.specs.Counts.{time_count};
ghost use Rattle.picture_script.specs.Script.{pictures};
ghost use Rattle.picture_script.specs.Board.{IsPicture};
ghost use Rattle.pack_schedule.specs.Change.{most_change};
ghost use Rattle.pack_schedule.specs.Plans.{IsPlanRow};
ghost use Rattle.pack_schedule.specs.Brings.{CannotBeReady, IsNeed};
ghost use Rattle.pack_schedule.specs.Survey.{nothing_planned, IsSurvey, IsWithin, IsPastEnd, IsStop};
ghost use Rattle.pack_schedule.specs.Weights.{AreWeights};

use crate::change::{NOT_WEIGHED, Weighed};
use crate::needs_are_fewest;
use crate::stops::Stop;
use crate::surveys::{
    Survey, SurveyRoom, free_packs, is_in_time, is_past_end, plan_picture, survey_in, two_canvases,
};
use cdg_instructions::WINDOW_TILES;
use picture_script::{Canvas, Script};
use std::alloc::{AllocError, Global};
use std::marker::Model;

/// The plan of a picture, in time or late. Times are blocks of the program.
#[derive(Clone, Copy)]
pub struct PlanRow {
    /// The ready time of the picture.
    pub ready: u32,
    /// The end of its hold time.
    pub hold: u32,
    /// The number of packs of its change, at most 3,076.
    pub need: u32,
    /// The number of packs that are free for the picture.
    pub free: u32,
    /// The number of the first free pack, from 0.
    pub first: u32,
    /// Whether the packs of its change are incomplete at its ready time.
    pub late: bool,
}

/// Plans a script row by row: one row for each picture, in time or late.
///
/// A contract sees the script and the number of rows so far.
#[derive(Drop)]
pub struct Planner<'a> {
    script: &'a Script,
    before: Canvas,
    now: Canvas,
    weights: [Weighed; WINDOW_TILES],
    given: u32,
}

impl<'a> Model for Planner<'a> {
    ghost use Rattle.pack_schedule.specs.Plans.{Planning};
    ghost use Rattle.pack_schedule.specs.PlannerParts.{IsBeforePicture};

    ghost Value = { Planning };

    ghost view = { λ p. record { script = p.script.now; given = p.given } };

    ghost invariant = { λ p. IsBeforePicture p.script.now p.given p.before p.now p.weights };
}

impl<'a> Planner<'a> {
    ghost use Rattle.std.specs.Prelude.{◌+◌, ◌↔◌, IfOk, IfSome, IsSome, if◌then◌else◌, nat_lt};

    /// A planner before its first row.
    pub fn start(alloc: Global, script: &'a Script) -> Result<Planner<'a>, AllocError>
        ensures script { IfOk result (λ p. p.script ≡ script.now) }
        ensures given { IfOk result (λ p. p.given ≡ 0) }
    {
        let (before, now) = two_canvases(alloc)?;
        Ok(Planner {
            script,
            before,
            now,
            weights: [NOT_WEIGHED; WINDOW_TILES],
            given: 0,
        })
    }

    /// The row of the next picture, or `None` after the last one.
    pub fn next_row(&mut self) -> Option<PlanRow>
        ensures row { IfSome result (IsPlanRow self.old.script self.old.given) }
        ensures few { IfSome result (λ row. row.need ≤ most_change) }
        ensures some { IsSome result ↔ (self.old.given < pictures self.old.script) }
        ensures script { self.new.script ≡ self.old.script }
        ensures given { self.new.given
            ≡ (if nat_lt self.old.given (pictures self.old.script) then self.old.given + 1
            else self.old.given) }
    {
        if self.given == self.script.pictures() {
            return None;
        }
        let k = self.given;
        self.now.draw_until(self.script, k);
        let row = plan_row(self.script, k, &self.before, &self.now, &mut self.weights);
        self.before.draw_like(self.script, k, &self.now);
        self.given += 1;
        Some(row)
    }
}

// The row of picture `k`. This picture is on `now`, the previous one on `before`.
fn plan_row(
    script: &Script,
    k: u32,
    before: &Canvas,
    now: &Canvas,
    weights: &mut [Weighed; WINDOW_TILES],
) -> PlanRow
    requires picture { k < pictures script.now }
    requires now { IsPicture script.now k now.now }
    requires before { 0 < k → IsPicture script.now (k - 1) before.now }
    requires weights { 0 < k → AreWeights script.now (k - 1) weights.old }
    ensures row { IsPlanRow script.now k result }
    ensures few { result.need ≤ most_change }
    ensures weights { AreWeights script.now k weights.new }
{
    // A law: the counted instructions are those that the picture needs.
    needs_are_fewest();
    script.times_rise_and_colours_are_in_range();
    let change = plan_picture(script, k, before, now, weights);
    PlanRow {
        ready: script.ready(k),
        hold: script.hold(k),
        need: change.need,
        free: free_packs(script, k, change.start),
        first: change.start,
        late: !is_in_time(script, k, change.start, change.need),
    }
}

/// Plans the change of each picture, for a program of `blocks` blocks, below 450,000.
///
/// A picture is in time if the packs of its change are complete at its ready time. The first of them is the first pack
/// that is incomplete at the hold time of the previous picture.
///
/// # Errors
///
/// `PastEnd` exactly if the last picture is held for longer than `blocks`. `Late` for the first late picture, with the
/// number of packs that it needs and the number that is free for it. `NoMemory` if memory runs out.
pub fn survey(alloc: Global, script: &Script, blocks: u32) -> Result<Survey, Stop>
    requires { blocks < time_count }
    ensures within { IfOk result (λ _. IsWithin script.now blocks) }
    ensures planned { IfOk result (IsSurvey script.now) }
    ensures err { IfErr result (IsStop script.now blocks) }
    ensures past_end { IsPastEnd script.now blocks → result ≡ Err (Stop.PastEnd blocks) }

    // A picture needs the length of a shortest list without scrolls that shows it, and a late picture cannot be ready.
    ensures fewest { IfOk result (λ planned. (k : ℕ) → k < pictures script.now
        → IsNeed script.now k (slice_index_or planned k nothing_planned).need) }
    ensures late { (picture need free : ℕ) → result ≡ Err (Stop.Late picture need free)
        → CannotBeReady script.now picture need free }
{
    // A law: the counted instructions are those that each picture needs.
    needs_are_fewest();
    script.times_rise_and_colours_are_in_range();
    if is_past_end(script, blocks) {
        return Err(Stop::PastEnd { blocks });
    }
    plan_all(alloc, script, blocks)
}

// Allocates the memory of a survey, and plans the change of each picture.
fn plan_all(alloc: Global, script: &Script, blocks: u32) -> Result<Survey, Stop>
    requires end { ¬ IsPastEnd script.now blocks }
    ensures within { IfOk result (λ _. IsWithin script.now blocks) }
    ensures planned { IfOk result (IsSurvey script.now) }
    ensures err { IfErr result (IsStop script.now blocks) }
{
    let room = SurveyRoom::start(alloc, script.pictures())?;
    Ok(survey_in(room, script, blocks)?)
}
