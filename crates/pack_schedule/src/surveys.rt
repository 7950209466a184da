// When the change of each picture of a script is sent, and which picture is the first late one.
ghost use Rattle.std.specs.Prelude.{◌≡◌, ◌<◌, ◌≤◌, ◌+◌, ◌-◌, ◌*◌, ℕ, length, slice_index_or, IfOk, IfErr, OnOk, IsTrue, ◌↔◌, nat_le};
ghost use Rattle.disc_time.specs.Counts.{time_count};
ghost use Rattle.raw_subcode.specs.Sizes.{slots_a_block};
ghost use Rattle.picture_script.specs.Script.{pictures, ready_time};
ghost use Rattle.picture_script.specs.Board.{IsPicture};
ghost use Rattle.pack_schedule.specs.Schedule.{start_of, free_packs, IsInTime};
ghost use Rattle.pack_schedule.specs.Change.{most_change};
ghost use Rattle.pack_schedule.specs.PlannedChange.{chosen_start, planned_change};
ghost use Rattle.pack_schedule.specs.Survey.{nothing_planned, IsRoomFor, IsLatePicture, IsSurvey, IsUndrawn, IsWithin, IsPastEnd};
ghost use Rattle.pack_schedule.specs.Weaving.{IsRoomAt};
ghost use Rattle.pack_schedule.specs.Weights.{AreWeights};
ghost use Rattle.rw_interleave.specs.Interleave.{packs_kept_back};

use crate::change::{NOT_WEIGHED, Weighed, choose_start};
use crate::stops::LatePicture;
use crate::{changes_have_planned_lengths, needs_are_fewest, planned_changes_are_changes};
use cdg_instructions::WINDOW_TILES;
use picture_script::{Canvas, Script};
use raw_subcode::SLOTS_A_BLOCK;
use rw_interleave::{PACKS_KEPT_BACK, whole_packs};
use std::alloc::{AllocError, Global};
use std::marker::Model;

/// When the packs of a picture's change are sent.
#[derive(Clone, Copy)]
pub struct PlannedChange {
    /// The number of the first pack, from 0.
    pub start: u32,
    /// The number of packs of the change, at most 3,076.
    pub need: u32,
    /// The colour of the preset with which the change begins, or `None` if it begins without one.
    pub preset: Option<u8>,
}

/// When the packs of each picture's change are sent. A contract sees the list of the planned changes.
#[derive(Drop)]
pub struct Survey {
    pub(crate) planned: Vec<PlannedChange>,
}

impl Model for Survey {
    ghost use Rattle.std.specs.Prelude.{List};
    ghost use Rattle.pack_schedule.specs.declared.surveys.PlannedChange.{PlannedChange};

    ghost Value = { List PlannedChange };

    ghost view = { λ s. s.planned.items };
}

impl Survey {
    ghost use Rattle.std.specs.Prelude.{◌≡◌, ◌<◌, length, slice_index_or};
    ghost use Rattle.pack_schedule.specs.Survey.{nothing_planned};

    /// The number of the pack with which the change of picture `k` begins.
    pub fn start(&self, k: u32) -> u32
        requires { k < length self.now }
        ensures { result ≡ (slice_index_or self.now k nothing_planned).start }
    {
        self.planned[k as usize].start
    }

    /// The number of packs of the change of picture `k`.
    pub fn need(&self, k: u32) -> u32
        requires { k < length self.now }
        ensures { result ≡ (slice_index_or self.now k nothing_planned).need }
    {
        self.planned[k as usize].need
    }

    /// The colour of the preset with which the change of picture `k` begins, or `None` if it begins without one.
    pub fn preset(&self, k: u32) -> Option<u8>
        requires { k < length self.now }
        ensures { result ≡ (slice_index_or self.now k nothing_planned).preset }
    {
        self.planned[k as usize].preset
    }

    /// The planned change of picture `k`.
    pub(crate) fn change(&self, k: u32) -> PlannedChange
        requires { k < length self.now }
        ensures { result ≡ slice_index_or self.now k nothing_planned }
    {
        self.planned[k as usize]
    }
}

/// Whether the last picture is held for longer than `blocks` blocks.
pub fn is_past_end(script: &Script, blocks: u32) -> bool
    ensures { IsTrue result ↔ IsPastEnd script.now blocks }
{
    let pictures = script.pictures();
    pictures > 0 && script.hold(pictures - 1) > blocks
}

/// Plans the change of each picture in allocated memory. The caller knows that the last picture is not held past the
/// end. So the only error is a late picture.
///
/// # Errors
///
/// The first late picture.
pub fn survey_in(mut room: SurveyRoom, script: &Script, blocks: u32) -> Result<Survey, LatePicture>
    requires end { ¬ IsPastEnd script.now blocks }
    requires room { IsRoomFor (pictures script.now) room }
    ensures within { IsWithin script.now blocks }
    ensures planned { IfOk result (IsSurvey script.now) }
    ensures late { IfErr result (IsLatePicture script.now) }
{
    // A law: the times of pictures rise, so no picture is held past the end.
    script.times_rise_and_colours_are_in_range();
    room.plan_pictures(script)?;
    Ok(room.into_survey())
}

impl SurveyRoom {
    fn into_survey(self) -> Survey
        ensures { result ≡ self.planned.items }
    {
        Survey {
            planned: self.planned,
        }
    }

    // Plans the changes of all pictures up to the first late one.
    fn plan_pictures(&mut self, script: &Script) -> Result<(), LatePicture>
        requires { IsRoomAt script.now 0 self.old }
        ensures planned { OnOk result (IsSurvey script.now self.new.planned.items) }
        ensures late { IfErr result (IsLatePicture script.now) }
    {
        // Laws: a late picture needs the reported packs.
        script.times_rise_and_colours_are_in_range();
        needs_are_fewest();
        let pictures = script.pictures();
        let mut weights = [NOT_WEIGHED; WINDOW_TILES];
        for k in 0..pictures {
            self.plan_next(script, k, &mut weights)?;
        }
        Ok(())
    }

    // Plans the change of picture `k`. If it is in time, the plan is kept, and both canvases have the picture.
    fn plan_next(
        &mut self,
        script: &Script,
        k: u32,
        weights: &mut [Weighed; WINDOW_TILES],
    ) -> Result<(), LatePicture>
        requires picture { k < pictures script.now }
        requires room { IsRoomAt script.now k self.old }
        requires weights { 0 < k → AreWeights script.now (k - 1) weights.old }
        ensures room { OnOk result (IsRoomAt script.now (k + 1) self.new) }
        ensures late { IfErr result (λ late. (late ≡ record {
          picture = k;
          need = length (planned_change script.now k);
          free = free_packs script.now k;
        }) × (¬ IsInTime script.now k (length (planned_change script.now k)))) }
        ensures weights { AreWeights script.now k weights.new }
    {
        self.now.draw_until(script, k);
        let change = plan_picture(script, k, &self.before, &self.now, weights);
        if !is_in_time(script, k, change.start, change.need) {
            return Err(LatePicture {
                picture: k,
                need: change.need,
                free: free_packs(script, k, change.start),
            });
        }
        self.planned.push_reserved(change);
        self.before.draw_like(script, k, &self.now);
        Ok(())
    }
}

/// The planned change of picture `k`. This picture is on `now`, the previous one on `before`.
pub(crate) fn plan_picture(
    script: &Script,
    k: u32,
    before: &Canvas,
    now: &Canvas,
    weights: &mut [Weighed; WINDOW_TILES],
) -> PlannedChange
    requires picture { k < pictures script.now }
    requires now { IsPicture script.now k now.now }
    requires before { 0 < k → IsPicture script.now (k - 1) before.now }
    requires weights { 0 < k → AreWeights script.now (k - 1) weights.old }
    ensures weights { AreWeights script.now k weights.new }
    ensures start { result.start ≡ start_of script.now k }
    ensures preset { result.preset ≡ chosen_start script.now k }
    ensures need { result.need ≡ length (planned_change script.now k) }
    ensures below { (result.start < slots_a_block * time_count) × (result.need ≤ most_change) }
{
    // Laws: the planned change has the counted length.
    planned_changes_are_changes();
    changes_have_planned_lengths();
    script.times_rise_and_colours_are_in_range();
    let choice = choose_start(script, k, before, now, weights);
    let start = if k == 0 {
        0
    } else {
        whole_packs(script.hold(k - 1))
    };
    PlannedChange {
        start,
        need: choice.need,
        preset: choice.preset,
    }
}

/// The memory of a survey: two empty canvases, and room for the planned change of each picture.
#[derive(Drop)]
pub struct SurveyRoom {
    pub(crate) before: Canvas,
    pub(crate) now: Canvas,
    pub(crate) planned: Vec<PlannedChange>,
}

impl SurveyRoom {
    /// Allocates the memory for a survey of `pictures` pictures.
    pub fn start(alloc: Global, pictures: u32) -> Result<SurveyRoom, AllocError>
        ensures { IfOk result (IsRoomFor pictures) }
    {
        let (before, now) = two_canvases(alloc)?;
        let planned = Vec::with_capacity(alloc, pictures as usize)?;
        Ok(SurveyRoom {
            before,
            now,
            planned,
        })
    }
}

/// Two canvases on which nothing is drawn.
pub(crate) fn two_canvases(alloc: Global) -> Result<(Canvas, Canvas), AllocError>
    ensures { IfOk result (λ two. IsUndrawn two.0 × IsUndrawn two.1) }
{
    let first = Canvas::start(alloc)?;
    let second = Canvas::start(alloc)?;
    Ok((first, second))
}

/// Whether `need` packs from a start on are complete at the ready time of picture `k`.
pub(crate) fn is_in_time(script: &Script, k: u32, start: u32, need: u32) -> bool
    requires picture { k < pictures script.now }
    requires start { start < slots_a_block * time_count }
    requires need { need ≤ most_change }
    ensures { result ≡ nat_le (start + need + packs_kept_back) (slots_a_block * ready_time script.now k) }
{
    start + need + PACKS_KEPT_BACK as u32 <= SLOTS_A_BLOCK as u32 * script.ready(k)
}

pub(crate) fn free_packs(script: &Script, k: u32, start: u32) -> u32
    requires picture { k < pictures script.now }
    requires start { start ≡ start_of script.now k }
    ensures { result ≡ free_packs script.now k }
{
    whole_packs(script.ready(k)).saturating_sub(start)
}
