//! The packs of a picture script: the changes that show its pictures, and when their packs are sent.
#![tactic(auto)]

mod change;
mod change_laws;
mod laws;
mod length_laws;
mod planner;
mod stops;
mod surveys;
mod weaver;

pub use change_laws::{
    changes_can_be_written, changes_have_planned_lengths, planned_changes_are_changes,
};
pub use laws::{
    packs_are_a_schedule, plans_report_what_a_survey_reports, scheduled_pictures_are_shown,
};
pub use length_laws::{
    needs_are_fewest, ordered_changes_are_shortest, schedules_of_ordered_changes_are_schedules,
};
pub use planner::{PlanRow, Planner, survey};
pub use stops::{LatePicture, Stop};
pub use surveys::{PlannedChange, Survey, SurveyRoom, is_past_end, survey_in};
pub use weaver::Weaver;
