//! Cue sheets and plans of discs as rows of plain numbers, for programs in C.
#![tactic(auto)]

mod index_rows;
mod picture_rows;
mod plan;
mod reading;
mod reports;
mod stops;
mod text;

pub use index_rows::{SheetRow, sheet_rows};
pub use picture_rows::PlannedRow;
pub use plan::{PlannedDisc, plan_disc};
pub use reports::{PlanReport, SheetReport, plan_report, refusal_report, stop_report};
pub use stops::{PlanStop, SheetStop, TextStop};
pub use text::sheet_text;
