//! Plans: what is to be done for a line, and what all methods share in making one.
#![tactic(auto)]

mod answer;
mod filter_refusal;
mod no_plan;
mod plan;
mod read_plan;
mod records;
pub mod row_entry;

pub use answer::Answer;
pub use filter_refusal::refusal_for_filter;
pub use no_plan::NoPlan;
pub use plan::{Plan, RecordList, incarnation_of, next_sequence};
pub use read_plan::ReadPlan;
pub use records::{as_record, plan_of, put_entry};
