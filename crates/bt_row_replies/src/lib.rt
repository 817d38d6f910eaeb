//! What requests on rows are answered, and what they change.
#![tactic(auto)]

pub mod drop_row_range;
pub mod mutate_row;
pub mod mutate_rows;
mod prefix;
pub mod read_rows;
