//! The lines of replies: responses, statuses and refusals.
#![tactic(auto)]

mod chunk_value;
mod lines;
mod members;
mod named_refusal;
mod printing;
mod refusal;
mod response;
mod row_value;
mod rule_value;
mod status_value;
mod statuses;
mod table_value;

pub use lines::{empty_lines, ok_line};
pub use named_refusal::{bad_field_line, unsupported_line};
pub use printing::{response_line, served_lines, status_line, table_lines};
pub use refusal::Refusal;
pub use response::{EntryStatus, EntryStatusList, Response, TableNameList};

#[cfg(test)]
mod response_tests;
#[cfg(test)]
mod tests;
