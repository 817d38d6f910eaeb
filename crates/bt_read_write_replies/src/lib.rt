//! What requests that read a row before they write it are answered, and what they change.
#![tactic(auto)]

pub mod check_and_mutate_row;
pub mod read_modify_write_row;
