//! What requests on tables and on their families are answered, and what they change.
#![tactic(auto)]

pub mod create_table;
pub mod delete_table;
mod families;
mod family_changes;
pub mod get_table;
pub mod list_tables;
mod losses;
pub mod modify_column_families;
mod retention;
pub mod update_table;
