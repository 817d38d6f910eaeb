//! Entries of the write-ahead log, and their one spelling in bytes.
#![tactic(auto)]

mod entries;
mod entry;
mod families;
mod fault;
mod fields;
mod fitting;
mod mutations;
mod names;
mod numbered;
mod reading;
mod rules;
mod table_info;
mod writing;
mod writing_families;
mod writing_fields;

use bt_base::ListOf;
pub use entry::Entry;
pub use families::family_list_at;
pub use fault::BatchRefusal;
pub use fields::{moment_at, retention_at};
pub use fitting::fits;
pub use names::next_table_name_at;
pub use numbered::Numbered;
pub use reading::read_batch;
pub use table_info::TableInfo;
pub use writing::write_batch;
pub use writing_families::put_families;
pub use writing_fields::put_table_name;

/// Entries that are appended to the log together, in order.
pub type Batch = ListOf<Numbered>;

#[cfg(test)]
mod tests;
