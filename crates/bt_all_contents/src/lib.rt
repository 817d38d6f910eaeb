//! The rows of all tables in memory.
#![tactic(auto)]

mod all_contents;
mod changes;
mod new_rows;
mod planned;
mod row_change;

pub use all_contents::AllContents;
use bt_base::ListOf;
pub use row_change::RowChange;

/// Changes of rows, made in order.
pub type RowChangeList = ListOf<RowChange>;

#[cfg(test)]
mod tests;
