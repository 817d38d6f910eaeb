//! Ranges of row keys, of bytes and of times, and sets of rows.
#![tactic(auto)]

mod asked_range;
mod bound;
mod byte_range;
mod cover;
mod listing;
mod merging;
mod order;
mod row_set;
mod sorting;
mod time_range;

pub use asked_range::{AskedRange, normal_range};
pub use bound::Bound;
use bt_base::ListOf;
pub use byte_range::ByteRange;
pub use cover::covers_exactly;
pub use row_set::RowSet;
pub use time_range::TimeRange;

/// Ranges as a request asks for them.
pub type AskedRangeList = ListOf<AskedRange>;

#[cfg(test)]
mod tests;
