//! The cells of a row in memory, and changes of it.
#![tactic(auto)]

mod cell_key;
mod extent;
mod plan;
mod row;

pub use cell_key::{CellKey, copy_of};
pub use extent::Extent;
pub use plan::{Ending, Outcome, Plan};
pub use row::Row;
