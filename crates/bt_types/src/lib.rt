//! Names, keys, cells and mutations, and how rows are read one after another.
#![tactic(auto)]

mod bytes_of_names;
mod cell;
mod family_name;
mod found_row;
mod label;
mod micros;
mod mutation;
mod qualifier;
mod reading;
mod row_key;
mod row_range;
mod rows;
mod source_fault;
mod table_name;
mod text;

use bt_base::ListOf;
pub use cell::{Cell, cell_order};
pub use family_name::FamilyName;
pub use found_row::FoundRow;
pub use label::Label;
pub use micros::Micros;
pub use mutation::Mutation;
pub use qualifier::Qualifier;
pub use reading::{NoReads, Reading};
pub use row_key::RowKey;
pub use row_range::RowRange;
pub use rows::Rows;
pub use source_fault::SourceFault;
pub use table_name::TableName;
pub use text::Text;

/// Row keys.
pub type KeyList = ListOf<RowKey>;

/// Cells.
pub type CellList = ListOf<Cell>;

/// Mutations of one row, applied in order.
pub type MutationList = ListOf<Mutation>;

/// Names of families.
pub type FamilyList = ListOf<FamilyName>;

/// Texts, as the words of a command line.
pub type TextList = ListOf<Text>;

#[cfg(test)]
mod tests;
