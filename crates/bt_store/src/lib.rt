//! The tables on a disk: loaded, and changed by entries of the write-ahead log.
#![tactic(auto)]

mod begun;
mod limits;
mod loaded;
mod store;
mod table_cursor;
#[cfg(test)]
mod tests;

pub use bt_gate::LogFault as StoreFault;
pub use limits::Limits;
pub use store::Store;
pub use table_cursor::TableCursor;
