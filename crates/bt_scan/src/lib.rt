//! Reads of tables in memory, response by response.
#![tactic(auto)]

mod found_chunks;
mod found_rows;
mod scan;
mod selected_rows;

pub use scan::Scan;
