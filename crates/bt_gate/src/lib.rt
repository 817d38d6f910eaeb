//! Records behind gates, a file read whole, and the faults of logs.
#![tactic(auto)]

mod gate;
mod log_fault;
#[cfg(test)]
mod tests;
mod whole;

pub use gate::append;
pub use log_fault::LogFault;
pub use whole::read_file;
