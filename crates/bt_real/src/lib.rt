//! Devices of the machine: a disk over a folder, standard input and output, TCP connections, and the
//! system's clock.
#![tactic(auto)]

mod file_disk;
mod folder;
mod link_tally;
mod listener;
mod std_links;
mod std_print;
mod system_clock;
mod tcp_links;
#[cfg(test)]
mod tests;

pub use file_disk::FileDisk;
pub use folder::LockRefused;
pub use std_links::StdLinks;
pub use std_print::StdPrint;
pub use system_clock::SystemClock;
pub use tcp_links::TcpLinks;
