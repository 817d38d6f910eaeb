//! The service: the words of its command line, its connections and their lines.
#![tactic(auto)]

mod buffer;
mod connection;
mod exit;
mod lines;
mod serving;
mod top;

pub use bt_store::Limits;
pub use bt_words::{Command, WordsRefusal, read_words};
pub use exit::Exit;
pub use serving::session;
pub use top::bigtable;

#[cfg(test)]
mod tests;
