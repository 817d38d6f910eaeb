//! The members of the messages that requests are made of, and their values.
#![tactic(auto)]

pub mod kinds;
pub mod names;
mod table;
mod values;

pub use table::Messages;
pub use values::{
    bytes_at, bytes_or_empty, int32_or_zero, int64_at, is_yes, items_at, members_at, micros_at,
    micros_or_zero, text_at, text_bytes, text_bytes_at, value_at,
};

#[cfg(test)]
mod tests;
