//! The fields of files: numbers, texts, counts and lists. They are read from the left, and written
//! at the end of bytes.
#![tactic(auto)]

mod fault;
mod fields;
mod writing;

pub use fault::Fault;
pub use fields::{count_at, text8_at, text16_at, text32_at, u8_at, u16_at, u32_at, u64_at};
pub use writing::{put_text8, put_text16, put_text32, put_u16, put_u32, put_u64};

#[cfg(test)]
mod tests;
