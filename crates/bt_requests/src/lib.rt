//! Requests read from lines of JSON: the envelope, the methods, and what each request asks for.
#![tactic(auto)]

mod bounds;
mod check_and_mutate;
mod create_table;
mod drop_row_range;
mod envelope;
mod families;
mod filters;
mod list_tables;
mod method;
mod modifications;
mod mutations;
mod named_table;
mod order;
mod parsing;
mod read_modify_write;
mod read_rows;
mod refusal;
mod request;
mod request_object;
mod row_sets;
mod rows;
mod rules;

pub use envelope::{LineRefusal, read_envelope};
pub use families::{AskedFamily, AskedFamilyList, FamilyChange, Modification, ModificationList};
pub use method::Method;
pub use order::read_request;
pub use refusal::RequestRefusal;
pub use request::{DropTarget, Request};
pub use request_object::RequestObject;
pub use rows::{AskedEntry, AskedEntryList};

#[cfg(test)]
mod row_set_tests;
#[cfg(test)]
mod tests;
