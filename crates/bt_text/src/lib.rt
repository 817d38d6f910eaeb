//! Readers and printers of the fields of JSON messages, by the proto3 JSON mapping.
#![tactic(auto)]

mod base64_form;
mod bytes;
mod calendar;
mod duration;
mod enums;
mod fraction;
mod laws;
mod members;
mod names;
mod numbers;
mod numerals;
mod printing;
mod refusal;
mod timestamp;

pub use bytes::{is_bytes, is_standard_text, read_bytes};
pub use duration::{is_duration, read_duration};
pub use enums::{is_enum, read_enum};
pub use laws::{
    printed_bytes_are_read, printed_durations_are_read, printed_moments_are_read,
    printed_numbers_are_read, standard_text_is_decoded_as_it_is, years_begin,
};
pub use members::check_members;
pub use numbers::{are_int64_digits, is_int32, is_int64, read_int32, read_int64};
pub use printing::{print_bytes, print_duration, print_int64, print_timestamp};
pub use refusal::FieldRefusal;
pub use timestamp::{is_timestamp, read_timestamp};
