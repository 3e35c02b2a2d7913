//! Records: the columns' values of a payload, without copying, and how a value is written.
#![tactic(auto)]

mod escape;
mod fault;
mod fields;
mod hexadecimal;
mod run;
mod serial;
mod survey;
mod text;
mod types;
mod utf16;
mod utf8;
mod value;
mod values;

pub use fault::RecordFault;
pub use fields::{Fields, read_types, records_both_ways};
pub use serial::{body_len, is_unused, value_in};
pub use text::{put_text, put_value, value_text};
pub use types::{SerialTypes, serial_types, serial_types_both_ways};
pub use utf8::{each_byte_is_printed_by_its_place, sequences_are_characters};
pub use utf16::each_code_point_is_printed_by_itself;
pub use value::Value;
pub use values::Values;

#[cfg(test)]
mod tests;
