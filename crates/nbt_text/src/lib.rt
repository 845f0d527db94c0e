//! Names, addresses, times and numbers as text, in the fixed form and as people write them (our profile).
//!
//! The fixed form is that of the bench's commands: `parse_name`, `parse_address` and `parse_number` read it, and `write_name`
//! and `write_address` write it. The commands that run a network read and print what people and other tools write:
//! `read_name`, `read_scoped_name`, `read_octets`, `read_address`, `read_source` and `read_duration`, `write_octets` and
//! `suffix_words`. Texts come in as octets and go out at the end of a `String`.
#![tactic(auto)]

mod address;
mod casing;
mod duration;
mod fault;
mod hexadecimal;
mod host_name;
pub mod laws;
mod lines;
mod name_text;
mod number;
mod pieces;
mod scoped_name;
mod scoped_word;
mod suffix;
mod suffixed_printing;
mod suffixed_reading;
mod unit;
mod unit_id;
mod word;

pub use address::{
    parse_address, read_address, read_source, write_address, write_dotted, write_entry_address,
};
pub use casing::Case;
pub use duration::{duration_within, read_duration};
pub use fault::Fault;
pub use hexadecimal::write_hexadecimal;
pub use host_name::{is_host_name, write_host};
pub use lines::{NEWLINE, end_line, fields_said, lines_of, octets_of, words_of, words_said};
pub use name_text::{digits_of, parse_name, stands_as_it_is, with_octets, write_name};
pub use number::{number_within, parse_number};
pub use pieces::split_at_first;
pub use scoped_name::read_name;
pub use scoped_word::read_scoped_name;
pub use suffix::suffix_words;
pub use suffixed_printing::{front_of, write_characters, write_octets};
pub use suffixed_reading::read_octets;
pub use unit::{BadUnit, UnitFault, unit_fault};
pub use unit_id::write_unit_id;
pub use word::write_word;
