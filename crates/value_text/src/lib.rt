//! The texts of types and values.
//!
//! Every type and every value has one text: `u16:513`, `text:"é"`, `list<u8>[u8:1,u8:2]`, `{u8:7,text:"a"}`.
//! [`print_type`] and [`print_value`] give it; [`parse_type`] and [`parse_value`] read it and refuse every other text.
//! Numbers are decimal without a plus sign and without leading zeros. Inside a text value a quote, a backslash and a
//! line feed follow a backslash; nothing else is escaped, so that the text of a value is one line of UTF-8.
//!
//! [`push_value`] appends the text of a value to another. [`parse_unsigned`], [`parse_signed`] and [`parse_hex`] read a
//! number or bytes without a type, and [`push_hex`] and [`spell_hex`] write such bytes. [`parse_hex_reusing`] reads
//! bytes into the memory of others that are no longer needed.
//!
//! Reading goes once over the text, and nests no deeper than a type may, 8.
#![tactic(auto)]

mod laws;
mod numbers;
mod printing;
mod readers;
mod strings;
mod types;
mod values;
mod whole;

pub use laws::{
    read_type_is_exact, read_value_is_exact, type_is_in_its_text, value_is_in_its_text,
    value_text_is_one_line,
};
pub use printing::{print_type, print_value, push_hex, push_value, spell_hex};
pub use types::parse_type;
pub use values::parse_value;
pub use whole::{parse_hex, parse_hex_reusing, parse_signed, parse_unsigned};
