//! The words of a command line, read by a table of options, and what the options say: their values, which of them
//! count, and the first that is bad.
#![tactic(auto)]

pub mod asked;
mod choice;
pub mod command_error;
pub mod fault;
mod form;
pub mod given;
pub mod laws;
mod long_name;
pub mod operands;
pub mod option_values;
pub mod reader;
pub mod reading;
pub mod row;
pub mod table;
pub mod value_laws;
pub mod values;
pub mod words;
