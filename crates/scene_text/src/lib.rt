//! The text of scenes: the commands of a line, what they state, and the results that are written below them.
//!
//!     a line              fields, values -> a command
//!     what it states      a source of bytes, bad ranges and calls that fail; a clock and a console by reads
//!     results             reads, calls, lines of the console, files, mapfiles and the ending
//!     a file of scenes    how many of its scenes differ from what was found, and the first line that does
#![tactic(auto)]

pub mod blocks;
pub mod command;
mod fields;
pub mod kinds;
pub mod paced;
pub mod refusal;
pub mod report;
pub mod results;
pub mod shown;
pub mod stated;
pub mod texts;
pub mod values;
