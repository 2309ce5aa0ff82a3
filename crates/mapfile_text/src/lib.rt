//! What the text of a mapfile is (GNU ddrescue manual, "Mapfile structure"), and how it is printed, in pieces.
#![tactic(auto)]

mod digits;
pub mod heading;
pub mod laws;
mod made_lines;
pub mod printer;
pub mod read;
pub mod state;
mod text_position;
