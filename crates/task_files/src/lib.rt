//! What every task of ddrescue has in common: its answers, and its files, which are checked, opened and loaded.
#![tactic(auto)]

pub mod checked;
pub mod ending;
pub mod load;
pub mod maps;
mod message;
pub mod open;
pub mod opening;
pub mod places;
pub mod settings;
