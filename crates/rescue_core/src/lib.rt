//! The run of a rescue: its state, its turns, its end. A turn is one step of the rules.
#![tactic(auto)]

mod after;
pub mod closing;
pub mod counts;
pub mod due;
mod gather;
pub mod keeper;
mod landing;
mod limit;
mod line;
mod mark;
pub mod outside;
pub mod phases;
mod progress;
mod request;
pub mod running;
mod save_now;
mod tally;
mod timed;
pub mod turn;
mod wanted;
