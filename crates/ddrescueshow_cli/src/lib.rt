//! `ddrescueshow`: the picture of a map, its answers, what it promises, and its top call.
#![tactic(auto)]

pub mod asked;
mod cells;
pub mod ending;
mod figures;
pub mod follow;
mod follower;
mod form;
pub mod frame;
pub mod laws;
mod load;
mod message;
mod picture;
mod plain;
mod progress;
pub mod rate;
mod runs;
pub mod show;
mod subject;
mod svg;
mod text;
