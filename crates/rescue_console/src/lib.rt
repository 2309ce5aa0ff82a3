//! What a rescue hears and says besides its files: a clock, a console with two channels, and a feed of bytes.
#![tactic(auto)]

pub mod clock;
pub mod console;
pub mod feed;
pub mod laws;
pub mod system;
