//! What Linux says of files and devices: how a file is open, what a device lies on, what uses it, whether it is gone, and
//! how it is cached.
#![tactic(auto)]

pub mod descriptor;
mod device_texts;
pub mod devices;
pub mod mounts;
mod names;
pub mod release;
pub mod sectors;
