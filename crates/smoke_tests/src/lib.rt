//! A run over real files, and small tests of what no program asks of them and no clause says. No other crate has tests:
//! the gate proves a crate that has some twice.
#![tactic(auto)]

#[cfg(test)]
mod direct;
#[cfg(test)]
mod files;
#[cfg(test)]
mod runs;
