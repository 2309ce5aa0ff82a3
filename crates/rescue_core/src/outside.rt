//! What a run works on outside of itself, as one value.

/// The input, the files, the clock and the console of a run.
// Each has a lifetime of its own, or no call could make this value of what it is handed.
#[derive(Drop)]
pub struct Outside<'s, 'd, 'k, 'c, S, D, K, C> {
    pub source: &'s mut S,
    pub site: &'d mut D,
    pub clock: &'k mut K,
    pub console: &'c mut C,
}
