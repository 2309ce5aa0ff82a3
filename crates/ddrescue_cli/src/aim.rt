//! What a command's files are for.
use block_list::types::TypeSet;

/// What files are for.
#[derive(Clone, Copy, Debug)]
pub(crate) enum Aim {
    /// The infile is rescued.
    Rescue,
    /// The infile is a pattern, which is written where the mapfile has one of these statuses.
    Fill(TypeSet),
    /// The mapfile is made of what the outfile holds.
    Generate,
}
