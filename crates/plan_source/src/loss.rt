//! Why reads of a plan are lost.

/// Why reads are lost.
#[derive(Clone, Copy, Debug, PartialEq, Eq)]
pub enum PlanLoss {
    /// There was no memory for the entry of a read in the journal. The line of that read wasn't put.
    Memory,
    /// The line of a read couldn't be put, or not all of it. That read was answered, and those after it are lost.
    Console,
}
