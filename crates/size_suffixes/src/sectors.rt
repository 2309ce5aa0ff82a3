//! The largest sector and the largest cluster.

/// The largest sector in bytes.
pub const LARGEST_SECTOR: u64 = 1_048_576;

/// The largest cluster in bytes.
pub const LARGEST_CLUSTER: u64 = 16_777_216;
