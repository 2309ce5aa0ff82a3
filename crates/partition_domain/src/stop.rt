//! Why a search gives no partition, and what a person is told of that.
ghost use Rattle.std.specs.Prelude.{◌≡◌, ◌≤◌, ◌++◌};
ghost use Rattle.arrayvec.specs.ArrayVec.{array_vec_len};
ghost use Rattle.partition_domain.specs.Reads.{said_of};

use console_texts::message::{Message, add, add_number};

/// Why what was read of a disk gives no partition.
#[derive(Clone, Copy, Debug, PartialEq, Eq)]
pub enum Refusal {
    /// Not all of a record could be read.
    Unread { sector: u64 },
    /// What is read in place of a record is none: it doesn't end with a record's signature.
    NoSignature { sector: u64 },
    /// The table protects a disk that has another kind of partition table.
    Protective,
    /// The disk has no partition of the number that is asked for.
    NoPartition,
    /// The chain of records is longer than any chain may be, and none of them gives the partition.
    ChainTooLong,
}

impl Refusal {
    /// Adds the refusal's text to a message.
    pub fn add_to(self, message: &mut Message)
        requires { array_vec_len message.old ≤ 20 }
        ensures text { message.new.items ≡ message.old.items ++ (said_of self).1 }
        ensures len { array_vec_len message.new ≤ 120 }
    {
        match self {
            Refusal::Unread { sector } => {
                add_number(message, "sector ", sector as usize, ": unread");
            }
            Refusal::NoSignature { sector } => {
                add_number(message, "sector ", sector as usize, ": no signature");
            }
            Refusal::Protective => add(message, "protective partition table"),
            Refusal::NoPartition => add(message, "no such partition"),
            Refusal::ChainTooLong => add(message, "chain too long"),
        }
    }
}

/// Why a search stopped.
#[derive(Clone, Copy, Debug, PartialEq, Eq)]
pub enum SearchStop {
    /// The input was lost while it was read.
    SourceLost,
    /// What was read gives no partition.
    Refused(Refusal),
}
