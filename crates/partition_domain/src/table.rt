//! The records of a partition table.
ghost use Rattle.std.specs.Prelude.{◌≡◌, ◌+◌, ◌<◌, ◌≤◌, ◌^◌, length};
ghost use Rattle.partition_domain.specs.Table.{table_entries, entry_at, has_signature, is_extended, is_protective, is_used, number_at};

/// How many bytes a sector has, and so a record.
pub(crate) const SECTOR: usize = 512;

/// Where the entries begin in a record.
const ENTRIES: usize = 446;

/// How many bytes an entry has.
const ENTRY: usize = 16;

/// Where the signature begins, and what it is.
const SIGNATURE: usize = 510;

const SIGNED: [u8; 2] = [0x55, 0xAA];

/// The types of extended partitions.
const EXTENDED: [u8; 3] = [0x05, 0x0F, 0x85];

/// The type of an entry that protects a disk with a partition table of another kind.
const PROTECTIVE: u8 = 0xEE;

/// One entry of a record: which type of partition it is for, and where that lies, in sectors.
#[derive(Clone, Copy, Debug, PartialEq, Eq)]
pub struct TableEntry {
    /// The type; 0 for an entry that isn't used.
    pub kind: u8,
    /// The first sector, as the record has it.
    pub first: u32,
    /// How many sectors there are.
    pub count: u32,
}

/// Where a partition lies on a disk, in sectors.
#[derive(Clone, Copy, Debug, PartialEq, Eq)]
pub struct Partition {
    pub first: u64,
    pub count: u64,
}

/// What a record says: its four entries, in order.
pub(crate) type Table = [TableEntry; 4];

impl TableEntry {
    /// Whether the entry is used.
    pub(crate) fn is_used(self) -> bool
        ensures { result ≡ is_used self }
    {
        self.kind != 0
    }

    /// Whether the entry is for an extended partition.
    pub(crate) fn is_extended(self) -> bool
        ensures { result ≡ is_extended self }
    {
        EXTENDED.contains(&self.kind)
    }

    /// Whether the entry protects a disk that has a partition table of another kind.
    pub(crate) fn is_protective(self) -> bool
        ensures { result ≡ is_protective self }
    {
        self.kind == PROTECTIVE
    }

    /// The partition that the entry is for, if its first sector counts from sector 0 on.
    pub(crate) fn partition(self) -> Partition
        ensures is { result ≡ record { first = self.first; count = self.count } }
        ensures first { result.first < 2 ^ 34 }
        ensures count { result.count < 2 ^ 32 }
    {
        Partition {
            first: u64::from(self.first),
            count: u64::from(self.count),
        }
    }

    /// The partition that the entry is for, if its first sector counts from another one on.
    pub(crate) fn partition_from(self, sector: u64) -> Partition
        requires { sector < 2 ^ 33 }
        ensures is { result ≡ record { first = sector + self.first; count = self.count } }
        ensures first { result.first < 2 ^ 34 }
        ensures count { result.count < 2 ^ 32 }
    {
        Partition {
            first: sector + u64::from(self.first),
            count: u64::from(self.count),
        }
    }

    /// The sector that the entry links to, which counts from a base on.
    pub(crate) fn linked(self, base: u32) -> u64
        ensures is { result ≡ base + self.first }
        ensures near { result < 2 ^ 33 }
    {
        u64::from(base) + u64::from(self.first)
    }
}

/// The number of 32 bits that begins at a byte, the lowest byte first.
fn number_at(bytes: &[u8], at: usize) -> u32
    requires { at + 4 ≤ length bytes.now }
    ensures { result ≡ number_at bytes.now at }
{
    u32::from_le_bytes([bytes[at], bytes[at + 1], bytes[at + 2], bytes[at + 3]])
}

/// The entry that begins at a byte.
fn entry_at(bytes: &[u8], at: usize) -> TableEntry
    requires { at + 16 ≤ length bytes.now }
    ensures { result ≡ entry_at bytes.now at }
{
    TableEntry {
        kind: bytes[at + 4],
        first: number_at(bytes, at + 8),
        count: number_at(bytes, at + 12),
    }
}

/// The entries of a record.
pub(crate) fn read_entries(bytes: &[u8]) -> Table
    requires { length bytes.now ≡ 512 }
    ensures { result ≡ table_entries bytes.now }
{
    [
        entry_at(bytes, ENTRIES),
        entry_at(bytes, ENTRIES + ENTRY),
        entry_at(bytes, ENTRIES + 2 * ENTRY),
        entry_at(bytes, ENTRIES + 3 * ENTRY),
    ]
}

/// Whether what was read ends with a record's signature.
pub(crate) fn has_signature(bytes: &[u8]) -> bool
    requires { length bytes.now ≡ 512 }
    ensures { result ≡ has_signature bytes.now }
{
    bytes[SIGNATURE] == SIGNED[0] && bytes[SIGNATURE + 1] == SIGNED[1]
}
