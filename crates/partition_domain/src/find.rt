//! Finds a partition of a disk by its number.
ghost use Rattle.std.specs.Prelude.{◌≡◌, ◌<◌, ◌≤◌, ◌^◌, true, OnOk, IfOk, IfErr, IfSome, find as find_first};
ghost use Rattle.std.specs.List.{list_any};
ghost use Rattle.faulty_source.specs.SourceChanges.{Stays};
ghost use Rattle.partition_domain.specs.Table.{is_extended, is_protective};
ghost use Rattle.partition_domain.specs.Reads.{losses_after};
ghost use Rattle.partition_domain.specs.Steps.{Searches, partition_at};

use crate::chain::follow_chain;
use crate::read::read_table;
use crate::stop::{Refusal, SearchStop};
use crate::table::{Partition, Table, TableEntry};
use faulty_source::source::Source;

/// How many partitions are entries of the first record.
const PRIMARIES: u64 = 4;

/// Whether one of the entries protects the disk.
fn is_protected(table: &Table) -> bool
    ensures { result ≡ list_any is_protective table.now }
{
    table.iter().any(|entry| entry.is_protective())
}

/// The first entry of an extended partition.
fn find_extended(table: &Table) -> Option<TableEntry>
    ensures { result ≡ find_first is_extended table.now }
{
    for entry in table {
        if entry.is_extended() {
            return Some(*entry);
        }
    }
    None
}

/// The partition of an entry, counted from 1, if it is used.
fn partition_at(table: &Table, k: u64) -> Option<Partition>
    requires low { 1 ≤ k }
    requires high { k ≤ 4 }
    ensures is { result ≡ partition_at table.now k }
    ensures near { IfSome result (λ p. (p.first < 2 ^ 34) × (p.count < 2 ^ 32)) }
{
    let entry = table[(k - 1) as usize];
    if entry.is_used() {
        Some(entry.partition())
    } else {
        None
    }
}

/// Finds partition k of an open input.
///
/// # Errors
///
/// `SourceLost`; `Unread` and `NoSignature` of a record; `Protective`; `NoPartition`; `ChainTooLong`.
pub fn find_partition<S: Source>(source: &mut S, k: u64) -> Result<Partition, SearchStop>
    requires opened { (S.state source.old).is_open ≡ true }
    requires counted { 1 ≤ k }
    ensures searches { Searches k result (S.state source.old) (S.state source.new) }
    ensures stays { Stays (S.state source.old) (S.state source.new) }
    ensures kept { OnOk result ((S.state source.new).losses ≡ (S.state source.old).losses) }
    ensures cause { IfErr result (λ stop. (S.state source.new).losses ≡ losses_after stop (S.state source.old).losses) }
    ensures near { IfOk result (λ p. (p.first < 2 ^ 34) × (p.count < 2 ^ 32)) }
{
    let main = read_table(source, 0)?;
    if is_protected(&main) {
        return Err(SearchStop::Refused(Refusal::Protective));
    }
    if k <= PRIMARIES {
        return match partition_at(&main, k) {
            Some(partition) => Ok(partition),
            None => Err(SearchStop::Refused(Refusal::NoPartition)),
        };
    }
    match find_extended(&main) {
        Some(entry) => follow_chain(source, entry.first, k),
        None => Err(SearchStop::Refused(Refusal::NoPartition)),
    }
}
