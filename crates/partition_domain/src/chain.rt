//! The chain of records within an extended partition.
ghost use Rattle.std.specs.Prelude.{◌≡◌, ℕ, ◌-◌, ◌<◌, ◌≤◌, ◌^◌, List, true, OnOk, IfOk, IfErr};
ghost use Rattle.faulty_source.specs.SourceChanges.{Stays};
ghost use Rattle.partition_domain.specs.Reads.{losses_after};
ghost use Rattle.partition_domain.specs.Steps.{LeadsToChain, IsNear, LeadsNear, SearchesAfter, Turns, leads, link_past};

use crate::read::read_table;
use crate::stop::{Refusal, SearchStop};
use crate::table::{Partition, Table, TableEntry};
use faulty_source::source::Source;

/// How many records of a chain are read at most.
const CHAIN_LIMIT: u64 = 128;

/// The number of the first partition that a chain gives.
const FIRST_LOGICAL: u64 = 5;

/// How far a chain was read.
#[derive(Clone, Copy, Debug)]
pub struct Chain {
    /// Where the extended partition begins, in sectors.
    pub base: u32,
    /// The sector of the record that comes next.
    pub at: u64,
    /// How many partitions the records before the next one gave.
    pub given: u64,
    /// How many records there are before the next one.
    pub read: u64,
}

/// What comes of a record of a chain.
#[derive(Clone, Copy, Debug)]
pub enum Link {
    /// The record gives the partition that is looked for.
    Found(Partition),
    /// The record leads on to a further one.
    On(Chain),
    /// The record doesn't give the partition, and is the last one.
    End,
}

/// Where the second entry of a record leads to, after this many partitions.
fn lead(chain: Chain, given: u64, second: TableEntry, k: u64) -> Link
    requires near { IsNear k chain }
    requires more { chain.read < 128 }
    requires given { given ≤ k - 5 }
    ensures leads { result ≡ leads chain given second }
    ensures near { LeadsNear k chain result }
{
    if !second.is_used() {
        return Link::End;
    }
    Link::On(Chain {
        base: chain.base,
        at: second.linked(chain.base),
        given,
        read: chain.read + 1,
    })
}

/// What comes of the next record of a chain, by what it says.
fn pass(chain: Chain, table: &Table, k: u64) -> Link
    requires near { IsNear k chain }
    requires more { chain.read < 128 }
    ensures passes { result ≡ link_past k chain table.now }
    ensures near { LeadsNear k chain result }
{
    let [first, second, ..] = *table;
    if !first.is_used() {
        return lead(chain, chain.given, second, k);
    }
    if chain.given == k - FIRST_LOGICAL {
        return Link::Found(first.partition_from(chain.at));
    }
    lead(chain, chain.given + 1, second, k)
}

/// Reads the next record of a chain.
fn turn<S: Source>(source: &mut S, chain: Chain, k: u64) -> Result<Link, SearchStop>
    requires opened { (S.state source.old).is_open ≡ true }
    requires near { IsNear k chain }
    requires more { chain.read < 128 }
    ensures turned { (main : List ℕ) (chain_read : List (List ℕ))
        → Turns k main chain chain_read result (S.state source.old) (S.state source.new) }
    ensures stays { Stays (S.state source.old) (S.state source.new) }
    ensures kept { OnOk result ((S.state source.new).losses ≡ (S.state source.old).losses) }
    ensures cause { IfErr result (λ stop. (S.state source.new).losses ≡ losses_after stop (S.state source.old).losses) }
    ensures near { IfOk result (λ link. LeadsNear k chain link) }
{
    match read_table(source, chain.at) {
        Ok(table) => Ok(pass(chain, &table, k)),
        Err(stop) => Err(stop),
    }
}

/// Reads a chain from its base on, up to the record that gives partition k.
pub(crate) fn follow_chain<S: Source>(
    source: &mut S,
    base: u32,
    k: u64,
) -> Result<Partition, SearchStop>
    requires opened { (S.state source.old).is_open ≡ true }
    requires logical { 5 ≤ k }
    ensures searches { (main : List ℕ) → LeadsToChain main base
        → SearchesAfter k main result (S.state source.old) (S.state source.new) }
    ensures stays { Stays (S.state source.old) (S.state source.new) }
    ensures kept { OnOk result ((S.state source.new).losses ≡ (S.state source.old).losses) }
    ensures cause { IfErr result (λ stop. (S.state source.new).losses ≡ losses_after stop (S.state source.old).losses) }
    ensures near { IfOk result (λ p. (p.first < 2 ^ 34) × (p.count < 2 ^ 32)) }
{
    let mut chain = Chain {
        base,
        at: u64::from(base),
        given: 0,
        read: 0,
    };
    'records: while chain.read < CHAIN_LIMIT {
        match turn(source, chain, k)? {
            Link::Found(partition) => return Ok(partition),
            Link::On(next) => chain = next,
            Link::End => return Err(SearchStop::Refused(Refusal::NoPartition)),
        }
    }
    Err(SearchStop::Refused(Refusal::ChainTooLong))
}
