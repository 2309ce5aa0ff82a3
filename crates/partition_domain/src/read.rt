//! Reads a record.
ghost use Rattle.std.specs.Prelude.{◌≡◌, ◌<◌, ◌^◌, true, OnOk, IfErr};
ghost use Rattle.faulty_source.specs.SourceChanges.{Stays};
ghost use Rattle.partition_domain.specs.Reads.{losses_after};
ghost use Rattle.partition_domain.specs.Steps.{ReadsTable};

use crate::stop::{Refusal, SearchStop};
use crate::table::{SECTOR, Table, has_signature, read_entries};
use faulty_source::source::Source;

/// Reads the record at a sector by one read, and gives its entries.
///
/// # Errors
///
/// `SourceLost`; `Unread` if the read gave less than a sector; `NoSignature` if the sector isn't a record.
pub(crate) fn read_table<S: Source>(source: &mut S, sector: u64) -> Result<Table, SearchStop>
    requires opened { (S.state source.old).is_open ≡ true }
    requires near { sector < 2 ^ 34 }
    ensures read { ReadsTable sector result (S.state source.old) (S.state source.new) }
    ensures stays { Stays (S.state source.old) (S.state source.new) }
    ensures kept { OnOk result ((S.state source.new).losses ≡ (S.state source.old).losses) }
    ensures cause { IfErr result (λ stop. (S.state source.new).losses ≡ losses_after stop (S.state source.old).losses) }
{
    let mut record = [0u8; SECTOR];
    let Ok(got) = source.read_at(sector * SECTOR as u64, &mut record) else {
        return Err(SearchStop::SourceLost);
    };
    if got.count() < SECTOR {
        return Err(SearchStop::Refused(Refusal::Unread { sector }));
    }
    if !has_signature(&record) {
        return Err(SearchStop::Refused(Refusal::NoSignature { sector }));
    }
    Ok(read_entries(&record))
}
