//! The count of faults that each failed call raises.
ghost use Rattle.std.specs.Prelude.{◌≤◌, ◌≡◌};
ghost use Rattle.fault_count.specs.Counts.{raised};

use crate::site::SiteFault;
use fault_count::FaultCount;

/// Counts a fault, and answers it.
pub fn fault(faults: &mut FaultCount) -> SiteFault
    ensures raised { faults.new ≡ raised faults.old }
    ensures later { faults.old ≤ faults.new }
{
    faults.raise();
    SiteFault
}
