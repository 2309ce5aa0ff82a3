//! The write of what a read gave.
ghost use Rattle.std.specs.Prelude.{◌≡◌, ◌+◌, ◌<◌, ◌≤◌, ◌^◌, true, length, take, IfOk, IfErr};
ghost use Rattle.crash_site.specs.Calls.{image_write};
ghost use Rattle.crash_site.specs.SiteChanges.{Answers};
ghost use Rattle.transfer_token.specs.Tokens.{size_of};

use crate::token::{Landed, Loaded, Unlanded};
use crash_site::site::{Site, SiteFault};

/// Writes what was loaded, which is at the buffer's front, at a place of the output.
#[inline(always)]
pub fn land<D: Site>(
    loaded: Loaded,
    buf: &[u8],
    site: &mut D,
    place: u64,
) -> Result<Landed, Unlanded>
    requires fits { size_of loaded ≤ length buf.now }
    requires opened { (D.state site.old).is_open ≡ true }
    requires short { place + size_of loaded < 2 ^ 63 }
    ensures landed { IfOk result (λ landed. landed ≡ loaded) }
    ensures unlanded { IfErr result (λ unlanded. unlanded ≡ loaded) }
    ensures call { Answers (image_write place (take (size_of loaded) buf.now)) result
        (D.state site.old) (D.state site.new) }
{
    let range = loaded.spend();
    let size = (range.to - range.from) as usize;
    match site.image_write(place, &buf[..size]) {
        Ok(()) => Ok(Landed::of(range)),
        Err(SiteFault) => Err(Unlanded::of(range)),
    }
}
