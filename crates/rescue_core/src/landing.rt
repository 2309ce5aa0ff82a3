//! What was fetched is in the output before it is marked.
ghost use Rattle.std.specs.Prelude.{◌≡◌, ℕ, ◌+◌, ◌-◌, ◌<◌, ◌≤◌, ◌^◌, true, length, IfOk, OnOk, OnErr};
ghost use Rattle.faulty_source.specs.Journal.{Reading, kept};
ghost use Rattle.crash_site.specs.SiteChanges.{Stays, Makes, Breaks};
ghost use Rattle.crash_site.specs.declared.site.SiteCall.TheVariants.{ImageWrite};
ghost use Rattle.transfer_token.specs.Tokens.{size_of, IfLoaded, IsCut};
ghost use Rattle.mapfile_save.specs.Saving.{IsNameIn};
ghost use Rattle.rescue_rules.specs.Setting.{Setting};
ghost use Rattle.rescue_rules.specs.RunCalls.{write_calls};
ghost use Rattle.rescue_core.specs.TurnParts.{IsCutAt};

use crash_site::site::{Site, SiteFault};
use transfer_token::fetch::Cut;
use transfer_token::land::land;
use transfer_token::token::{Landed, Loaded};

/// How many bytes were kept.
pub(crate) fn kept_size(kept_part: &Cut<Landed>) -> u64
    ensures { (sector : ℕ) (r : Reading) → IsCut sector r kept_part.now → result ≡ kept sector r }
{
    match kept_part {
        Cut::Whole(landed) | Cut::Part(landed, _) | Cut::Ended(landed, _) => {
            let range = landed.range();
            range.to - range.from
        }
        Cut::Nothing(_) | Cut::Empty(_) => 0,
    }
}

/// Writes what was loaded, which is at the buffer's front, at a place of the output. If that fails, all that was
/// fetched is set aside.
#[inline(always)]
pub(crate) fn land_kept<D: Site>(
    fetched: Cut<Loaded>,
    buf: &[u8],
    site: &mut D,
    at: u64,
) -> Result<Cut<Landed>, SiteFault>
    requires fits { IfLoaded fetched (λ loaded. size_of loaded ≤ length buf.now) }
    requires short { IfLoaded fetched (λ loaded. at + size_of loaded < 2 ^ 63) }
    requires opened { (D.state site.old).is_open ≡ true }
    ensures kept { IfOk result (λ kept. kept ≡ fetched) }
    ensures written { OnOk result ((s : Setting) (r : Reading) → IsCutAt fetched buf.now at s r
        → Makes (write_calls s r) (D.state site.old) (D.state site.new)) }
    ensures named { OnErr result ((s : Setting) (r : Reading) → IsCutAt fetched buf.now at s r
        → IsNameIn ImageWrite (write_calls s r)) }
    ensures failed { OnErr result ((s : Setting) (r : Reading) → IsCutAt fetched buf.now at s r
        → Breaks ImageWrite (write_calls s r) (D.state site.old) (D.state site.new)) }
    ensures site { Stays (D.state site.old) (D.state site.new) }
{
    match fetched {
        Cut::Whole(loaded) => match land(loaded, buf, site, at) {
            Ok(landed) => Ok(Cut::Whole(landed)),
            Err(unlanded) => {
                let _range = unlanded.set_aside();
                Err(SiteFault)
            }
        },
        Cut::Part(loaded, missed) => match land(loaded, buf, site, at) {
            Ok(landed) => Ok(Cut::Part(landed, missed)),
            Err(unlanded) => {
                let _range = unlanded.set_aside();
                let _rest = missed.set_aside();
                Err(SiteFault)
            }
        },
        Cut::Nothing(missed) => Ok(Cut::Nothing(missed)),
        Cut::Ended(loaded, over) => match land(loaded, buf, site, at) {
            Ok(landed) => Ok(Cut::Ended(landed, over)),
            Err(unlanded) => {
                let _range = unlanded.set_aside();
                let _end = over.end();
                Err(SiteFault)
            }
        },
        Cut::Empty(over) => Ok(Cut::Empty(over)),
    }
}
