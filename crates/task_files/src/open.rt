//! The opening of the output.
ghost use Rattle.std.specs.Prelude.{◌≡◌, true, OnOk, IfErr};
ghost use Rattle.crash_site.specs.SiteChanges.{Keeps};
ghost use Rattle.task_files.specs.Steps.{OpensOutput, OutputCause};

use crate::ending::Ending;
use crash_site::site::{ImageKind, Site, SiteCall};

/// Opens the outfile, and refuses one that is no regular file unless that is forced. One that is absent is made or
/// refused.
pub fn open_output<D: Site>(
    site: &mut D,
    outfile: &str,
    makes: bool,
    forced: bool,
) -> Result<(), Ending>
    ensures open { OnOk result ((D.state site.new).is_open ≡ true) }
    ensures opens { OpensOutput makes forced outfile.now result (D.state site.old) (D.state site.new) }
    ensures kept { OnOk result ((D.state site.new).faults ≡ (D.state site.old).faults) }
    ensures cause { IfErr result (λ e. OutputCause e (D.state site.old).faults (D.state site.new).faults) }
    ensures draft { (D.state site.new).is_drafting ≡ (D.state site.old).is_drafting }
    ensures keeps { Keeps (D.state site.old) (D.state site.new) }
{
    match site.image_open(outfile, makes) {
        Ok(ImageKind::Absent) => Err(Ending::NoOutput),
        Ok(ImageKind::Other) if !forced => Err(Ending::NotRegular),
        Ok(ImageKind::Regular | ImageKind::Other) => Ok(()),
        Err(_) => Err(Ending::SiteFault {
            call: SiteCall::ImageOpen,
            earlier: None,
        }),
    }
}
