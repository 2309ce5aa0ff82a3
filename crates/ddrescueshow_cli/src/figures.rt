//! How much there is.
ghost use Rattle.std.specs.Prelude.{◌≡◌, ◌≤◌, ◌++◌, OnOk};
ghost use Rattle.ddrescueshow_cli.specs.Picture.{bad_text, figures_text, line_of, rescued_text, share, share_text};

use crate::text::{add, add_number};
use block_list::areas::Count;
use block_list::tiles::NoMemory;
use map_counts::summary::Summary;

/// What of a size is rescued, in hundredths of a percent.
pub(crate) fn share(rescued: u64, size: u64) -> u64
    requires { rescued ≤ size }
    ensures share { result ≡ share rescued size }
    ensures most { result ≤ 10000 }
{
    if size == 0 {
        return 10_000;
    }
    (rescued as u128 * 10_000 / size as u128) as u64
}

/// Adds a share.
pub(crate) fn add_share(text: &mut Vec<u8>, share: u64) -> Result<(), NoMemory>
    ensures { OnOk result (text.new.items ≡ text.old.items ++ share_text share) }
{
    add_number(text, share / 100, ".")?;
    add_number(text, share / 10 % 10, "")?;
    add_number(text, share % 10, "")
}

/// Adds how much is rescued.
fn add_rescued(text: &mut Vec<u8>, rescued: u64, size: u64) -> Result<(), NoMemory>
    requires { rescued ≤ size }
    ensures { OnOk result (text.new.items ≡ text.old.items ++ rescued_text rescued size) }
{
    add_share(text, share(rescued, size))?;
    add(text, " % of ")?;
    add_number(text, size, " B rescued, ")
}

/// Adds how much is bad.
fn add_bad(text: &mut Vec<u8>, bad: Count) -> Result<(), NoMemory>
    ensures { OnOk result (text.new.items ≡ text.old.items ++ bad_text bad) }
{
    add_number(text, bad.bytes, " B bad in ")?;
    add_number(text, bad.areas, " areas")
}

/// Adds the figures.
pub(crate) fn add_figures(text: &mut Vec<u8>, summary: &Summary) -> Result<(), NoMemory>
    requires { (line_of summary.now 4).bytes ≤ summary.now.domain }
    ensures { OnOk result (text.new.items ≡ text.old.items ++ figures_text summary.now) }
{
    add_rescued(text, summary.lines[4].bytes, summary.domain)?;
    add_bad(text, summary.lines[3])
}
