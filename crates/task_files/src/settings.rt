//! What options ask of a run, and the line that says how much is asked for.
ghost use Rattle.std.specs.Prelude.{◌≡◌, ℕ, ◌<◌, ◌≤◌, List, Option, IfOk, option_map};
ghost use Rattle.rescue_domain.specs.Parts.{covers};
ghost use Rattle.rescue_rules.specs.Lines.{opening_lines};
ghost use Rattle.ddrescue_words.specs.Asking.{AreInLimits, told_by};
ghost use Rattle.task_files.specs.Asked.{Maps, domain_asked, setting_of};
ghost use Rattle.task_files.specs.Settings.{lines_in, settings_by};

use crate::opening::opening_line;
use block_list::tiles::NoMemory;
use ddrescue_words::command::Command;
use ddrescue_words::options::Options;
use rescue_domain::domain::Domain;
use run_options::settings::Settings;
use run_options::skips::Skips;
use std::alloc::Global;

/// What the rescue is asked to do.
pub fn settings_for(options: &Options) -> Settings
    requires { AreInLimits options.now }
    ensures { result ≡ settings_by options.now }
{
    Settings {
        sector: options.sector,
        cluster: options.cluster(),
        input_position: options.input_position,
        output_position: options.output_position.unwrap_or(options.input_position),
        skips: Skips {
            first: options.first_skip(),
            most: options.largest_skip(),
            min_rate: options.min_rate,
        },
        passes: options.passes,
        limits: options.limits,
    }
}

/// The line that says how much is asked for, if options ask for that.
pub fn make_opening(
    alloc: Global,
    command: Command<'_>,
    domain: &Domain,
) -> Result<Option<Vec<u8>>, NoMemory>
    ensures { (line : List ℕ) (end : ℕ) (maps : Maps) (top : ℕ) → end ≤ top
        → ((x : ℕ) → covers domain.now x ≡ domain_asked (told_by command.entry).options end maps x)
        → IfOk result (λ opening. lines_in (option_map (λ l. l.items) opening)
        ≡ opening_lines (setting_of (told_by command.entry) line end maps) top) }
{
    if !command.options.verbose {
        return Ok(None);
    }
    let line = opening_line(alloc, domain.size(), command.infile, command.outfile)?;
    Ok(Some(line))
}
