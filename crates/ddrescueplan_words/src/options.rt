//! The options of `ddrescueplan`, each of which is the rescue's with its letter.
ghost use Rattle.std.specs.Prelude.{◌≡◌, option_map};
ghost use Rattle.ddrescueplan_words.specs.Options.{no_options, of_rescue, option_rows};

use ddrescue_words::options::{Options, with_letter};
use option_words::given::letter_of;
use option_words::option_row;
use option_words::option_values::OptionValues;
use option_words::row::Row;

/// The letter of the option that gives the size of a cluster.
pub(crate) const CLUSTER_SIZE: char = 'c';

/// The options. A later one is a row here.
pub static ROWS: [Row; 11] = [
    option_row!('b', "sector-size", Always(Size): "set the size of a sector"),
    option_row!('c', "cluster-size", Always(Sectors): "read this many sectors at a time in copying"),
    option_row!('i', "input-position", Always(Size): "begin at this position"),
    option_row!('K', "skip-size", Always(Skips): "skip this many bytes after a failed read"),
    option_row!('n', "no-scrape", Never: "skip scraping"),
    option_row!('N', "no-trim", Never: "skip trimming"),
    option_row!('q', "quiet", Never: "print no message"),
    option_row!('r', "retry-passes", Always(Retries): "retry the bad sectors in this many passes"),
    option_row!('R', "reverse", Never: "reverse the direction of each pass"),
    option_row!('s', "size", Always(Size): "rescue at most this many bytes"),
    option_row!('u', "unidirectional", Never: "run all passes in the same direction"),
];

/// What the options of a command line ask for.
#[derive(Clone, Copy, Debug, PartialEq, Eq)]
pub struct PlanOptions {
    /// What they ask of the rescue; all that they can't ask for is as a rescue has it if no option is given.
    pub rescue: Options,
}

/// What was set for a rescue, as options of a plan.
fn of_rescue(rescue: Option<Options>) -> Option<PlanOptions>
    ensures { result ≡ option_map of_rescue rescue }
{
    match rescue {
        Some(rescue) => Some(PlanOptions { rescue }),
        None => None,
    }
}

impl OptionValues for PlanOptions {
    ghost rows = { option_rows };

    ghost start = { no_options };

    fn none(sector: u64) -> PlanOptions {
        PlanOptions {
            rescue: Options::none(sector),
        }
    }

    fn with_row(self, sector: u64, row: usize, value: Option<&str>) -> Option<PlanOptions> {
        match letter_of(&ROWS, row) {
            Some(letter) => of_rescue(with_letter(self.rescue, sector, letter, value)),
            None => None,
        }
    }
}
