//! The options of a rescue, and what they ask for.
ghost use Rattle.std.specs.Prelude.{◌≡◌, ◌^◌, ◌<◌, ◌≤◌, Some, option_map, option_and_then};
ghost use Rattle.std.specs.Result.{result_ok};
ghost use Rattle.size_suffixes.specs.Sectors.{IsSector};
ghost use Rattle.size_suffixes.specs.Interval.{interval};
ghost use Rattle.option_words.specs.Values.{number_by, row_of, set_by, size_by, within_range};
ghost use Rattle.ddrescue_words.specs.Options.{area_limit_of, cluster_of, in_sectors, lettered_rows, most_cluster_sectors, most_retries, no_options, option_rows, sample_of, sample_row, sectors_of, skips_of};
ghost use Rattle.ddrescue_words.specs.Asking.{AreInLimits, is_too_large, wants_mapfile};

use crate::skips::{DEFAULT_SKIP, DEFAULT_SKIP_MAX, in_sectors, read_skips};
use block_list::types::TypeSet;
use option_words::given::letter_of;
use option_words::option_row;
use option_words::option_values::{OptionValues, SECTOR_SIZE};
use option_words::row::Row;
use option_words::values::{is_name, number_by, size_by, within_range};
use run_options::limits::{AreaLimit, Limits};
use run_options::passes::Passes;
use size_suffixes::interval::read_interval;
use size_suffixes::sectors::LARGEST_CLUSTER;

/// The size of a cluster in bytes, if no option gives it and no sector is larger.
pub const DEFAULT_CLUSTER: u64 = 65_536;

/// The most sectors of a cluster.
const MOST_CLUSTER_SECTORS: u64 = 65_536;

/// The most passes of retrying.
const MOST_RETRIES: u64 = 65_535;

/// The letter of the option that gives the size of a cluster.
pub(crate) const CLUSTER_SIZE: char = 'c';

/// The letter of the option that gives the statuses that are filled.
pub(crate) const FILL_MODE: char = 'F';

/// The letter of the option that asks for generate mode.
pub(crate) const GENERATE_MODE: char = 'G';

/// The letter of the option that names the map of what can be read.
pub(crate) const TEST_MODE: char = 'H';

/// The letter of the option that names the map of what is rescued.
pub(crate) const DOMAIN_MAPFILE: char = 'm';

/// The row of the option that has no letter, counted from 0: the size of a sample.
pub(crate) const SAMPLE: usize = 26;

/// The most KiB of a sample.
const MOST_SAMPLE: u64 = 65_536;

/// The options. A later one is a row here, before the last, and an arm in `with_letter`.
pub static ROWS: [Row; 27] = [
    option_row!('a', "min-read-rate", Always(Size): "skip past reads slower than this many bytes a second"),
    option_row!('A', "try-again", Never: "copy again what is left to trim or to scrape"),
    option_row!('b', "sector-size", Always(Size): "set the size of a sector"),
    option_row!('c', "cluster-size", Always(Sectors): "read this many sectors at a time in copying"),
    option_row!('C', "complete-only", Never: "rescue only what the mapfile lists"),
    option_row!('e', "max-bad-areas", Always(Areas): "stop when more areas than this have failed"),
    option_row!('f', "force", Never: "allow an outfile that is not a regular file, such as a device"),
    option_row!('F', "fill-mode", Always(Types): "write infile where the mapfile has one of these statuses"),
    option_row!('G', "generate-mode", Never: "make the mapfile from what outfile holds"),
    option_row!('H', "test-mode", Always(TestMap): "treat as failed what is not finished in this map"),
    option_row!('i', "input-position", Always(Size): "begin at this position of infile"),
    option_row!('K', "skip-size", Always(Skips): "skip this many bytes after a failed or slow read"),
    option_row!('L', "loose-domain", Never: "accept a domain map and a test map with gaps"),
    option_row!('m', "domain-mapfile", Always(DomainMap): "rescue only what is finished in this map"),
    option_row!('M', "retrim", Never: "trim again everything that failed"),
    option_row!('n', "no-scrape", Never: "skip scraping"),
    option_row!('N', "no-trim", Never: "skip trimming"),
    option_row!('o', "output-position", Always(Size): "begin at this position of outfile"),
    option_row!('q', "quiet", Never: "print nothing"),
    option_row!('r', "retry-passes", Always(Retries): "retry the bad sectors in this many passes"),
    option_row!('R', "reverse", Never: "reverse the direction of each pass"),
    option_row!('s', "size", Always(Size): "rescue only this many bytes, from the input position on"),
    option_row!('T', "timeout", Always(Interval): "stop when no read has succeeded for longer than this"),
    option_row!('u', "unidirectional", Never: "run all passes in the same direction"),
    option_row!('v', "verbose", Never: "print first how many bytes are to be rescued"),
    option_row!('X', "max-read-errors", Always(Number): "stop when more reads than this have failed"),
    option_row!("sample", Always(Kib): "rescue a sample of this many KiB in memory"),
];

/// What the options of a command line ask for.
#[derive(Clone, Copy, Debug, PartialEq, Eq)]
pub struct Options {
    /// The size of a sector in bytes; 512 if it isn't given.
    pub sector: u64,
    /// The size of a cluster in sectors; if it isn't given, as many as 65,536 bytes have, but one at least.
    pub cluster_sectors: Option<u64>,
    /// How far copying skips at first after a failed or slow read, in bytes and not yet rounded up to whole sectors;
    /// 64 KiB if it isn't given, or the largest skip if that is less.
    pub skip: u64,
    /// How far copying skips at most, in bytes and not yet rounded up to whole sectors; 1 GiB if it isn't given, or the
    /// first skip if that is more.
    pub skip_max: u64,
    /// Below how many bytes a second a read of copying is slow; 0 if it isn't given, and then none is.
    pub min_rate: u64,
    /// Where the rescue begins in the infile, in bytes; 0 if it isn't given.
    pub input_position: u64,
    /// Where the rescue begins in the outfile, in bytes; as in the infile if it isn't given.
    pub output_position: Option<u64>,
    /// How many bytes are rescued at most; no limit if it isn't given.
    pub size: Option<u64>,
    /// The passes of the run; if nothing else is asked for, each phase but retrying.
    pub passes: Passes,
    /// The limits of the run; none of those that aren't given.
    pub limits: Limits,
    /// What the mapfile leaves to trim or to scrape is copied again; by default it isn't.
    pub try_again: bool,
    /// What the mapfile calls failed is trimmed again; by default it isn't.
    pub retrim: bool,
    /// Only what the mapfile lists is rescued; by default what it leaves out is too.
    pub complete_only: bool,
    /// A pattern is written over what has one of these statuses in the mapfile; nothing is if it isn't given.
    pub fill: Option<TypeSet>,
    /// The mapfile is made from what the outfile holds; by default it isn't.
    pub generate: bool,
    /// The map of what is to be rescued may have gaps; by default it may not.
    pub loose: bool,
    /// The outfile may be something else than a regular file; by default it may not.
    pub forced: bool,
    /// Nothing is put on the console; by default lines and messages are.
    pub quiet: bool,
    /// A first line says how much is to be rescued; by default none does.
    pub verbose: bool,
    /// A sample of this size in KiB is rescued in place of an infile; none if it isn't given.
    pub sample: Option<u64>,
}

impl Options {
    /// The sectors of a cluster.
    fn sectors(&self) -> u64
        requires { 0 < self.now.sector }
        ensures { result ≡ sectors_of self.now self.now.cluster_sectors }
    {
        match self.cluster_sectors {
            Some(sectors) => sectors,
            None => (DEFAULT_CLUSTER / self.sector).max(1),
        }
    }

    /// Whether a cluster is too large.
    pub(crate) fn is_too_large(&self) -> bool
        requires { 0 < self.now.sector }
        ensures { result ≡ is_too_large self.now }
    {
        self.sectors().saturating_mul(self.sector) > LARGEST_CLUSTER
    }

    /// Whether a mapfile is wanted: it says what is to be rescued, filled or generated.
    pub(crate) fn wants_mapfile(&self) -> bool
        ensures { result ≡ wants_mapfile self.now }
    {
        self.complete_only || self.fill.is_some() || self.generate
    }

    /// The size of a cluster in bytes.
    pub fn cluster(&self) -> u64
        requires { AreInLimits self.now }
        ensures { result ≡ cluster_of self.now }
    {
        self.sectors() * self.sector
    }

    /// How far copying skips at first, in bytes, as whole sectors.
    pub fn first_skip(&self) -> u64
        requires { AreInLimits self.now }
        ensures { result ≡ in_sectors self.now self.now.skip }
    {
        in_sectors(self.skip, self.sector)
    }

    /// How far copying skips at most, in bytes, as whole sectors.
    pub fn largest_skip(&self) -> u64
        requires { AreInLimits self.now }
        ensures { result ≡ in_sectors self.now self.now.skip_max }
    {
        in_sectors(self.skip_max, self.sector)
    }
}

/// The least rate that a value gives, if it does.
fn read_min_rate(sector: u64, value: Option<&str>) -> Option<u64>
    requires { IsSector sector }
    ensures { result ≡ option_and_then (within_range 1 (2 ^ 63))
        (size_by sector (option_map (λ v. v.now) value.entry)) }
{
    within_range(size_by(sector, value)?, 1, 1 << 63)
}

/// The sectors of a cluster that a value gives, if it does.
fn read_cluster_sectors(sector: u64, value: Option<&str>) -> Option<u64>
    requires { IsSector sector }
    ensures { result ≡ option_and_then (within_range 1 most_cluster_sectors)
        (size_by sector (option_map (λ v. v.now) value.entry)) }
{
    within_range(size_by(sector, value)?, 1, MOST_CLUSTER_SECTORS)
}

/// The passes of retrying that a value gives, if it does.
fn read_retries(value: Option<&str>) -> Option<u32>
    ensures { result ≡ option_and_then (within_range 0 most_retries) (number_by (option_map (λ v. v.now) value.entry)) }
{
    let retries = number_by(value)?;
    if retries <= MOST_RETRIES {
        Some(retries as u32)
    } else {
        None
    }
}

/// The limit of areas that a value gives, if it does.
fn read_area_limit(value: &str) -> Option<AreaLimit>
    ensures { result ≡ area_limit_of value.now }
{
    match value.strip_prefix('+') {
        Some(number) => Some(AreaLimit::New(number_by(Some(number))?)),
        None => Some(AreaLimit::Total(number_by(Some(value))?)),
    }
}

/// The seconds that a value gives, if it does.
fn read_timeout(value: &str) -> Option<u64>
    ensures { result ≡ result_ok (interval value.now) }
{
    read_interval(value).ok()
}

/// The KiB of a sample that a value gives, if it does.
fn read_sample(value: Option<&str>) -> Option<u64>
    ensures { result ≡ sample_of (option_map (λ v. v.now) value.entry) }
{
    within_range(number_by(value)?, 1, MOST_SAMPLE)
}

/// What the option of a sample sets by its value; nothing if that is a bad one.
fn with_sample(options: Options, sector: u64, value: Option<&str>) -> Option<Options>
    ensures { result ≡ set_by (Some sample_row) sector options (option_map (λ v. v.now) value.entry) }
{
    let kib = read_sample(value)?;
    Some(Options {
        sample: Some(kib),
        ..options
    })
}

/// Writes the arms of a `match` over the letters: each sets one field or two. The size of a sector is set before, and
/// the names of maps are read apart.
macro_rules! set_by_letter {
    ($options:ident, $letter:ident, $value:ident; $($char:literal => $($field:ident),+ = $set:expr;)*) => {
        match $letter {
            SECTOR_SIZE => Some($options),
            TEST_MODE | DOMAIN_MAPFILE => if is_name($value) { Some($options) } else { None },
            $($char => {
                let ($($field),+) = $set;
                $($options.$field = $field;)+
                Some($options)
            })*
            _ => None,
        }
    };
}

/// What the option of a letter sets by its value; nothing if that is a bad one, or if no option has the letter.
pub fn with_letter(
    mut options: Options,
    sector: u64,
    letter: char,
    value: Option<&str>,
) -> Option<Options>
    requires { IsSector sector }
    ensures { result ≡ set_by (row_of letter lettered_rows) sector options (option_map (λ v. v.now) value.entry) }
{
    let size = size_by(sector, value);
    set_by_letter!(options, letter, value;
        'a' => min_rate = read_min_rate(sector, value)?;
        'A' => try_again = true;
        'c' => cluster_sectors = Some(read_cluster_sectors(sector, value)?);
        'C' => complete_only = true;
        'e' => limits = Limits { areas: Some(read_area_limit(value?)?), ..options.limits };
        'f' => forced = true;
        'F' => fill = Some(TypeSet::read(value?)?);
        'G' => generate = true;
        'i' => input_position = size?;
        'K' => skip, skip_max = read_skips(sector, value?)?;
        'L' => loose = true;
        'M' => retrim = true;
        'n' => passes = Passes { scrapes: false, ..options.passes };
        'N' => passes = Passes { trims: false, ..options.passes };
        'o' => output_position = Some(size?);
        'q' => quiet = true;
        'r' => passes = Passes { retries: read_retries(value)?, ..options.passes };
        'R' => passes = Passes { reverse: true, ..options.passes };
        's' => size = Some(size?);
        'T' => limits = Limits { timeout: Some(read_timeout(value?)?), ..options.limits };
        'u' => passes = Passes { one_way: true, ..options.passes };
        'v' => verbose = true;
        'X' => limits = Limits { errors: Some(number_by(value)?), ..options.limits };
    )
}

impl OptionValues for Options {
    ghost rows = { option_rows };

    ghost start = { no_options };

    fn none(sector: u64) -> Options {
        Options {
            sector,
            cluster_sectors: None,
            skip: DEFAULT_SKIP,
            skip_max: DEFAULT_SKIP_MAX,
            min_rate: 0,
            input_position: 0,
            output_position: None,
            size: None,
            passes: Passes::all_phases_once(),
            limits: Limits::none(),
            try_again: false,
            retrim: false,
            complete_only: false,
            fill: None,
            generate: false,
            loose: false,
            forced: false,
            quiet: false,
            verbose: false,
            sample: None,
        }
    }

    fn with_row(self, sector: u64, row: usize, value: Option<&str>) -> Option<Options> {
        if row == SAMPLE {
            return with_sample(self, sector, value);
        }
        match letter_of(&ROWS, row) {
            Some(letter) => with_letter(self, sector, letter, value),
            None => None,
        }
    }
}
