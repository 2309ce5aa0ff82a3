//! Makes the map of the blocks whose numbers a feed lists.
ghost use Rattle.std.specs.Prelude.{◌≡◌, ◌⊎◌, ℕ, List, ◌<◌, ◌≤◌, ◌^◌, All, None, Ok, false, length, OnOk, IfOk, IfErr};
ghost use Rattle.block_list.specs.Tiled.{statuses_in};
ghost use Rattle.mapfile_text.specs.declared.heading.Program.TheVariants.{Ddrescuelog};
ghost use Rattle.mapfile_text.specs.declared.state.Current.TheVariants.{Copying};
ghost use Rattle.mapfile_text.specs.Printed.{printed};
ghost use Rattle.crash_site.specs.SiteChanges.{Stays};
ghost use Rattle.map_algebra.specs.Blocks.{IsShape};
ghost use Rattle.map_algebra.specs.Numbers.{IsInRange, list_limit, numbers_in};
ghost use Rattle.ddrescuelog_words.specs.Options.{ends_beyond};
ghost use Rattle.ddrescuelog_words.specs.Command.{AreInLimits, told_by};
ghost use Rattle.ddrescuelog_cli.specs.declared.ending.LogEnding.TheVariants.{NoMemory as OutOfMemory};
ghost use Rattle.ddrescuelog_cli.specs.Maps.{shape_of};
ghost use Rattle.ddrescuelog_cli.specs.Refusals.{ListRefused};
ghost use Rattle.ddrescuelog_cli.specs.Results.{ListEndsAt};
ghost use Rattle.ddrescuelog_cli.specs.After.{FeedLeft, SiteLeft};
ghost use Rattle.ddrescuelog_cli.specs.Creating.{AreOfList, AsksIfThere, CreatesMap, LookCause, Looks, MakesList, SavesText, StopsTaking, TakesAll, TakesFeedPiece, ended_as};

use crate::ending::{LogEnding, Which};
use crate::load::read_named;
use crate::pieces::PIECE;
use crate::places::shape_of;
use block_list::status::Status;
use crash_site::site::{MapRead, Site, SiteCall};
use ddrescuelog_words::command::Command;
use ddrescuelog_words::mode::LogMode;
use ddrescuelog_words::options::LogOptions;
use map_algebra::blocks::end_of_blocks;
use map_algebra::create::create;
use map_algebra::numbers::{NumberError, read_numbers};
use mapfile_resume::named::mode_of;
use mapfile_save::draft::{SaveFault, Saved};
use mapfile_save::names::Names;
use mapfile_save::save::save;
use mapfile_text::heading::Heading;
use mapfile_text::state::{Current, MapState};
use plain_blocks::plain_tiles::PlainTiles;
use rescue_console::feed::Feed;
use rescue_domain::domain::Domain;
use std::alloc::Global;

/// The most bytes that a list may have.
const LIST_LIMIT: usize = 1 << 28;

/// How the blocks of a map are marked: those that a list has, and the rest.
#[derive(Clone, Copy)]
pub(crate) struct Marks {
    pub listed: Status,
    pub rest: Status,
}

/// Goes on only if no file has a name, which one read asks, unless that is forced.
fn refuse_existing<D: Site>(site: &mut D, name: &str, forced: bool) -> Result<(), LogEnding>
    ensures asks { AsksIfThere forced name.now result (D.state site.old) (D.state site.new) }
    ensures kept { OnOk result ((D.state site.new).faults ≡ (D.state site.old).faults) }
    ensures cause { IfErr result (λ e. LookCause e (D.state site.old).faults (D.state site.new).faults) }
    ensures site { Stays (D.state site.old) (D.state site.new) }
{
    if forced {
        return Ok(());
    }
    let mut buf = [0u8; PIECE];
    match site.map_read(name, 0, &mut buf) {
        Ok(MapRead::Absent) => Ok(()),
        Ok(MapRead::Bytes(_)) => Err(LogEnding::Exists),
        Err(_) => Err(LogEnding::SiteFault {
            call: SiteCall::MapRead,
        }),
    }
}

/// Reads the domain map, if one is named, unless there is a file already where the map is to be made.
fn look<D: Site>(
    alloc: Global,
    site: &mut D,
    command: &Command,
) -> Result<Option<PlainTiles>, LogEnding>
    requires { (told_by command.now).other ≡ None }
    ensures looks { Looks (told_by command.now) result (D.state site.old) (D.state site.new) }
    ensures kept { OnOk result ((D.state site.new).faults ≡ (D.state site.old).faults) }
    ensures cause { IfErr result (λ e. LookCause e (D.state site.old).faults (D.state site.new).faults) }
    ensures site { Stays (D.state site.old) (D.state site.new) }
{
    match refuse_existing(site, command.mapfile, command.options.forced) {
        Ok(()) => {
            let mode = mode_of(command.options.loose);
            read_named(alloc, site, Which::DomainMap, command.domain_map, mode)
        }
        Err(refusal) => Err(refusal),
    }
}

/// Takes a piece onto the end of a list, and answers whether any was left. It asks for memory before the take, so that
/// nothing that was taken is lost for lack of it.
fn take_piece<I: Feed>(feed: &mut I, list: &mut Vec<u8>) -> Result<bool, LogEnding>
    ensures took { IfOk result (λ some. TakesFeedPiece some list.old.items list.new.items
        (I.state feed.old) (I.state feed.new)) }
    ensures cause { IfErr result (λ e. (e ≡ OutOfMemory) ⊎ (e ≡ LogEnding.FeedFault)) }
    ensures feed { IfErr result (λ e. FeedLeft e (I.state feed.old) (I.state feed.new)) }
{
    let Ok(()) = list.reserve(PIECE) else {
        return Err(LogEnding::NoMemory);
    };
    let mut piece = [0u8; PIECE];
    let Ok(size) = feed.take(&mut piece) else {
        return Err(LogEnding::FeedFault);
    };
    // There is room, so this takes no memory and succeeds.
    let _fits = list.extend_from_slice(&piece[..size]);
    Ok(size > 0)
}

/// Takes the whole list, unless it is longer than a list may be.
fn take_list<I: Feed>(alloc: Global, feed: &mut I) -> Result<Vec<u8>, LogEnding>
    ensures taken { IfOk result (λ list. TakesAll list.items (I.state feed.old) (I.state feed.new)) }
    ensures stopped { IfErr result (λ e. StopsTaking e (I.state feed.old) (I.state feed.new)) }
{
    let mut list = Vec::new(alloc);
    'pieces: loop {
        if !take_piece(feed, &mut list)? {
            return Ok(list);
        }
        if list.len() > LIST_LIMIT {
            return Err(LogEnding::ListTooLong);
        }
    }
}

/// The numbers that a list has. The list ends here: its text isn't needed once its numbers were read.
fn numbers_of(alloc: Global, list: Vec<u8>, options: &LogOptions) -> Result<Vec<u64>, LogEnding>
    requires shape { IsShape (shape_of options.now) }
    requires short { length list.items ≤ list_limit }
    ensures numbers { IfOk result (λ numbers. numbers_in (shape_of options.now) list.items ≡ Ok numbers.items) }
    ensures limits { IfOk result (λ numbers. All (IsInRange (shape_of options.now)) numbers.items) }
    ensures refused { IfErr result (λ e. (e ≡ OutOfMemory) ⊎ ListRefused options.now list.items e) }
{
    match read_numbers(alloc, &list, shape_of(options)) {
        Ok(numbers) => Ok(numbers),
        Err(NumberError::BadNumber { line }) => Err(LogEnding::BadNumber { line }),
        Err(NumberError::NoMemory) => Err(LogEnding::NoMemory),
    }
}

/// Where the map of some blocks ends.
fn end_of(options: &LogOptions, numbers: &[u64]) -> u64
    requires shape { IsShape (shape_of options.now) }
    requires limits { All (IsInRange (shape_of options.now)) numbers.now }
    requires size { ends_beyond options.now options.now.size ≡ false }
    ensures end { ListEndsAt options.now.size options.now numbers.now result }
    ensures short { result < 2 ^ 63 }
{
    match options.size {
        Some(size) => options.input_position + size,
        None => end_of_blocks(numbers, shape_of(options)),
    }
}

/// The map of some blocks.
fn map_of(
    alloc: Global,
    options: &LogOptions,
    marks: Marks,
    domain_map: &Option<PlainTiles>,
    list: Vec<u8>,
) -> Result<PlainTiles, LogEnding>
    requires shape { IsShape (shape_of options.now) }
    requires size { ends_beyond options.now options.now.size ≡ false }
    requires short { length list.items ≤ list_limit }
    ensures made { IfOk result (λ t. AreOfList options.now marks.listed marks.rest (statuses_in domain_map.now)
        list.items t.statuses) }
    ensures refused { IfErr result (λ e. (e ≡ OutOfMemory) ⊎ ListRefused options.now list.items e) }
{
    let numbers = numbers_of(alloc, list, options)?;
    let end = end_of(options, &numbers);
    let from = options.input_position;
    let domain = Domain::within(alloc, from, options.size, end, domain_map.as_ref())?;
    let shape = shape_of(options);
    let Marks { listed, rest } = marks;
    Ok(create(alloc, &numbers, shape, &domain, end, listed, rest)?)
}

/// The map of the blocks that a feed lists.
fn make_map<I: Feed>(
    alloc: Global,
    options: &LogOptions,
    marks: Marks,
    domain_map: &Option<PlainTiles>,
    feed: &mut I,
) -> Result<PlainTiles, LogEnding>
    requires shape { IsShape (shape_of options.now) }
    requires size { ends_beyond options.now options.now.size ≡ false }
    ensures makes { MakesList options.now marks.listed marks.rest (statuses_in domain_map.now) result
        (I.state feed.old) (I.state feed.new) }
    ensures feed { FeedLeft (ended_as result) (I.state feed.old) (I.state feed.new) }
{
    match take_list(alloc, feed) {
        Ok(list) => map_of(alloc, options, marks, domain_map, list),
        Err(fault) => Err(fault),
    }
}

/// Saves a map that was made, at its first position in the first pass of copying.
fn save_map<D: Site>(site: &mut D, names: &Names, heading: &Heading, map: &PlainTiles) -> LogEnding
    ensures saves { SavesText names.now
        (printed heading.now (record { pos = 0; current = Copying; pass = 1 }) map.now.statuses) result
        (D.state site.old) (D.state site.new) }
    ensures site { SiteLeft result (D.state site.old) (D.state site.new) }
{
    let state = MapState {
        pos: 0,
        current: Current::Copying,
        pass: 1,
    };
    match save(site, names, state, map, heading) {
        Ok(Saved) => LogEnding::Done,
        Err(SaveFault { call }) => LogEnding::SiteFault { call },
    }
}

/// Makes the map of the blocks that a feed lists, and saves it. Memory for its name is asked for first.
pub(crate) fn create_map<D: Site, I: Feed>(
    alloc: Global,
    command: &Command,
    heading: &Heading,
    marks: Marks,
    site: &mut D,
    feed: &mut I,
) -> LogEnding
    requires limits { AreInLimits (told_by command.now) }
    requires mode { (told_by command.now).mode ≡ LogMode.Create marks.listed marks.rest }
    ensures work { (line : List ℕ)
        → heading.now ≡ record { program = Ddrescuelog; line = line; start_s = 0; now_s = 0 }
        → CreatesMap (told_by command.now) line result (D.state site.old) (D.state site.new) (I.state feed.old) }
    ensures site { SiteLeft result (D.state site.old) (D.state site.new) }
    ensures feed { FeedLeft result (I.state feed.old) (I.state feed.new) }
{
    let Ok(names) = Names::of_map(alloc, command.mapfile) else {
        return LogEnding::NoMemory;
    };
    let domain_map = match look(alloc, site, command) {
        Ok(domain_map) => domain_map,
        Err(refusal) => return refusal,
    };
    match make_map(alloc, &command.options, marks, &domain_map, feed) {
        Ok(map) => save_map(site, &names, heading, &map),
        Err(refusal) => refusal,
    }
}
