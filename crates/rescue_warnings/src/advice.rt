//! What a person is warned of before a run.
ghost use Rattle.std.specs.Prelude.{◌≡◌, ◌+◌, ◌-◌, ◌/◌, ◌%◌, ◌<◌, ◌≤◌, max, ◌∷◌, [], length};
ghost use Rattle.rescue_warnings.specs.Due.{IsAdvice, asked_end, asks_for_all, asks_infile, begins_past_infile, bytes_of, empty_domain, empty_infile, end_of, ends_by, finished_of, finishes_nothing, is_absent, is_character_device, is_comparison, is_fill, is_new, is_plan, is_rescue, is_writable, kinds, last_of, late_mapfile, length_of, linked_mapfile, lists_nothing, long_pattern, long_plan, map_before_infile, map_past_infile, mapfile_on_disk, may_be_held, may_forget, mounted_infile, new_mapfile, new_outfile, no_length, nothing_asked, nothing_listed, nothing_to_compare, nothing_to_fill, other_sector, outfile_on_disk, outfile_short, reads_infile, saves, sector_of, sectors_past, somes, unsafe_mapfile, unsafe_outfile, within, writes_outfile};

use crate::facts::{Facts, Finished, Found, MapText, Storage, Work};
use arrayvec::ArrayVec;
use kernel_devices::devices::Mounting;

/// A warning. Positions and lengths are in bytes.
#[derive(Clone, Copy, Debug, Default, PartialEq, Eq)]
pub enum Advice {
    /// The outfile ends before a place whose byte the mapfile calls finished: it won't be read again.
    OutfileShort { length: u64, finished: u64 },
    MapPastInfile { end: u64, length: u64 },
    #[default]
    EmptyInfile,
    BeginsPastInfile { length: u64 },
    NothingAsked,
    NothingListed,
    /// The mapfile is absent, though the outfile isn't empty.
    NewMapfile { length: u64 },
    LinkedMapfile,
    /// The outfile's file system may lose it.
    UnsafeOutfile { storage: Storage },
    UnsafeMapfile { storage: Storage },
    /// There is nothing yet that could be filled.
    NewOutfile,
    NothingToFill,
    LongPattern { length: u64, cluster: u64 },
    /// The sectors of the rescue aren't made of whole sectors of the infile.
    OtherSector { own: u64, sector: u64 },
    /// The kernel may answer reads of the infile from memory, and a mount for writing may change it.
    MountedInfile { mounting: Mounting },
    /// Writes wear the infile's disk, and what was rescued is lost with it.
    OutfileOnDisk,
    MapfileOnDisk,
    /// A plan makes that many reads, at least, past its test map's end.
    LongPlan { end: u64, reads: u64 },
    NothingToCompare,
    /// The mapfile is absent, and isn't saved soon, unless a stop is asked for.
    LateMapfile { stop_is_told: bool },
    /// Only what another map calls finished is asked for, and that is nothing.
    EmptyDomain,
    /// The mapfile ends before the infile, though the whole infile is asked for.
    MapBeforeInfile { end: u64, length: u64 },
    /// The infile is a character device, whose length may be unknown.
    NoLength,
}

/// Warnings in the order of the enum.
pub type Advices = ArrayVec<Advice, 23>;

/// The least number of reads past a test map's end of which a plan warns.
const MANY_READS: u64 = 10_000_000;

/// The least number of bytes that aren't taken to be rescued before the first save.
const MANY_BYTES: u64 = 1_073_741_824;

/// The length of a file, if it is known.
fn length_of(file: Option<Found>) -> Option<u64>
    ensures { result ≡ length_of file }
{
    match file {
        Some(Found::Regular { length }) => Some(length),
        Some(Found::Device { length, .. }) => length,
        Some(Found::Absent | Found::CharacterDevice) | None => None,
    }
}

/// How many bytes an outfile has that is no device.
fn bytes_of(file: Option<Found>) -> Option<u64>
    ensures { result ≡ bytes_of file }
{
    match file {
        Some(Found::Absent) => Some(0),
        Some(Found::Regular { length }) => Some(length),
        Some(Found::Device { .. } | Found::CharacterDevice) | None => None,
    }
}

/// The size of a device's own sectors, if it is known.
fn sector_of(file: Option<Found>) -> Option<u64>
    ensures { result ≡ sector_of file }
{
    match file {
        Some(Found::Device { sector, .. }) => sector,
        Some(Found::Regular { .. } | Found::Absent | Found::CharacterDevice) | None => None,
    }
}

fn is_absent(file: Option<Found>) -> bool
    ensures { result ≡ is_absent file }
{
    match file {
        Some(Found::Absent) => true,
        Some(Found::Regular { .. } | Found::Device { .. } | Found::CharacterDevice) | None => false,
    }
}

fn is_character_device(file: Option<Found>) -> bool
    ensures { result ≡ is_character_device file }
{
    match file {
        Some(Found::CharacterDevice) => true,
        Some(Found::Absent | Found::Regular { .. } | Found::Device { .. }) | None => false,
    }
}

fn is_writable(mounting: Mounting) -> bool
    ensures { result ≡ is_writable mounting }
{
    match mounting {
        Mounting::Writable => true,
        Mounting::ReadOnly => false,
    }
}

/// Whether what lies there may be lost by the next boot.
fn may_forget(storage: Storage) -> bool
    ensures { result ≡ may_forget storage }
{
    match storage {
        Storage::Memory | Storage::Overlay => true,
        Storage::NoJournal | Storage::Fuse => false,
    }
}

/// Where the last block of a mapfile ends, if that is known.
fn end_of(map: Option<MapText>) -> Option<u64>
    ensures { result ≡ end_of map }
{
    match map {
        Some(MapText::Blocks { end, .. }) => Some(end),
        Some(MapText::NoBlock | MapText::NoFile) | None => None,
    }
}

fn last_of(finished: Option<Finished>) -> Option<u64>
    ensures { result ≡ last_of finished }
{
    match finished {
        Some(Finished::UpTo(end)) => Some(end),
        Some(Finished::Nowhere) | None => None,
    }
}

/// Where the last finished block of a mapfile ends, if that is known.
fn finished_of(map: Option<MapText>) -> Option<u64>
    ensures { result ≡ finished_of map }
{
    match map {
        Some(MapText::Blocks { finished, .. }) => last_of(finished),
        Some(MapText::NoBlock | MapText::NoFile) | None => None,
    }
}

/// Whether a mapfile is known to be absent.
fn is_new(map: Option<MapText>) -> bool
    ensures { result ≡ is_new map }
{
    match map {
        Some(MapText::NoFile) => true,
        Some(MapText::NoBlock | MapText::Blocks { .. }) | None => false,
    }
}

/// Whether a mapfile is known to list no block.
fn lists_nothing(map: Option<MapText>) -> bool
    ensures { result ≡ lists_nothing map }
{
    match map {
        Some(MapText::NoFile | MapText::NoBlock) => true,
        Some(MapText::Blocks { .. }) | None => false,
    }
}

/// Whether no finished block ends past a position.
fn ends_by(pos: u64, finished: Option<Finished>) -> bool
    ensures { result ≡ ends_by pos finished }
{
    match finished {
        Some(Finished::UpTo(end)) => end <= pos,
        Some(Finished::Nowhere) => true,
        None => false,
    }
}

/// Whether a mapfile is known to have no finished position from a position on.
fn finishes_nothing(pos: u64, map: Option<MapText>) -> bool
    ensures { result ≡ finishes_nothing pos map }
{
    match map {
        Some(MapText::Blocks { finished, .. }) => ends_by(pos, finished),
        Some(MapText::NoBlock) => true,
        Some(MapText::NoFile) | None => false,
    }
}

fn is_rescue(work: Work) -> bool
    ensures { result ≡ is_rescue work }
{
    match work {
        Work::Rescue => true,
        Work::Fill | Work::Generate | Work::Comparison | Work::Plan => false,
    }
}

fn is_fill(work: Work) -> bool
    ensures { result ≡ is_fill work }
{
    match work {
        Work::Fill => true,
        Work::Rescue | Work::Generate | Work::Comparison | Work::Plan => false,
    }
}

fn is_comparison(work: Work) -> bool
    ensures { result ≡ is_comparison work }
{
    match work {
        Work::Comparison => true,
        Work::Rescue | Work::Fill | Work::Generate | Work::Plan => false,
    }
}

fn is_plan(work: Work) -> bool
    ensures { result ≡ is_plan work }
{
    match work {
        Work::Plan => true,
        Work::Rescue | Work::Fill | Work::Generate | Work::Comparison => false,
    }
}

/// Whether the map has the infile's length.
fn asks_infile(work: Work) -> bool
    ensures { result ≡ asks_infile work }
{
    match work {
        Work::Rescue | Work::Generate => true,
        Work::Fill | Work::Comparison | Work::Plan => false,
    }
}

/// Whether the infile is what is rescued or compared.
fn reads_infile(work: Work) -> bool
    ensures { result ≡ reads_infile work }
{
    match work {
        Work::Rescue | Work::Comparison => true,
        Work::Fill | Work::Generate | Work::Plan => false,
    }
}

/// Whether the outfile is written to.
fn writes_outfile(work: Work) -> bool
    ensures { result ≡ writes_outfile work }
{
    match work {
        Work::Rescue | Work::Fill => true,
        Work::Generate | Work::Comparison | Work::Plan => false,
    }
}

/// Whether the mapfile is saved at the end.
fn saves(work: Work) -> bool
    ensures { result ≡ saves work }
{
    match work {
        Work::Rescue | Work::Fill | Work::Generate => true,
        Work::Comparison | Work::Plan => false,
    }
}

/// Whether a number is at most one that may not be given.
fn within(n: u64, most: Option<u64>) -> bool
    ensures { result ≡ within n most }
{
    match most {
        Some(most) => n <= most,
        None => true,
    }
}

/// Where the positions end that are asked for, of this many.
fn asked_end(facts: &Facts, length: u64) -> u64
    ensures { result ≡ asked_end facts.now length }
{
    match facts.size {
        Some(size) => length.min(facts.input_position.saturating_add(size)),
        None => length,
    }
}

/// Whether no option asks for less than the whole infile.
fn asks_for_all(facts: &Facts) -> bool
    ensures { result ≡ asks_for_all facts.now }
{
    facts.input_position == 0 && facts.size.is_none() && !facts.complete_only && !facts.domain_map
}

fn outfile_short(facts: &Facts) -> Option<Advice>
    ensures { result ≡ outfile_short facts.now }
{
    if !is_rescue(facts.work) || facts.domain_map {
        return None;
    }
    let length = bytes_of(facts.outfile)?;
    let finished = finished_of(facts.map)?;
    let end = length_of(facts.infile)?;
    if finished <= facts.input_position || end < finished {
        return None;
    }
    let count = finished - facts.input_position;
    if !within(count, facts.size) {
        return None;
    }
    if facts.output_position <= length && count <= length - facts.output_position {
        return None;
    }
    Some(Advice::OutfileShort { length, finished })
}

fn map_past_infile(facts: &Facts) -> Option<Advice>
    ensures { result ≡ map_past_infile facts.now }
{
    if !asks_infile(facts.work) {
        return None;
    }
    let length = length_of(facts.infile)?;
    let end = end_of(facts.map)?;
    if length == 0 || end <= length {
        return None;
    }
    Some(Advice::MapPastInfile { end, length })
}

fn empty_infile(facts: &Facts) -> Option<Advice>
    ensures { result ≡ empty_infile facts.now }
{
    if !asks_infile(facts.work) {
        return None;
    }
    if length_of(facts.infile)? != 0 {
        return None;
    }
    Some(Advice::EmptyInfile)
}

fn begins_past_infile(facts: &Facts) -> Option<Advice>
    ensures { result ≡ begins_past_infile facts.now }
{
    if !asks_infile(facts.work) {
        return None;
    }
    let length = length_of(facts.infile)?;
    if length == 0 || facts.input_position < length {
        return None;
    }
    Some(Advice::BeginsPastInfile { length })
}

fn nothing_asked(facts: &Facts) -> Option<Advice>
    ensures { result ≡ nothing_asked facts.now }
{
    if !saves(facts.work) || facts.size? != 0 {
        return None;
    }
    Some(Advice::NothingAsked)
}

fn nothing_listed(facts: &Facts) -> Option<Advice>
    ensures { result ≡ nothing_listed facts.now }
{
    if !asks_infile(facts.work) || !facts.complete_only || !lists_nothing(facts.map) {
        return None;
    }
    Some(Advice::NothingListed)
}

fn new_mapfile(facts: &Facts) -> Option<Advice>
    ensures { result ≡ new_mapfile facts.now }
{
    if !is_rescue(facts.work) || !is_new(facts.map) {
        return None;
    }
    let length = bytes_of(facts.outfile)?;
    if length <= facts.output_position {
        return None;
    }
    Some(Advice::NewMapfile { length })
}

fn linked_mapfile(facts: &Facts) -> Option<Advice>
    ensures { result ≡ linked_mapfile facts.now }
{
    if !saves(facts.work) || !facts.map_is_link {
        return None;
    }
    Some(Advice::LinkedMapfile)
}

fn unsafe_outfile(facts: &Facts) -> Option<Advice>
    ensures { result ≡ unsafe_outfile facts.now }
{
    if !writes_outfile(facts.work) {
        return None;
    }
    let storage = facts.outfile_place.storage?;
    if !may_forget(storage) && facts.map_place.storage.is_some() {
        return None;
    }
    Some(Advice::UnsafeOutfile { storage })
}

fn unsafe_mapfile(facts: &Facts) -> Option<Advice>
    ensures { result ≡ unsafe_mapfile facts.now }
{
    if !saves(facts.work) {
        return None;
    }
    let storage = facts.map_place.storage?;
    Some(Advice::UnsafeMapfile { storage })
}

fn new_outfile(facts: &Facts) -> Option<Advice>
    ensures { result ≡ new_outfile facts.now }
{
    if !is_fill(facts.work) || !is_absent(facts.outfile) {
        return None;
    }
    Some(Advice::NewOutfile)
}

fn nothing_to_fill(facts: &Facts) -> Option<Advice>
    ensures { result ≡ nothing_to_fill facts.now }
{
    if !is_fill(facts.work) || !lists_nothing(facts.map) {
        return None;
    }
    Some(Advice::NothingToFill)
}

fn long_pattern(facts: &Facts) -> Option<Advice>
    ensures { result ≡ long_pattern facts.now }
{
    if !is_fill(facts.work) {
        return None;
    }
    let length = length_of(facts.infile)?;
    let cluster = facts.cluster;
    if length <= cluster {
        return None;
    }
    Some(Advice::LongPattern { length, cluster })
}

fn other_sector(facts: &Facts) -> Option<Advice>
    ensures { result ≡ other_sector facts.now }
{
    if !is_rescue(facts.work) {
        return None;
    }
    let own = sector_of(facts.infile)?;
    let sector = facts.sector;
    if own == 0 || sector % own == 0 {
        return None;
    }
    Some(Advice::OtherSector { own, sector })
}

/// Whether a comparison may be answered from what the kernel holds of a mounted infile.
fn may_be_held(facts: &Facts) -> bool
    ensures { result ≡ may_be_held facts.now }
{
    is_comparison(facts.work) && facts.is_cached
}

fn mounted_infile(facts: &Facts) -> Option<Advice>
    ensures { result ≡ mounted_infile facts.now }
{
    if !reads_infile(facts.work) {
        return None;
    }
    let mounting = facts.infile_mounting?;
    if !is_writable(mounting) && !may_be_held(facts) {
        return None;
    }
    Some(Advice::MountedInfile { mounting })
}

fn outfile_on_disk(facts: &Facts) -> Option<Advice>
    ensures { result ≡ outfile_on_disk facts.now }
{
    if !is_rescue(facts.work) || !facts.outfile_place.on_infile_disk {
        return None;
    }
    Some(Advice::OutfileOnDisk)
}

fn mapfile_on_disk(facts: &Facts) -> Option<Advice>
    ensures { result ≡ mapfile_on_disk facts.now }
{
    if !asks_infile(facts.work) || !facts.map_place.on_infile_disk {
        return None;
    }
    Some(Advice::MapfileOnDisk)
}

/// How many whole sectors of a plan lie past the end of its test map.
fn sectors_past(facts: &Facts, length: u64, end: u64) -> u64
    requires { 0 < facts.now.sector }
    ensures { result ≡ sectors_past facts.now length end }
{
    asked_end(facts, length).saturating_sub(end.max(facts.input_position)) / facts.sector
}

fn long_plan(facts: &Facts) -> Option<Advice>
    ensures { result ≡ long_plan facts.now }
{
    if !is_plan(facts.work) || !facts.scrapes || facts.sector == 0 {
        return None;
    }
    let length = length_of(facts.infile)?;
    let end = end_of(facts.map)?;
    let reads = sectors_past(facts, length, end);
    if reads < MANY_READS {
        return None;
    }
    Some(Advice::LongPlan { end, reads })
}

fn nothing_to_compare(facts: &Facts) -> Option<Advice>
    ensures { result ≡ nothing_to_compare facts.now }
{
    if !is_comparison(facts.work) || !finishes_nothing(facts.input_position, facts.map) {
        return None;
    }
    Some(Advice::NothingToCompare)
}

fn late_mapfile(facts: &Facts) -> Option<Advice>
    ensures { result ≡ late_mapfile facts.now }
{
    if !is_rescue(facts.work) || !is_new(facts.map) {
        return None;
    }
    if facts.complete_only || facts.domain_map {
        return None;
    }
    let length = length_of(facts.infile)?;
    if asked_end(facts, length).saturating_sub(facts.input_position) < MANY_BYTES {
        return None;
    }
    Some(Advice::LateMapfile {
        stop_is_told: facts.stop_is_told,
    })
}

fn empty_domain(facts: &Facts) -> Option<Advice>
    ensures { result ≡ empty_domain facts.now }
{
    if !asks_infile(facts.work) || !finishes_nothing(facts.input_position, facts.domain) {
        return None;
    }
    Some(Advice::EmptyDomain)
}

fn map_before_infile(facts: &Facts) -> Option<Advice>
    ensures { result ≡ map_before_infile facts.now }
{
    if !is_rescue(facts.work) || !asks_for_all(facts) {
        return None;
    }
    let length = length_of(facts.infile)?;
    let end = end_of(facts.map)?;
    if length <= end {
        return None;
    }
    Some(Advice::MapBeforeInfile { end, length })
}

fn no_length(facts: &Facts) -> Option<Advice>
    ensures { result ≡ no_length facts.now }
{
    if !reads_infile(facts.work) || !is_character_device(facts.infile) {
        return None;
    }
    Some(Advice::NoLength)
}

/// The warnings that are due, of each kind one or none.
fn collect(kinds: &[Option<Advice>]) -> Advices
    requires { length kinds.now ≤ 23 }
    ensures { result.items ≡ somes kinds.now }
{
    let mut list = Advices::new();
    for due in kinds {
        if let Some(advice) = due {
            list.push(*advice);
        }
    }
    list
}

/// What a person is warned of before a run, as far as the facts are known: all that is due, in the order of the enum,
/// each once.
pub fn due_advice(facts: &Facts) -> Advices
    ensures { IsAdvice facts.now result.items }
{
    collect(&[
        outfile_short(facts),
        map_past_infile(facts),
        empty_infile(facts),
        begins_past_infile(facts),
        nothing_asked(facts),
        nothing_listed(facts),
        new_mapfile(facts),
        linked_mapfile(facts),
        unsafe_outfile(facts),
        unsafe_mapfile(facts),
        new_outfile(facts),
        nothing_to_fill(facts),
        long_pattern(facts),
        other_sector(facts),
        mounted_infile(facts),
        outfile_on_disk(facts),
        mapfile_on_disk(facts),
        long_plan(facts),
        nothing_to_compare(facts),
        late_mapfile(facts),
        empty_domain(facts),
        map_before_infile(facts),
        no_length(facts),
    ])
}
