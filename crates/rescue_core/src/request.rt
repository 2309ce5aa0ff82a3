//! How a run comes to its next request: the direction of its pass, the search that it makes, and what that finds.
ghost use Rattle.std.specs.Prelude.{◌≡◌, ℕ, ◌+◌, ◌<◌, ◌≤◌, ◌^◌, true, false, List, length, Option, IfSome, IfNone};
ghost use Rattle.size_suffixes.specs.Sectors.{largest_cluster};
ghost use Rattle.block_list.specs.declared.block.Range.{Range};
ghost use Rattle.block_list.specs.declared.status.Status.{Status};
ghost use Rattle.mapfile_save.specs.MapNames.{MapNames};
ghost use Rattle.rescue_domain.specs.Live.{lives};
ghost use Rattle.rescue_rules.specs.declared.phase.Phase.{Phase};
ghost use Rattle.rescue_rules.specs.Passes.{taken, is_up, numbered};
ghost use Rattle.rescue_rules.specs.Machine.{start_of, search_of, IsNextRange, is_ahead, cut_start, cut_end, has_request};
ghost use Rattle.rescue_core.specs.RunState.{setting_with, setting_in, run_of, IsRun, IsNext};
ghost use Rattle.rescue_domain.specs.Search.{IsMarked};
ghost use Rattle.rescue_core.specs.Requesting.{search_by, Cuts, FindsNone, LeadsUp};

use crate::running::Running;
use block_list::block::Range;
use block_list::status::Status;
use block_list::tiles::Tiles;
use rescue_domain::live::Live;
use rescue_domain::search::{find_down, find_up};
use rescue_rules::phase::Phase;
use rescue_rules::stop::TrimMode;
use run_options::settings::Settings;
use transfer_token::token::Request;

/// How a request is found. Sizes and positions are in bytes.
#[derive(Clone, Copy, Debug, PartialEq, Eq)]
struct Search {
    /// Upwards: the first range at or past `from`. Downwards: the last one that ends at or before it.
    pub up: bool,
    pub from: u64,
    /// Whether it is cut from the range's front, or else from its back.
    pub front: bool,
    /// How much is asked for at most.
    pub size: u64,
}

/// Whether a pass goes upwards.
pub(crate) fn is_up(settings: &Settings, pass: u32) -> bool
    ensures { (domain : List Range) (names : Option MapNames) (line : List ℕ) (phase : Phase)
        → result ≡ is_up (setting_with settings.now domain names line) (numbered phase pass) }
{
    let odd = settings.passes.one_way || pass % 2 == 1;
    if settings.passes.reverse { !odd } else { odd }
}

/// Where a pass begins in a map that ends at `end`.
pub(crate) fn start_of(settings: &Settings, pass: u32, end: u64) -> u64
    ensures { (domain : List Range) (names : Option MapNames) (line : List ℕ) (phase : Phase) (map : List Status)
        → length map ≡ end → result ≡ start_of (setting_with settings.now domain names line) (numbered phase pass) map }
{
    if is_up(settings, pass) { 0 } else { end }
}

/// The status that a phase asks for.
pub(crate) fn status_of(phase: Phase) -> Status
    ensures { result ≡ taken phase }
{
    match phase {
        Phase::Copying => Status::NonTried,
        Phase::Trimming => Status::NonTrimmed,
        Phase::Scraping => Status::NonScraped,
        Phase::Retrying => Status::BadSector,
    }
}

/// The next range of positions left of a domain that have a status, by a search.
#[inline(always)]
fn next_range<T: Tiles>(live: Live<'_>, tiles: &T, search: Search, status: Status) -> Option<Range>
    ensures range { IfSome result (λ range.
        IsNextRange search.up (IsMarked (lives live.entry) (T.statuses tiles.now) status) search.from range.from
        range.to) }
    ensures none { IfNone result ((x : ℕ) → is_ahead (search_by search) x ≡ true
        → IsMarked (lives live.entry) (T.statuses tiles.now) status x → ⊥) }
{
    if search.up {
        find_up(live, tiles, search.from, status)
    } else {
        find_down(live, tiles, search.from, status)
    }
}

/// The part of a range that a search asks for.
fn cut(search: Search, sector: u64, range: Range) -> Request
    requires sector { 0 < sector }
    requires least { sector ≤ search.size }
    requires most { search.size ≤ largest_cluster }
    requires some { range.from < range.to }
    requires short { range.to < 2 ^ 63 }
    ensures starts { result.pos ≡ cut_start (search_by search) sector range.from range.to }
    ensures ends { result.pos + result.len ≡ cut_end (search_by search) sector range.from range.to }
    ensures some { 0 < result.len }
    ensures few { result.len ≤ search.size }
    ensures within { result.pos + result.len ≤ range.to }
    ensures short { result.pos + result.len < 2 ^ 63 }
{
    let (pos, end) = if search.front {
        let boundary = (range.from + search.size) / sector * sector;
        (range.from, range.to.min(boundary))
    } else {
        let boundary = (range.to.saturating_sub(search.size) + (sector - 1)) / sector * sector;
        (range.from.max(boundary), range.to)
    };
    Request {
        pos,
        len: (end - pos) as usize,
    }
}

impl<T: Tiles> Running<T> {
    /// The search of a run.
    fn search(&self) -> Search
        requires { IsRun T.Tiles self.now }
        ensures is { search_by result
            ≡ search_of (setting_in (run_of T.Tiles self.now)) (run_of T.Tiles self.now).machine }
        ensures least { self.now.settings.sector ≤ result.size }
        ensures most { result.size ≤ self.now.settings.cluster }
    {
        let progress = &self.progress;
        let up = is_up(&self.settings, progress.pass);
        let size = self.settings.sector;
        match self.phase {
            Phase::Copying => Search {
                up,
                from: progress.cursor,
                front: up,
                size: self.settings.cluster,
            },
            Phase::Trimming => match progress.mode {
                TrimMode::Lead => Search {
                    up,
                    from: start_of(&self.settings, progress.pass, self.tiles.end()),
                    front: true,
                    size,
                },
                TrimMode::Tail(low) => Search {
                    up: true,
                    from: low,
                    front: false,
                    size,
                },
            },
            Phase::Scraping | Phase::Retrying => Search {
                up,
                from: progress.cursor,
                front: up,
                size,
            },
        }
    }

    /// What is cut of the next range that a search finds.
    #[inline(always)]
    fn request_by(&self, search: Search, status: Status) -> Option<Request>
        requires run { IsRun T.Tiles self.now }
        requires least { self.now.settings.sector ≤ search.size }
        requires most { search.size ≤ self.now.settings.cluster }
        ensures some { IfSome result (λ q. Cuts (run_of T.Tiles self.now) (search_by search) status q.pos
            (q.pos + q.len)) }
        ensures none { IfNone result (FindsNone (run_of T.Tiles self.now) (search_by search) status) }
        ensures len { IfSome result (λ q. 0 < q.len) }
        ensures size { IfSome result (λ q. q.len ≤ self.now.settings.cluster) }
        ensures within { IfSome result (λ q. q.pos + q.len ≤ length (T.statuses self.now.tiles)) }
        ensures short { IfSome result (λ q. q.pos + q.len < 2 ^ 63) }
    {
        let live = Live {
            domain: &self.domain,
            over: self.keeper.tally.over,
        };
        let range = next_range(live, &self.tiles, search, status)?;
        Some(cut(search, self.settings.sector, range))
    }

    /// The next request of a run.
    #[inline(always)]
    pub(crate) fn find_request(&self) -> Option<Request>
        requires { IsRun T.Tiles self.now }
        ensures some { IfSome result (λ q. IsNext (run_of T.Tiles self.now) q) }
        ensures none { IfNone result
            (has_request (setting_in (run_of T.Tiles self.now)) (run_of T.Tiles self.now).machine ≡ false) }
        ensures len { IfSome result (λ q. 0 < q.len) }
        ensures most { IfSome result (λ q. q.len ≤ self.now.settings.cluster) }
        ensures within { IfSome result (λ q. q.pos + q.len ≤ length (T.statuses self.now.tiles)) }
        ensures short { IfSome result (λ q. q.pos + q.len < 2 ^ 63) }
    {
        let search = self.search();
        self.request_by(search, status_of(self.phase))
    }

    /// Whether a run trims upwards, and is before a range.
    pub(crate) fn leads_up(&self) -> bool
        ensures { result ≡ true → LeadsUp (run_of T.Tiles self.now) }
    {
        match (self.phase, self.progress.mode) {
            (Phase::Trimming, TrimMode::Lead) => is_up(&self.settings, self.progress.pass),
            _ => false,
        }
    }

    /// The next request of trimming upwards at the front of an area. Nothing is left to trim before the cursor.
    pub(crate) fn next_lead(&self) -> Option<Request>
        requires run { IsRun T.Tiles self.now }
        requires leads { LeadsUp (run_of T.Tiles self.now) }
        ensures some { IfSome result (λ q. IsNext (run_of T.Tiles self.now) q) }
        ensures none { IfNone result
            (has_request (setting_in (run_of T.Tiles self.now)) (run_of T.Tiles self.now).machine ≡ false) }
        ensures len { IfSome result (λ q. 0 < q.len) }
        ensures most { IfSome result (λ q. q.len ≤ self.now.settings.cluster) }
        ensures within { IfSome result (λ q. q.pos + q.len ≤ length (T.statuses self.now.tiles)) }
        ensures short { IfSome result (λ q. q.pos + q.len < 2 ^ 63) }
    {
        let search = Search {
            up: true,
            from: self.progress.cursor,
            front: true,
            size: self.settings.sector,
        };
        self.request_by(search, Status::NonTrimmed)
    }
}
