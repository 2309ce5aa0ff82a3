//! What a sweep is asked to do.
use block_list::tiles::Tiles;
use mapfile_save::names::Names;
use mapfile_text::heading::Heading;
use mapfile_text::state::MapState;
use rescue_domain::domain::Domain;
use run_options::settings::Settings;

/// What a sweep is asked to do.
#[derive(Drop)]
pub struct Job<T: Tiles> {
    pub settings: Settings,
    /// The positions that it may take.
    pub domain: Domain,
    /// The map that it begins with.
    pub tiles: T,
    /// What the mapfile showed, if it was there: a sweep of the same kind resumes from its position.
    pub loaded: Option<MapState>,
    pub names: Names,
    /// The heading of each saved map. The times of the heading are set when the map is saved.
    pub heading: Heading,
    /// The start, in milliseconds since 1970.
    pub moment: u64,
    /// Whether lines are asked for, and each was put so far.
    pub heard: bool,
}
