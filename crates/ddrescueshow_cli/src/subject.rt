//! What a picture is drawn from.
ghost use Rattle.std.specs.Prelude.{◌≡◌, ◌<◌, ◌≤◌, length};
ghost use Rattle.rescue_domain.specs.Parts.{covers};
ghost use Rattle.ddrescueshow_cli.specs.Cells.{IsFrame, cells_in, mark};

use crate::cells::worst;
use crate::frame::Frame;
use block_list::status::Status;
use block_list::tiles::Tiles;
use map_counts::pieces::Nearby;
use rescue_domain::domain::Domain;

/// What a picture is drawn from: a map, those of its positions that are shown, and the cells that divide them.
#[derive(Drop)]
pub(crate) struct Subject<'a, T> {
    pub frame: Frame,
    pub tiles: &'a T,
    pub domain: &'a Domain,
}

impl<T: Tiles> Subject<'_, T> {
    /// What a cell shows. A walk upwards with one `near` goes along the map once.
    pub(crate) fn mark_of(&self, near: &mut Nearby, cell: u64) -> Option<Status>
        requires frame { IsFrame self.now.frame }
        requires within { cell < cells_in self.now.frame }
        requires map { self.now.frame.to ≤ length (T.statuses self.now.tiles.now) }
        ensures { result ≡ mark self.now.frame (covers self.now.domain.now) (T.statuses self.now.tiles.now) cell }
    {
        let from = self.frame.begin_of(cell);
        let to = self.frame.end_of(cell);
        worst(self.tiles, self.domain, near, from, to)
    }
}
