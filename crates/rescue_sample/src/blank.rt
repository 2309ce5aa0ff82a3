//! A site and a console that take whatever they are given, and keep nothing.
ghost use Rattle.std.specs.Prelude.{◌≡◌, false};
ghost use Rattle.rescue_sample.specs.Blank.{blank_state};

use crash_site::site::{ImageKind, MapRead, Site, SiteFault};
use rescue_console::console::{Channel, Console, ConsoleFault};

/// A site that never fails, and tells only whether an image is open and a draft begun. Each image is a regular file
/// that is there, and empty; no mapfile is.
#[derive(Clone, Copy, Debug)]
pub struct BlankSite {
    open: bool,
    drafting: bool,
}

impl BlankSite {
    /// A site with no open image and no draft.
    pub fn new() -> BlankSite
        ensures { ⟦<BlankSite as Site>⟧.state result ≡ blank_state false false }
    {
        BlankSite {
            open: false,
            drafting: false,
        }
    }
}

impl Site for BlankSite {
    ghost use Rattle.rescue_sample.specs.Blank.{blank_state};

    ghost state = { λ s. blank_state s.open s.drafting };

    fn image_open(&mut self, _name: &str, _make: bool) -> Result<ImageKind, SiteFault> {
        self.open = true;
        Ok(ImageKind::Regular)
    }

    fn image_read(&mut self, _pos: u64, _buf: &mut [u8]) -> Result<usize, SiteFault> {
        Ok(0)
    }

    fn image_write(&mut self, _pos: u64, _piece: &[u8]) -> Result<(), SiteFault> {
        Ok(())
    }

    fn image_sync(&mut self) -> Result<(), SiteFault> {
        Ok(())
    }

    fn map_read(&mut self, _name: &str, _pos: u64, _buf: &mut [u8]) -> Result<MapRead, SiteFault> {
        Ok(MapRead::Absent)
    }

    fn draft_begin(&mut self, _name: &str) -> Result<(), SiteFault> {
        self.drafting = true;
        Ok(())
    }

    fn draft_append(&mut self, _piece: &[u8]) -> Result<(), SiteFault> {
        Ok(())
    }

    fn draft_sync(&mut self) -> Result<(), SiteFault> {
        Ok(())
    }

    fn draft_publish(&mut self, _name: &str) -> Result<(), SiteFault> {
        self.drafting = false;
        Ok(())
    }

    fn map_settle(&mut self, _name: &str) -> Result<(), SiteFault> {
        Ok(())
    }

    fn map_remove(&mut self, _name: &str) -> Result<(), SiteFault> {
        Ok(())
    }
}

/// A console that never fails, and tells nothing.
#[derive(Clone, Copy, Debug)]
pub struct BlankConsole;

impl Console for BlankConsole {
    ghost use Rattle.rescue_sample.specs.Blank.{blank_console};

    ghost state = { λ c. blank_console };

    fn put(&mut self, _channel: Channel, _piece: &[u8]) -> Result<(), ConsoleFault> {
        Ok(())
    }
}
