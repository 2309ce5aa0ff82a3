//! The names of a mapfile and its draft.
ghost use Rattle.std.specs.Prelude.{◌≡◌, IfOk};
ghost use Rattle.mapfile_save.specs.MapNames.{names_of};

use block_list::tiles::NoMemory;
use std::alloc::Global;
use std::marker::Model;

/// The names of a mapfile and of its draft, which is in the same folder.
#[derive(Drop)]
pub struct Names {
    map: String,
    draft: String,
}

impl Model for Names {
    ghost use Rattle.std.specs.String.{string_bytes};
    ghost use Rattle.mapfile_save.specs.MapNames.{MapNames};

    ghost Value = { MapNames };

    ghost view = { λ n. record { map = string_bytes n.map; draft = string_bytes n.draft } };
}

impl Names {
    /// The names of a mapfile: its own, and that followed by `.tmp`.
    pub fn of_map(alloc: Global, map: &str) -> Result<Names, NoMemory>
        ensures { IfOk result (λ names. names ≡ names_of map.now) }
    {
        let copy = String::from_str(alloc, map)?;
        let mut draft = String::from_str(alloc, map)?;
        draft.push_str(".tmp")?;
        Ok(Names { map: copy, draft })
    }

    /// The mapfile's name.
    pub fn map(&self) -> &str
        ensures { result.now ≡ self.now.map }
    {
        self.map.as_str()
    }

    /// The draft's name.
    pub fn draft(&self) -> &str
        ensures { result.now ≡ self.now.draft }
    {
        self.draft.as_str()
    }
}
