//! Files as mapfiles.
use crate::refusal::Refusal;
use crate::shown::append_escaped;
use block_list::tiles::Tiles;
use mapfile_reader::read::{ReadMap, read_map};
use mapfile_text::read::{MapError, Mode};
use memory_site::memory::MemorySite;
use std::alloc::Global;
use std::io::Write;

/// Adds what a file says as a mapfile.
pub fn append_blocks(alloc: Global, out: &mut Vec<u8>, file: Option<&[u8]>) -> Result<(), Refusal> {
    let Some(text) = file else {
        out.extend_from_slice(b"absent")?;
        return Ok(());
    };
    match read_map(alloc, text, Mode::Tight) {
        Ok(map) => append_map(out, &map),
        Err(MapError::NoMemory) => Err(Refusal::NoMemory),
        Err(error) => {
            write!(out, "refused, {error:?}")?;
            Ok(())
        }
    }
}

fn append_map(out: &mut Vec<u8>, map: &ReadMap) -> Result<(), Refusal> {
    let pos = map.state.pos;
    let current = char::from(map.state.current.symbol());
    let pass = map.state.pass;
    write!(out, "0x{pos:X} {current} {pass}:")?;
    for i in 0..map.tiles.blocks() {
        let block = map.tiles.block(i);
        let status = char::from(block.status.symbol());
        let size = block.size;
        write!(out, " {status}0x{size:X}")?;
    }
    Ok(())
}

/// Adds what files of a site say as mapfiles, to a line, and ends it.
pub fn append_maps(
    alloc: Global,
    out: &mut Vec<u8>,
    site: &MemorySite,
    names: &[String],
) -> Result<(), Refusal> {
    for (i, name) in names.iter().enumerate() {
        if i > 0 {
            out.push(b';')?;
        }
        out.push(b' ')?;
        append_escaped(out, name.as_bytes())?;
        out.extend_from_slice(b": ")?;
        append_blocks(alloc, out, site.file(name.as_str()))?;
    }
    out.push(b'\n')?;
    Ok(())
}
