//! Saves over real files, and over a kernel in memory.
use crash_site::site::{ImageKind, MapRead, Site, SiteFault};
use folder_site::folder::{FolderSite, KernelSite};
use kernel_files::memory::MemoryKernel;
use site_record::memory::MemoryRecorder;
use std::path::PathBuf;
use std::test::Fail;
use std::{env, fs, io, process};

/// A name in the folder for temporary files that is this process's own.
pub(crate) fn own_name(rt: &HostRuntime, word: &str) -> io::Result<PathBuf> {
    let name = format!(in rt.alloc(); "smoke_{}_{word}", process::id(rt.process()))?;
    let path = env::temp_dir(rt)?.join(rt.alloc(), name.as_str())?;
    Ok(path)
}

/// Saves a text as a mapfile.
fn save<S: Site>(site: &mut S, draft: &str, map: &str, text: &[u8]) -> Result<(), SiteFault> {
    site.draft_begin(draft)?;
    site.draft_append(text)?;
    site.draft_sync()?;
    site.draft_publish(map)?;
    site.map_settle(map)
}

#[test]
fn a_mapfile_is_read_after_each_save(rt: HostRuntime) -> Result<(), Fail> {
    let folder = own_name(&rt, "site")?;
    fs::create_dir(&rt, folder.as_path())?;
    let map = folder.join(rt.alloc(), "map")?;
    let draft = folder.join(rt.alloc(), "map.tmp")?;
    let map = map.as_path().as_str();
    let mut site = FolderSite::new(rt.clone()?);
    let mut buf = [0; 4];
    for text in [b"old", b"new"] {
        save(&mut site, draft.as_path().as_str(), map, text)?;
        assert_eq!(rt; site.map_read(map, 1, &mut buf)?, MapRead::Bytes(2));
        assert!(rt; buf.starts_with(&text[1..]));
    }
    site.map_remove(map)?;
    assert_eq!(rt; site.map_read(map, 1, &mut buf)?, MapRead::Absent);
    fs::remove_dir_all(&rt, folder.as_path())?;
    Ok(())
}

/// A site over a kernel and a recorder in memory. Both tell.
fn memory_site(rt: &HostRuntime) -> Result<KernelSite<MemoryKernel, MemoryRecorder>, Fail> {
    let kernel = MemoryKernel::new(rt.alloc());
    let recorder = MemoryRecorder::new(rt.alloc());
    Ok(KernelSite::over(kernel, recorder, rt.clone()?))
}

#[test]
fn saves_return_over_a_kernel_that_tells(rt: HostRuntime) -> Result<(), Fail> {
    let mut site = memory_site(&rt)?;
    save(&mut site, "map.tmp", "map", b"old")?;
    save(&mut site, "map.tmp", "map", b"new")?;
    let mut buf = [0; 4];
    assert_eq!(rt; site.map_read("map", 1, &mut buf)?, MapRead::Bytes(2));
    assert!(rt; buf.starts_with(b"ew"));
    site.map_remove("map")?;
    assert_eq!(rt; site.map_read("map", 0, &mut buf)?, MapRead::Absent);
    Ok(())
}

#[test]
fn an_image_is_read_over_a_kernel_that_tells(rt: HostRuntime) -> Result<(), Fail> {
    let mut site = memory_site(&rt)?;
    assert_eq!(rt; site.image_open("out", false)?, ImageKind::Absent);
    assert_eq!(rt; site.image_open("out", true)?, ImageKind::Regular);
    site.image_write(2, b"abc")?;
    site.image_sync()?;
    let mut buf = [1; 6];
    assert_eq!(rt; site.image_read(1, &mut buf)?, 4);
    assert!(rt; buf.starts_with(b"\0abc"));
    Ok(())
}
