//! Files in memory: found by name, and written at a place.
ghost use Rattle.std.specs.Prelude.{◌≡◌, ℕ, ◌+◌, ◌<◌, ◌-◌, ◌≤◌, ◌^◌, true, false, List, ◌++◌, length, slice_index_or, take, drop, replicate, slice_range, Some, None, map, IfOk, OnOk, OnErr, MatchOption};
ghost use Rattle.std.specs.Str.{bytes_eq};
ghost use Rattle.memory_site.specs.declared.memory.places.NamedFile.{NamedFile};
ghost use Rattle.crash_site.specs.Files.{File, bytes_of, empty_file, put, written, written_file};
ghost use Rattle.crash_site.specs.FileAnswers.{kind_of};
ghost use Rattle.memory_site.specs.Places.{file_of, files_of, name_and_file, opened_file, IsPlaceOf};

use crash_site::site::ImageKind;
use std::alloc::{AllocError, Global};

/// A file in memory.
#[derive(Drop)]
pub(crate) struct MemoryFile {
    pub(crate) bytes: Vec<u8>,
    pub(crate) regular: bool,
}

/// A name, and the file that has it, if there is one.
#[derive(Drop)]
pub(crate) struct NamedFile {
    pub(crate) name: Vec<u8>,
    pub(crate) file: Option<MemoryFile>,
}

/// Adds zeros up to an end.
fn grow(bytes: &mut Vec<u8>, end: usize) -> Result<(), AllocError>
    ensures grown { OnOk result (bytes.new.items ≡ bytes.old.items ++ replicate (end - length bytes.old.items) 0) }
    ensures same { OnErr result (bytes.new.items ≡ bytes.old.items) }
{
    if bytes.len() < end {
        bytes.resize(end, 0)?;
    }
    Ok(())
}

fn paste(bytes: &mut [u8], pos: usize, piece: &[u8])
    requires { pos + length piece.now ≤ length bytes.old }
    ensures { bytes.new ≡ take pos bytes.old ++ piece.now ++ drop (pos + length piece.now) bytes.old }
{
    bytes[pos..pos + piece.len()].copy_from_slice(piece);
}

/// Writes over bytes from a place on. A gap before the place is filled with zeros.
fn write_over(bytes: &mut Vec<u8>, pos: usize, piece: &[u8]) -> Result<(), AllocError>
    requires { pos + length piece.now < 2 ^ 63 }
    ensures written { OnOk result (bytes.new.items ≡ written bytes.old.items pos piece.now) }
    ensures same { OnErr result (bytes.new.items ≡ bytes.old.items) }
{
    grow(bytes, pos + piece.len())?;
    paste(bytes, pos, piece);
    Ok(())
}

impl NamedFile {
    /// An empty regular file if nothing is there and one is to be made.
    pub(crate) fn open(&mut self, alloc: Global, make: bool) -> ImageKind
        ensures kind { result ≡ kind_of (file_of self.old.file) make }
        ensures file { file_of self.new.file ≡ opened_file (file_of self.old.file) make }
        ensures name { self.new.name.items ≡ self.old.name.items }
    {
        match &self.file {
            Some(file) if file.regular => ImageKind::Regular,
            Some(_) => ImageKind::Other,
            None if make => {
                self.empty(alloc);
                ImageKind::Regular
            }
            None => ImageKind::Absent,
        }
    }

    /// Puts an empty regular file here.
    pub(crate) fn empty(&mut self, alloc: Global)
        ensures file { file_of self.new.file ≡ Some empty_file }
        ensures name { self.new.name.items ≡ self.old.name.items }
    {
        self.file = Some(MemoryFile {
            bytes: Vec::new(alloc),
            regular: true,
        });
    }

    /// Writes at a place of the file. An absent file is made, as a regular one.
    pub(crate) fn write(
        &mut self,
        alloc: Global,
        pos: usize,
        piece: &[u8],
    ) -> Result<(), AllocError>
        requires { pos + length piece.now < 2 ^ 63 }
        ensures written { OnOk result (file_of self.new.file
            ≡ Some (written_file (file_of self.old.file) pos piece.now)) }
        ensures same { OnErr result (file_of self.new.file ≡ file_of self.old.file) }
        ensures name { self.new.name.items ≡ self.old.name.items }
    {
        match &mut self.file {
            Some(file) => write_over(&mut file.bytes, pos, piece),
            None => {
                let mut bytes = Vec::new(alloc);
                write_over(&mut bytes, pos, piece)?;
                self.file = Some(MemoryFile {
                    bytes,
                    regular: true,
                });
                Ok(())
            }
        }
    }

    /// Adds a piece at the end. The file is a regular one afterwards.
    pub(crate) fn append(&mut self, alloc: Global, piece: &[u8]) -> Result<(), AllocError>
        ensures appended { OnOk result (file_of self.new.file
            ≡ Some (record {
              bytes = bytes_of (file_of self.old.file)
                  ++ piece.now;
              regular = true;
            })) }
        ensures same { OnErr result (file_of self.new.file ≡ file_of self.old.file) }
        ensures name { self.new.name.items ≡ self.old.name.items }
    {
        match &mut self.file {
            Some(file) => {
                file.bytes.extend_from_slice(piece)?;
                file.regular = true;
            }
            None => {
                let bytes = Vec::from_slice(alloc, piece)?;
                self.file = Some(MemoryFile {
                    bytes,
                    regular: true,
                });
            }
        }
        Ok(())
    }

    fn copy(&self, alloc: Global) -> Result<NamedFile, AllocError>
        ensures { IfOk result (λ copied. name_and_file copied ≡ name_and_file self.now) }
    {
        let name = Vec::from_slice(alloc, self.name.as_slice())?;
        let file = match &self.file {
            None => None,
            Some(file) => Some(MemoryFile {
                bytes: Vec::from_slice(alloc, file.bytes.as_slice())?,
                regular: file.regular,
            }),
        };
        Ok(NamedFile { name, file })
    }
}

/// The first place with a name.
fn find(places: &[NamedFile], name: &[u8]) -> Option<usize>
    ensures { MatchOption result ((k : ℕ) (d : NamedFile) → k < length places.now
        → bytes_eq name.now (slice_index_or places.now k d).name.items ≡ false)
        (λ i. IsPlaceOf places.now name.now i) }
{
    for (i, place) in places.iter().enumerate() {
        if name == place.name.as_slice() {
            return Some(i);
        }
    }
    None
}

#[tactic(auto, using(crate::proofs::PlaceLemmas::place_lemmas))]
/// The file that has a name.
pub(crate) fn file_at<'a>(places: &'a [NamedFile], name: &[u8]) -> Option<&'a MemoryFile>
    ensures { MatchOption result (files_of places.now name.now ≡ None)
        (λ file. files_of places.now name.now ≡ Some
        (record { bytes = file.now.bytes.items; regular = file.now.regular })) }
{
    let i = find(places, name)?;
    places[i].file.as_ref()
}

#[tactic(auto, using(crate::proofs::PlaceLemmas::place_lemmas))]
/// The first place with a name, made if there is none.
pub(crate) fn place_of(
    alloc: Global,
    places: &mut Vec<NamedFile>,
    name: &[u8],
) -> Result<usize, AllocError>
    ensures place { IfOk result (λ i. IsPlaceOf places.new.items name.now i) }
    ensures files { files_of places.new.items ≡ files_of places.old.items }
{
    if let Some(i) = find(places, name) {
        return Ok(i);
    }
    let made = places.len();
    let name = Vec::from_slice(alloc, name)?;
    places.push(NamedFile { name, file: None })?;
    Ok(made)
}

#[tactic(auto, using(crate::proofs::PlaceLemmas::place_lemmas))]
/// Takes away the file that has a name.
pub(crate) fn take_file(places: &mut Vec<NamedFile>, name: &[u8]) -> Option<MemoryFile>
    ensures value { file_of result ≡ files_of places.old.items name.now }
    ensures files { files_of places.new.items ≡ put (files_of places.old.items) name.now None }
    ensures kept { (n : List ℕ) (i : ℕ) → IsPlaceOf places.old.items n i → IsPlaceOf places.new.items n i }
{
    let i = find(places, name)?;
    places[i].file.take()
}

/// A copy of all places, with copies of their files.
pub(crate) fn copy_places(alloc: Global, places: &[NamedFile]) -> Result<Vec<NamedFile>, AllocError>
    ensures { IfOk result (λ copied. files_of copied.items ≡ files_of places.now) }
{
    let mut copied = Vec::new(alloc);
    for place in places {
        copied.push(place.copy(alloc)?)?;
    }
    Ok(copied)
}
