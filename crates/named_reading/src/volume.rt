//! A volume whose files are read.
ghost use Rattle.std.specs.Prelude.{◌≡◌, ℕ, List, map, true, IfOk, IfSome, OnOk};
ghost use Rattle.std.specs.Io.KnownBytes.{Appends};
ghost use Rattle.geometry.specs.Shape.{block_bytes};
ghost use Rattle.image.specs.View.{image_view};
ghost use Rattle.image_law.specs.Items.{Among};
ghost use Rattle.image_reading.specs.Content.{all_bytes};
ghost use Rattle.image_reading.specs.Held.{HoldsVolume, file_in, files_in};
ghost use Rattle.image_reading.specs.Told.{Narrows};
ghost use Rattle.named_folder.specs.Rows.{row_of};
ghost use Rattle.named_reading.specs.Named.{HasFile, HasFolder, HasNumber};

use crate::listing::{Listing, NumberedFile};
use crate::refusal::NameRefusal;
use geometry::{Error, Geometry};
use image::Image;
use image_reading::{ImageSource, ReadFault, hand_out, length_of, read_image};
use named_folder::{FOLDER, FolderRow, decode, row_at};
use std::alloc::Global;
use std::io::Write;

/// A volume whose files are read: its geometry, the image of its last checkpoint, and where its bytes are.
#[derive(Drop)]
pub struct OpenVolume<S> {
    pub geometry: Geometry,
    pub image: Image,
    pub source: S,
}

impl<S: ImageSource + Drop> OpenVolume<S> {
    /// The volume of an image file. It is refused as by `read_image`.
    pub fn open(alloc: Global, source: S) -> Result<OpenVolume<S>, ReadFault>
        ensures held { IfOk result (λ volume. (bytes : List ℕ) → S.shows volume.source bytes → HoldsVolume volume.geometry (image_view volume.image) bytes) }
        ensures kept { IfOk result (λ volume. Narrows (S.shows source) (S.shows volume.source)) }
    {
        let mut source = source;
        let (geometry, image) = read_image(alloc, &mut source)?;
        Ok(OpenVolume {
            geometry,
            image,
            source,
        })
    }

    /// Hands the bytes of the file of a name to a writer, a piece at a time.
    ///
    /// Answers Out where the writer failed, which may have taken some of the front; Io where the source did; and NoMemory.
    pub fn get<O: Write>(
        &mut self,
        alloc: Global,
        name: &str,
        out: &mut O,
    ) -> Result<Result<(), NameRefusal>, ReadFault>
        ensures got { IfOk result (λ done. OnOk done ((bytes : List ℕ) → S.shows self.new.source bytes → (got : List ℕ)
            × HasFile (block_bytes self.old.geometry.shape) (files_in self.old.geometry (image_view self.old.image) bytes) name.now got
            × Appends (O.contents out.old) (O.contents out.new) got)) }
        ensures kept { Narrows (S.shows self.old.source) (S.shows self.new.source) }
        ensures geometry { self.new.geometry ≡ self.old.geometry }
        ensures image { self.new.image ≡ self.old.image }
    {
        let Some(entries) = rows(alloc, &mut self.source, &self.geometry, &self.image)? else {
            return Ok(Err(NameRefusal::NoFolder));
        };
        let Some(row) = row_at(entries.as_slice(), name) else {
            return Ok(Err(NameRefusal::NoSuchFile));
        };
        let entry = &entries.as_slice()[row];
        if !has(&self.geometry, &self.image, entry.number) {
            return Ok(Err(NameRefusal::NoSuchFile));
        }
        hand_out(
            alloc,
            &mut self.source,
            &self.geometry,
            &self.image,
            entry.number,
            entry.bytes,
            out,
        )?;
        Ok(Ok(()))
    }

    /// Hands all blocks of the file of a number to a writer, a piece at a time. The answers are those of `get`.
    pub fn get_number<O: Write>(
        &mut self,
        alloc: Global,
        number: u32,
        out: &mut O,
    ) -> Result<Result<(), NameRefusal>, ReadFault>
        ensures got { IfOk result (λ done. OnOk done ((bytes : List ℕ) → S.shows self.new.source bytes → (got : List ℕ)
            × HasNumber (block_bytes self.old.geometry.shape) (files_in self.old.geometry (image_view self.old.image) bytes) number got
            × Appends (O.contents out.old) (O.contents out.new) got)) }
        ensures kept { Narrows (S.shows self.old.source) (S.shows self.new.source) }
        ensures geometry { self.new.geometry ≡ self.old.geometry }
        ensures image { self.new.image ≡ self.old.image }
    {
        if !has(&self.geometry, &self.image, number) {
            return Ok(Err(NameRefusal::NoSuchFile));
        }
        hand_out(
            alloc,
            &mut self.source,
            &self.geometry,
            &self.image,
            number,
            u64::MAX,
            out,
        )?;
        Ok(Ok(()))
    }

    /// Lists the files.
    pub fn list(&mut self, alloc: Global) -> Result<Listing, ReadFault>
        ensures kept { Narrows (S.shows self.old.source) (S.shows self.new.source) }
        ensures geometry { self.new.geometry ≡ self.old.geometry }
        ensures image { self.new.image ≡ self.old.image }
    {
        let named = rows(alloc, &mut self.source, &self.geometry, &self.image)?;
        let files = numbered(alloc, &self.geometry, &self.image)?;
        Ok(Listing { named, files })
    }
}

// The files by their numbers.
fn numbered(
    alloc: Global,
    geometry: &Geometry,
    image: &Image,
) -> Result<Vec<NumberedFile>, ReadFault> {
    let mut files = Vec::new(alloc);
    for number in 1..=geometry.files {
        if has(geometry, image, number) {
            let blocks = length_of(image, number);
            files.push(NumberedFile { number, blocks })?;
        }
    }
    Ok(files)
}

// The rows of the folder. None exactly where there is no folder.
fn rows<S: ImageSource>(
    alloc: Global,
    source: &mut S,
    geometry: &Geometry,
    image: &Image,
) -> Result<Option<Vec<FolderRow>>, ReadFault>
    ensures some { IfOk result (λ found. IfSome found (λ entries. (bytes : List ℕ) → S.shows source.new bytes
        → HasFolder (block_bytes geometry.now.shape) (files_in geometry.now (image_view image.now) bytes) (map row_of entries.items))) }
    ensures kept { Narrows (S.shows source.old) (S.shows source.new) }
{
    if !has(geometry, image, FOLDER) {
        return Ok(None);
    }
    let bytes = all_blocks(alloc, source, geometry, image, FOLDER)?;
    Ok(decode(alloc, bytes.as_slice())?)
}

// All bytes of a file's blocks.
fn all_blocks<S: ImageSource>(
    alloc: Global,
    source: &mut S,
    geometry: &Geometry,
    image: &Image,
    number: u32,
) -> Result<Vec<u8>, ReadFault>
    ensures all { IfOk result (λ all. (bytes : List ℕ) → S.shows source.new bytes
        → all.items ≡ all_bytes (block_bytes geometry.now.shape) (file_in geometry.now (image_view image.now) bytes number)) }
    ensures kept { Narrows (S.shows source.old) (S.shows source.new) }
{
    let mut all = Vec::new(alloc);
    match hand_out(alloc, source, geometry, image, number, u64::MAX, &mut all) {
        Ok(()) => Ok(all),
        // What is in memory fails for want of it alone.
        Err(ReadFault::Out(_)) => Err(ReadFault::Refused(Error::NoMemory)),
        Err(fault) => Err(fault),
    }
}

// Whether there is a file of a number.
fn has(geometry: &Geometry, image: &Image, number: u32) -> bool
    ensures { result ≡ true → (bytes : List ℕ) → Among (number, file_in geometry.now (image_view image.now) bytes number) (files_in geometry.now (image_view image.now) bytes) }
{
    number <= geometry.files && image.entry(number).address != 0
}
