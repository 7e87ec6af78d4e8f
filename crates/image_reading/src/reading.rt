//! The image of an image file: its tables, and the nodes in the blocks that they name.
ghost use Rattle.std.specs.Prelude.{◌≡◌, ◌≢◌, ◌⊎◌, ◌+◌, ◌*◌, ◌-◌, ◌≤◌, ℕ, List, [], length, map, Some, IfErr, IfOk};
ghost use Rattle.geometry.specs.declared.error.Error.TheVariants.{BadImage, NoMemory};
ghost use Rattle.geometry.specs.Area.{meta_bytes};
ghost use Rattle.geometry.specs.Shape.{block_bytes};
ghost use Rattle.image.specs.Reading.{node_at, read_nodes as nodes_of_table};
ghost use Rattle.image.specs.View.{image_view, node_or_none};
ghost use Rattle.image_reading.specs.Held.{HoldsVolume, area_in};
ghost use Rattle.image_reading.specs.Refused.{IfRefused, IsAreaRefusal, IsBytesRefusal, IsFrontRefusal};
ghost use Rattle.image_reading.specs.Told.{Narrows};
ghost use Rattle.packs.specs.Area.{reading_of};
ghost use Rattle.packs.specs.Device.{AreSettled, body_of};
ghost use Rattle.packs.specs.Pack.{picked};
ghost use Rattle.packs.specs.Parts.{body_bytes};
ghost use Rattle.pack_tables.specs.File.{block_in, file_bytes as bytes_of_file};
ghost use Rattle.pack_tables.specs.Grammar.{HasSuper};
ghost use Rattle.pack_tables.specs.Holding.{HoldsTables};

use crate::fault::ReadFault;
use crate::source::ImageSource;
use device::{MemMeta, Meta};
use geometry::{Error, Geometry, SUPER_BYTES};
use image::{Image, Node, NodeEntry};
use image_checker::check;
use image_codec::decode_node;
use pack_tables::{decode, file_bytes, read_super};
use packs::Packs;
use std::alloc::Global;

const FOOTER_BYTES: u64 = 4;

/// Reads the geometry of a volume and the image of its last checkpoint, which is lawful. Of the main blocks those are read that
/// the tables name as nodes.
///
/// Answers BadGeometry where there is no superblock, BadImage(1) where there are more or fewer bytes than it tells, NoPack where
/// neither pack is sound, and else BadImage with the least fault that is there, in this order: each is true of the bytes that the
/// source shows then. NoMemory where a growth was refused, Io where the source failed.
pub fn read_image<S: ImageSource>(
    alloc: Global,
    source: &mut S,
) -> Result<(Geometry, Image), ReadFault>
    ensures held { IfOk result (λ read. (bytes : List ℕ) → S.shows source.new bytes → HoldsVolume read.0 (image_view read.1) bytes) }
    ensures refused { IfErr result (λ fault. IfRefused fault (λ error. (bytes : List ℕ) → S.shows source.new bytes → IsBytesRefusal bytes error)) }
    ensures kept { Narrows (S.shows source.old) (S.shows source.new) }
{
    let size = source.size()?;
    let geometry = read_geometry(source, size)?;
    let mut image = read_tables(alloc, &geometry, source)?;
    image.nodes = read_nodes(alloc, &geometry, source, &image.nat)?;
    check(alloc, &geometry, &image)?;
    Ok((geometry, image))
}

// The geometry that the superblock tells, of a file of so many bytes.
fn read_geometry<S: ImageSource>(source: &mut S, size: u64) -> Result<Geometry, ReadFault>
    ensures size { IfOk result (λ geometry. size ≡ bytes_of_file geometry) }
    ensures front { IfOk result (λ geometry. (bytes : List ℕ) → S.shows source.new bytes → length bytes ≡ size → HasSuper geometry (area_in geometry bytes)) }
    ensures refused { IfErr result (λ fault. IfRefused fault (λ error. (bytes : List ℕ) → S.shows source.new bytes → length bytes ≡ size → IsFrontRefusal bytes error)) }
    ensures kept { Narrows (S.shows source.old) (S.shows source.new) }
{
    if size < SUPER_BYTES as u64 {
        return Err(ReadFault::Refused(Error::BadGeometry));
    }
    let mut front = [0u8; SUPER_BYTES];
    source.read_at(0, &mut front)?;
    let geometry = read_super(&front)?;
    if size != file_bytes(&geometry) {
        return Err(ReadFault::Refused(Error::BadImage(1)));
    }
    Ok(geometry)
}

// The tables that the pack that counts spells.
fn read_tables<S: ImageSource>(
    alloc: Global,
    geometry: &Geometry,
    source: &mut S,
) -> Result<Image, ReadFault>
    ensures tables { IfOk result (λ image. (bytes : List ℕ) → S.shows source.new bytes → HoldsTables geometry.now (image_view image) (area_in geometry.now bytes)) }
    ensures refused { IfErr result (λ fault. IfRefused fault (λ error. (bytes : List ℕ) → S.shows source.new bytes → IsAreaRefusal geometry.now (area_in geometry.now bytes) error)) }
    ensures kept { Narrows (S.shows source.old) (S.shows source.new) }
{
    let area = read_area(alloc, geometry, source)?;
    let body = counting_body(alloc, geometry, area)?;
    Ok(decode(alloc, geometry, body.as_slice())?)
}

// The meta area.
fn read_area<S: ImageSource>(
    alloc: Global,
    geometry: &Geometry,
    source: &mut S,
) -> Result<Vec<u8>, ReadFault>
    ensures length { IfOk result (λ area. length area.items ≡ meta_bytes geometry.now) }
    ensures read { IfOk result (λ area. (bytes : List ℕ) → S.shows source.new bytes → area.items ≡ area_in geometry.now bytes) }
    ensures refused { IfErr result (λ fault. IfRefused fault (λ error. error ≡ NoMemory)) }
    ensures kept { Narrows (S.shows source.old) (S.shows source.new) }
{
    let mut area = vec![in alloc; 0u8; geometry.meta_bytes() as usize]?;
    source.read_at(0, area.as_mut_slice())?;
    Ok(area)
}

// The body of the pack that counts in a meta area.
fn counting_body(alloc: Global, geometry: &Geometry, area: Vec<u8>) -> Result<Vec<u8>, Error>
    requires { length area.items ≡ meta_bytes geometry.now }
    ensures body { IfOk result (λ body. picked (reading_of geometry.now) area.items ≡ Some body.items) }
    ensures refused { IfErr result (IsAreaRefusal geometry.now area.items) }
{
    match Packs::open(MemMeta::new(area), geometry) {
        Ok(mut packs) => read_body(alloc, &mut packs),
        Err((error, _)) => Err(error),
    }
}

fn read_body(alloc: Global, packs: &mut Packs<MemMeta>) -> Result<Vec<u8>, Error>
    requires { AreSettled (reading_of packs.old.geometry) ⟦<MemMeta as Meta>⟧.seen ⟦<MemMeta as Meta>⟧.may_leave packs.old (body_of (reading_of packs.old.geometry) ⟦<MemMeta as Meta>⟧.seen packs.old) }
    ensures body { IfOk result (λ body. body.items ≡ body_of (reading_of packs.old.geometry) ⟦<MemMeta as Meta>⟧.seen packs.old) }
    ensures refused { IfErr result (λ error. (error ≡ NoMemory) ⊎ ((error ≡ BadImage 1) × (length (body_of (reading_of packs.old.geometry) ⟦<MemMeta as Meta>⟧.seen packs.old) ≢ body_bytes packs.old.geometry))) }
{
    let mut body = vec![in alloc; 0u8; (packs.geometry.pack_bytes() - FOOTER_BYTES) as usize]?;
    match packs.read(body.as_mut_slice()) {
        Ok(true) => Ok(body),
        // A map that is none spells no tables.
        Ok(false) => Err(Error::BadImage(1)),
        Err(_) => Err(Error::Device),
    }
}

// The nodes that a node address table names.
fn read_nodes<S: ImageSource>(
    alloc: Global,
    geometry: &Geometry,
    source: &mut S,
    nat: &[NodeEntry],
) -> Result<Vec<Option<Node>>, ReadFault>
    ensures nodes { IfOk result (λ nodes. (bytes : List ℕ) → S.shows source.new bytes → length bytes ≡ bytes_of_file geometry.now
        → map node_or_none nodes.items ≡ nodes_of_table geometry.now.shape (block_in geometry.now bytes) nat.now) }
    ensures refused { IfErr result (λ fault. IfRefused fault (λ error. error ≡ NoMemory)) }
    ensures kept { Narrows (S.shows source.old) (S.shows source.new) }
{
    let mut block = vec![in alloc; 0u8; geometry.shape.block_bytes() as usize]?;
    let mut nodes = Vec::with_capacity(alloc, nat.len())?;
    for entry in nat {
        let node = read_node(alloc, geometry, source, entry.address, block.as_mut_slice())?;
        nodes.push(node)?;
    }
    Ok(nodes)
}

// The node in the block at an address, by a buffer of a block's bytes. None where there is none, also where the address is 0.
fn read_node<S: ImageSource>(
    alloc: Global,
    geometry: &Geometry,
    source: &mut S,
    address: u32,
    block: &mut [u8],
) -> Result<Option<Node>, ReadFault>
    requires { length block.old ≡ block_bytes geometry.now.shape }
    ensures node { IfOk result (λ found. (bytes : List ℕ) → S.shows source.new bytes → length bytes ≡ bytes_of_file geometry.now
        → node_or_none found ≡ node_at geometry.now.shape (block_in geometry.now bytes) address) }
    ensures refused { IfErr result (λ fault. IfRefused fault (λ error. error ≡ NoMemory)) }
    ensures kept { Narrows (S.shows source.old) (S.shows source.new) }
{
    if address == 0 {
        return Ok(None);
    }
    if address > geometry.blocks() {
        return Ok(decode_node(alloc, geometry.shape, &[])?);
    }
    source.read_at(place_of(geometry, address), block)?;
    Ok(decode_node(alloc, geometry.shape, block)?)
}

/// Where the block of an address begins in an image file.
pub(crate) fn place_of(geometry: &Geometry, address: u32) -> u64
    ensures { result ≡ meta_bytes geometry.now + (address - 1) * block_bytes geometry.now.shape }
{
    let size = u64::from(geometry.shape.block_bytes());
    geometry.meta_bytes() + u64::from(address.saturating_sub(1)) * size
}
