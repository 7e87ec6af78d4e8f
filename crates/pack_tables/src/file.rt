//! An image file is read as an image.
ghost use Rattle.std.specs.Prelude.{◌≡◌, ◌⊎◌, ◌≤◌, ◌<◌, ◌+◌, [], length, map, IfOk, IfErr};
ghost use Rattle.byteorder.specs.Endian.{little_number};
ghost use Rattle.geometry.specs.declared.error.Error.TheVariants.{NoMemory, BadImage};
ghost use Rattle.device.specs.Disk.{part};
ghost use Rattle.image.specs.Reading.{node_at as node_of_address, read_nodes as nodes_of_table};
ghost use Rattle.image.specs.Rules.{IsLawful};
ghost use Rattle.image.specs.Slots.{picked_slot as slot_picked};
ghost use Rattle.image.specs.View.{image_view, node_or_none};
ghost use Rattle.pack_tables.specs.File.{file_bytes as bytes_of_file, block_in as block_of_file, slot_in, HoldsImage, IsRefusalOf, IsFileRefusal};
ghost use Rattle.packs.specs.Area.{reading_of};
ghost use Rattle.packs.specs.Device.{HoldEnds};
ghost use Rattle.pack_tables.specs.Grammar.{HasSuper, SpellsTables, SpellsNoTables};

use crate::{decode, read_super};
use byteorder::{ByteOrder, LittleEndian};
use geometry::{Error, Geometry};
use image::{Image, Node, NodeEntry};
use image_checker::check;
use image_codec::decode_node;
use packs::{Ends, assemble, footer_at, header_at, pick};
use std::alloc::{AllocError, Global};

/// The bytes of an image file: those of the meta area and of the main blocks.
pub fn file_bytes(geometry: &Geometry) -> u64
    ensures { result ≡ bytes_of_file geometry.now }
{
    geometry.meta_bytes() + u64::from(geometry.blocks()) * u64::from(geometry.shape.block_bytes())
}

// The number in four bytes of a file.
fn number_at(file: &[u8], at: u64) -> u32
    requires { at + 4 ≤ length file.now }
    ensures { result ≡ little_number 4 (part at 4 file.now) }
{
    let (_, rest) = file.split_at(at as usize);
    let (number, _) = rest.split_at(4);
    LittleEndian::read_u32(number)
}

// The slot of the pack that counts. None where neither pack is sound.
fn picked_slot(geometry: &Geometry, file: &[u8]) -> Option<u32>
    requires { length file.now ≡ bytes_of_file geometry.now }
    ensures { result ≡ slot_picked (slot_in geometry.now file.now) }
{
    pick(ends_at(geometry, file, 0), ends_at(geometry, file, 1))
}

// The ends of a slot.
fn ends_at(geometry: &Geometry, file: &[u8], slot: u32) -> Ends
    requires size { length file.now ≡ bytes_of_file geometry.now }
    requires slot { slot ≤ 1 }
    ensures { HoldEnds (reading_of geometry.now) slot file.now result }
{
    Ends {
        header: number_at(file, header_at(geometry, slot)),
        footer: number_at(file, footer_at(geometry, slot)),
    }
}

// The block at an address; no bytes past the last block.
fn block_at<'a>(geometry: &Geometry, file: &'a [u8], address: u32) -> &'a [u8]
    requires size { length file.now ≡ bytes_of_file geometry.now }
    requires some { 0 < address }
    ensures { result.now ≡ block_of_file geometry.now file.now address }
{
    if address > geometry.blocks() {
        return &[];
    }
    let bytes = geometry.shape.block_bytes() as usize;
    let start = geometry.meta_bytes() as usize + (address as usize - 1) * bytes;
    &file[start..start + bytes]
}

// The node in the block at an address. None where there is none, also where the address is 0.
fn node_at(
    alloc: Global,
    geometry: &Geometry,
    file: &[u8],
    address: u32,
) -> Result<Option<Node>, AllocError>
    requires { length file.now ≡ bytes_of_file geometry.now }
    ensures { IfOk result (λ found. node_or_none found
        ≡ node_of_address geometry.now.shape (block_of_file geometry.now file.now) address) }
{
    if address == 0 {
        return Ok(None);
    }
    decode_node(alloc, geometry.shape, block_at(geometry, file, address))
}

// The nodes that a node address table names.
fn read_nodes(
    alloc: Global,
    geometry: &Geometry,
    file: &[u8],
    nat: &[NodeEntry],
) -> Result<Vec<Option<Node>>, AllocError>
    requires { length file.now ≡ bytes_of_file geometry.now }
    ensures { IfOk result (λ nodes. map node_or_none nodes.items
        ≡ nodes_of_table geometry.now.shape (block_of_file geometry.now file.now) nat.now) }
{
    let mut nodes = Vec::with_capacity(alloc, nat.len())?;
    for entry in nat {
        nodes.push(node_at(alloc, geometry, file, entry.address)?)?;
    }
    Ok(nodes)
}

// The tables that a slot's pack spells.
fn decode_slot(alloc: Global, geometry: &Geometry, file: &[u8], slot: u32) -> Result<Image, Error>
    requires size { length file.now ≡ bytes_of_file geometry.now }
    requires slot { slot ≤ 1 }
    ensures tables { IfOk result (λ image. SpellsTables geometry.now ((reading_of geometry.now).body slot file.now) (image_view image)) }
    ensures no_nodes { IfOk result (λ image. image.nodes.items ≡ []) }
    ensures refused { IfErr result (λ e. (e ≡ NoMemory) ⊎ ((e ≡ BadImage 1) × SpellsNoTables geometry.now ((reading_of geometry.now).body slot file.now))) }
{
    match assemble(alloc, geometry, file, slot)? {
        Some(body) => decode(alloc, geometry, body.as_slice()),
        None => Err(Error::BadImage(1)),
    }
}

// The image of a file with this geometry's superblock.
fn image_of(alloc: Global, geometry: &Geometry, file: &[u8]) -> Result<Image, Error>
    ensures held { IfOk result (λ image. HoldsImage geometry.now file.now (image_view image)) }
    ensures lawful { IfOk result (λ image. IsLawful geometry.now (image_view image)) }
    ensures refused { IfErr result (IsRefusalOf geometry.now file.now) }
{
    if file.len() as u64 != file_bytes(geometry) {
        return Err(Error::BadImage(1));
    }
    let Some(slot) = picked_slot(geometry, file) else {
        return Err(Error::NoPack);
    };
    let mut image = decode_slot(alloc, geometry, file, slot)?;
    image.nodes = read_nodes(alloc, geometry, file, &image.nat)?;
    check(alloc, geometry, &image)?;
    Ok(image)
}

/// An image that is read from an image file.
pub trait ReadImage {
    /// Reads an image file: the bytes of a meta area, and behind them the main blocks in address order. Answers its
    /// geometry and the image of the pack that counts, which is lawful.
    ///
    /// Answers BadGeometry where the superblock is none, BadImage(1) where the file has another size than its geometry,
    /// NoPack where neither pack is sound, and else BadImage with the least fault that is there; a body that spells no
    /// tables has fault 1. They are tested in this order. Answers NoMemory where a growth was refused. Linear in the file.
    fn read(alloc: Global, file: &[u8]) -> Result<(Geometry, Image), Error>
        ensures geometry { IfOk result (λ read. HasSuper read.0 file.now) }
        ensures held { IfOk result (λ read. HoldsImage read.0 file.now (image_view read.1)) }
        ensures lawful { IfOk result (λ read. IsLawful read.0 (image_view read.1)) }
        ensures refused { IfErr result (IsFileRefusal file.now) };
}

impl ReadImage for Image {
    fn read(alloc: Global, file: &[u8]) -> Result<(Geometry, Image), Error> {
        let geometry = read_super(file)?;
        let image = image_of(alloc, &geometry, file)?;
        Ok((geometry, image))
    }
}
