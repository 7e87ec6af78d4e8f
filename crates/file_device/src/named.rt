//! Which blocks the tables of an image name.
ghost use Rattle.std.specs.Prelude.{◌≡◌, ◌<◌, ◌≤◌, ℕ, true, false, length, slice_index_or, IfOk, OnOk};
ghost use Rattle.file_device.specs.Named.{FlagAll, FlagNamed, IsSet, StaySet};
ghost use Rattle.geometry.specs.Area.{block_count, meta_bytes};
ghost use Rattle.image.specs.Image.{Image as Tables, is_marked, no_entry};
ghost use Rattle.image.specs.View.{image_view};
ghost use Rattle.packs.specs.Area.{reading_of};
ghost use Rattle.pack_tables.specs.Grammar.{SpellsTables};

use geometry::{Error, Geometry};
use image::Image;
use pack_tables::decode;
use packs::assemble;
use std::alloc::Global;

/// A flag for each block, from address 1 on: it is set where the tables of a pack in a meta area name the block, as valid or as that
/// of a node.
///
/// Both packs count, so it does not matter which of them a mount finds. One that spells no tables names nothing: a mount that finds
/// it reads no block. The only error is NoMemory.
pub(crate) fn flag_named(
    alloc: Global,
    geometry: &Geometry,
    area: &[u8],
) -> Result<Vec<bool>, Error>
    requires long { meta_bytes geometry.now ≤ length area.now }
    ensures length { IfOk result (λ flags. length flags.items ≡ block_count geometry.now) }
    ensures named { IfOk result (λ flags. FlagNamed geometry.now area.now flags.items) }
{
    let mut flags = vec![in alloc; false; geometry.blocks() as usize]?;
    flag_slot(alloc, geometry, area, 0, flags.as_mut_slice())?;
    flag_slot(alloc, geometry, area, 1, flags.as_mut_slice())?;
    Ok(flags)
}

// Sets the flags of what the tables of a slot's pack name.
fn flag_slot(
    alloc: Global,
    geometry: &Geometry,
    area: &[u8],
    slot: u32,
    flags: &mut [bool],
) -> Result<(), Error>
    requires slot { slot ≤ 1 }
    requires long { meta_bytes geometry.now ≤ length area.now }
    requires flags { length flags.old ≡ block_count geometry.now }
    ensures length { length flags.new ≡ length flags.old }
    ensures stay { StaySet flags.old flags.new }
    ensures named { OnOk result ((tables : Tables) → SpellsTables geometry.now ((reading_of geometry.now).body slot area.now) tables
        → FlagAll geometry.now tables flags.new) }
{
    match assemble(alloc, geometry, area, slot)? {
        Some(body) => flag_body(alloc, geometry, body.as_slice(), flags),
        None => Ok(()),
    }
}

// Sets the flags of what the tables name that the body of a pack spells, if it spells any.
fn flag_body(
    alloc: Global,
    geometry: &Geometry,
    body: &[u8],
    flags: &mut [bool],
) -> Result<(), Error>
    requires flags { length flags.old ≡ block_count geometry.now }
    ensures length { length flags.new ≡ length flags.old }
    ensures stay { StaySet flags.old flags.new }
    ensures named { OnOk result ((tables : Tables) → SpellsTables geometry.now body.now tables → FlagAll geometry.now tables flags.new) }
{
    match decode(alloc, geometry, body) {
        Ok(tables) => {
            flag_valid(geometry, &tables, flags);
            flag_nodes(&tables, flags);
            Ok(())
        }
        Err(Error::BadImage(_)) => Ok(()),
        Err(error) => Err(error),
    }
}

// Sets the flags of the blocks that are marked as valid.
fn flag_valid(geometry: &Geometry, tables: &Image, flags: &mut [bool])
    requires flags { length flags.old ≡ block_count geometry.now }
    ensures length { length flags.new ≡ length flags.old }
    ensures stay { StaySet flags.old flags.new }
    ensures valid { (address : ℕ) → 0 < address → address ≤ block_count geometry.now
        → is_marked geometry.now (image_view tables.now) address ≡ true → IsSet flags.new address }
{
    for place in 0..geometry.blocks() {
        flag(flags, place as usize, tables.is_marked(geometry, place + 1));
    }
}

// Sets the flags of the blocks that the node address table names.
fn flag_nodes(tables: &Image, flags: &mut [bool])
    ensures length { length flags.new ≡ length flags.old }
    ensures stay { StaySet flags.old flags.new }
    ensures nodes { (k : ℕ) → let address = (slice_index_or (image_view tables.now).node_table k no_entry).address in
        0 < address → address ≤ length flags.old → IsSet flags.new address }
{
    for row in 0..tables.nat.len() {
        let address = tables.nat[row].address;
        flag(flags, address.saturating_sub(1) as usize, address > 0);
    }
}

// Sets the flag at a place, if there is one, where this is so.
fn flag(flags: &mut [bool], place: usize, is_so: bool)
    ensures length { length flags.new ≡ length flags.old }
    ensures stay { StaySet flags.old flags.new }
    ensures set { is_so ≡ true → place < length flags.old → slice_index_or flags.new place false ≡ true }
{
    if is_so && place < flags.len() {
        flags[place] = true;
    }
}
