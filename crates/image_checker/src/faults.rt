//! The check of an image: the least rule that it breaks, or none.
ghost use Rattle.std.specs.Prelude.{◌≡◌, ◌<◌, ◌≤◌, ◌↔◌, ◌+◌, ◌^◌, ℕ, IsTrue, IfOk, MatchResult, length, replicate, slice_index_or, false};
ghost use Rattle.geometry.specs.Area.{block_count};
ghost use Rattle.image.specs.Faults.{IsFaultIn, IsRefusal};
ghost use Rattle.image.specs.Rules.{IsLawful, IsInRange, SummariesTellOwners};
ghost use Rattle.image.specs.View.{image_view};
ghost use Rattle.image.specs.Walk.{names, has_address};

use crate::logs::logs_are_apart;
use crate::marks::{marked_are_named, named_are_marked, named_have_summaries, unmarked_have_none};
use crate::naming::distinct_names;
use crate::numbers::numbers_agree;
use crate::range::{is_in_range, table_holds_nodes};
use crate::trees::{mark_inodes, taken_are_marked};
use geometry::{Error, Geometry, Mark};
use image::Image;
use std::alloc::{AllocError, Global};

/// The first of the rules on the tables alone that is broken.
pub fn table_fault(geometry: &Geometry, image: &Image) -> Option<u8>
    ensures { IsFaultIn geometry.now (image_view image.now) 1 4 result }
{
    if !is_in_range(geometry, image) {
        return Some(1);
    }
    if !logs_are_apart(&image.logs) {
        return Some(2);
    }
    if !table_holds_nodes(geometry, image) {
        return Some(3);
    }
    None
}

/// The first of the rules on the index trees that is broken, with marks that are all 0.
pub fn marked_fault(geometry: &Geometry, image: &Image, marks: &mut [u8]) -> Option<u8>
    requires sized { IsInRange geometry.now (image_view image.now) }
    requires empty { marks.old ≡ replicate (length image.now.nat.items + 1) 0 }
    ensures { IsFaultIn geometry.now (image_view image.now) 4 6 result }
{
    if !mark_inodes(image, geometry.files, marks) {
        return Some(4);
    }
    if !taken_are_marked(image, geometry.nodes, marks) {
        return Some(5);
    }
    None
}

/// The first of the rules on the index trees that is broken.
pub fn tree_fault(
    alloc: Global,
    geometry: &Geometry,
    image: &Image,
) -> Result<Option<u8>, AllocError>
    requires sized { IsInRange geometry.now (image_view image.now) }
    ensures { IfOk result (λ found. IsFaultIn geometry.now (image_view image.now) 4 6 found) }
{
    let mut marks = vec![in alloc; 0; image.nat.len() + 1]?;
    Ok(marked_fault(geometry, image, &mut marks))
}

/// Whether each named address has its owner's summary, and each unmarked one has none.
pub fn summaries_tell_owners(geometry: &Geometry, image: &Image, found: &[Mark]) -> bool
    requires sized { IsInRange geometry.now (image_view image.now) }
    requires all { found.now ≡ names geometry.now (image_view image.now) }
    ensures { IsTrue result ↔ SummariesTellOwners geometry.now (image_view image.now) }
{
    if !named_have_summaries(image, found) {
        return false;
    }
    unmarked_have_none(geometry, image, geometry.blocks())
}

/// The first of the rules on marks, summaries and numbers that is broken.
pub fn named_fault(geometry: &Geometry, image: &Image, found: &[Mark], map: &[bool]) -> Option<u8>
    requires sized { IsInRange geometry.now (image_view image.now) }
    requires all { found.now ≡ names geometry.now (image_view image.now) }
    requires whole { length map.now ≡ block_count geometry.now + 1 }
    requires shown { (a : ℕ) → a < block_count geometry.now + 1 → slice_index_or map.now a false ≡ has_address a (names geometry.now (image_view image.now)) }
    ensures { IsFaultIn geometry.now (image_view image.now) 7 11 result }
{
    if !named_are_marked(geometry, image, found) {
        return Some(7);
    }
    if !marked_are_named(geometry, image, map) {
        return Some(8);
    }
    if !summaries_tell_owners(geometry, image, found) {
        return Some(9);
    }
    if !numbers_agree(geometry, image) {
        return Some(10);
    }
    None
}

/// The first of the rules on names that is broken.
pub fn names_fault(
    alloc: Global,
    geometry: &Geometry,
    image: &Image,
) -> Result<Option<u8>, AllocError>
    requires sized { IsInRange geometry.now (image_view image.now) }
    ensures { IfOk result (λ found. IsFaultIn geometry.now (image_view image.now) 6 11 found) }
{
    match distinct_names(alloc, geometry, image)? {
        Some(named) => Ok(named_fault(geometry, image, &named.names, &named.map)),
        None => Ok(Some(6)),
    }
}

/// The least rule that is broken.
pub fn fault(alloc: Global, geometry: &Geometry, image: &Image) -> Result<Option<u8>, AllocError>
    ensures { IfOk result (λ found. IsFaultIn geometry.now (image_view image.now) 1 11 found) }
{
    match table_fault(geometry, image) {
        Some(k) => return Ok(Some(k)),
        None => {}
    }
    match tree_fault(alloc, geometry, image)? {
        Some(k) => return Ok(Some(k)),
        None => {}
    }
    let found = names_fault(alloc, geometry, image)?;
    Ok(found)
}

/// Tells whether an image is lawful. Answers BadImage with the number of the least rule that it breaks, and NoMemory
/// where a growth was refused. Each walk goes over a node once, also where the image names it many times.
///
/// The numbers: 1 a table, a node or a number is out of its range; 2 two logs name one segment; 3 an entry's block is no
/// such node; 4 an entry of a node names no node of its place; 5 a node is met by no walk; 6 an address is named twice;
/// 7 a named block is not marked; 8 a marked block is not named; 9 a summary is not the owner's; 10 a count, the total,
/// a log's place or a length disagrees.
pub fn check(alloc: Global, geometry: &Geometry, image: &Image) -> Result<(), Error>
    ensures { MatchResult result (λ _. IsLawful geometry.now (image_view image.now)) (IsRefusal geometry.now (image_view image.now)) }
{
    match fault(alloc, geometry, image) {
        Ok(None) => Ok(()),
        Ok(Some(k)) => Err(Error::BadImage(k)),
        Err(_) => Err(Error::NoMemory),
    }
}
