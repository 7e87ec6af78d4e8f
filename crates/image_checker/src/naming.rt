//! The names of an image, gathered until an address is named twice.
ghost use Rattle.std.specs.Prelude.{◌≡◌, ◌<◌, ◌^◌, ◌-◌, ◌+◌, ◌∷◌, [], ℕ, false, IfOk, MatchOption, All, length, filter, slice_index_or};
ghost use Rattle.std.specs.List.{flat_map};
ghost use Rattle.geometry.specs.Area.{block_count};
ghost use Rattle.image.specs.Rules.{IsInRange, NamesAreDistinct};
ghost use Rattle.image.specs.View.{image_view};
ghost use Rattle.image.specs.Walk.{data_names, own_names, names_below, names, walk, has_address};
ghost use Rattle.image_checker.specs.Named.{AreNamed, HasAdded, HasRoom};

use crate::trees::fits;
use crate::used::used_of;
use geometry::{Geometry, Mark, Owner};
use image::Image;
use std::alloc::{AllocError, Global};

/// Names, and the addresses that they have.
#[derive(Drop)]
pub struct NamesWithAddresses {
    pub names: Vec<Mark>,
    /// Whether a name has this address.
    pub map: Vec<bool>,
    ghost named: { AreNamed names.items map.items },
}

impl NamesWithAddresses {
    /// No names, with room for addresses below a size.
    pub fn new(alloc: Global, size: usize) -> Result<NamesWithAddresses, AllocError>
        ensures { IfOk result (λ named. (named.names.items ≡ []) × (length named.map.items ≡ size)) }
    {
        let map = vec![in alloc; false; size]?;
        Ok(NamesWithAddresses {
            names: Vec::new(alloc),
            map,
        })
    }

    /// Adds a name. False where another one has its address.
    pub fn push(&mut self, name: Mark) -> Result<bool, AllocError>
        requires low { name.address < length self.old.map.items }
        ensures added { IfOk result (λ ok. HasAdded ok self.old.names.items (name ∷ []) self.new.names.items) }
        ensures sized { length self.new.map.items ≡ length self.old.map.items }
    {
        let at = name.address as usize;
        if self.map[at] {
            return Ok(false);
        }
        self.names.push(name)?;
        self.map[at] = true;
        Ok(true)
    }

    /// Adds the names of a node's data blocks. False where an address is named twice.
    pub fn push_data(&mut self, nid: u32, addresses: &[u32]) -> Result<bool, AllocError>
        requires low { All (λ a. a < length self.old.map.items) addresses.now }
        requires slots { length addresses.now < 2 ^ 32 }
        ensures added { IfOk result (λ ok. HasAdded ok self.old.names.items (data_names nid 0 addresses.now) self.new.names.items) }
        ensures sized { length self.new.map.items ≡ length self.old.map.items }
    {
        for slot in 0..used_of(addresses) {
            let address = addresses[slot];
            if address != 0 {
                let owner = Owner::Data(nid, slot as u32);
                let fresh = self.push(Mark { address, owner })?;
                if !fresh {
                    return Ok(false);
                }
            }
        }
        Ok(true)
    }

    /// Adds the names of a node's own block and of its data blocks. False where an address is named twice.
    pub fn push_own(&mut self, image: &Image, nid: u32) -> Result<bool, AllocError>
        requires room { HasRoom (image_view image.now) (length self.old.map.items) }
        ensures added { IfOk result (λ ok. HasAdded ok self.old.names.items (own_names (image_view image.now) nid) self.new.names.items) }
        ensures sized { length self.new.map.items ≡ length self.old.map.items }
    {
        let address = image.entry(nid).address;
        let owner = Owner::Node(nid);
        let fresh = self.push(Mark { address, owner })?;
        if !fresh {
            return Ok(false);
        }
        match image.node(nid) {
            Some(node) => {
                let all = self.push_data(nid, &node.addresses)?;
                Ok(all)
            }
            None => Ok(true),
        }
    }

    /// Adds what the node at a place names, and all below it. False where an address is named twice.
    pub fn push_below(
        &mut self,
        image: &Image,
        inode: u32,
        level: u8,
        nid: u32,
    ) -> Result<bool, AllocError>
        requires room { HasRoom (image_view image.now) (length self.old.map.items) }
        ensures added { IfOk result (λ ok. HasAdded ok self.old.names.items (names_below (image_view image.now) inode level nid) self.new.names.items) }
        ensures sized { length self.new.map.items ≡ length self.old.map.items }
    {
        if !fits(image, inode, level, nid) {
            return Ok(true);
        }
        let fresh = self.push_own(image, nid)?;
        if !fresh {
            return Ok(false);
        }
        if level == 0 {
            return Ok(true);
        }
        if let Some(node) = image.node(nid) {
            for child in &node.children {
                let more = self.push_below(image, inode, level - 1, *child)?;
                if !more {
                    return Ok(false);
                }
            }
        }
        Ok(true)
    }

    /// Adds what is named at places below an inode, each a level and a node number. False where an address is named twice.
    pub fn push_places(
        &mut self,
        image: &Image,
        inode: u32,
        places: &[(u8, u32)],
    ) -> Result<bool, AllocError>
        requires room { HasRoom (image_view image.now) (length self.old.map.items) }
        ensures added { IfOk result (λ ok. HasAdded ok self.old.names.items
            (flat_map (λ place. names_below (image_view image.now) inode place.0 place.1) places.now) self.new.names.items) }
        ensures sized { length self.new.map.items ≡ length self.old.map.items }
    {
        for k in 0..places.len() {
            let (level, nid) = places[k];
            let more = self.push_below(image, inode, level, nid)?;
            if !more {
                return Ok(false);
            }
        }
        Ok(true)
    }

    /// Adds what the walk of an inode names. False where an address is named twice.
    pub fn push_walk(&mut self, image: &Image, inode: u32) -> Result<bool, AllocError>
        requires room { HasRoom (image_view image.now) (length self.old.map.items) }
        ensures added { IfOk result (λ ok. HasAdded ok self.old.names.items (walk (image_view image.now) inode) self.new.names.items) }
        ensures sized { length self.new.map.items ≡ length self.old.map.items }
    {
        let fresh = self.push_own(image, inode)?;
        if !fresh {
            return Ok(false);
        }
        let places = [
            (0, image.child(inode, 0)),
            (0, image.child(inode, 1)),
            (1, image.child(inode, 2)),
            (1, image.child(inode, 3)),
            (2, image.child(inode, 4)),
        ];
        let all = self.push_places(image, inode, &places)?;
        Ok(all)
    }
}

/// What the walks of all inodes name, or none where an address is named twice.
pub fn distinct_names(
    alloc: Global,
    geometry: &Geometry,
    image: &Image,
) -> Result<Option<NamesWithAddresses>, AllocError>
    requires sized { IsInRange geometry.now (image_view image.now) }
    ensures { IfOk result (λ found. MatchOption found
        (¬ NamesAreDistinct geometry.now (image_view image.now))
        (λ named. (named.names.items ≡ names geometry.now (image_view image.now)) × (length named.map.items ≡ block_count geometry.now + 1))) }
{
    let mut named = NamesWithAddresses::new(alloc, geometry.blocks() as usize + 1)?;
    for k in 0..geometry.files {
        if image.entry(k + 1).address != 0 {
            let more = named.push_walk(image, k + 1)?;
            if !more {
                return Ok(None);
            }
        }
    }
    Ok(Some(named))
}
