//! Which node names the block at an index.
ghost use Rattle.std.specs.Prelude.{◌≡◌, ◌<◌, Option, IsSome, MatchOption};
ghost use Rattle.geometry.specs.declared.owner.Owner.TheVariants.{Data};
ghost use Rattle.geometry.specs.Owner.{IsOwner};
ghost use Rattle.geometry.specs.Path.{path, largest_length};
ghost use Rattle.nodes.specs.Tree.{entry_at};
ghost use Rattle.nodes.specs.Change.{unnumbered};
ghost use Rattle.nodes.specs.File.{below};
ghost use Rattle.nodes.specs.Owners.{owner_in};
ghost use Rattle.nodes.specs.Lacking.{spare_tokens, end_number, last_entry};

use crate::file::FileState;
use crate::spare_path::SparePath;
use crate::{Branch, Entries};
use device::Block;
use geometry::index::path;
use geometry::{Owner, Path};

impl<B: Block> FileState<B> {
    ghost use Rattle.nodes.specs.File.{IsFile, missing_to};
    ghost use Rattle.nodes.specs.Owners.{owner_at, HasNumbers};
    ghost use Rattle.nodes.specs.Lacking.{lacking_to};

    /// Who names a block at the index: the node at the end of its path, and the entry there (Linux `filesystems/f2fs`,
    /// segment summary area). None where a node is missing on the way, or where the index is past the largest length.
    pub fn owner(&self, index: u32) -> Option<Owner>
        ensures owner { result ≡ owner_at self.now (path self.now.shape index) }
        ensures there { IsFile self.now → index < largest_length self.now.shape → missing_to self.now index ≡ 0 → IsSome result }
        ensures numbered { HasNumbers self.now → MatchOption result (Unit {0}) IsOwner }
    {
        self.at_end(path(self.shape, u64::from(index)))
    }

    /// Who will name a block at the index, once the spare nodes stand on the way to it: as `owner`, or where the node at the
    /// end of the way is missing, the spare one.
    pub fn owner_with(&self, index: u32, spares: &SparePath<B>) -> Owner
        requires inside { index < largest_length self.now.shape }
        requires file { IsFile self.now }
        requires ready { lacking_to self.now index spares.now ≡ 0 }
        ensures owner { MatchOption (owner_at self.now (path self.now.shape index))
            (result ≡ Data (end_number spares.now) (last_entry (path self.now.shape index))) (λ owner. result ≡ owner) }
        ensures numbered { HasNumbers self.now → spare_tokens unnumbered spares.now ≡ 0 → IsOwner result }
    {
        let path = path(self.shape, u64::from(index));
        match self.at_end(path) {
            Some(owner) => owner,
            None => Owner::Data(spares.end_number(), last_entry(path)),
        }
    }

    // The node and the entry at the end of a path.
    fn at_end(&self, path: Option<Path>) -> Option<Owner>
        ensures { result ≡ owner_at self.now path }
    {
        match path? {
            Path::Inode(slot) => Some(Owner::Data(self.number(), slot)),
            Path::Direct(pointer, slot) => names(&self.direct, pointer, slot),
            Path::Indirect(pointer, a, slot) => {
                names_below(&self.indirect, pointer.saturating_sub(2), a, slot)
            }
            Path::Double(a, b, slot) => match self.double.slots.get(0) {
                Some(double) => names_below(&double.entries, a, b, slot),
                None => None,
            },
        }
    }
}

// The entry at the end of a path.
fn last_entry(path: Option<Path>) -> u32
    ensures { result ≡ last_entry path }
{
    match path {
        Some(Path::Inode(slot)) => slot,
        Some(Path::Direct(_, slot)) => slot,
        Some(Path::Indirect(_, _, slot)) => slot,
        Some(Path::Double(_, _, slot)) => slot,
        None => 0,
    }
}

// An entry of a node that these entries name.
fn names<C>(entries: &Entries<Branch<C>>, at: u32, slot: u32) -> Option<Owner>
    ensures { result ≡ owner_in (entry_at entries.now.slots.items at) slot }
{
    match entries.slots.get(at as usize) {
        Some(node) => Some(Owner::Data(node.token.number(), slot)),
        None => None,
    }
}

// An entry of a node below one that these entries name.
fn names_below<C>(
    entries: &Entries<Branch<Branch<C>>>,
    at: u32,
    below_it: u32,
    slot: u32,
) -> Option<Owner>
    ensures { result ≡ owner_in (below (entry_at entries.now.slots.items at) below_it) slot }
{
    match entries.slots.get(at as usize) {
        Some(node) => names(&node.entries, below_it, slot),
        None => None,
    }
}
