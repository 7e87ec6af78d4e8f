//! The nodes on the way to an index are made beside the file, and come into it once a write can no longer be refused.
ghost use Rattle.std.specs.Prelude.{Bool, ◌≡◌, ℕ, ◌+◌, ◌<◌, IsTrue, ◌↔◌, true, false, Some, OnOk, OnErr, IfErr};
ghost use Rattle.geometry.specs.Path.{node_entries, largest_length};
ghost use Rattle.rights_books.specs.declared.claim.TakenNumber.{TakenNumber};
ghost use Rattle.nodes.specs.Tree.{Same, SparesIndex};
ghost use Rattle.nodes.specs.Change.{TreeNode, IsNewNode, nothing};
ghost use Rattle.nodes.specs.Marks.{unchanged};
ghost use Rattle.nodes.specs.Spares.{KeepsNames};
ghost use Rattle.nodes.specs.Lacking.{spare_tokens, AreEmptyNodes, end_number};

use crate::file::FileState;
use crate::place::Place;
use crate::spare_path::SparePath;
use crate::{is_ready_in, plant_in, prepare_in};
use device::Block;
use std::alloc::Global;
use tickets::NidToken;

impl<B: Block> FileState<B> {
    ghost use Rattle.nodes.specs.File.{IsFile, ticket_at, missing_to};
    ghost use Rattle.nodes.specs.Marks.{MarksNode};
    ghost use Rattle.nodes.specs.Owners.{namer_at};
    ghost use Rattle.nodes.specs.Lacking.{lacking_to};
    ghost use Rattle.nodes.specs.Useful.{IsUseful};

    /// Whether each node that is missing on the way to the index has been made.
    pub fn is_ready(&self, index: u32, spares: &SparePath<B>) -> bool
        requires inside { index < largest_length self.now.shape }
        requires file { IsFile self.now }
        ensures { IsTrue result ↔ (lacking_to self.now index spares.now ≡ 0) }
    {
        match self.place(index) {
            Place::InTickets(_) => true,
            Place::InDirect(at) => {
                let spares = &spares.nodes.below.below;
                is_ready_in(&self.direct, spares, at.count, at.entries, at.index)
            }
            Place::InIndirect(at) => {
                let spares = &spares.nodes.below;
                is_ready_in(&self.indirect, spares, at.count, at.entries, at.index)
            }
            Place::InDouble(at) => {
                let spares = &spares.nodes;
                is_ready_in(&self.double, spares, at.count, at.entries, at.index)
            }
        }
    }

    /// Makes the first node that is missing on the way to the index and was not made yet. Where memory is missing, or no node
    /// is, the token is handed back, and nothing has changed. The file is as it was in each case.
    pub fn prepare(
        &self,
        alloc: Global,
        index: u32,
        spares: &mut SparePath<B>,
        token: NidToken,
    ) -> Result<(), NidToken>
        requires inside { index < largest_length self.now.shape }
        requires file { IsFile self.now }
        requires empty { AreEmptyNodes (node_entries self.now.shape) spares.old }
        ensures made { OnOk result (lacking_to self.now index spares.new + 1 ≡ lacking_to self.now index spares.old) }
        ensures tokens { OnOk result ((h : TakenNumber → ℕ) → spare_tokens h spares.new ≡ spare_tokens h spares.old + h token) }
        ensures empty { AreEmptyNodes (node_entries self.now.shape) spares.new }
        ensures refused { OnErr result (spares.new ≡ spares.old) }
        ensures token { IfErr result (λ back. back ≡ token) }
    {
        match self.place(index) {
            Place::InTickets(_) => Err(token),
            Place::InDirect(at) => {
                let spares = &mut spares.nodes.below.below;
                prepare_in(
                    &self.direct,
                    spares,
                    alloc,
                    at.count,
                    at.entries,
                    at.index,
                    token,
                )
            }
            Place::InIndirect(at) => {
                let spares = &mut spares.nodes.below;
                prepare_in(
                    &self.indirect,
                    spares,
                    alloc,
                    at.count,
                    at.entries,
                    at.index,
                    token,
                )
            }
            Place::InDouble(at) => {
                let spares = &mut spares.nodes;
                prepare_in(
                    &self.double,
                    spares,
                    alloc,
                    at.count,
                    at.entries,
                    at.index,
                    token,
                )
            }
        }
    }

    /// Puts the first node that is missing on the way to the index into the file, and marks the node that names it. False:
    /// none is missing, and nothing has changed.
    pub fn plant(&mut self, index: u32, spares: &mut SparePath<B>) -> bool
        requires inside { index < largest_length self.old.shape }
        requires file { IsFile self.old }
        requires ready { lacking_to self.old index spares.old ≡ 0 }
        requires empty { AreEmptyNodes (node_entries self.old.shape) spares.old }
        ensures same { Same (ticket_at self.old) (ticket_at self.new) }
        ensures namer { KeepsNames (namer_at self.old) (namer_at self.new) }
        ensures useful { (asked : ℕ → ℕ → Bool) → SparesIndex asked index → IsUseful asked self.old → IsUseful asked self.new }
        ensures end { 0 < missing_to self.old index → missing_to self.new index ≡ 0 → namer_at self.new index ≡ Some (end_number spares.old) }
        ensures rest { 0 < missing_to self.new index → end_number spares.new ≡ end_number spares.old }
        ensures grown { result ≡ true → missing_to self.new index + 1 ≡ missing_to self.old index }
        ensures change { result ≡ true → (n : TreeNode) × IsNewNode n.token n × MarksNode unchanged self.old self.new nothing (λ w. w.node n)
            × ((h : TakenNumber → ℕ) → spare_tokens h spares.new + h n.token ≡ spare_tokens h spares.old) }
        ensures none { result ≡ false → (missing_to self.old index ≡ 0) × (self.new ≡ self.old) × (spares.new ≡ spares.old) }
        ensures ready { lacking_to self.new index spares.new ≡ 0 }
        ensures empty { AreEmptyNodes (node_entries self.old.shape) spares.new }
        ensures length { self.new.length ≡ self.old.length }
        ensures shape { self.new.shape ≡ self.old.shape }
        ensures kind { self.new.kind ≡ self.old.kind }
        ensures file { IsFile self.new }
    {
        match self.place(index) {
            Place::InTickets(_) => false,
            Place::InDirect(at) => {
                let spares = &mut spares.nodes.below.below;
                plant_in(&mut self.direct, spares, at.count, at.entries, at.index)
            }
            Place::InIndirect(at) => {
                let spares = &mut spares.nodes.below;
                plant_in(&mut self.indirect, spares, at.count, at.entries, at.index)
            }
            Place::InDouble(at) => {
                let spares = &mut spares.nodes;
                plant_in(&mut self.double, spares, at.count, at.entries, at.index)
            }
        }
    }
}
