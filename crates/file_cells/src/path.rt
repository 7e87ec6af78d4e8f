//! The nodes that the way to an index of a file lacks.
ghost use Rattle.std.specs.Prelude.{◌≡◌, ℕ, ◌+◌, ◌<◌, ◌≤◌, ◌⊎◌, Some, OnOk, IfErr};
ghost use Rattle.geometry.specs.Weights.{weigh};
ghost use Rattle.rights_books.specs.Accounts.{HandView};
ghost use Rattle.rights_books.specs.declared.claim.TakenNumber.{TakenNumber};
ghost use Rattle.geometry.specs.declared.error.Error.TheVariants.{NoMemory, NoNode};
ghost use Rattle.geometry.specs.Path.{largest_length};
ghost use Rattle.geometry.specs.Shape.{block_bytes};
ghost use Rattle.nodes.specs.File.{file_of, missing_to};
ghost use Rattle.nodes.specs.Spares.{KeepsNames};
ghost use Rattle.nodes.specs.Lacking.{lacking_to, spare_tokens, AreEmptyNodes, end_number};
ghost use Rattle.nodes.specs.Owners.{namer_at};
ghost use Rattle.nodes.specs.Useful.{IsUseful, is_off};
ghost use Rattle.nodes_law.specs.Law.{ragged};
ghost use Rattle.nodes_law.specs.Contents.{IsStored};
ghost use Rattle.file_cells.specs.Beside.{IsSpareFor, ServesBeside, HasLawBeside};

use crate::node::give_node;
use area::MainArea;
use device::Block;
use geometry::Error;
use nodes::{FileState, SparePath};
use rights_books::CallAccount;
use rights_permits::VolumeName;
use std::alloc::Global;
use std::sync::Wait;

// Makes the nodes that are missing on the way to the index, and takes a number for each. A refusal, NoNode or NoMemory,
// leaves those that were made before it.
pub(crate) fn prepare_path<V: VolumeName, B: Block + Drop, R: Wait>(
    rt: &R,
    alloc: Global,
    area: &MainArea<V, B>,
    hand: &mut CallAccount,
    file: &FileState<B>,
    spares: &mut SparePath<B>,
    index: u32,
) -> Result<(), Error>
    requires book { hand.old.book ≡ V.Books.books.book }
    requires inside { index < largest_length file.now.shape }
    requires stored { IsStored file.now }
    requires spare { IsSpareFor file.now spares.old }
    requires law { HasLawBeside V.Numbers.geometry.files file.now spares.old }
    ensures serves { ServesBeside file.now file.now spares.old spares.new hand.old hand.new }
    ensures law { HasLawBeside V.Numbers.geometry.files file.now spares.new }
    ensures ready { OnOk result (lacking_to file.now index spares.new ≡ 0) }
    ensures error { IfErr result (λ error. (error ≡ NoNode) ⊎ (error ≡ NoMemory)) }
{
    'lacking: while !file.is_ready(index, spares) {
        let token = area.new_nid(rt, hand, file.number())?;
        match file.prepare(alloc, index, spares, token) {
            Ok(()) => {}
            Err(token) => {
                give_node(rt, area, hand, token);
                return Err(Error::NoMemory);
            }
        }
    }
    Ok(())
}

// Puts the nodes that are missing on the way to the index into the file, which holds what it held.
pub(crate) fn plant_path<B: Block>(file: &mut FileState<B>, spares: &mut SparePath<B>, index: u32)
    requires inside { index < largest_length file.old.shape }
    requires stored { IsStored file.old }
    requires spare { IsSpareFor file.old spares.old }
    requires ready { lacking_to file.old index spares.old ≡ 0 }
    ensures serves { (hand : HandView) → ServesBeside file.old file.new spares.old spares.new hand hand }
    ensures law { (files : ℕ) → HasLawBeside files file.old spares.old → HasLawBeside files file.new spares.new }
    ensures file { file_of file.new ≡ file_of file.old }
    ensures path { missing_to file.new index ≡ 0 }
    ensures names { KeepsNames (namer_at file.old) (namer_at file.new) }
    ensures useful { IsUseful (is_off index) file.old → IsUseful (is_off index) file.new }
    ensures end { 0 < missing_to file.old index → namer_at file.new index ≡ Some (end_number spares.old) }
{
    'ready: while file.plant(index, spares) {}
}

// Gives back the numbers of spare nodes, and the block of each that has one, which is whole.
pub(crate) fn give_back<V: VolumeName, B: Block + Drop, R: Wait>(
    rt: &R,
    area: &MainArea<V, B>,
    hand: &mut CallAccount,
    spares: SparePath<B>,
)
    requires book { hand.old.book ≡ V.Books.books.book }
    requires empty { (e : ℕ) × AreEmptyNodes e spares }
    requires whole { spare_tokens (ragged (block_bytes V.Numbers.geometry.shape)) spares ≡ 0 }
    requires held { (h : TakenNumber → ℕ) → spare_tokens h spares ≤ weigh h hand.old.tokens }
    ensures tokens { (h : TakenNumber → ℕ) → weigh h hand.new.tokens + spare_tokens h spares ≡ weigh h hand.old.tokens }
    ensures tickets { hand.new.tickets ≡ hand.old.tickets }
    ensures book { hand.new.book ≡ hand.old.book }
{
    let mut spares = spares;
    'spares: while let Some(token) = spares.give_back() {
        give_node(rt, area, hand, token);
    }
    spares.end();
}
