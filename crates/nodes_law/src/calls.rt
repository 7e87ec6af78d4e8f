//! The law through the calls on a file's state.
ghost use Rattle.std.specs.Prelude.{◌≡◌, ℕ, ◌+◌, ◌<◌, true, Option};
ghost use Rattle.image_law.specs.Items.{Among};
ghost use Rattle.rights_books.specs.declared.claim.TakenNumber.{TakenNumber};
ghost use Rattle.rights_books.specs.Rules.{bare_entry};
ghost use Rattle.tickets.specs.Placed.{Placed};
ghost use Rattle.nodes.specs.declared.spare.Spare.{Spare};
ghost use Rattle.nodes.specs.Change.{TreeNode, Weighing, WeighsAs, ticket_weight, nothing, each_marked};
ghost use Rattle.nodes_walks.specs.Writing.{WritesOne, rewritten};
ghost use Rattle.nodes.specs.File.{IsBare, inode_of, below_weight, weight_of};
ghost use Rattle.nodes.specs.Marks.{MarksNode, lengthened, shortened, unchanged};
ghost use Rattle.nodes.specs.Lacking.{spare_tokens};
ghost use Rattle.nodes_law.specs.Nodes.{nodes_of};
ghost use Rattle.nodes_law.specs.Law.{FileStateLaw, HaveOwnTokens, SpellsUnmarked, IsSpelled, IsWritten};

use device::Block;
use nodes::{FileState, SparePath};

/// Of any two states of a file and any two of its spare nodes: what `FileState`'s contracts say of a call keeps the law.
/// `put` and `migrate` ask that the ticket has an address, `plant` that the spare nodes' tokens are the file's, which each
/// `prepare` with a token of a new number keeps. `start` is of a new file, `cut` of one that hands something out, `end` of
/// one that doesn't, and `write` of a node whose block spells it.
///
/// It runs nothing: its contract is the law.
pub fn calls_keep_law<B: Block>(
    old: &FileState<B>,
    new: &FileState<B>,
    had: &SparePath<B>,
    has: &SparePath<B>,
)
    requires shape { new.now.shape ≡ old.now.shape }
    ensures start { (files : ℕ) → IsBare new.now → (inode_of new.now).dirty ≡ true → new.now.token ≡ bare_entry new.now.token.number new.now.token.number
        → FileStateLaw files new.now }
    ensures put { (files index : ℕ) (before : Option Placed) (ticket : Placed) → FileStateLaw files old.now → 0 < ticket.mark.address
        → MarksNode (lengthened index) old.now new.now (λ w. ticket_weight w before) (λ w. w.ticket ticket) → FileStateLaw files new.now }
    ensures migrate { (files : ℕ) (before ticket : Placed) → FileStateLaw files old.now → 0 < ticket.mark.address
        → MarksNode unchanged old.now new.now (λ w. w.ticket before) (λ w. w.ticket ticket) → FileStateLaw files new.now }
    ensures cut { (files : ℕ) (spare : Spare Placed) (out : Weighing Placed → ℕ) → FileStateLaw files old.now → WeighsAs spare out
        → MarksNode unchanged old.now new.now out nothing → FileStateLaw files new.now }
    ensures end { (files length : ℕ) → FileStateLaw files old.now → ((w : Weighing Placed) → below_weight new.now w ≡ below_weight old.now w)
        → inode_of new.now ≡ shortened length (inode_of old.now) → new.now.token ≡ old.now.token → FileStateLaw files new.now }
    ensures plant { (files : ℕ) (n : TreeNode) → FileStateLaw files old.now → HaveOwnTokens files old.now.shape old.now.token.number had.now → n.dirty ≡ true
        → ((h : TakenNumber → ℕ) → spare_tokens h has.now + h n.token ≡ spare_tokens h had.now) → MarksNode unchanged old.now new.now nothing (λ w. w.node n)
        → FileStateLaw files new.now }
    ensures planted { (files : ℕ) (n : TreeNode) → HaveOwnTokens files old.now.shape old.now.token.number had.now
        → ((h : TakenNumber → ℕ) → spare_tokens h has.now + h n.token ≡ spare_tokens h had.now) → HaveOwnTokens files old.now.shape old.now.token.number has.now }
    ensures prepare { (files : ℕ) (token : TakenNumber) → HaveOwnTokens files old.now.shape old.now.token.number had.now
        → ((h : TakenNumber → ℕ) → spare_tokens h has.now ≡ spare_tokens h had.now + h token) → token ≡ bare_entry token.number old.now.token.number → files < token.number
        → HaveOwnTokens files old.now.shape old.now.token.number has.now }
    ensures write { (n : TreeNode) (token : TakenNumber) → WritesOne (weight_of old.now) (weight_of new.now) n token
        → IsSpelled old.now.shape old.now.token.number (rewritten token n) → new.now.token.number ≡ old.now.token.number
        → SpellsUnmarked old.now → SpellsUnmarked new.now }
{}

/// Where no node of a file is marked, each has a block, which spells it.
///
/// It runs nothing: its contract is the law.
pub fn clean_is_spelled<B: Block>(file: &FileState<B>)
    requires law { SpellsUnmarked file.now }
    requires clean { weight_of file.now each_marked ≡ 0 }
    ensures spelled { (n : TreeNode) → Among n (nodes_of file.now) → IsSpelled file.now.shape file.now.token.number n }
    ensures written { IsWritten file.now }
{}
