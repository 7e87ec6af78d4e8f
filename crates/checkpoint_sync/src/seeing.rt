//! What is true of each file's tree.
ghost use Rattle.std.specs.Prelude.{◌≡◌, ◌≤◌, ℕ, map};
ghost use Rattle.geometry.specs.Weights.{weigh};
ghost use Rattle.geometry.specs.declared.geometry.Geometry.{Geometry};
ghost use Rattle.geometry.specs.declared.owner.Mark.{Mark};
ghost use Rattle.geometry.specs.File.{Block as Bytes};
ghost use Rattle.geometry.specs.Path.{largest_length};
ghost use Rattle.image.specs.Node.{Spells};
ghost use Rattle.image.specs.Image.{Image};
ghost use Rattle.image_law.specs.Items.{Among};
ghost use Rattle.image_law.specs.Parts.{Token, Stored, FileLaw, stored_of, tickets_of, tokens_of, ticket_at as tree_ticket_at};
ghost use Rattle.image_law.specs.Contents.{content_of};
ghost use Rattle.checkpoint.specs.Files.{IsStateOf, HoldContents};
ghost use Rattle.nodes.specs.Change.{TreeNode, of_tickets, of_tokens, each_marked};
ghost use Rattle.nodes.specs.File.{IsFile, address_of, ticket_at, weight_of, file_of};
ghost use Rattle.nodes.specs.Owners.{AreNamed};
ghost use Rattle.nodes_law.specs.Nodes.{nodes_of};
ghost use Rattle.nodes_law.specs.Law.{HasOwnTokens, HasAddresses, SpellsUnmarked, IsWritten};
ghost use Rattle.checkpoint_sync.specs.TreeOf.{token_of, tree_of, stored_at, StoresAll};

use device::Block;
use nodes::FileState;

/// The tree of a file's state: its nodes are the state's, the address at each index is that of the ticket there, its tickets
/// and tokens are the state's, each as often, and it keeps the law of files where each node has a block. Where blocks hold
/// what tickets and tokens show, the tree holds the file that the state shows, and the block of each node that is not marked
/// spells it; and an image that stores the tree's nodes has the file.
///
/// It runs nothing: its contract is the law.
pub fn seen_as_tree<B: Block>(file: &FileState<B>)
    requires file { IsFile file.now }
    requires short { file.now.length ≤ largest_length file.now.shape }
    ensures nodes { stored_of (tree_of file.now) ≡ map (λ n. stored_at file.now.token.number n) (nodes_of file.now) }
    ensures slots { (index : ℕ) → tree_ticket_at file.now.shape (tree_of file.now) index ≡ address_of (ticket_at file.now index) }
    ensures tokens { (files : ℕ) → HasOwnTokens files file.now → (h : Token → ℕ)
        → weigh h (tokens_of (tree_of file.now)) ≡ weight_of file.now (of_tokens (λ e. h (token_of e))) }
    ensures tickets { AreNamed file.now → HasAddresses file.now → (h : Mark → ℕ)
        → weigh h (tickets_of (tree_of file.now)) ≡ weight_of file.now (of_tickets (λ t. h t.mark)) }
    ensures law { (geometry : Geometry) → file.now.shape ≡ geometry.shape → HasOwnTokens geometry.files file.now → IsWritten file.now
        → FileLaw geometry file.now.token.number (tree_of file.now) }
    ensures content { (blocks : ℕ → Bytes) → HoldContents blocks file.now → content_of file.now.shape blocks (tree_of file.now) ≡ file_of file.now }
    ensures spelled { (blocks : ℕ → Bytes) → SpellsUnmarked file.now → weight_of file.now each_marked ≡ 0
        → ((n : TreeNode) → Among n (nodes_of file.now) → blocks n.token.address ≡ n.token.bytes)
        → (s : Stored) → Among s (stored_of (tree_of file.now)) → Spells file.now.shape (blocks s.address) s.node }
    ensures image { (image : Image) → StoresAll image (tree_of file.now) → IsStateOf image file.now }
{}
