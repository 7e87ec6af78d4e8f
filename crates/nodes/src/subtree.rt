//! What an entry of a node may name: the ticket of a block, or a node with entries of its own.
ghost use Rattle.std.specs.Prelude.{◌≡◌, ◌↔◌, ℕ, ◌+◌, ◌^◌, ◌<◌, ◌≤◌, List, Bool, true, false, Option, Some, None};
ghost use Rattle.nodes.specs.Tree.{AsksEither, only_at_zero, number_of};
ghost use Rattle.nodes.specs.Change.{Weighing, each_marked, ticket_weight};

use device::Block;
use tickets::Ticket;

/// The ticket of a block, or a node with entries that name subtrees (Linux `filesystems/f2fs`, index structure).
///
/// All calls are on slots, so that a hole and a missing node are one case. To contracts `find` gives the ticket at each
/// index, `missing` the number of nodes that are not there on the way to it, `namer` the number of the node whose entries
/// hold it, `useful` that each node that is asked about names something, and `weight` what all tickets and nodes weigh.
/// `entries` is how many entries a node has.
///
/// What is done with a tree stands in traits above this one (`Reading`, `Changing`, `Planting`): a proof at a type of four levels
/// goes through each method of each level's trait, so small ones are proved sooner.
pub trait Subtree {
    /// The tickets.
    type Leaf;

    /// The bytes of a block as they were when they were lent.
    type Lease;

    ghost lent: { Self.Lease → List ℕ };

    ghost address_of: { Self.Leaf → ℕ };

    ghost content_of: { Self.Leaf → List ℕ };

    ghost is_leaf: { Bool };

    ghost span_of: { ℕ → ℕ };

    ghost find: { ℕ → Option Self → ℕ → Option Self.Leaf };

    ghost missing: { ℕ → Option Self → ℕ → ℕ };

    ghost namer: { ℕ → Option Self → ℕ → Option ℕ };

    ghost shaped: { ℕ → Option Self → Type 0 };

    ghost useful: { ℕ → (ℕ → ℕ → Bool) → ℕ → Option Self → Type 0 };

    ghost number: { Option Self → ℕ };

    ghost weight: { Weighing Self.Leaf → Option Self → ℕ };

    /// Whether it is a ticket, and no node.
    fn is_leaf() -> bool
        ensures { result ≡ is_leaf };

    /// How many indexes lie below one entry.
    fn span(entries: usize) -> usize
        requires some { 0 < entries }
        requires fits { span_of entries < 2 ^ 64 }
        ensures { result ≡ span_of entries };

    /// What stands for the slot in the block of the node that names it: an address or a node's number, 0 where there is
    /// nothing.
    fn entry(slot: &Option<Self>) -> u32
        ensures { result ≡ number slot.now };

    /// Whether a node is marked. In a tree of its shape a node counts its marked entries, so nothing below it is looked at.
    fn has_mark(slot: &Option<Self>) -> bool
        ensures { (entries : ℕ) → shaped entries slot.now → ((result ≡ false) ↔ (weight each_marked slot.now ≡ 0)) };

    ghost span_positive: { (e : ℕ) → 0 < e → 0 < span_of e };

    ghost find_none: { (e i : ℕ) → find e None i ≡ None };

    ghost find_past: { (e : ℕ) (s : Option Self) (i : ℕ) → 0 < e → shaped e s → span_of e ≤ i → find e s i ≡ None };

    ghost shaped_none: { (e : ℕ) → shaped e None };

    ghost useful_none: { (e : ℕ) (asked : ℕ → ℕ → Bool) (first : ℕ) → useful e asked first None };

    ghost useful_never: { (e first : ℕ) (s : Option Self) → useful e (λ _ _. false) first s };

    ghost useful_either: { (e : ℕ) (asked one other : ℕ → ℕ → Bool) (first : ℕ) (s : Option Self) → 0 < e → shaped e s → AsksEither first (first + span_of e) asked one other → useful e one first s → useful e other first s → useful e asked first s };

    ghost weight_none: { (w : Weighing Self.Leaf) → weight w None ≡ 0 };

    ghost number_none: { number None ≡ 0 };

    ghost leaf_namer: { (e : ℕ) (s : Option Self) (i : ℕ) → is_leaf ≡ true → namer e s i ≡ None };

    ghost leaf_useful: { (e : ℕ) (asked : ℕ → ℕ → Bool) (first : ℕ) (s : Option Self) → is_leaf ≡ true → useful e asked first s };

    ghost leaf_span: { (e : ℕ) → is_leaf ≡ true → span_of e ≡ 1 };

    ghost leaf_path: { (e : ℕ) (s : Option Self) (i : ℕ) → is_leaf ≡ true → missing e s i ≡ 0 };

    ghost leaf_number: { (e : ℕ) (s : Option Self) → is_leaf ≡ true → number s ≡ number_of address_of (find e s 0) };

    ghost leaf_weight: { (w : Weighing Self.Leaf) (s : Option Self) → is_leaf ≡ true → ((t : Self.Leaf) → w.ticket t ≡ 0) → weight w s ≡ 0 };
}

impl<B: Block> Subtree for Ticket<B> {
    type Leaf = Ticket<B>;

    type Lease = B::Lease;

    ghost lent = { λ l. B.Lease.items l };

    ghost address_of = { λ t. t.mark.address };

    ghost content_of = { λ t. t.content };

    ghost is_leaf = { true };

    ghost span_of = { λ _. 1 };

    ghost find = { λ _ slot i. only_at_zero slot i };

    ghost missing = { λ _ _ _. 0 };

    ghost namer = { λ _ _ _. None };

    ghost shaped = { λ _ _. Unit {0} };

    ghost useful = { λ _ _ _ _. Unit {0} };

    ghost number = { number_of (λ t. t.mark.address) };

    ghost weight = { ticket_weight };

    ghost use Rattle.std.proofs.Common.{rules};
    ghost use Rattle.std.specs.Prelude.{refl};
    ghost use Rattle.nodes.specs.Laws.{nothing_at_zero, nothing_past_zero, weightless};

    ghost span_positive = { Prim.search rules };

    ghost find_none = { λ _ i. nothing_at_zero i };

    ghost find_past = { λ _ s i _ _ p. nothing_past_zero s i p };

    ghost shaped_none = { λ _. tt };

    ghost useful_none = { λ _ _ _. tt };

    ghost useful_never = { λ _ _ _. tt };

    ghost useful_either = { λ _ _ _ _ _ _ _ _ _ _ _. tt };

    ghost weight_none = { λ _. refl };

    ghost number_none = { refl };

    ghost leaf_namer = { λ _ _ _ _. refl };

    ghost leaf_useful = { λ _ _ _ _ _. tt };

    ghost leaf_span = { λ _ _. refl };

    ghost leaf_path = { λ _ _ _ _. refl };

    ghost leaf_number = { λ _ _ _. refl };

    ghost leaf_weight = { λ w s _ none. weightless w s none };

    fn is_leaf() -> bool {
        true
    }

    fn span(_entries: usize) -> usize {
        1
    }

    fn entry(slot: &Option<Ticket<B>>) -> u32 {
        match slot {
            Some(ticket) => ticket.address(),
            None => 0,
        }
    }

    fn has_mark(_slot: &Option<Ticket<B>>) -> bool {
        false
    }
}
