//! A node other than an inode.
ghost use Rattle.std.specs.Prelude.{◌≡◌, ◌*◌, ◌<◌, None, true, false, map, replicate, IfOk, IfErr};
ghost use Rattle.nodes.specs.Tree.{find_below, missing_below, namer_below, ShapedBelow, UsefulBelow, AreNone, number_of};
ghost use Rattle.nodes.specs.Change.{tree_node, weight_below};
ghost use Rattle.nodes.specs.TreeMarks.{AreCounted};

use crate::entries::Entries;
use crate::subtree::Subtree;
use std::alloc::Global;
use tickets::NidToken;

/// A node other than an inode: the token of its number, and its entries.
pub struct Branch<C> {
    pub token: NidToken,
    pub entries: Entries<C>,
}

impl<C> Branch<C> {
    /// A node that names nothing, still to be written. Where memory is missing the token is handed back.
    pub fn empty(alloc: Global, entries: usize, token: NidToken) -> Result<Branch<C>, NidToken>
        ensures entries { IfOk result (λ node. node.entries.slots.items ≡ replicate entries None) }
        ensures nothing { IfOk result (λ node. AreNone node.entries.slots.items) }
        ensures marked { IfOk result (λ node. node.entries.dirty ≡ true) }
        ensures none_below { IfOk result (λ node. node.entries.marked ≡ 0) }
        ensures token { IfOk result (λ node. node.token ≡ token) }
        ensures refused { IfErr result (λ back. back ≡ token) }
    {
        match Entries::empty(alloc, entries) {
            Ok(entries) => Ok(Branch { token, entries }),
            Err(_) => Err(token),
        }
    }

    /// Gives up a node that names nothing: its token.
    pub fn into_token(self) -> NidToken
        requires { AreNone self.entries.slots.items }
        ensures { result ≡ self.token }
    {
        let Branch { token, entries } = self;
        entries.destroy();
        token
    }
}

impl<C: Subtree> Subtree for Branch<C> {
    type Leaf = C::Leaf;

    type Lease = C::Lease;

    ghost lent = { C.lent };

    ghost address_of = { C.address_of };

    ghost content_of = { C.content_of };

    ghost is_leaf = { false };

    ghost span_of = { λ e. e * C.span_of e };

    ghost find = { λ e slot i. find_below (λ b. b.entries.slots.items) (C.find e) (C.span_of e) slot i };

    ghost namer = { λ e slot i. namer_below (λ b. b.token.number) (λ b. b.entries.slots.items) C.is_leaf (C.namer e) (C.span_of e) slot i };

    ghost missing = { λ e slot i. missing_below (λ b. b.entries.slots.items) (C.missing e) (C.span_of e) slot i };

    ghost shaped = { λ e slot. ShapedBelow (λ b. b.entries.slots.items) (C.shaped e) (λ b. AreCounted C.weight b.entries.marked b.entries.slots.items) e slot };

    ghost useful = { λ e asked first slot. UsefulBelow (λ b. b.entries.slots.items) (C.useful e) (C.span_of e) e asked first slot };

    ghost number = { number_of (λ b. b.token.number) };

    ghost weight = { weight_below (λ b. tree_node C.is_leaf b.token (map C.number b.entries.slots.items) b.entries.dirty) (λ b. b.entries.slots.items) C.weight };

    ghost use Rattle.std.specs.Prelude.{refl};
    ghost use Rattle.nodes.specs.Laws.{times_positive, nothing_past, no_leaf};
    ghost use Rattle.nodes.specs.TreeUseful.{never_below, either_below};

    ghost span_positive = { λ e h. times_positive e (C.span_of e) h (C.span_positive e h) };

    ghost find_none = { λ _ _. refl };

    ghost find_past = { λ e s i h w p. nothing_past (λ b. b.entries.slots.items) (C.find e) (C.shaped e) (λ b. AreCounted C.weight b.entries.marked b.entries.slots.items) (C.span_of e) (C.span_positive e h) (C.find_none e) e s i w p };

    ghost shaped_none = { λ _. tt };

    ghost useful_none = { λ _ _ _. tt };

    ghost useful_never = { λ e first s. never_below (λ b. b.entries.slots.items) (C.useful e) (C.span_of e) (λ f x. C.useful_never e f x) e first s };

    ghost useful_either = { λ e asked one other first s h w either p q. either_below (λ b. b.entries.slots.items) (C.useful e) (C.span_of e) (C.shaped e) (λ b. AreCounted C.weight b.entries.marked b.entries.slots.items) (C.span_positive e h) (λ a f. C.useful_none e a f) (λ a o r f x v k y z. C.useful_either e a o r f x h v k y z) e h asked one other first s w either p q };

    ghost weight_none = { λ _. refl };

    ghost number_none = { refl };

    ghost leaf_namer = { λ _ _ _ no. absurd (no_leaf no) };

    ghost leaf_useful = { λ _ _ _ _ no. absurd (no_leaf no) };

    ghost leaf_span = { λ _ no. absurd (no_leaf no) };

    ghost leaf_path = { λ _ _ _ no. absurd (no_leaf no) };

    ghost leaf_number = { λ _ _ no. absurd (no_leaf no) };

    ghost leaf_weight = { λ _ _ no _. absurd (no_leaf no) };

    fn is_leaf() -> bool {
        false
    }

    fn span(entries: usize) -> usize {
        entries * C::span(entries)
    }

    fn entry(slot: &Option<Branch<C>>) -> u32 {
        match slot {
            Some(branch) => branch.token.number(),
            None => 0,
        }
    }

    fn has_mark(slot: &Option<Branch<C>>) -> bool {
        match slot {
            Some(branch) => branch.entries.dirty || branch.entries.marked > 0,
            None => false,
        }
    }
}
