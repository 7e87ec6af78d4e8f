//! The accounts of the books. What an account has changes only in the steps of `Books`. Where an account is dropped, its
//! claims stay in the books with nobody to step with them, so no audit is ever complete again.
ghost use Rattle.std.specs.Prelude.{◌≡◌};

use crate::claim::Claim;
use crate::{Holder, Remembered};
use geometry::Mark;
use std::marker::Model;

/// A segment's account, `{ book; segment; marks }` to contracts: it lies in the segment's lock, and has the segment's
/// marked blocks (Linux `filesystems/f2fs`, segment information table). It takes eight bytes.
#[derive(Drop)]
pub struct SegmentAccount {
    pub(crate) holder: Holder<Claim>,
}

impl Model for SegmentAccount {
    ghost use Rattle.std.specs.Prelude.{◌≡◌};
    ghost use Rattle.rights_books.specs.Accounts.{SegmentView, segment_view, segment_claims};

    ghost Value = { SegmentView };

    ghost view = { λ a. segment_view a.holder };

    ghost invariant = { λ a. a.holder.claims ≡ segment_claims (segment_view a.holder) };
}

/// One of the 64 permits, `{ book; tickets; tokens }` to contracts, with what its call has in hand. It takes eight bytes.
#[derive(Drop)]
pub struct CallAccount {
    pub(crate) holder: Holder<Claim>,
}

impl Model for CallAccount {
    ghost use Rattle.std.specs.Prelude.{◌≡◌};
    ghost use Rattle.rights_books.specs.Accounts.{HandView, hand_view, hand_claims};

    ghost Value = { HandView };

    ghost view = { λ a. hand_view a.holder };

    ghost invariant = { λ a. a.holder.claims ≡ hand_claims (hand_view a.holder) };
}

/// A file's account, `{ book; inode; tickets; tokens; content }` to contracts: it lies in the file's lock, and has what is
/// lodged in the file and, while its pass is out, what the pass shows. It takes eight bytes.
#[derive(Drop)]
pub struct FileAccount {
    pub(crate) holder: Holder<Claim>,
}

impl Model for FileAccount {
    ghost use Rattle.std.specs.Prelude.{◌≡◌};
    ghost use Rattle.rights_books.specs.Accounts.{FileView, file_view, file_claims};

    ghost Value = { FileView };

    ghost view = { λ a. file_view a.holder };

    ghost invariant = { λ a. a.holder.claims ≡ file_claims (file_view a.holder) };
}

/// A shard's account, `{ book; shard; taken }` to contracts: it lies in the shard's lock, and has the shard's taken numbers
/// (Linux `filesystems/f2fs`, node address table). It takes eight bytes.
#[derive(Drop)]
pub struct ShardAccount {
    pub(crate) holder: Holder<Claim>,
}

impl Model for ShardAccount {
    ghost use Rattle.std.specs.Prelude.{◌≡◌};
    ghost use Rattle.rights_books.specs.Accounts.{ShardView, shard_view, shard_claims};

    ghost Value = { ShardView };

    ghost view = { λ a. shard_view a.holder };

    ghost invariant = { λ a. a.holder.claims ≡ shard_claims (shard_view a.holder) };
}

/// The one right to change a file, `{ book; inode; content }` to contracts. It takes eight bytes.
#[derive(Drop)]
pub struct PassAccount {
    pub(crate) holder: Holder<Claim>,
}

impl Model for PassAccount {
    ghost use Rattle.std.specs.Prelude.{◌≡◌};
    ghost use Rattle.rights_books.specs.Accounts.{PassView, pass_view, pass_claims};

    ghost Value = { PassView };

    ghost view = { λ a. pass_view a.holder };

    ghost invariant = { λ a. a.holder.claims ≡ pass_claims (pass_view a.holder) };
}

/// All permits in one, with nothing in hand, and what was learned of the accounts since, `{ book; copies }` to contracts.
/// It takes eight bytes.
#[derive(Drop)]
pub struct Audit {
    pub(crate) holder: Holder<Claim>,
}

impl Model for Audit {
    ghost use Rattle.std.specs.Prelude.{◌≡◌};
    ghost use Rattle.rights_books.specs.Accounts.{CensusView, census_view, census_claims};

    ghost Value = { CensusView };

    ghost view = { λ a. census_view a.holder };

    ghost invariant = { λ a. a.holder.claims ≡ census_claims (census_view a.holder) };
}

/// The one ticket of a marked block, which must be spent. To contracts it is its block's mark.
pub struct MarkClaim {
    pub(crate) mark: Mark,
}

impl Model for MarkClaim {
    ghost use Rattle.geometry.specs.declared.owner.Mark.{Mark};

    ghost Value = { Mark };

    ghost view = { λ t. t.mark };
}

impl MarkClaim {
    /// The address of its block, and who names the block.
    pub fn mark(&self) -> Mark
        ensures { result ≡ self.now }
    {
        self.mark
    }
}

/// The one right to a taken node number, `{ number; inode; address; bytes }` to contracts, which must be spent. The bytes
/// of its node's block are for the proofs alone, and take no memory.
pub struct NumberClaim {
    pub(crate) number: u32,
    pub(crate) inode: u32,
    pub(crate) address: u32,
    // The hand that the token was put into, which has its entry in front.
    pub(crate) hand: Remembered<Holder<Claim>>,
}

impl Model for NumberClaim {
    ghost use Rattle.rights_books.specs.declared.claim.TakenNumber.{TakenNumber};
    ghost use Rattle.rights_books.specs.Accounts.{bytes_in_front};

    ghost Value = { TakenNumber };

    ghost view = { λ t. record { number = t.number; inode = t.inode; address = t.address; bytes = bytes_in_front t.hand.value } };
}

impl NumberClaim {
    /// The node's number.
    pub fn number(&self) -> u32
        ensures { result ≡ self.now.number }
    {
        self.number
    }

    /// The number of the inode at the root of the node's file.
    pub fn inode(&self) -> u32
        ensures { result ≡ self.now.inode }
    {
        self.inode
    }

    /// The address of the node's block, 0 where it has none yet.
    pub fn address(&self) -> u32
        ensures { result ≡ self.now.address }
    {
        self.address
    }
}

/// So many permits in one, each with nothing in hand, `{ book; count }` to contracts.
#[derive(Drop)]
pub struct Permits {
    pub(crate) holder: Holder<Claim>,
    pub(crate) count: u32,
}

impl Model for Permits {
    ghost use Rattle.std.specs.Prelude.{◌≡◌, ◌≤◌};
    ghost use Rattle.rights_books.specs.Accounts.{PermitsView, hands_claims};

    ghost Value = { PermitsView };

    ghost view = { λ a. record { book = a.holder.book; count = a.count } };

    ghost invariant = { λ a. (a.count ≤ 64) × (a.holder.claims ≡ hands_claims a.count) };
}

/// The claims of an empty volume that no account was made of yet, `{ book; claims }` to contracts. It takes eight bytes.
#[derive(Drop)]
pub struct Dealer {
    pub(crate) holder: Holder<Claim>,
}

impl Model for Dealer {
    ghost use Rattle.rights_books.specs.ClaimRules.{Held};
    ghost use Rattle.rights_books.specs.declared.claim.Claim.{Claim};

    ghost Value = { Held Claim };

    ghost view = { λ a. a.holder };
}
