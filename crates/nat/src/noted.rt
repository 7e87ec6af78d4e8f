//! What a checkpoint pack spells of a shard, and whether it was noted.
ghost use Rattle.std.specs.Prelude.{◌≡◌, true, Some, None};
ghost use Rattle.rights_books.specs.PartRow.{name_of};
ghost use Rattle.nat.specs.Noted.{shard_row};

use crate::shard::Shard;
use device::Block;
use rights_books::{KeptAccount, PartAccount, Rows, ShardAccount, Spelled};

// The taken numbers of an account.
#[derive(Drop)]
struct TakenNodes<'a> {
    account: &'a ShardAccount,
}

impl<'a> Spelled for TakenNodes<'a> {
    ghost spelled = { λ s. shard_row s.account.now.taken };
}

impl<B: Block + Drop> Shard<B> {
    /// It has this account of its row from now on.
    pub fn attach(&mut self, account: PartAccount)
        ensures { self.new ≡ record self.old { part = Some (name_of account) } }
    {
        self.row.attach(account);
    }

    /// Whether the packs' lock, in which the twin of its account lies, has its row as it is now: it is so where the shard has
    /// not changed since `note`. It takes no step.
    pub fn is_noted(&self, rows: &Rows, kept: &KeptAccount) -> bool
        requires rows { kept.now.book ≡ rows.now }
        requires twin { self.now.part ≡ Some (name_of kept.now) }
        ensures noted { result ≡ true → kept.now.row ≡ shard_row self.now.taken }
    {
        self.row.is_noted(rows, kept)
    }

    /// Notes its row as it is now, here and in the packs' lock.
    pub fn note(&mut self, rows: &Rows, kept: &mut KeptAccount)
        requires rows { kept.old.book ≡ rows.now }
        requires twin { self.old.part ≡ Some (name_of kept.old) }
        ensures same { self.new ≡ self.old }
        ensures kept { kept.new ≡ record kept.old { row = shard_row self.old.taken } }
    {
        let taken = TakenNodes {
            account: &self.account,
        };
        self.row.note(rows, kept, &taken);
    }
}
