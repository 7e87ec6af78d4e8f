//! What a part keeps of its row in its lock.
ghost use Rattle.std.specs.Prelude.{◌≡◌, true, Some, None};
ghost use Rattle.rights_books.specs.PartRow.{name_of};

use crate::row_account::{KeptAccount, PartAccount};
use crate::rows::{Rows, Spelled};
use std::marker::Model;

/// What a part keeps of its row in its lock, `{ part; noted }` to contracts: the name of its account, where it has one, and the
/// row that both accounts have, where the part has not changed since it was noted.
#[derive(Drop)]
pub struct PartRow {
    account: Option<PartAccount>,
    changed: bool,
}

impl Model for PartRow {
    ghost use Rattle.rights_books.specs.PartRow.{PartRowView, part_of, noted_of};

    ghost Value = { PartRowView };

    ghost view = { λ r. record { part = part_of r.account; noted = noted_of r.changed r.account } };
}

impl PartRow {
    /// Of a part that has no account yet.
    pub fn new() -> PartRow
        ensures { result ≡ record { part = None; noted = None } }
    {
        PartRow {
            account: None,
            changed: true,
        }
    }

    /// The part has this account from now on. Its row is still to be noted.
    pub fn attach(&mut self, account: PartAccount)
        ensures { self.new ≡ record { part = Some (name_of account); noted = None } }
    {
        self.account = Some(account);
        self.changed = true;
    }

    /// The part may have another row from now on.
    pub fn change(&mut self)
        ensures { self.new ≡ record self.old { noted = None } }
    {
        self.changed = true;
    }

    /// Whether the twin of its account has its row: the part has not changed since `note`. It takes no step.
    pub fn is_noted(&self, rows: &Rows, kept: &KeptAccount) -> bool
        requires rows { kept.now.book ≡ rows.now }
        requires twin { self.now.part ≡ Some (name_of kept.now) }
        ensures noted { result ≡ true → self.now.noted ≡ Some kept.now.row }
    {
        match &self.account {
            Some(account) => {
                rows.compare(account, kept);
                !self.changed
            }
            None => false,
        }
    }

    /// Notes the row of what is shown, in its account and in its twin.
    pub fn note<P: Spelled>(&mut self, rows: &Rows, kept: &mut KeptAccount, shown: &P)
        requires rows { kept.old.book ≡ rows.now }
        requires twin { self.old.part ≡ Some (name_of kept.old) }
        ensures noted { self.new ≡ record self.old { noted = Some (P.spelled shown.now) } }
        ensures kept { kept.new ≡ record kept.old { row = P.spelled shown.now } }
    {
        match &mut self.account {
            Some(account) => rows.note(account, kept, shown),
            None => unreachable!(),
        }
        self.changed = false;
    }
}
