//! The tokens of files.
ghost use Rattle.std.specs.Prelude.{◌≡◌, ◌+◌, ◌<◌, ◌≤◌, ℕ, length};
ghost use Rattle.rights_books.specs.Lists.{times};
ghost use Rattle.rights_books.specs.Sameness.{same_entry};
ghost use Rattle.rights_books.specs.declared.claim.TakenNumber.{TakenNumber};
ghost use Rattle.mount_blocks.specs.TreeGoods.{in_place};
ghost use Rattle.geometry.specs.Weights.{weigh};
ghost use Rattle.mount_blocks.specs.Lodging.{AreOfBook, Lodges, of_file, of_some};

use rights_books::{Books, CallAccount, FileAccount};
use tickets::NidToken;

// A token is lodged in the account of its inode's file, where there is one.
fn lodge_token(
    books: &Books,
    hand: &mut CallAccount,
    accounts: &mut Vec<FileAccount>,
    token: &NidToken,
)
    requires hand { hand.old.book ≡ books.now.book }
    requires accounts { AreOfBook books.now.book accounts.old.items }
    requires held { 0 < times same_entry token.now hand.old.tokens }
    ensures accounts { AreOfBook books.now.book accounts.new.items }
    ensures lodged { Lodges accounts.old.items accounts.new.items (λ _ _. 0) (λ k h. of_file (k + 1) token.now.inode (h token.now)) }
    ensures hand { (h : TakenNumber → ℕ) → weigh h hand.new.tokens + of_some (length accounts.old.items) token.now.inode (h token.now) ≡ weigh h hand.old.tokens }
    ensures tickets { hand.new.tickets ≡ hand.old.tickets }
    ensures book { hand.new.book ≡ hand.old.book }
{
    let inode = token.inode();
    if inode != 0 && inode as usize <= accounts.len() {
        books.lodge_token(&mut accounts[inode as usize - 1], hand, token);
    }
}

/// Each token of a table, which is in hand, is lodged with the file of its inode. One of no file stays in hand.
pub fn lodge_tokens(
    books: &Books,
    hand: &mut CallAccount,
    accounts: &mut Vec<FileAccount>,
    tokens: &[Option<NidToken>],
)
    requires hand { hand.old.book ≡ books.now.book }
    requires accounts { AreOfBook books.now.book accounts.old.items }
    requires held { (h : TakenNumber → ℕ) → weigh (in_place h) tokens.now ≤ weigh h hand.old.tokens }
    ensures accounts { AreOfBook books.now.book accounts.new.items }
    ensures lodged { Lodges accounts.old.items accounts.new.items (λ _ _. 0) (λ k h. weigh (in_place (λ e. of_file (k + 1) e.inode (h e))) tokens.now) }
    ensures hand { (h : TakenNumber → ℕ) → weigh h hand.new.tokens + weigh (in_place (λ e. of_some (length accounts.old.items) e.inode (h e))) tokens.now ≡ weigh h hand.old.tokens }
    ensures tickets { hand.new.tickets ≡ hand.old.tickets }
    ensures book { hand.new.book ≡ hand.old.book }
{
    for place in 0..tokens.len() {
        match &tokens[place] {
            Some(token) => lodge_token(books, hand, accounts, token),
            None => {}
        }
    }
}
