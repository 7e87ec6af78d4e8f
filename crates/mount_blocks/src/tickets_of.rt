//! The tickets of files.
ghost use Rattle.std.specs.Prelude.{◌≡◌, ◌+◌, ◌<◌, ◌≤◌, ℕ, length};
ghost use Rattle.rights_books.specs.Lists.{times};
ghost use Rattle.geometry.specs.Mark.{same_mark};
ghost use Rattle.geometry.specs.declared.owner.Mark.{Mark};
ghost use Rattle.image.specs.View.{image_view};
ghost use Rattle.mount_blocks.specs.TreeGoods.{in_place};
ghost use Rattle.geometry.specs.Weights.{weigh};
ghost use Rattle.tickets.specs.Placed.{Placed};
ghost use Rattle.mount_blocks.specs.Lodging.{AreOfBook, Lodges, file_of, of_file, of_some};

use crate::places::{put_back, take_out};
use device::Block;
use geometry::Owner;
use image::Image;
use rights_books::{Books, CallAccount, FileAccount};
use tickets::Ticket;

// The inode of the file that an owner's node is of, 0 where it has no entry.
fn file_of(image: &Image, owner: Owner) -> u32
    ensures { result ≡ file_of (image_view image.now) owner }
{
    match owner {
        Owner::Node(nid) => image.entry(nid).inode,
        Owner::Data(nid, _) => image.entry(nid).inode,
    }
}

// A ticket is lodged in the account of a file, where there is one of this inode.
fn lodge_ticket<B: Block>(
    books: &Books,
    hand: &mut CallAccount,
    accounts: &mut Vec<FileAccount>,
    inode: u32,
    ticket: Ticket<B>,
) -> Ticket<B>
    requires hand { hand.old.book ≡ books.now.book }
    requires accounts { AreOfBook books.now.book accounts.old.items }
    requires held { 0 < times same_mark ticket.mark hand.old.tickets }
    ensures ticket { result ≡ ticket }
    ensures accounts { AreOfBook books.now.book accounts.new.items }
    ensures lodged { Lodges accounts.old.items accounts.new.items (λ k h. of_file (k + 1) inode (h ticket.mark)) (λ _ _. 0) }
    ensures hand { (h : Mark → ℕ) → weigh h hand.new.tickets + of_some (length accounts.old.items) inode (h ticket.mark) ≡ weigh h hand.old.tickets }
    ensures tokens { hand.new.tokens ≡ hand.old.tokens }
    ensures book { hand.new.book ≡ hand.old.book }
{
    let (claimed, block) = ticket.into_parts();
    if inode != 0 && inode as usize <= accounts.len() {
        books.lodge(&mut accounts[inode as usize - 1], hand, &claimed);
    }
    Ticket::new(claimed, block)
}

/// Each ticket of a table, which is in hand, is lodged with the file whose node its owner is by the image. One whose owner is of
/// no file stays in hand.
pub fn lodge_tickets<B: Block>(
    image: &Image,
    books: &Books,
    hand: &mut CallAccount,
    accounts: &mut Vec<FileAccount>,
    tickets: &mut Vec<Option<Ticket<B>>>,
)
    requires hand { hand.old.book ≡ books.now.book }
    requires accounts { AreOfBook books.now.book accounts.old.items }
    requires held { (h : Mark → ℕ) → weigh (in_place (λ (t : Placed). h t.mark)) tickets.old.items ≤ weigh h hand.old.tickets }
    ensures same { tickets.new.items ≡ tickets.old.items }
    ensures accounts { AreOfBook books.now.book accounts.new.items }
    ensures lodged { Lodges accounts.old.items accounts.new.items
        (λ k h. weigh (in_place (λ (t : Placed). of_file (k + 1) (file_of (image_view image.now) t.mark.owner) (h t.mark))) tickets.old.items) (λ _ _. 0) }
    ensures hand { (h : Mark → ℕ) → weigh h hand.new.tickets
        + weigh (in_place (λ (t : Placed). of_some (length accounts.old.items) (file_of (image_view image.now) t.mark.owner) (h t.mark))) tickets.old.items
        ≡ weigh h hand.old.tickets }
    ensures tokens { hand.new.tokens ≡ hand.old.tokens }
    ensures book { hand.new.book ≡ hand.old.book }
{
    for place in 0..tickets.len() {
        match take_out(tickets, place) {
            Some(ticket) => {
                let inode = file_of(image, ticket.owner());
                let ticket = lodge_ticket(books, hand, accounts, inode, ticket);
                put_back(tickets, place, ticket);
            }
            None => {}
        }
    }
}
