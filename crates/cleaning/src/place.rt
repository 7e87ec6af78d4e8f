//! A block that cleaning moves gets a new place.
ghost use Rattle.std.specs.Prelude.{◌≡◌, ◌≢◌, length, OnErr, IfOk, IfErr};
ghost use Rattle.geometry.specs.Refusals.{IsOfAppend};
ghost use Rattle.geometry.specs.Owner.{IsOwner};
ghost use Rattle.geometry.specs.Shape.{block_bytes};
ghost use Rattle.area.specs.Hand.{HasAppended};

use area::{Log, MainArea, Who};
use device::Block;
use geometry::{Error, Mark};
use rights_books::CallAccount;
use rights_permits::VolumeName;
use std::sync::Wait;
use tickets::Ticket;

// Appends a block that has this mark to a log, as cleaning does.
pub(crate) fn append_elsewhere<V: VolumeName, B: Block + Drop, R: Wait>(
    rt: &R,
    area: &MainArea<V, B>,
    hand: &mut CallAccount,
    log: Log,
    mark: Mark,
    now: u64,
    bytes: &[u8],
) -> Result<Ticket<B>, Error>
    requires book { hand.old.book ≡ V.Books.books.book }
    requires owner { IsOwner mark.owner }
    requires bytes { length bytes.now ≡ block_bytes V.Numbers.geometry.shape }
    ensures appended { IfOk result (λ ticket. HasAppended V.Numbers.geometry mark.owner bytes.now hand.old hand.new ticket) }
    ensures elsewhere { IfOk result (λ ticket. ticket.mark.address ≢ mark.address) }
    ensures err { OnErr result (hand.new ≡ hand.old) }
    ensures error { IfErr result IsOfAppend }
{
    let who = Who::Cleaning(mark.address);
    let ticket = area.append(rt, hand, log, mark.owner, now, bytes, who)?;
    if ticket.address() == mark.address {
        // A log writes no block that is valid, and the one at the address is. So this is not reached.
        for _ in rt.forever() {}
        unreachable!();
    }
    Ok(ticket)
}
