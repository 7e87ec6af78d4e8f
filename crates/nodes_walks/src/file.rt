//! The search in a whole file.
ghost use Rattle.std.specs.Prelude.{◌≡◌, IfOk};
ghost use Rattle.nodes.specs.File.{IsFile, ticket_at};
ghost use Rattle.nodes_walks.specs.Data.{IsNextData};
ghost use Rattle.nodes_walks.specs.Lent.{IsNextLent};

use crate::data_walk::LentBlock;
use crate::entries::{lend_next_in, next_in};
use device::{Block, DeviceError};
use nodes::FileState;

/// The least index at or past one at which a block of the file stands; None where there is none. A hole costs nothing: only
/// entries of nodes are looked at.
pub fn next_data<B: Block>(file: &FileState<B>, from: u32) -> Option<u32>
    requires { IsFile file.now }
    ensures { IsNextData (ticket_at file.now) from result }
{
    let slots = file.shape.inode_entries() as usize;
    let entries = file.shape.node_entries() as usize;
    let from = from as usize;
    if let Some(index) = next_in(&file.tickets, slots, entries, from) {
        return Some(index as u32);
    }
    let from = from.saturating_sub(slots);
    if let Some(index) = next_in(&file.direct, 2, entries, from) {
        return Some((slots + index) as u32);
    }
    let direct = 2 * entries;
    let from = from.saturating_sub(direct);
    if let Some(index) = next_in(&file.indirect, 2, entries, from) {
        return Some((slots + (direct + index)) as u32);
    }
    let indirect = 2 * (entries * entries);
    let from = from.saturating_sub(indirect);
    match next_in(&file.double, 1, entries, from) {
        Some(index) => Some((slots + (direct + (indirect + index))) as u32),
        None => None,
    }
}

/// The block at the least index at or past one at which one of the file stands, lent, with its index and its address; None where
/// there is none. Answers DeviceError where the device failed to lend it. The file is as it was in each case.
pub fn lend_next<B: Block>(
    file: &mut FileState<B>,
    from: u32,
) -> Result<Option<LentBlock<B::Lease>>, DeviceError>
    requires { IsFile file.old }
    ensures same { file.new ≡ file.old }
    ensures next { IfOk result (IsNextLent (λ ticket. ticket.mark.address) (λ ticket. ticket.content) B.Lease.items (ticket_at file.old) from) }
{
    let slots = file.shape.inode_entries() as usize;
    let entries = file.shape.node_entries() as usize;
    let from = from as usize;
    if let Some(lent) = lend_next_in(&mut file.tickets, slots, entries, from)? {
        return Ok(Some(lent));
    }
    let from = from.saturating_sub(slots);
    if let Some(lent) = lend_next_in(&mut file.direct, 2, entries, from)? {
        return Ok(Some(lent.behind(slots)));
    }
    let direct = 2 * entries;
    let from = from.saturating_sub(direct);
    if let Some(lent) = lend_next_in(&mut file.indirect, 2, entries, from)? {
        return Ok(Some(lent.behind(slots + direct)));
    }
    let indirect = 2 * (entries * entries);
    let from = from.saturating_sub(indirect);
    match lend_next_in(&mut file.double, 1, entries, from)? {
        Some(lent) => Ok(Some(lent.behind(slots + (direct + indirect)))),
        None => Ok(None),
    }
}
