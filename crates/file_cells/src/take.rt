//! How a snapshot is taken, with the file's lock held.
ghost use Rattle.std.specs.Prelude.{◌≡◌, ◌≤◌, ◌<◌, [], ℕ, length, vec_len, Some, IfOk, IfErr};
ghost use Rattle.geometry.specs.Refusals.{IsOfRead};
ghost use Rattle.geometry.specs.Path.{largest_length};
ghost use Rattle.geometry.specs.Shape.{block_bytes};
ghost use Rattle.geometry.specs.Address.{segment_of};
ghost use Rattle.geometry.specs.declared.owner.Mark.{Mark};
ghost use Rattle.geometry.specs.Mark.{same_mark};
ghost use Rattle.rights_books.specs.Lists.{times as tickets_of};
ghost use Rattle.rights_books.specs.Lodged.{AreWithin};
ghost use Rattle.words.specs.Claims.{times};
ghost use Rattle.words.specs.Steps.{pins_with};
ghost use Rattle.nodes.specs.File.{IsFile, ticket_at, file_of};
ghost use Rattle.nodes.specs.Held.{AreHeld};
ghost use Rattle.file_cells.specs.Reader.{IsPinned, segments_of};
ghost use Rattle.file_cells.specs.Law.{AreLent, ArePins, AreCovered, AreOccupied};
ghost use Rattle.nodes_law.specs.Contents.{AreWhole};

use crate::holder::Holder;
use crate::reader::Reader;
use crate::seat::Seat;
use area::MainArea;
use device::Block;
use geometry::Error;
use nodes::FileState;
use nodes_walks::lend_next;
use rights_books::{FileAccount, Remembered};
use rights_permits::VolumeName;
use std::alloc::Global;
use std::sync::Wait;

/// A snapshot of a file, whose lock is held and whose tickets are lodged in its account. All memory is made before the first
/// segment is pinned; the segments are locked one after another.
///
/// Answers NoMemory where a growth was refused, and Device where the device failed to lend a block. Then the seat comes back
/// as it was. The file is as it was in each case.
pub fn take_reader<'a, V: VolumeName, B: Block + Drop, R: Wait>(
    alloc: Global,
    rt: &R,
    area: &'a MainArea<V, B>,
    file: &mut FileState<B>,
    account: &mut FileAccount,
    seat: Seat<V>,
) -> Result<Reader<'a, V, B>, (Seat<V>, Error)>
    requires file { IsFile file.old }
    requires shape { file.old.shape ≡ V.Numbers.geometry.shape }
    requires short { file.old.length ≤ largest_length file.old.shape }
    requires whole { AreWhole (block_bytes file.old.shape) (ticket_at file.old) }
    requires book { account.old.book ≡ V.Books.books.book }
    requires lodged { AreHeld file.old account.old.tickets account.old.tokens }
    ensures file { IfOk result (λ reader. reader.file ≡ file_of file.old) }
    ensures segments { IfOk result (λ reader. reader.segments ≡ segments_of file.old) }
    ensures pins { IfOk result (λ reader. IsPinned reader) }
    ensures seat { IfErr result (λ refused. refused.0 ≡ seat) }
    ensures error { IfErr result (λ refused. IsOfRead refused.1) }
    ensures same { (file.new ≡ file.old) × (account.new ≡ account.old) }
{
    match prepare(alloc, area, file, account) {
        Ok(prepared) => {
            let Prepared {
                indexes,
                leases,
                noted,
            } = prepared;
            let Seat { holder: mut seat } = seat;
            pin_all(rt, area, account, &mut seat, &noted);
            Ok(Reader {
                words: area.words(),
                file: Remembered::of(file),
                length: file.length(),
                indexes,
                leases,
                pinned: noted,
                seat,
            })
        }
        Err(error) => Err((seat, error)),
    }
}

// All that a snapshot takes memory for.
struct Prepared<L> {
    // The indexes at which the file has blocks, rising, and the lease of each.
    indexes: Vec<u32>,
    leases: Vec<L>,
    // Whether a block of the file lies in each segment.
    noted: Vec<bool>,
}

// The leases of all blocks of a file, and the segments in which they lie, in one walk in the order of their indexes.
fn prepare<V: VolumeName, B: Block + Drop>(
    alloc: Global,
    area: &MainArea<V, B>,
    file: &mut FileState<B>,
    account: &mut FileAccount,
) -> Result<Prepared<B::Lease>, Error>
    requires file { IsFile file.old }
    requires shape { file.old.shape ≡ V.Numbers.geometry.shape }
    requires short { file.old.length ≤ largest_length file.old.shape }
    requires book { account.old.book ≡ V.Books.books.book }
    requires lodged { AreHeld file.old account.old.tickets account.old.tokens }
    ensures lent { IfOk result (λ made. AreLent B.Lease.items made.indexes.items made.leases.items file.old) }
    ensures sized { IfOk result (λ made. length made.noted.items ≡ V.Numbers.geometry.segments) }
    ensures covered { IfOk result (λ made. AreCovered made.noted.items file.old) }
    ensures occupied { IfOk result (λ made. AreOccupied V.Numbers.geometry.shape made.noted.items account.old.tickets) }
    ensures error { IfErr result IsOfRead }
    ensures same { (file.new ≡ file.old) × (account.new ≡ account.old) }
{
    let segments = area.geometry().segments as usize;
    let mut noted = vec![in alloc; false; segments]?;
    let mut indexes = Vec::new(alloc);
    let mut leases = Vec::new(alloc);
    area.books().show_within(account);
    let mut from = 0;
    while let Some(lent) = lend_next(file, from)? {
        let index = lent.index as u32;
        let segment = area.geometry().segment_of(lent.address);
        noted[segment as usize] = true;
        indexes.push(index)?;
        leases.push(lent.lease)?;
        from = index + 1;
    }
    Ok(Prepared {
        indexes,
        leases,
        noted,
    })
}

// Pins each segment that is noted, once.
fn pin_all<V: VolumeName, B: Block + Drop, R: Wait>(
    rt: &R,
    area: &MainArea<V, B>,
    account: &mut FileAccount,
    seat: &mut Holder<V>,
    noted: &[bool],
)
    requires book { account.old.book ≡ V.Books.books.book }
    requires sized { length noted.now ≡ V.Numbers.geometry.segments }
    requires occupied { AreOccupied V.Numbers.geometry.shape noted.now account.old.tickets }
    requires seat { seat.old.held ≡ [] }
    ensures pins { ArePins noted.now seat.new.held }
    ensures account { account.new ≡ account.old }
{
    for segment in 0..noted.len() as u32 {
        if noted[segment as usize] {
            pin_segment(rt, area, account, seat, segment);
        }
    }
}

// Pins a segment in which a block of the file lies.
fn pin_segment<V: VolumeName, B: Block + Drop, R: Wait>(
    rt: &R,
    area: &MainArea<V, B>,
    account: &mut FileAccount,
    seat: &mut Holder<V>,
    segment: u32,
)
    requires within { segment < V.Numbers.geometry.segments }
    requires book { account.old.book ≡ V.Books.books.book }
    requires lodged { (m : Mark) × (segment_of V.Numbers.geometry.shape m.address ≡ segment) × (0 < tickets_of same_mark m account.old.tickets) }
    requires once { times segment seat.old.held ≡ 0 }
    ensures pins { (incarnation : ℕ) × (seat.new ≡ pins_with seat.old segment incarnation) }
    ensures account { account.new ≡ account.old }
{
    let mut cell = area.lock_segment(rt, segment);
    seat.pin(area, &mut *cell, account);
}
