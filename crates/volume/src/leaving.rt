//! How a volume is left.
ghost use Rattle.std.specs.Prelude.{◌≡◌, ◌≤◌, length, vec_len, vec_capacity, IfOk, IfErr, IfSome};
ghost use Rattle.geometry.specs.Area.{block_count};
ghost use Rattle.geometry.specs.Shape.{block_bytes};
ghost use Rattle.device.specs.Disk.{Leaves};
ghost use Rattle.device.specs.Parts.{HasSize, IsBlockRun};
ghost use Rattle.area_emptying.specs.Rows.{HaveNothing};
ghost use Rattle.rights_permits.specs.Turns.{at_home};
ghost use Rattle.checkpoint.specs.Standing.{HasVolume};
ghost use Rattle.volume.specs.Leaving.{IsLeftOut};

use crate::cells::SpareCell;
use crate::volume::Volume;
use area::MainArea;
use area_emptying::OwnedArea;
use close_area::own_file;
use device::{Block, Meta, Parts};
use file_cells::{FileCell, FilePass, Seat, seats_out};
use geometry::Error;
use rights_books::{CallAccount, FileAccount};
use rights_permits::VolumeName;
use std::sync::{Mutex, Wait};

/// Why a volume was not left, with all that was handed in.
pub struct CloseFault<V: VolumeName, M: Meta, B: Block + Drop> {
    pub volume: Volume<V, M, B>,
    pub seats: Vec<Seat<V>>,
    pub passes: Vec<FilePass<V>>,
    pub error: Error,
}

impl<V: VolumeName, M: Meta, B: Block + Drop> CloseFault<V, M, B> {
    // All that was handed in, and why it comes back.
    pub(crate) fn of(
        volume: Volume<V, M, B>,
        seats: Vec<Seat<V>>,
        passes: Vec<FilePass<V>>,
        error: Error,
    ) -> CloseFault<V, M, B>
        ensures volume { result.volume ≡ volume }
        ensures seats { result.seats.items ≡ seats.items }
        ensures passes { result.passes.items ≡ passes.items }
        ensures error { result.error ≡ error }
    {
        CloseFault {
            volume,
            seats,
            passes,
            error,
        }
    }
}

impl<V: VolumeName, M: Meta, B: Block + Drop> Volume<V, M, B> {
    /// Leaves the volume, and writes nothing: the parts of the device, whose blocks hold what was written last. Whatever a crash
    /// leaves of the meta area has the superblock of the volume's numbers, and a pack that counts. It serves a wounded volume
    /// too, and takes no memory.
    ///
    /// Answers PassesOut where fewer passes are handed in than there are files, with how many are missing, and then SeatsOut
    /// where fewer seats are handed in than the 64 of the volume; then all is handed back.
    pub fn abandon<R: Wait>(
        self,
        rt: &R,
        seats: Vec<Seat<V>>,
        passes: Vec<FilePass<V>>,
    ) -> Result<Parts<M, B>, CloseFault<V, M, B>>
        ensures size { IfOk result (λ parts. HasSize M.seen B.address_of B.content_of V.Numbers.geometry parts) }
        ensures counts { IfOk result (λ parts. Leaves M.may_leave parts.meta (HasVolume V.Numbers.geometry)) }
        ensures complete { IfOk result (λ parts. 64 ≤ vec_len seats) }
        ensures volume { IfErr result (λ fault. fault.volume ≡ self) }
        ensures seats { IfErr result (λ fault. fault.seats.items ≡ seats.items) }
        ensures passes { IfErr result (λ fault. fault.passes.items ≡ passes.items) }
        ensures error { IfErr result (λ fault. IsLeftOut (vec_len seats) fault.error) }
    {
        match self.find_missing(rt, seats.as_slice(), passes.len()) {
            Some(error) => Err(CloseFault::of(self, seats, passes, error)),
            None => Ok(self.discard(rt)),
        }
    }

    // What is missing beside these seats and so many passes.
    pub(crate) fn find_missing<R: Wait>(
        &self,
        rt: &R,
        seats: &[Seat<V>],
        passes: usize,
    ) -> Option<Error>
        ensures some { IfSome result (λ error. IsLeftOut (length seats.now) error) }
        ensures none { result ≡ None → 64 ≤ length seats.now }
    {
        let files = self.count_files(rt) as usize;
        if passes < files {
            return Some(Error::PassesOut((files - passes) as u32));
        }
        match seats_out(seats) {
            0 => None,
            missing => Some(Error::SeatsOut(missing)),
        }
    }

    // How many files there are.
    fn count_files<R: Wait>(&self, rt: &R) -> u32 {
        let mut count = 0;
        for number in 0..self.area.geometry().files {
            if self.lock_file(rt, number + 1).state.is_some() {
                count += 1;
            }
        }
        count
    }

    /// Ends the volume as a power cut would, with no seat and no pass asked for, and writes nothing: the parts of the device,
    /// whose blocks hold what was written last, and whose meta area has a pack that counts, as of `abandon`. For who has lost a
    /// pass, or gives a volume up after an error. It takes no memory.
    pub fn discard<R: Wait>(self, rt: &R) -> Parts<M, B>
        ensures size { HasSize M.seen B.address_of B.content_of V.Numbers.geometry result }
        ensures counts { Leaves M.may_leave result.meta (HasVolume V.Numbers.geometry) }
    {
        let Volume {
            alloc: _,
            area,
            files,
            packs,
            spare,
            base: _,
        } = self;
        let meta = packs.into_inner().into_meta();
        let blocks = empty_files(rt, area, files, spare.into_inner());
        Parts { meta, blocks }
    }
}

/// The blocks of a main area, in the order of their addresses, once all that its files have in memory was given up. It takes no
/// memory.
pub fn empty_files<V: VolumeName, B: Block + Drop, R: Wait>(
    rt: &R,
    area: MainArea<V, B>,
    files: Vec<Mutex<FileCell<V, B>>>,
    spare: SpareCell<V, B>,
) -> Vec<B>
    requires every { vec_len files ≡ V.Numbers.geometry.files }
    ensures run { IsBlockRun B.address_of B.content_of (block_bytes V.Numbers.geometry.shape) 1 result.items }
    ensures count { vec_len result ≡ block_count V.Numbers.geometry }
{
    let SpareCell { rows, accounts } = spare;
    let mut all = area.turnstile().gather(rt);
    let accounts = give_up_files(rt, &area, &mut all.hand, files, accounts);
    OwnedArea::own(rt, area, rows).empty(all, accounts)
}

// All that the files have is given back: their accounts, which have lodged nothing, in the order of their numbers. There is
// room for them.
fn give_up_files<V: VolumeName, B: Block + Drop, R: Wait>(
    rt: &R,
    area: &MainArea<V, B>,
    hand: &mut CallAccount,
    mut files: Vec<Mutex<FileCell<V, B>>>,
    mut accounts: Vec<FileAccount>,
) -> Vec<FileAccount>
    requires hand { hand.old ≡ at_home V.Books.books.book }
    requires every { vec_len files ≡ V.Numbers.geometry.files }
    requires none { vec_len accounts ≡ 0 }
    requires room { vec_len files ≤ vec_capacity accounts }
    ensures hand { hand.new ≡ hand.old }
    ensures accounts { HaveNothing V.Books.books.book result.items }
    ensures count { vec_len result ≡ vec_len files }
{
    files.reverse();
    'files: while let Some(file) = files.pop() {
        let cell = own_file(rt, file, accounts.len() as u32 + 1);
        accounts.push_reserved(cell.give_up(rt, area, hand));
    }
    files.destroy_empty();
    accounts
}
