//! The last checkpoint of a volume, which nobody shares any more.
ghost use Rattle.std.specs.Prelude.{◌≡◌, ◌⊎◌, ◌+◌, ◌≤◌, true, false, [], map, vec_len, vec_capacity, OnOk, IfOk, IfErr};
ghost use Rattle.geometry.specs.declared.error.Error.TheVariants.{Device};
ghost use Rattle.pack_tables.specs.Holding.{HoldsTables};
ghost use Rattle.device.specs.Disk.{Leaves};
ghost use Rattle.checkpoint.specs.Holding.{WasWrittenOver};
ghost use Rattle.checkpoint_sync.specs.FileParts.{filed_of};
ghost use Rattle.checkpoint_sync.specs.WrittenFiles.{AreWritten};
ghost use Rattle.image.specs.Rules.{IsLawful};
ghost use Rattle.checkpoint_sync.specs.TakenFrom.{IsTakenFrom};
ghost use Rattle.checkpoint_image.specs.View.{taken_view};
ghost use Rattle.rights_permits.specs.Turns.{at_home};
ghost use Rattle.close_area.specs.Returned.{living};
ghost use Rattle.close_area.specs.Refused.{IsNotWritten};

use crate::count_living;
use crate::locks::share_files;
use crate::rows::own_files;
use crate::telling::tell_written;
use crate::written::WrittenFile;
use area::{MainArea, Unsettled};
use checkpoint::{PacksCell, Taken};
use checkpoint_image::TakenImage;
use checkpoint_sync::take_image;
use device::{Block, Meta};
use file_cells::FileCell;
use file_flush::FlushBuffer;
use geometry::{Error, Geometry};
use rights_permits::{AllPermits, Auditing, VolumeName};
use std::alloc::Global;
use std::sync::{Mutex, Wait};

/// What a last checkpoint leaves: all permits, the files out of their locks, and the image that was written.
pub struct Last<V: VolumeName, B: Block + Drop> {
    pub all: AllPermits<V::Books, V::Turns>,
    pub files: Vec<WrittenFile<V, B>>,
    pub image: TakenImage,
}

/// Takes all permits and the files out of their locks, writes the marked nodes of all files, and then an image of the volume
/// as the next pack, where no more files live than there are passes.
///
/// Answers Wounded where a pack write failed before, then Exhausted where the version is the largest that there is; NoMemory
/// where a growth was refused, NoSpace where a log has no open segment for a node and none is free, Device where the device
/// failed, and PassesOut where more files live. Then the files are in their locks again, and what they are stays.
pub fn write_last<V: VolumeName, M: Meta, B: Block + Drop, R: Wait>(
    rt: &R,
    alloc: Global,
    area: &MainArea<V, B>,
    files: Vec<Mutex<FileCell<V, B>>>,
    packs: &mut PacksCell<V, M>,
    passes: usize,
) -> Result<Last<V, B>, (Vec<Mutex<FileCell<V, B>>>, Error)>
    requires every { vec_len files ≡ V.Numbers.geometry.files }
    ensures tables { IfOk result (λ last. Leaves M.may_leave packs.new.packs.area.meta (HoldsTables V.Numbers.geometry (taken_view last.image))) }
    // A crash at any moment of the pack write leaves the pack that was there or the new one.
    ensures any_moment { IfOk result (λ last. WasWrittenOver M.seen M.may_leave M.moment M.left_since V.Numbers.geometry packs.new.packs.area.meta (taken_view last.image)) }
    ensures sound { OnOk result (packs.new.wounded ≡ false) }
    ensures home { IfOk result (λ last. last.all.hand ≡ at_home V.Books.books.book) }
    ensures written { IfOk result (λ last. AreWritten V.Books.books.book V.Numbers.geometry last.files.items) }
    ensures every { IfOk result (λ last. vec_len last.files ≡ V.Numbers.geometry.files) }
    ensures enough { IfOk result (λ last. living last.files.items ≤ passes) }
    ensures taken { IfOk result (λ last. IsTakenFrom V.Numbers.geometry (map (λ c. filed_of c.account c.state) last.files.items) (taken_view last.image)) }
    ensures lawful { IfOk result (λ last. IsLawful V.Numbers.geometry (taken_view last.image)) }
    ensures back { IfErr result (λ refused. vec_len refused.0 ≡ V.Numbers.geometry.files) }
    ensures error { IfErr result (λ refused. IsNotWritten refused.1) }
    // Only a device that failed in the pack write wounds.
    ensures packs { IfErr result (λ refused. ((packs.new.packs ≡ packs.old.packs) × (packs.new.wounded ≡ packs.old.wounded))
        ⊎ ((refused.1 ≡ Device) × (packs.new.wounded ≡ true))) }
    ensures complete { IfErr result (λ _. packs.new.checkpoint ≡ packs.old.checkpoint) }
    ensures slips { (packs.new.pass ≡ packs.old.pass) × (packs.new.kept ≡ packs.old.kept) }
{
    let (version, mut buffer, room) = match prepare(alloc, &area.geometry(), packs) {
        Ok(prepared) => prepared,
        Err(error) => return Err((files, error)),
    };
    let mut all = area.turnstile().gather(rt);
    area.end_threads(rt, &all);
    match own_files(rt, area, &mut all.hand, files, room, &mut buffer) {
        Ok((locks, mut files)) => {
            let mut auditing = area.turnstile().audit(all);
            let image = store_image(
                rt,
                alloc,
                area,
                &mut auditing,
                &mut files,
                packs,
                version,
                passes,
            );
            let all = area.turnstile().end_audit(auditing);
            match image {
                Ok(image) => {
                    locks.destroy_empty();
                    Ok(Last { all, files, image })
                }
                Err(error) => {
                    area.turnstile().scatter(rt, all);
                    Err((share_files(locks, files), error))
                }
            }
        }
        Err(refused) => {
            area.turnstile().scatter(rt, all);
            Err(refused)
        }
    }
}

// The version of the next pack, and the memory that the files ask for.
fn prepare<V: VolumeName, M: Meta, B: Block + Drop>(
    alloc: Global,
    geometry: &Geometry,
    packs: &PacksCell<V, M>,
) -> Result<(u32, FlushBuffer, Vec<WrittenFile<V, B>>), Error>
    requires geometry { geometry.now ≡ V.Numbers.geometry }
    ensures sound { OnOk result (packs.now.wounded ≡ false) }
    ensures version { IfOk result (λ made. made.0 ≡ packs.now.packs.area.version + 1) }
    ensures buffer { IfOk result (λ made. made.1.shape ≡ V.Numbers.geometry.shape) }
    ensures none { IfOk result (λ made. made.2.items ≡ []) }
    ensures room { IfOk result (λ made. V.Numbers.geometry.files ≤ vec_capacity made.2) }
    ensures error { IfErr result IsNotWritten }
{
    let version = packs.next_version()?;
    let buffer = FlushBuffer::new(alloc, geometry.shape)?;
    let room = Vec::with_capacity(alloc, geometry.files as usize)?;
    Ok((version, buffer, room))
}

// Takes an image of the area and the files, and writes it as the next pack.
fn store_image<V: VolumeName, M: Meta, B: Block + Drop, R: Wait>(
    rt: &R,
    alloc: Global,
    area: &MainArea<V, B>,
    auditing: &mut Auditing<V::Books, V::Turns>,
    files: &mut Vec<WrittenFile<V, B>>,
    packs: &mut PacksCell<V, M>,
    version: u32,
    passes: usize,
) -> Result<TakenImage, Error>
    requires fresh { auditing.old.audit ≡ record { book = V.Books.books.book; copies = [] } }
    requires files { AreWritten V.Books.books.book V.Numbers.geometry files.old.items }
    requires every { vec_len files.old ≡ V.Numbers.geometry.files }
    requires sound { packs.old.wounded ≡ false }
    requires next { version ≡ packs.old.packs.area.version + 1 }
    ensures files { AreWritten V.Books.books.book V.Numbers.geometry files.new.items }
    ensures every { vec_len files.new ≡ V.Numbers.geometry.files }
    ensures enough { OnOk result (living files.new.items ≤ passes) }
    ensures taken { IfOk result (λ image. IsTakenFrom V.Numbers.geometry (map (λ c. filed_of c.account c.state) files.new.items) (taken_view image)) }
    ensures lawful { IfOk result (λ image. IsLawful V.Numbers.geometry (taken_view image)) }
    ensures tables { IfOk result (λ image. Leaves M.may_leave packs.new.packs.area.meta (HoldsTables V.Numbers.geometry (taken_view image))) }
    ensures any_moment { IfOk result (λ image. WasWrittenOver M.seen M.may_leave M.moment M.left_since V.Numbers.geometry packs.new.packs.area.meta (taken_view image)) }
    ensures sound { OnOk result (packs.new.wounded ≡ false) }
    ensures error { IfErr result IsNotWritten }
    ensures packs { IfErr result (λ error. ((packs.new.packs ≡ packs.old.packs) × (packs.new.wounded ≡ packs.old.wounded))
        ⊎ ((error ≡ Device) × (packs.new.wounded ≡ true))) }
    ensures complete { IfErr result (λ _. packs.new.checkpoint ≡ packs.old.checkpoint) }
    ensures slips { (packs.new.pass ≡ packs.old.pass) × (packs.new.kept ≡ packs.old.kept) }
{
    // Nothing is settled after a close.
    let mut unsettled = Unsettled {
        turns: Vec::new(alloc),
    };
    let image = take_image(
        rt,
        area,
        files,
        auditing,
        version,
        &mut packs.body,
        &mut unsettled,
    );
    tell_written(files);
    let image = image?;
    // What was counted under the locks is not known of the files that came out of them, so they are counted again.
    let _geometry = area.geometry();
    let living = count_living(files);
    if passes < living {
        return Err(Error::PassesOut((living - passes) as u32));
    }
    match packs.store::<B>(area.words(), Taken::of(&auditing.audit, image)) {
        Ok(stored) => Ok(stored.into_image()),
        Err(error) => {
            if packs.is_wounded() {
                area.turnstile().wound(auditing);
            }
            Err(error)
        }
    }
}
