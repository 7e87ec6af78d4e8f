//! A volume under all its names.
ghost use Rattle.std.specs.Prelude.{◌≡◌, ◌≤◌, ◌<◌, ℕ, true, [], map, length, vec_len, vec_capacity, IfOk, IfErr};
ghost use Rattle.packs_journal.specs.Places.{map_pages};
ghost use Rattle.checkpoint.specs.Holding.{AreWhole};
ghost use Rattle.device.specs.Disk.{Leaves};
ghost use Rattle.device.specs.Parts.{HasSize};
ghost use Rattle.geometry.specs.Area.{block_count, meta_bytes};
ghost use Rattle.geometry.specs.declared.error.Error.TheVariants.{NoMemory};
ghost use Rattle.image.specs.Files.{files as image_files};
ghost use Rattle.image.specs.Rules.{IsLawful};
ghost use Rattle.image.specs.View.{image_view};
ghost use Rattle.image_codec.specs.Blocks.{AreBlocks, bytes_at};
ghost use Rattle.pack_tables.specs.Grammar.{HasSuper};
ghost use Rattle.pack_tables.specs.Holding.{HoldsTables};
ghost use Rattle.pool.specs.Pools.{first_account};
ghost use Rattle.rights_permits.specs.Names.{layout_of};
ghost use Rattle.rights_permits.specs.Turns.{at_home};
ghost use Rattle.volume.specs.Picked.{HaveNames};
ghost use Rattle.mount.specs.Made.{AreVolumeRows, IsMemory};
ghost use Rattle.packs_journal.specs.Pages.{has_page};
ghost use Rattle.mount.specs.Pooled.{HasPutFree};

use crate::frames::MountFrames;
use crate::loading_all::VolumeMemory;
use crate::locked::{LockedVolume, load_locks};
use crate::made::VolumeRows;
use crate::mounted::{Mounted, MountedQueues, NamedMount};
use crate::mounted_area::NamedTables;
use crate::{MountTables, free_memory};
use area_emptying::SpareRows;
use checkpoint::{ImagePacks, PacksCell};
use checkpoint_image::KeptBody;
use device::{Block, Meta};
use file_cells::{FilePass, Seat};
use image::Image;
use mount_reading::{OpenFault, OpenedDevice};
use pool::PoolPass;
use rights_books::FileAccount;
use rights_permits::{
    AllPermits, BooksName, GeometryName, PickedNames, PoolName, TurnName, VolumeName, WordsName,
};
use std::alloc::Global;
use std::sync::Wait;
use volume::{Base, SpareCell, Volume};
use words::{CheckpointSeat, FreeSlip};

impl<L: BooksName, W: WordsName, N: GeometryName, M: Meta, B: Block + Drop> MountedQueues<
    L,
    W,
    N,
    M,
    B,
> {
    /// The volume under all its names, the seats of its readers, and a pass of each file in the order of their numbers: each
    /// shows the file that the image and the blocks say. Nothing is written.
    ///
    /// The only error is NoMemory, and hands the parts back.
    pub fn name<P: PoolName, T: TurnName, R: Wait>(
        self,
        rt: &R,
    ) -> Result<
        (
            Volume<PickedNames<L, W, P, T, N>, M, B>,
            Vec<Seat<PickedNames<L, W, P, T, N>>>,
            Vec<FilePass<PickedNames<L, W, P, T, N>>>,
        ),
        OpenFault<M, B>,
    >
        requires named { HaveNames self.queues self.channel P.ordinary P.reserve T.turns T.key }
        ensures seats { IfOk result (λ opened. vec_len opened.1 ≡ 64) }
        ensures base { IfOk result (λ opened. opened.0.base ≡ record { version = self.named.mounted.image.version; total = self.named.mounted.image.total }) }
        ensures passes { IfOk result (λ opened. map (λ pass. (pass.number, pass.file)) opened.2.items
            ≡ image_files self.named.mounted.geometry self.named.mounted.image (bytes_at B.content_of self.named.mounted.parts.blocks.items)) }
        ensures back { IfErr result (λ fault. fault.parts ≡ self.named.mounted.parts) }
        ensures error { IfErr result (λ fault. fault.error ≡ NoMemory) }
    {
        let MountedQueues {
            named,
            channel,
            queues,
        } = self;
        let NamedMount { mounted, names: _ } = named;
        let Mounted {
            device,
            tables,
            alloc,
        } = mounted;
        let MountTables {
            books,
            permits,
            words,
            seats,
            checkpoint,
            rows,
            memory,
        } = tables;
        let geometry = device.packs.geometry;
        let frames = match MountFrames::new(alloc, &geometry, seats) {
            Ok(frames) => frames,
            Err(error) => {
                free_memory(&geometry, &device.image, memory);
                let parts = device.into_parts();
                return Err(OpenFault { parts, error });
            }
        };
        let (turnstile, all) = channel.named::<T>(books, permits);
        let (pool, pass) = queues.named::<P>();
        let VolumeRows { parts, body } = rows;
        let tables = NamedTables {
            turnstile,
            words,
            pool,
            pass,
            parts,
        };
        let rights = PacksRights { checkpoint, body };
        Ok(put_together(rt, alloc, device, tables, all, rights, memory, frames))
    }
}

// What the lock of the packs has beside them: the right to advance the version, and the body of the last pack.
struct PacksRights {
    checkpoint: CheckpointSeat,
    body: KeptBody,
}

// The volume over a device that was opened, out of its named tables, the rights to it and the memory for it, with its seats and
// passes. It takes no memory.
fn put_together<V: VolumeName, M: Meta, B: Block + Drop, R: Wait>(
    rt: &R,
    alloc: Global,
    device: OpenedDevice<M, B>,
    tables: NamedTables<V>,
    mut all: AllPermits<V::Books, V::Turns>,
    rights: PacksRights,
    memory: VolumeMemory<B>,
    frames: MountFrames<V, B>,
) -> (Volume<V, M, B>, Vec<Seat<V>>, Vec<FilePass<V>>)
    requires geometry { device.packs.geometry ≡ V.Numbers.geometry }
    requires lawful { IsLawful device.packs.geometry (image_view device.image) }
    requires layout { V.Books.books.key ≡ layout_of V.Numbers.geometry }
    requires words { tables.words ≡ record { table = V.Words.words; segments = V.Numbers.geometry.segments } }
    requires slots { V.Pool.ordinary.slots ≡ V.Numbers.geometry.segments }
    requires pass { tables.pass ≡ first_account }
    requires hand { all.hand ≡ at_home V.Books.books.book }
    requires of_rows { rights.body.rows ≡ V.Books.rows }
    requires rows { AreVolumeRows device.packs.geometry (record { parts = tables.parts; body = rights.body }) }
    requires memory { IsMemory device.packs.geometry (image_view device.image) V.Books.books.book V.Words.words memory }
    requires size { HasSize M.seen B.address_of B.content_of device.packs.geometry (record { meta = device.packs.area.meta; blocks = device.blocks }) }
    requires nodes { AreBlocks device.packs.geometry (image_view device.image) (bytes_at B.content_of device.blocks.items) }
    requires front { HasSuper V.Numbers.geometry (M.seen device.packs.area.meta) }
    requires whole { AreWhole M.seen M.may_leave device.packs }
    requires held { Leaves M.may_leave device.packs.area.meta (HoldsTables device.packs.geometry (image_view device.image)) }
    requires version { device.image.version ≡ device.packs.area.version }
    requires checkpoint { (rights.checkpoint.table ≡ V.Words.words) × (rights.checkpoint.version ≡ device.image.version) }
    ensures seats { vec_len result.1 ≡ 64 }
    ensures base { result.0.base ≡ record { version = device.image.version; total = device.image.total } }
    ensures passes { map (λ pass. (pass.number, pass.file)) result.2.items
        ≡ image_files device.packs.geometry (image_view device.image) (bytes_at B.content_of device.blocks.items) }
{
    let MountFrames {
        seats,
        locks,
        spare,
        accounts,
        kept,
    } = frames;
    let OpenedDevice {
        packs,
        mut blocks,
        image,
    } = device;
    let geometry = packs.geometry;
    let base = Base {
        version: image.version,
        total: image.total,
    };
    let LockedVolume {
        area,
        files,
        passes,
        pool_pass,
    } = load_locks(
        rt,
        geometry,
        &image,
        tables,
        &mut all.hand,
        memory,
        &mut blocks,
        locks,
    );
    area.turnstile().scatter(rt, all);
    let packs = lock_packs(packs, &image, rights, pool_pass, kept);
    let spare = keep_rows(spare, accounts, blocks);
    let volume = Volume::of(alloc, area, files, packs, spare, base);
    (volume, seats, passes)
}

// The packs of a volume whose pool has the slip of each segment that is free in its image, with room to keep those that it will not
// take.
fn lock_packs<V: VolumeName, M: Meta>(
    packs: ImagePacks<M>,
    image: &Image,
    rights: PacksRights,
    pass: PoolPass<V::Words, V::Pool>,
    kept: Vec<FreeSlip>,
) -> PacksCell<V, M>
    requires size { length (M.seen packs.area.meta) ≡ meta_bytes V.Numbers.geometry }
    requires numbers { packs.geometry ≡ V.Numbers.geometry }
    requires words { rights.checkpoint.table ≡ V.Words.words }
    requires whole { AreWhole M.seen M.may_leave packs }
    requires front { HasSuper V.Numbers.geometry (M.seen packs.area.meta) }
    requires lawful { IsLawful packs.geometry (image_view image.now) }
    requires held { Leaves M.may_leave packs.area.meta (HoldsTables packs.geometry (image_view image.now)) }
    requires free { HasPutFree packs.geometry (image_view image.now) pass }
    requires complete { rights.checkpoint.version ≡ packs.area.version }
    requires none { kept.items ≡ [] }
    requires room { V.Numbers.geometry.segments ≤ vec_capacity kept }
    requires rows { rights.body.rows ≡ V.Books.rows }
    requires body_numbers { rights.body.geometry ≡ V.Numbers.geometry }
    requires touched { (k : ℕ) → k < map_pages → has_page rights.body.body.touched k ≡ true }
{
    let _image = image;
    let PacksRights { checkpoint, body } = rights;
    PacksCell::of(packs, checkpoint, pass, kept, body)
}

// The rows in which a close gives all back, with the one that the blocks of the device came in.
fn keep_rows<V: VolumeName, B: Block + Drop>(
    rows: SpareRows<B>,
    accounts: Vec<FileAccount>,
    blocks: Vec<B>,
) -> SpareCell<V, B>
    requires room { V.Numbers.geometry.segments ≤ vec_capacity rows.segments }
    requires none { vec_len blocks ≡ 0 }
    requires fit { block_count V.Numbers.geometry ≤ vec_capacity blocks }
    requires no_accounts { vec_len accounts ≡ 0 }
    requires accounts_fit { V.Numbers.geometry.files ≤ vec_capacity accounts }
{
    SpareCell {
        rows: rows.with_blocks(blocks),
        accounts,
    }
}
