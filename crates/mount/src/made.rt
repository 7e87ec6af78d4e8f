//! All that is made for a volume out of an image before a block moves.
ghost use Rattle.std.specs.Prelude.{◌≡◌, ◌<◌, length, replicate, vec_len, IfOk, IfErr};
ghost use Rattle.atomic_table.specs.Seated.{TableId};
ghost use Rattle.geometry.specs.declared.error.Error.TheVariants.{NoMemory};
ghost use Rattle.image.specs.Rules.{IsLawful};
ghost use Rattle.image.specs.View.{image_view};
ghost use Rattle.mount.specs.Made.{AreTables, AreVolumeRows, IsMemory};
ghost use Rattle.mount_blocks.specs.Rights.{AreRights};
ghost use Rattle.rights_books.specs.Accounts.{AreEmptySegments};
ghost use Rattle.rights_permits.specs.Names.{layout_of};
ghost use Rattle.words.specs.Tokens.{fresh_holder};

use crate::goods::{Goods, free_goods, new_goods};
use crate::loading_all::VolumeMemory;
use crate::shards::new_shards;
use area::{new_rooms, store_slips};
use checkpoint_image::KeptBody;
use device::Block;
use geometry::{Error, Geometry};
use image::Image;
use mount_blocks::{LoadedSegments, SegmentMemory, SegmentRights};
use nat::SHARDS;
use rights_books::{
    Books, DealtBooks, Layout, OpenedRows, PartAccount, Permits, Rows, SegmentAccount,
};
use std::alloc::Global;
use words::{CheckpointSeat, Dealt, SEATS, SeatToken, Words};

/// The books, the words and the rows of a volume out of an image, whose version is complete, with the rights to them; and the memory of
/// its segments, its shards and its files.
pub struct MountTables<B: Block + Drop> {
    pub books: Books,
    pub permits: Permits,
    pub words: Words,
    pub seats: Vec<SeatToken>,
    pub checkpoint: CheckpointSeat,
    pub rows: VolumeRows,
    pub memory: VolumeMemory<B>,
}

/// The rows of a volume's parts, its segments first and then its shards, of which nothing was spelled.
#[derive(Drop)]
pub struct VolumeRows {
    /// The account of each part, the last one first.
    pub parts: Vec<PartAccount>,
    /// The body of the packs, with the twins of these.
    pub body: KeptBody,
}

impl<B: Block + Drop> MountTables<B> {
    /// All that a volume out of a lawful image takes. The only error is NoMemory, and then nothing is kept.
    pub fn new(alloc: Global, geometry: &Geometry, image: &Image) -> Result<MountTables<B>, Error>
        requires lawful { IsLawful geometry.now (image_view image.now) }
        requires version { 0 < image.now.version }
        ensures tables { IfOk result (λ tables. AreTables geometry.now (image_view image.now) tables) }
        ensures error { IfErr result (λ error. error ≡ NoMemory) }
    {
        let DealtBooks {
            books,
            permits,
            segments: accounts,
            files,
            shards,
        } = Books::format(alloc, &volume_layout(geometry))?;
        let rows = open_rows(alloc, geometry)?;
        let shards = new_shards(alloc, &books, shards, geometry.nodes)?;
        let room = LoadedSegments::new(alloc, geometry)?;
        let DealtRights {
            words,
            seats,
            checkpoint,
            rights,
        } = deal_rights(alloc, geometry, image.version, accounts)?;
        let Goods {
            rooms,
            tickets,
            tokens,
            files: states,
        } = new_goods(alloc, geometry, image)?;
        Ok(MountTables {
            books,
            permits,
            words,
            seats,
            checkpoint,
            rows,
            memory: VolumeMemory {
                segments: SegmentMemory { rights, room },
                shards,
                accounts: files,
                rooms,
                tickets,
                tokens,
                files: states,
            },
        })
    }
}

// The rows of a volume of these numbers. The only error is NoMemory, and then nothing is kept.
fn open_rows(alloc: Global, geometry: &Geometry) -> Result<VolumeRows, Error>
    ensures rows { IfOk result (AreVolumeRows geometry.now) }
    ensures error { IfErr result (λ error. error ≡ NoMemory) }
{
    let OpenedRows {
        rows,
        mut parts,
        kept: twins,
    } = Rows::open(alloc, geometry.segments + SHARDS)?;
    parts.reverse();
    let body = KeptBody::new(alloc, geometry, rows, twins);
    Ok(VolumeRows { parts, body })
}

// What the books of a volume of these numbers count.
fn volume_layout(geometry: &Geometry) -> Layout
    ensures { result ≡ layout_of geometry.now }
{
    Layout {
        segments: geometry.segments,
        blocks: geometry.shape.segment_blocks(),
        files: geometry.files,
    }
}

// The words of a volume and their seats, with the rights to its segments.
struct DealtRights<B: Block + Drop> {
    words: Words,
    seats: Vec<SeatToken>,
    checkpoint: CheckpointSeat,
    rights: SegmentRights<B>,
}

// Words of which this version is complete, and rights by them to the segments of these accounts, whatever books they are of. The
// only error is NoMemory, and then nothing is kept.
fn deal_rights<B: Block + Drop>(
    alloc: Global,
    geometry: &Geometry,
    version: u32,
    accounts: Vec<SegmentAccount>,
) -> Result<DealtRights<B>, Error>
    requires version { 0 < version }
    requires every_account { vec_len accounts ≡ geometry.now.segments }
    ensures words { IfOk result (λ dealt. dealt.words.segments ≡ geometry.now.segments) }
    ensures seats { IfOk result (λ dealt. dealt.seats.items ≡ replicate 64 (fresh_holder dealt.words.table)) }
    ensures checkpoint { IfOk result (λ dealt. (dealt.checkpoint.table ≡ dealt.words.table) × (dealt.checkpoint.version ≡ version)) }
    ensures every_segment { IfOk result (λ dealt. length dealt.rights.rooms.items ≡ geometry.now.segments) }
    ensures rights { IfOk result (λ dealt. (book : TableId) → AreEmptySegments book accounts.items
        → AreRights geometry.now.shape book dealt.words.table dealt.rights.rooms.items dealt.rights.accounts.items dealt.rights.standings.items dealt.rights.slips.items) }
    ensures error { IfErr result (λ error. error ≡ NoMemory) }
{
    let rooms = new_rooms(alloc, geometry)?;
    let slips = Vec::with_capacity(alloc, geometry.segments as usize)?;
    let Dealt {
        words,
        standings,
        slips: dealt,
        seats,
        checkpoint,
    } = Words::new(alloc, geometry.segments, SEATS, version)?;
    let mut slips = store_slips(&words, dealt, slips);
    slips.reverse();
    let rights = SegmentRights {
        rooms,
        accounts,
        standings,
        slips,
    };
    Ok(DealtRights {
        words,
        seats,
        checkpoint,
        rights,
    })
}

/// Frees the memory of a volume out of a lawful image, before anything has come into it.
pub fn free_memory<B: Block + Drop>(geometry: &Geometry, image: &Image, memory: VolumeMemory<B>)
    requires { (book : TableId) × (table : TableId) × IsMemory geometry.now (image_view image.now) book table memory }
{
    let VolumeMemory {
        segments: _,
        shards: _,
        accounts: _,
        rooms,
        tickets,
        tokens,
        files,
    } = memory;
    let goods = Goods {
        rooms,
        tickets,
        tokens,
        files,
    };
    free_goods(geometry, image, goods);
}
