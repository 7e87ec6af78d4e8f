//! A device that holds a volume, and all that is made for the volume while its tables have no name.
ghost use Rattle.std.specs.Prelude.{◌≡◌, ◌≢◌, ◌⊎◌, ◌<◌, ℕ, IfOk, IfErr};
ghost use Rattle.device.specs.Disk.{Leaves};
ghost use Rattle.device.specs.Parts.{IsBlockRun, HasSize};
ghost use Rattle.mount_reading.specs.Held.{HoldsImage, IsPartsRefusal, AreSameParts, KeepsPack, KeepsBetween};
ghost use Rattle.geometry.specs.declared.error.Error.TheVariants.{NoMemory, Device};
ghost use Rattle.image.specs.Rules.{IsLawful};
ghost use Rattle.geometry.specs.Weights.{weigh};
ghost use Rattle.pack_tables.specs.Grammar.{HasSuper};
ghost use Rattle.pack_tables.specs.Holding.{HoldsTables};

use crate::{MountTables, free_memory};
use device::{Block, Meta, Parts};
use geometry::Error;
use mount_reading::{OpenFault, OpenedDevice, open_device};
use rights_permits::{BooksName, GeometryName, OpenedTurnstile, WordsName};
use std::alloc::Global;
use std::marker::{Model, PhantomData};
use volume::open_queues;

/// A device that holds a lawful image, and all that is made for its volume and has no name, `{ geometry; books; rows; words;
/// image; parts }` to contracts: names are picked by the first four, and `parts` is the device.
pub struct Mounted<M: Meta, B: Block + Drop> {
    pub(crate) device: OpenedDevice<M, B>,
    pub(crate) tables: MountTables<B>,
    pub(crate) alloc: Global,
}

impl<M: Meta, B: Block + Drop> Model for Mounted<M, B> {
    ghost use Rattle.image.specs.View.{image_view};
    ghost use Rattle.mount.specs.Mounted.{MountView, IsMounted};

    ghost Value = { MountView M B };

    ghost view = { λ m. record {
      geometry = m.device.packs.geometry;
      books = m.tables.books;
      rows = m.tables.rows.body.rows;
      words = m.tables.words.table;
      image = image_view m.device.image;
      parts = record { meta = m.device.packs.area.meta; blocks = m.device.blocks };
    } };

    ghost invariant = { λ m. IsMounted M.seen M.may_leave B.address_of B.content_of m.device m.tables };
}

/// Opens the parts of a device with any bytes in them, and makes all that their volume takes and has no name (Linux
/// `filesystems/f2fs`). The blocks are all of one length.
///
/// Answers BadGeometry where the meta area begins with no superblock, also where it has fewer than 64 bytes; then BadImage(1)
/// where the parts have another size than it tells; then NoPack where neither pack is sound; then BadImage with the least fault
/// that is there. Answers Device where the device failed, which counted it, and NoMemory where a growth was refused. Each hands
/// the parts back, with the same blocks and superblock, and after each but Device the pack that counted counts. Where a crash
/// left one pack or the next, a crash at any moment of the call does too.
pub fn mount<M: Meta, B: Block + Drop>(
    alloc: Global,
    parts: Parts<M, B>,
) -> Result<Mounted<M, B>, OpenFault<M, B>>
    requires run { (bytes : ℕ) × IsBlockRun B.address_of B.content_of bytes 1 parts.blocks.items }
    ensures front { IfOk result (λ mounted. HasSuper mounted.geometry (M.seen parts.meta)) }
    ensures size { IfOk result (λ mounted. HasSize M.seen B.address_of B.content_of mounted.geometry parts) }
    ensures image { IfOk result (λ mounted. HoldsImage M.seen B.content_of mounted.geometry parts mounted.image) }
    ensures lawful { IfOk result (λ mounted. IsLawful mounted.geometry mounted.image) }
    // A crash right after finds the same image.
    ensures held { IfOk result (λ mounted. Leaves M.may_leave mounted.parts.meta (HoldsTables mounted.geometry mounted.image)) }
    ensures parts { IfOk result (λ mounted. AreSameParts M.seen B.address_of B.content_of parts mounted.parts) }
    ensures refused { IfErr result (λ fault. IsPartsRefusal M.seen B.address_of B.content_of parts fault.error) }
    ensures device { IfErr result (λ fault. fault.error ≡ Device → (M.failed parts.meta < M.failed fault.parts.meta)
        ⊎ (weigh B.failed parts.blocks.items < weigh B.failed fault.parts.blocks.items)) }
    ensures back { IfErr result (λ fault. AreSameParts M.seen B.address_of B.content_of parts fault.parts) }
    ensures kept { IfErr result (λ fault. fault.error ≢ Device → KeepsPack M.seen parts.meta fault.parts.meta) }
    ensures any_moment { IfOk result (λ mounted. KeepsBetween M.seen M.may_leave M.moment M.left_since parts.meta mounted.parts.meta) }
    ensures any_moment_err { IfErr result (λ fault. KeepsBetween M.seen M.may_leave M.moment M.left_since parts.meta fault.parts.meta) }
{
    let device = match open_device(alloc, parts) {
        Ok(device) => device,
        Err(fault) => return Err(fault),
    };
    match MountTables::new(alloc, &device.packs.geometry, &device.image) {
        Ok(tables) => Ok(Mounted {
            device,
            tables,
            alloc,
        }),
        Err(error) => Err(OpenFault {
            parts: device.into_parts(),
            error,
        }),
    }
}

/// The same under the names of its books, its words and its numbers.
pub struct NamedMount<L: BooksName, W: WordsName, N: GeometryName, M: Meta, B: Block + Drop> {
    pub mounted: Mounted<M, B>,
    pub(crate) names: PhantomData<(L, W, N)>,
    pub ghost of_books: { mounted.books ≡ L.books },
    pub ghost of_rows: { mounted.rows ≡ L.rows },
    pub ghost of_words: { mounted.words ≡ W.words },
    pub ghost of_geometry: { mounted.geometry ≡ N.geometry },
}

/// The same with the channel of permits and the queues of free segments, by which the last names are picked.
pub struct MountedQueues<L: BooksName, W: WordsName, N: GeometryName, M: Meta, B: Block + Drop> {
    pub named: NamedMount<L, W, N, M, B>,
    pub channel: OpenedTurnstile<L>,
    pub queues: pool::OpenedPool<W>,
    pub ghost slots: { queues.ordinary.slots ≡ named.mounted.geometry.segments },
}

impl<M: Meta, B: Block + Drop> Mounted<M, B> {
    /// The same under the names of its books, its words and its numbers, with the two queues of free segments and the channel
    /// of permits.
    ///
    /// The only error is NoMemory, and hands the parts back.
    pub fn name<L: BooksName, W: WordsName, N: GeometryName>(
        self,
    ) -> Result<MountedQueues<L, W, N, M, B>, OpenFault<M, B>>
        requires books { self.books ≡ L.books }
        requires rows { self.rows ≡ L.rows }
        requires words { self.words ≡ W.words }
        requires geometry { self.geometry ≡ N.geometry }
        ensures mounted { IfOk result (λ opened. opened.named.mounted ≡ self) }
        ensures back { IfErr result (λ fault. fault.parts ≡ self.parts) }
        ensures error { IfErr result (λ fault. fault.error ≡ NoMemory) }
    {
        match open_queues::<L, W>(self.alloc, self.device.packs.geometry.segments) {
            Ok((channel, queues)) => {
                let named = NamedMount {
                    mounted: self,
                    names: PhantomData,
                };
                Ok(MountedQueues {
                    named,
                    channel,
                    queues,
                })
            }
            Err(error) => Err(OpenFault {
                parts: self.into_parts(),
                error,
            }),
        }
    }

    // Frees all but the device.
    fn into_parts(self) -> Parts<M, B>
        ensures { result ≡ self.parts }
    {
        let Mounted {
            device,
            tables,
            alloc: _,
        } = self;
        let MountTables {
            books: _,
            permits: _,
            words: _,
            seats: _,
            checkpoint: _,
            rows: _,
            memory,
        } = tables;
        free_memory(&device.packs.geometry, &device.image, memory);
        device.into_parts()
    }
}
