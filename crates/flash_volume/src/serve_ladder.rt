//! A device's volume is mounted, served and left: a function for each step of the mount, as for a visit. They ask for more of a device
//! and of the names, since threads share them.
ghost use Rattle.std.specs.Prelude.{◌≡◌, ℕ, IfOk, IfErr};
ghost use Rattle.device.specs.Parts.{IsBlockRun};
ghost use Rattle.flash_volume.specs.Refused.{HandsBack};
ghost use Rattle.flash_volume.specs.Worked.{WasWorked};
ghost use Rattle.flash_volume.specs.Visited.{VisitedFrom, VisitedOn};
ghost use Rattle.geometry.specs.declared.error.Error.TheVariants.{NoMemory};
ghost use Rattle.image_codec.specs.Blocks.{bytes_at};
ghost use Rattle.volume.specs.Picked.{HaveNames};

use crate::block::SharedBlock;
use crate::leave::{Done, LeaveFault};
use crate::leaving::{give_up, leave_with};
use crate::mounting::mount_parts;
use crate::rights::Rights;
use crate::serve::{Serving, serve_side_by_side};
use crate::service::Service;
use area::HoleReuse;
use device::{Block, Meta, Parts};
use geometry::Error;
use mount::{Mounted, MountedQueues};
use mount_reading::OpenFault;
use rights_permits::{BooksOf, NumbersOf, PoolName, TablesName, TurnName, WordsOf};
use std::alloc::Global;
use std::marker::Brand;
use std::sync::Wait;
use std::thread::Threads;
use volume::{SharedName, Volume};

// Mounts the volume of a device, which threads only while the reserve is full, serves it, and leaves it.
//
// The outer error is a refusal of the parts, as a mount's, and hands them back as they were. The inner one is want of memory, or a fault
// of the close.
pub(crate) fn serve_by<
    M: Meta + Send,
    B: SharedBlock,
    R: Threads + Wait + Sync,
    S: Service<M, B> + Sync,
>(
    rt: &R,
    alloc: Global,
    parts: Parts<M, B>,
    serving: Serving<'_, S>,
) -> Result<Result<Done<M, B, Vec<Result<(), Error>>>, LeaveFault<M, B>>, OpenFault<M, B>>
    requires run { (bytes : ℕ) × IsBlockRun B.address_of B.content_of bytes 1 parts.blocks.items }
    ensures done { IfOk result (VisitedOn M.seen B.address_of B.content_of (λ geometry base before left. WasWorked M.seen M.may_leave B.address_of B.content_of (λ ended after. Unit {0}) (λ error. error ≡ NoMemory) serving.entry.leave geometry left) parts) }
    ensures handed_back { IfErr result (λ fault. HandsBack M.seen M.may_leave M.moment M.left_since M.failed B.address_of B.content_of B.failed parts fault.parts fault.error) }
{
    match mount_parts(alloc, parts) {
        Ok(mounted) => on_mounted::<Brand, M, B, R, S>(rt, alloc, mounted, serving),
        Err(fault) => Err(fault),
    }
}

// The names ask for `Send` and `Sync` since threads share the volume that has them in its type.
fn on_mounted<
    K: TablesName + Send + Sync,
    M: Meta + Send,
    B: SharedBlock,
    R: Threads + Wait + Sync,
    S: Service<M, B> + Sync,
>(
    rt: &R,
    alloc: Global,
    mounted: Mounted<M, B>,
    serving: Serving<'_, S>,
) -> Result<Result<Done<M, B, Vec<Result<(), Error>>>, LeaveFault<M, B>>, OpenFault<M, B>>
    requires books { mounted.books ≡ K.books }
    requires rows { mounted.rows ≡ K.rows }
    requires words { mounted.words ≡ K.words }
    requires geometry { mounted.geometry ≡ K.geometry }
    ensures done { IfOk result (VisitedFrom (λ geometry base before left. WasWorked M.seen M.may_leave B.address_of B.content_of (λ ended after. Unit {0}) (λ error. error ≡ NoMemory) serving.entry.leave geometry left) mounted.geometry mounted.image (bytes_at B.content_of mounted.parts.blocks.items)) }
    ensures back { IfErr result (λ fault. fault.parts ≡ mounted.parts) }
    ensures error { IfErr result (λ fault. fault.error ≡ NoMemory) }
{
    match mounted.name::<BooksOf<K>, WordsOf<K>, NumbersOf<K>>() {
        Ok(opened) => on_opened::<K, Brand, Brand, M, B, R, S>(rt, alloc, opened, serving),
        Err(fault) => Err(fault),
    }
}

fn on_opened<
    K: TablesName + Send + Sync,
    P: PoolName + Send + Sync,
    T: TurnName + Send + Sync,
    M: Meta + Send,
    B: SharedBlock,
    R: Threads + Wait + Sync,
    S: Service<M, B> + Sync,
>(
    rt: &R,
    alloc: Global,
    opened: MountedQueues<BooksOf<K>, WordsOf<K>, NumbersOf<K>, M, B>,
    serving: Serving<'_, S>,
) -> Result<Result<Done<M, B, Vec<Result<(), Error>>>, LeaveFault<M, B>>, OpenFault<M, B>>
    requires named { HaveNames opened.queues opened.channel P.ordinary P.reserve T.turns T.key }
    ensures done { IfOk result (VisitedFrom (λ geometry base before left. WasWorked M.seen M.may_leave B.address_of B.content_of (λ ended after. Unit {0}) (λ error. error ≡ NoMemory) serving.entry.leave geometry left) opened.named.mounted.geometry opened.named.mounted.image (bytes_at B.content_of opened.named.mounted.parts.blocks.items)) }
    ensures back { IfErr result (λ fault. fault.parts ≡ opened.named.mounted.parts) }
    ensures error { IfErr result (λ fault. fault.error ≡ NoMemory) }
{
    match opened.name::<P, T, R>(rt) {
        Ok((volume, seats, passes)) => {
            let volume = volume.with_hole_reuse(rt, HoleReuse::WhileReserveIsFull);
            let rights = Rights { seats, passes };
            Ok(serve_and_leave(rt, alloc, volume, rights, serving))
        }
        Err(fault) => Err(fault),
    }
}

// Serves a volume, and leaves it. Where memory is wanting, nothing more is written.
fn serve_and_leave<
    V: SharedName,
    M: Meta + Send,
    B: SharedBlock,
    R: Threads + Wait + Sync,
    S: Service<M, B> + Sync,
>(
    rt: &R,
    alloc: Global,
    volume: Volume<V, M, B>,
    rights: Rights<V>,
    serving: Serving<'_, S>,
) -> Result<Done<M, B, Vec<Result<(), Error>>>, LeaveFault<M, B>>
    ensures { WasWorked M.seen M.may_leave B.address_of B.content_of (λ ended after. Unit {0}) (λ error. error ≡ NoMemory) serving.entry.leave V.Numbers.geometry result }
{
    let leave = serving.leave;
    match serve_side_by_side(rt, alloc, &volume, rights, serving) {
        Ok((rights, output)) => leave_with(rt, volume, rights, leave, output),
        Err(error) => Err(give_up(rt, volume, error)),
    }
}
