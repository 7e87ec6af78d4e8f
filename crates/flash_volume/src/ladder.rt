//! A device's volume is mounted, visited and left: a function for each step of the mount, so that names are picked between them.
ghost use Rattle.std.specs.Prelude.{◌≡◌, ℕ, IfOk, IfErr};
ghost use Rattle.device.specs.Parts.{IsBlockRun};
ghost use Rattle.flash_volume.specs.Refused.{HandsBack};
ghost use Rattle.flash_volume.specs.Visited.{VisitedFrom, VisitedOn};
ghost use Rattle.flash_volume.specs.Worked.{WasWorked};
ghost use Rattle.geometry.specs.declared.error.Error.TheVariants.{NoMemory};
ghost use Rattle.image_codec.specs.Blocks.{bytes_at};
ghost use Rattle.volume.specs.Picked.{HaveNames};

use crate::leave::{Done, Leave, LeaveFault};
use crate::leaving::visit_and_leave;
use crate::mounting::mount_parts;
use crate::rights::Rights;
use crate::visit::Visit;
use area::HoleReuse;
use device::{Block, Meta, Parts};
use mount::{Mounted, MountedQueues};
use mount_reading::OpenFault;
use rights_permits::{BooksOf, NumbersOf, PoolName, TablesName, TurnName, WordsOf};
use std::alloc::Global;
use std::marker::Brand;
use std::sync::Wait;

/// Mounts the volume of a device, which threads by this rule, visits it, and leaves it, as `work_on`. What the visit promises holds of the
/// image that the parts had.
///
/// The outer error is a refusal of the parts, as a mount's, and hands them back as they were: the pack that counted counts, but after
/// Device, and where a crash left one pack or the next, a crash at any moment of the call does too. The inner one is a fault of the visit or
/// of the close.
pub fn visit_volume<M: Meta, B: Block + Drop, R: Wait, X: Visit<M, B> + Drop>(
    rt: &R,
    alloc: Global,
    parts: Parts<M, B>,
    hole_reuse: HoleReuse,
    leave: Leave,
    visit: X,
) -> Result<Result<Done<M, B, X::Output>, LeaveFault<M, B>>, OpenFault<M, B>>
    requires run { (bytes : ℕ) × IsBlockRun B.address_of B.content_of bytes 1 parts.blocks.items }
    ensures done { IfOk result (VisitedOn M.seen B.address_of B.content_of (λ geometry base before left. WasWorked M.seen M.may_leave B.address_of B.content_of (λ output after. X.did visit geometry base before output after) (λ error. X.failed visit geometry base before error) leave geometry left) parts) }
    ensures handed_back { IfErr result (λ fault. HandsBack M.seen M.may_leave M.moment M.left_since M.failed B.address_of B.content_of B.failed parts fault.parts fault.error) }
{
    match mount_parts(alloc, parts) {
        Ok(mounted) => on_mounted::<Brand, M, B, R, X>(
            rt, alloc, mounted, hole_reuse, leave, visit,
        ),
        Err(fault) => Err(fault),
    }
}

fn on_mounted<K: TablesName, M: Meta, B: Block + Drop, R: Wait, X: Visit<M, B> + Drop>(
    rt: &R,
    alloc: Global,
    mounted: Mounted<M, B>,
    hole_reuse: HoleReuse,
    leave: Leave,
    visit: X,
) -> Result<Result<Done<M, B, X::Output>, LeaveFault<M, B>>, OpenFault<M, B>>
    requires books { mounted.books ≡ K.books }
    requires rows { mounted.rows ≡ K.rows }
    requires words { mounted.words ≡ K.words }
    requires geometry { mounted.geometry ≡ K.geometry }
    ensures done { IfOk result (VisitedFrom (λ geometry base before left. WasWorked M.seen M.may_leave B.address_of B.content_of (λ output after. X.did visit geometry base before output after) (λ error. X.failed visit geometry base before error) leave geometry left) mounted.geometry mounted.image (bytes_at B.content_of mounted.parts.blocks.items)) }
    ensures back { IfErr result (λ fault. fault.parts ≡ mounted.parts) }
    ensures error { IfErr result (λ fault. fault.error ≡ NoMemory) }
{
    match mounted.name::<BooksOf<K>, WordsOf<K>, NumbersOf<K>>() {
        Ok(opened) => on_opened::<K, Brand, Brand, M, B, R, X>(
            rt, alloc, opened, hole_reuse, leave, visit,
        ),
        Err(fault) => Err(fault),
    }
}

fn on_opened<
    K: TablesName,
    P: PoolName,
    T: TurnName,
    M: Meta,
    B: Block + Drop,
    R: Wait,
    X: Visit<M, B> + Drop,
>(
    rt: &R,
    alloc: Global,
    opened: MountedQueues<BooksOf<K>, WordsOf<K>, NumbersOf<K>, M, B>,
    hole_reuse: HoleReuse,
    leave: Leave,
    visit: X,
) -> Result<Result<Done<M, B, X::Output>, LeaveFault<M, B>>, OpenFault<M, B>>
    requires named { HaveNames opened.queues opened.channel P.ordinary P.reserve T.turns T.key }
    ensures done { IfOk result (VisitedFrom (λ geometry base before left. WasWorked M.seen M.may_leave B.address_of B.content_of (λ output after. X.did visit geometry base before output after) (λ error. X.failed visit geometry base before error) leave geometry left) opened.named.mounted.geometry opened.named.mounted.image (bytes_at B.content_of opened.named.mounted.parts.blocks.items)) }
    ensures back { IfErr result (λ fault. fault.parts ≡ opened.named.mounted.parts) }
    ensures error { IfErr result (λ fault. fault.error ≡ NoMemory) }
{
    match opened.name::<P, T, R>(rt) {
        Ok((volume, seats, passes)) => {
            let volume = volume.with_hole_reuse(rt, hole_reuse);
            let rights = Rights { seats, passes };
            Ok(visit_and_leave(rt, alloc, volume, rights, leave, visit))
        }
        Err(fault) => Err(fault),
    }
}
