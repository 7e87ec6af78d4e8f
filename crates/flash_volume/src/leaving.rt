//! A volume is worked on, and left.
ghost use Rattle.std.specs.Prelude.{◌≡◌, [], IfOk, IfErr, vec_len};
ghost use Rattle.flash_volume.specs.Rounds.{WasScheduled};
ghost use Rattle.flash_volume.specs.Worked.{AreClosed, AreGivenUp, AreLeft, IsNotClosed, WasWorked};
ghost use Rattle.flash_volume.specs.declared.leave.Stage.TheVariants.{Work as AtWork, Close as AtClose};

use crate::block::SharedBlock;
use crate::leave::{Done, Leave, LeaveFault, Stage};
use crate::rights::Rights;
use crate::rounds::run_rounds;
use crate::scheduler::{ScheduledPart, Scheduler};
use crate::visit::Visit;
use device::{Block, Meta, Parts};
use geometry::Error;
use rights_permits::VolumeName;
use std::alloc::Global;
use std::sync::Wait;
use std::thread::Threads;
use volume::{CloseFault, Closed, SharedName, Volume};

// Visits a volume, and leaves it. Where the visit is refused, nothing more is written.
pub(crate) fn visit_and_leave<V: VolumeName, M: Meta, B: Block + Drop, R: Wait, X: Visit<M, B>>(
    rt: &R,
    alloc: Global,
    volume: Volume<V, M, B>,
    rights: Rights<V>,
    leave: Leave,
    visit: X,
) -> Result<Done<M, B, X::Output>, LeaveFault<M, B>>
    ensures { WasWorked M.seen M.may_leave B.address_of B.content_of (λ output after. X.did visit V.Numbers.geometry volume.base rights.passes.items output after) (λ error. X.failed visit V.Numbers.geometry volume.base rights.passes.items error) leave V.Numbers.geometry result }
{
    let mut rights = rights;
    match visit.visit(rt, alloc, &volume, &mut rights) {
        Ok(output) => leave_with(rt, volume, rights, leave, output),
        Err(error) => Err(give_up(rt, volume, error)),
    }
}

// Runs the rounds of a scheduler on a volume, and leaves it. Where one is refused, nothing more is written.
pub(crate) fn run_rounds_and_leave<
    V: SharedName,
    M: Meta + Send,
    B: SharedBlock,
    R: Threads + Wait + Sync,
    X: Scheduler<M, B> + Drop,
>(
    rt: &R,
    alloc: Global,
    volume: Volume<V, M, B>,
    rights: Rights<V>,
    scheduler: X,
) -> Result<Done<M, B, X::Output>, LeaveFault<M, B>>
where
    X::Part: Send + Drop,
    <X::Part as ScheduledPart<M, B>>::Done: Send,
    requires { X.fits scheduler V.Numbers.geometry (record { passes = rights.passes.items; seats = vec_len rights.seats; readers = [] }) [] }
    ensures { WasScheduled M.seen M.may_leave B.address_of B.content_of (X.did scheduler V.Numbers.geometry volume.base (record { passes = rights.passes.items; seats = vec_len rights.seats; readers = [] }) []) (X.failed scheduler V.Numbers.geometry volume.base (record { passes = rights.passes.items; seats = vec_len rights.seats; readers = [] }) []) V.Numbers.geometry result }
{
    match run_rounds(rt, alloc, &volume, rights, scheduler) {
        Ok((rights, output, leave)) => leave_with(rt, volume, rights, leave, output),
        Err(error) => Err(give_up(rt, volume, error)),
    }
}

// Leaves a volume on which work was done, which answered this.
pub(crate) fn leave_with<V: VolumeName, M: Meta, B: Block + Drop, R: Wait, O: Drop>(
    rt: &R,
    volume: Volume<V, M, B>,
    rights: Rights<V>,
    leave: Leave,
    output: O,
) -> Result<Done<M, B, O>, LeaveFault<M, B>>
    ensures output { IfOk result (λ done. done.output ≡ output) }
    ensures left { IfOk result (λ done. AreLeft M.seen M.may_leave B.address_of B.content_of leave V.Numbers.geometry rights.passes.items done.parts) }
    ensures given_up { IfErr result (λ fault. AreGivenUp M.seen M.may_leave B.address_of B.content_of V.Numbers.geometry fault.parts) }
    ensures stage { IfErr result (λ fault. fault.stage ≡ AtClose) }
    ensures error { IfErr result (λ fault. IsNotClosed fault.error) }
{
    match leave_volume(rt, volume, rights, leave) {
        Ok(parts) => Ok(Done { parts, output }),
        Err(fault) => Err(fault),
    }
}

// Gives a volume up, the work on which was refused: nothing more is written.
pub(crate) fn give_up<V: VolumeName, M: Meta, B: Block + Drop, R: Wait>(
    rt: &R,
    volume: Volume<V, M, B>,
    error: Error,
) -> LeaveFault<M, B>
    ensures given_up { AreGivenUp M.seen M.may_leave B.address_of B.content_of V.Numbers.geometry result.parts }
    ensures stage { result.stage ≡ AtWork }
    ensures error { result.error ≡ error }
{
    LeaveFault {
        parts: volume.discard(rt),
        stage: Stage::Work,
        error,
    }
}

// Leaves a volume.
fn leave_volume<V: VolumeName, M: Meta, B: Block + Drop, R: Wait>(
    rt: &R,
    volume: Volume<V, M, B>,
    rights: Rights<V>,
    leave: Leave,
) -> Result<Parts<M, B>, LeaveFault<M, B>>
    ensures left { IfOk result (AreLeft M.seen M.may_leave B.address_of B.content_of leave V.Numbers.geometry rights.passes.items) }
    ensures given_up { IfErr result (λ fault. AreGivenUp M.seen M.may_leave B.address_of B.content_of V.Numbers.geometry fault.parts) }
    ensures stage { IfErr result (λ fault. fault.stage ≡ AtClose) }
    ensures error { IfErr result (λ fault. IsNotClosed fault.error) }
{
    match leave {
        Leave::Close => close_volume(rt, volume, rights),
        Leave::Discard => Ok(volume.discard(rt)),
    }
}

// Closes a volume. Where that is refused, nothing more is written.
fn close_volume<V: VolumeName, M: Meta, B: Block + Drop, R: Wait>(
    rt: &R,
    volume: Volume<V, M, B>,
    rights: Rights<V>,
) -> Result<Parts<M, B>, LeaveFault<M, B>>
    ensures closed { IfOk result (AreClosed M.seen M.may_leave B.address_of B.content_of V.Numbers.geometry rights.passes.items) }
    ensures given_up { IfErr result (λ fault. AreGivenUp M.seen M.may_leave B.address_of B.content_of V.Numbers.geometry fault.parts) }
    ensures stage { IfErr result (λ fault. fault.stage ≡ AtClose) }
    ensures error { IfErr result (λ fault. IsNotClosed fault.error) }
{
    let Rights { seats, passes } = rights;
    match volume.close(rt, seats, passes) {
        Ok(closed) => {
            let Closed { parts, image: _ } = closed;
            Ok(parts)
        }
        Err(fault) => {
            let CloseFault {
                volume,
                seats: _,
                passes: _,
                error,
            } = fault;
            Err(LeaveFault {
                parts: volume.discard(rt),
                stage: Stage::Close,
                error,
            })
        }
    }
}
