//! Work for which room is made where a volume has none.
ghost use Rattle.std.specs.Prelude.{ℕ, IfOk, IfErr};
ghost use Rattle.device.specs.Parts.{IsBlockRun};

use crate::room::MakeRoom;
use flash_volume::{
    Block, Done, Error, Leave, LeaveFault as VolumeFault, Meta, Parts, Work, work_on,
};
use std::sync::Wait;

/// Does work, and closes. Where there is no room, it is made for a file of so many bytes, and where some was won, the work is tried once
/// more. The faults are those of `work_on`; with NoSpace the volume is as it was, but for what cleaning moved.
pub fn work_making_room<
    M: Meta,
    B: Block + Drop,
    R: AllocGlobal + Wait,
    W: Work<M, B> + Copy + Drop,
>(
    rt: &R,
    parts: Parts<M, B>,
    work: W,
    bytes: u64,
    now: u64,
) -> Result<Done<M, B, W::Output>, VolumeFault<M, B>>
    requires run { (bytes : ℕ) × IsBlockRun B.address_of B.content_of bytes 1 parts.blocks.items }
    ensures run { IfOk result (λ done. (bytes : ℕ) × IsBlockRun B.address_of B.content_of bytes 1 done.parts.blocks.items) }
    ensures after_fault { IfErr result (λ fault. (bytes : ℕ) × IsBlockRun B.address_of B.content_of bytes 1 fault.parts.blocks.items) }
{
    let fault = match work_on(rt, rt.alloc(), parts, Leave::Close, work) {
        Ok(done) => return Ok(done),
        Err(fault) => fault,
    };
    if fault.error != Error::NoSpace {
        return Err(fault);
    }
    let parts = win_room(rt, fault, bytes, now)?;
    work_on(rt, rt.alloc(), parts, Leave::Close, work)
}

// Makes room on the volume of a fault. Where none was won, the fault stays.
fn win_room<M: Meta, B: Block + Drop, R: AllocGlobal + Wait>(
    rt: &R,
    fault: VolumeFault<M, B>,
    bytes: u64,
    now: u64,
) -> Result<Parts<M, B>, VolumeFault<M, B>>
    requires run { (bytes : ℕ) × IsBlockRun B.address_of B.content_of bytes 1 fault.parts.blocks.items }
    ensures run { IfOk result (λ parts. (bytes : ℕ) × IsBlockRun B.address_of B.content_of bytes 1 parts.blocks.items) }
    ensures after_fault { IfErr result (λ fault. (bytes : ℕ) × IsBlockRun B.address_of B.content_of bytes 1 fault.parts.blocks.items) }
{
    let VolumeFault {
        parts,
        stage,
        error,
    } = fault;
    // Each section is followed by a checkpoint, so nothing is lost, and none is written where there is nothing to win.
    match work_on(
        rt,
        rt.alloc(),
        parts,
        Leave::Discard,
        MakeRoom { bytes, now },
    ) {
        Ok(done) => {
            let Done { parts, output } = done;
            if output.sections > 0 {
                Ok(parts)
            } else {
                Err(VolumeFault {
                    parts,
                    stage,
                    error,
                })
            }
        }
        // The checkpoints before the one that was refused are there.
        Err(fault) if fault.error == Error::NoSpace => Ok(fault.parts),
        Err(fault) => Err(fault),
    }
}
