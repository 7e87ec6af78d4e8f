//! How a script comes to its volume again: the device is mounted, the steps are run, and the volume is left.
ghost use Rattle.std.specs.Prelude.{◌≡◌, ℕ, false, IfErr, IfOk};
ghost use Rattle.device.specs.Parts.{IsBlockRun};
ghost use Rattle.program_run.specs.Ending.{WentOn};
ghost use Rattle.program_run.specs.Run.{names_line};

use crate::gate::Gate;
use crate::scheduler::{Halt, Ran, RunningScript};
use crate::setting::Setting;
use crate::steps::Carried;
use crate::stop::Stop;
use flash_volume::{Block, Done, Meta, Parts, SharedBlock, visit_by_rounds};
use program_script::Step;
use std::alloc::Global;
use std::io::Write;
use std::sync::Wait;
use std::thread::Threads;

/// A device whose volume was left: how many steps were run, and what the script carries on. All were run, or the next one
/// mounts the device again.
pub struct Left<M: Meta, B: Block> {
    pub parts: Parts<M, B>,
    pub run: usize,
    pub carried: Carried,
}

/// Mounts the parts of a device, runs the steps on its volume, and leaves it.
pub fn run_mounted<
    M: Meta + Drop + Send,
    B: SharedBlock,
    R: Threads + Wait + Sync,
    G: Gate + Sync,
    O: Write,
>(
    rt: &R,
    alloc: Global,
    parts: Parts<M, B>,
    carried: Carried,
    steps: &[Step],
    setting: &Setting<'_, G>,
    out: &mut O,
) -> Result<Left<M, B>, Stop>
    requires run { (bytes : ℕ) × IsBlockRun B.address_of B.content_of bytes 1 parts.blocks.items }
    ensures done { IfOk result (λ left. WentOn M.seen B.address_of B.content_of parts steps.now carried left (O.contents out.old) (O.contents out.new)) }
    ensures err { IfErr result (λ stop. names_line stop ≡ false) }
{
    let script = RunningScript {
        steps,
        begun: None,
        carried,
        setting,
        out: &mut *out,
    };
    seen_law::<M>();
    match visit_by_rounds(rt, alloc, parts, setting.hole_reuse, script) {
        Ok(left) => match left {
            Ok(done) => {
                let Done { parts, output } = done;
                let Ran { out: writer, halt } = output;
                // No effect at run time. The proof reads what `out` holds from this use of `writer`.
                let _ = &*writer;
                let Halt { run, carried } = halt?;
                Ok(Left {
                    parts,
                    run,
                    carried,
                })
            }
            Err(fault) => Err(Stop::Refused(fault.error)),
        },
        Err(fault) => Err(Stop::Refused(fault.error)),
    }
}

// What a meta area shows is among what a crash may leave of it. It runs nothing: its contract is the law.
fn seen_law<M: Meta>()
    ensures { (meta : M) → M.may_leave meta (M.seen meta) }
{}
