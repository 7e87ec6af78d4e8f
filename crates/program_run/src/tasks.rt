//! What a worker does.
ghost use Rattle.std.specs.Prelude.{◌≡◌, OnOk};
ghost use Rattle.program_run.specs.Work.{Wrote};
ghost use Rattle.program_run.specs.Tasks.{TaskWrites, TasksWrite};

use crate::calls::Calls;
use crate::gate::Gate;
use crate::worker_lines::{tell_done, tell_read, tell_refusal};
use crate::{Session, run_work};
use flash_volume::{Block, Meta, VolumeName};
use program_script::{WorkerDeed, WorkerTask};
use std::io;
use std::io::Write;
use std::sync::Wait;

/// Does a worker's tasks in order on its share, and writes what it tells of them.
pub(crate) fn run_tasks<V: VolumeName, M: Meta, B: Block + Drop, R: Wait, G: Gate, W: Write>(
    rt: &R,
    calls: &mut Calls<'_, G>,
    share: &mut Session<'_, V, M, B>,
    tasks: &[WorkerTask],
    out: &mut W,
) -> io::Result<()>
    ensures { OnOk result (Wrote (TasksWrite calls.old.worker tasks.now share.old share.new) (W.contents out.old) (W.contents out.new)) }
{
    for task in tasks {
        run_task(rt, calls, share, task.work, out)?;
    }
    Ok(())
}

// Does a task, and writes what a worker tells of it.
fn run_task<V: VolumeName, M: Meta, B: Block + Drop, R: Wait, G: Gate, W: Write>(
    rt: &R,
    calls: &mut Calls<'_, G>,
    share: &mut Session<'_, V, M, B>,
    work: WorkerDeed,
    out: &mut W,
) -> io::Result<()>
    ensures worker { calls.new.worker ≡ calls.old.worker }
    ensures told { OnOk result (Wrote (TaskWrites calls.old.worker work share.old share.new) (W.contents out.old) (W.contents out.new)) }
{
    let worker = calls.worker;
    match work {
        WorkerDeed::Write { file, index, byte } => {
            tell_done(worker, calls.write(rt, share, file, index, byte), out)
        }
        WorkerDeed::Fill {
            file,
            first,
            last,
            byte,
        } => tell_done(worker, calls.fill(rt, share, file, first, last, byte), out),
        WorkerDeed::Read { file, index } => {
            tell_read(worker, file, index, calls.read(rt, share, file, index), out)
        }
        WorkerDeed::Cut { file, length } => {
            tell_done(worker, calls.cut(rt, share, file, length), out)
        }
        WorkerDeed::Clean(cleaning) => tell_done(worker, calls.clean(rt, share, cleaning), out),
        WorkerDeed::Sync => tell_done(worker, calls.sync(rt, share), out),
        WorkerDeed::Look { reader } => look(rt, calls, share, reader, out),
    }
}

// Writes what a reader shows, or a refusal where no such reader is open.
fn look<V: VolumeName, M: Meta, B: Block + Drop, R: Wait, G: Gate, W: Write>(
    rt: &R,
    calls: &mut Calls<'_, G>,
    share: &mut Session<'_, V, M, B>,
    reader: u32,
    out: &mut W,
) -> io::Result<()>
    ensures worker { calls.new.worker ≡ calls.old.worker }
    ensures told { OnOk result (Wrote (TaskWrites calls.old.worker (WorkerDeed.Look reader) share.old share.new) (W.contents out.old) (W.contents out.new)) }
{
    calls.begin();
    let told = match share.shown_length(reader) {
        Ok(_) => run_work(rt, share, WorkerDeed::Look { reader }, out),
        Err(error) => tell_refusal(calls.worker, error, out),
    };
    calls.end();
    told
}
