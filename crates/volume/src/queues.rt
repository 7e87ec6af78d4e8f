//! What the last names of a volume are picked for.
ghost use Rattle.std.specs.Prelude.{◌≡◌, ◌<◌, IfOk, IfErr};
ghost use Rattle.geometry.specs.declared.error.Error.TheVariants.{NoMemory};

use geometry::Error;
use rights_permits::{BooksName, OpenedTurnstile, WordsName};
use std::alloc::Global;

/// The channel of permits, and the two queues for the slips of so many segments. The only error is NoMemory, and then nothing is
/// kept.
pub fn open_queues<L: BooksName, W: WordsName>(
    alloc: Global,
    segments: u32,
) -> Result<(OpenedTurnstile<L>, pool::OpenedPool<W>), Error>
    requires some { 0 < segments }
    ensures slots { IfOk result (λ opened. opened.1.ordinary.slots ≡ segments) }
    ensures error { IfErr result (λ error. error ≡ NoMemory) }
{
    let channel = OpenedTurnstile::new(alloc)?;
    let queues = pool::OpenedPool::new(alloc, segments)?;
    Ok((channel, queues))
}
