//! When an append may begin to fill the holes of used segments.
ghost use Rattle.std.specs.Prelude.{◌≡◌, ◌≢◌, true};
ghost use Rattle.area.specs.LogTable.{is_data_log};
ghost use Rattle.area.specs.declared.append.Who.TheVariants.{Ordinary};
ghost use Rattle.area.specs.declared.hole_reuse.HoleReuse.TheVariants.{WhileReserveIsFull as Careful};
ghost use Rattle.pool.specs.Law.{WasFull};

use crate::append::Who;
use crate::log::Log;
use pool::{Pool, PoolPass};
use rights_permits::{PoolName, WordsName};

/// When an append that has no place and finds no free segment may thread a used one (threaded logging: Linux `filesystems/f2fs`;
/// Lee and others, FAST 2015), and what is kept for the next checkpoint.
#[derive(Clone, Copy, Debug, PartialEq, Eq)]
pub enum HoleReuse {
    /// Ordinary data does whenever a segment can be threaded. Moved blocks and nodes never do. Nothing is kept.
    Always,
    /// Ordinary data does only while the reserve has all its slips, and is refused before free segments and open places could no longer
    /// hold the nodes that the next checkpoint writes. Blocks that cleaning moves, and nodes, do wherever nothing else is left to
    /// them, cleaning also where what is free is kept for nodes.
    ///
    /// What threads fill does not come free by itself, and each checkpoint draws on the reserve for its nodes. So a volume under this
    /// rule refuses a write before it has to refuse the checkpoint, and cleaning can always gather blocks, while there are holes that no
    /// reader holds; cleaning and checkpoints make room again.
    WhileReserveIsFull,
}

impl HoleReuse {
    // Whether an append to a log that found no free segment may begin a thread now.
    pub(crate) fn allows<W: WordsName, P: PoolName>(
        self,
        who: Who,
        log: Log,
        pool: &Pool<W, P>,
        pass: &mut PoolPass<W, P>,
    ) -> bool
        ensures unchanged { pass.new ≡ pass.old }
        ensures whenever { self ≢ Careful → result ≡ true → (who ≡ Ordinary) × (is_data_log log ≡ true) }
        ensures full { self ≡ Careful → who ≡ Ordinary → result ≡ true → (is_data_log log ≡ true) × WasFull 4 pass.old.reserve }
    {
        match who {
            Who::Ordinary => log.is_data() && self.allows_data(pool, pass),
            Who::Cleaning(_) | Who::Checkpoint => self == HoleReuse::WhileReserveIsFull,
        }
    }

    // Whether ordinary data may begin one.
    fn allows_data<W: WordsName, P: PoolName>(
        self,
        pool: &Pool<W, P>,
        pass: &mut PoolPass<W, P>,
    ) -> bool
        ensures unchanged { pass.new ≡ pass.old }
        ensures full { self ≡ Careful → result ≡ true → WasFull 4 pass.old.reserve }
    {
        match self {
            HoleReuse::Always => true,
            HoleReuse::WhileReserveIsFull => pool.is_reserve_full(pass),
        }
    }
}
