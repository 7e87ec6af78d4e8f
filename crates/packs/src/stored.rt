//! What shows that a pack was settled.
ghost use Rattle.std.specs.Prelude.{◌≡◌, [], ◌∷◌, All};
ghost use Rattle.packs.specs.Area.{reading_of};
ghost use Rattle.packs.specs.Device.{AreSettled, body_of};

use crate::Packs;
use device::Meta;
use device::log::History;

/// Shows that a pack was settled, and in which area: only an Ok of `Packs::write` or `Packs::begin` makes one. It takes
/// no memory.
///
/// A clause reads `stored.shown.items`: one entry, with the packs as they were right after the write, and the version.
/// At that moment every crash left them settled, with the body that was written.
#[derive(Drop)]
pub struct WrittenPack<M: Meta> {
    shown: History<Packs<M>, u32>,
    ghost settled: { All (λ entry. AreSettled (reading_of entry.0.geometry) M.seen M.may_leave entry.0
        (body_of (reading_of entry.0.geometry) M.seen entry.0)) shown.items },
}

impl<M: Meta> WrittenPack<M> {
    pub(crate) fn of(packs: &Packs<M>) -> WrittenPack<M>
        requires { AreSettled (reading_of packs.now.geometry) M.seen M.may_leave packs.now
            (body_of (reading_of packs.now.geometry) M.seen packs.now) }
        ensures { result.shown.items ≡ (packs.now, packs.now.version) ∷ [] }
    {
        let shown = History::new().and(packs, &packs.version);
        WrittenPack { shown }
    }
}
