//! Sections are cleaned.
use flash_volume::{Block, Error, Meta, Policy, Rights, Volume, VolumeName, Work};
use std::alloc::Global;
use std::sync::Wait;

/// How many sections were cleaned, and how many blocks were moved.
#[derive(Clone, Copy, Debug, PartialEq, Eq)]
pub struct Tidied {
    pub sections: u32,
    pub moved: u32,
}

/// Cleans sections by a policy, at most so many, and frees what came free: it ends where none is left to choose, or where a section
/// can't be moved for want of room. Each is followed by a checkpoint, which changes no file.
#[derive(Clone, Copy, Drop)]
pub struct Clean {
    pub policy: Policy,
    pub most: u32,
    /// The time, in seconds.
    pub now: u64,
}

impl<M: Meta, B: Block + Drop> Work<M, B> for Clean {
    ghost use Rattle.std.specs.Prelude.{◌≡◌};
    ghost use Rattle.flash_volume.specs.Worked.{IsOfCall};

    type Output = Tidied;

    // No file is changed.
    ghost post = { λ work geometry before tidied after. after ≡ before };

    ghost failed = { λ work geometry before error. IsOfCall error };

    fn run<V: VolumeName, R: Wait>(
        self,
        rt: &R,
        _alloc: Global,
        volume: &Volume<V, M, B>,
        _rights: &mut Rights<V>,
    ) -> Result<Tidied, Error> {
        let mut tidied = Tidied {
            sections: 0,
            moved: 0,
        };
        for _ in 0..self.most {
            let cleaned = match volume.clean(rt, self.policy, self.now) {
                Ok(cleaned) => cleaned,
                Err(Error::NoSpace) => break,
                Err(error) => return Err(error),
            };
            let _stored = volume.sync(rt, &[])?;
            if cleaned.section.is_none() {
                break;
            }
            tidied.sections = tidied.sections.saturating_add(1);
            tidied.moved = tidied.moved.saturating_add(cleaned.moved);
        }
        Ok(tidied)
    }
}
