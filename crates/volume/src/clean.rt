//! A section of the volume is cleaned, beside those who write and read its files.
ghost use Rattle.std.specs.Prelude.{◌≡◌, ◌≢◌, ◌⊎◌, IfOk, IfErr};
ghost use Rattle.geometry.specs.Refusals.{IsOfMove, IsOfRead};
ghost use Rattle.geometry.specs.declared.error.Error.TheVariants.{NoSpace, Wounded};
ghost use Rattle.area.specs.declared.hole_reuse.HoleReuse.TheVariants.{WhileReserveIsFull};
ghost use Rattle.rights_permits.specs.Turns.{at_home};
ghost use Rattle.cleaning.specs.Cleaning.{IsCleaned};

use crate::volume::Volume;
use cleaning::{Cleaned, Fate, Files, Policy, clean};
use device::{Block, Meta};
use geometry::{Error, Owner};
use rights_books::CallAccount;
use rights_permits::VolumeName;
use std::sync::Wait;

impl<V: VolumeName, M: Meta, B: Block + Drop> Files<V> for Volume<V, M, B> {
    fn migrate<R: Wait>(
        &self,
        rt: &R,
        hand: &mut CallAccount,
        inode: u32,
        address: u32,
        owner: Owner,
        now: u64,
        bytes: &mut [u8],
    ) -> Result<Fate, Error> {
        if inode == 0 || inode > self.geometry().files {
            return Ok(Fate::Gone);
        }
        let mut cell = self.lock_file(rt, inode);
        cell.migrate(rt, &self.area, hand, address, owner, now, bytes)
    }
}

impl<V: VolumeName, M: Meta, B: Block + Drop> Volume<V, M, B> {
    /// Chooses a section by the policy, and moves its valid blocks, so that its segments come free; no byte of any file changes.
    /// Moved blocks have the time `now`. Other threads write and read meanwhile: a block that was moved or given back before
    /// its turn came counts as gone.
    ///
    /// Answers Wounded where a checkpoint failed while it was written, then NoMemory where a growth was refused, before any
    /// block is moved, NoSpace where no segment was free for the blocks, or Device where the device failed. What was moved
    /// before a refusal stays moved. A volume that threads only while its reserve is full is not refused NoSpace: the clean ends with
    /// what it has moved.
    pub fn clean<R: Wait>(&self, rt: &R, policy: Policy, now: u64) -> Result<Cleaned, Error>
        ensures cleaned { IfOk result (λ c. IsCleaned V.Numbers.geometry policy now c.rows.items c.section c.moved c.gone) }
        ensures goes_on { self.now.area.hole_reuse ≡ WhileReserveIsFull → IfErr result (λ error. error ≢ NoSpace) }
        ensures error { IfErr result (λ error. (error ≡ Wounded) ⊎ IsOfMove error) }
    {
        let mut permit = self.area.turnstile().enter(rt)?;
        let done = self.clean_by(rt, &mut permit.hand, policy, now);
        self.area.turnstile().leave(rt, permit);
        done
    }

    fn clean_by<R: Wait>(
        &self,
        rt: &R,
        hand: &mut CallAccount,
        policy: Policy,
        now: u64,
    ) -> Result<Cleaned, Error>
        requires hand { hand.old ≡ at_home V.Books.books.book }
        ensures hand { hand.new ≡ hand.old }
        ensures cleaned { IfOk result (λ c. IsCleaned V.Numbers.geometry policy now c.rows.items c.section c.moved c.gone) }
        ensures goes_on { self.now.area.hole_reuse ≡ WhileReserveIsFull → IfErr result IsOfRead }
        ensures error { IfErr result IsOfMove }
    {
        clean(rt, self.alloc, &self.area, self, hand, policy, now)
    }
}
