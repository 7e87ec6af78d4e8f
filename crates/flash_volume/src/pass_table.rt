//! The passes of a volume's files, which threads share by the numbers of the files.
ghost use Rattle.std.specs.Prelude.{◌≡◌, true, IfErr, IfSome};
ghost use Rattle.std.specs.Sync.RwLock.{read_guard_value, write_guard_value};
ghost use Rattle.geometry.specs.declared.error.Error.TheVariants.{NoMemory};

use file_cells::FilePass;
use geometry::Error;
use rights_permits::VolumeName;
use std::alloc::Global;
use std::sync::{RwLock, RwLockReadGuard, RwLockWriteGuard, Wait};

/// A place for the pass of each file of a volume, each behind a lock of its own: many may read a file at once, or one may change it.
/// A place is empty where there is no file of its number.
///
/// Who takes several locks takes them in the order of the numbers.
#[derive(Drop)]
pub struct PassTable<V: VolumeName> {
    places: Vec<RwLock<Option<FilePass<V>>>>,
}

impl<V: VolumeName> PassTable<V> {
    // Places for so many files, with these passes in them.
    pub(crate) fn of(
        alloc: Global,
        files: u32,
        passes: Vec<FilePass<V>>,
    ) -> Result<PassTable<V>, Error>
        ensures error { IfErr result (λ error. error ≡ NoMemory) }
    {
        let mut held = Vec::with_capacity(alloc, files as usize)?;
        for _number in 0..files {
            held.push(None)?;
        }
        for pass in passes {
            let number = pass.number() as usize;
            if 0 < number && number <= held.len() {
                held.as_mut_slice()[number - 1] = Some(pass);
            }
        }
        let mut places = Vec::with_capacity(alloc, held.len())?;
        for pass in held {
            places.push(RwLock::new(pass))?;
        }
        Ok(PassTable { places })
    }

    // All passes that are in their places, in the order of their numbers.
    pub(crate) fn take_all(self, alloc: Global) -> Result<Vec<FilePass<V>>, Error>
        ensures error { IfErr result (λ error. error ≡ NoMemory) }
    {
        let PassTable { places } = self;
        let mut passes = Vec::with_capacity(alloc, places.len())?;
        for place in places {
            if let Some(pass) = place.into_inner() {
                passes.push(pass)?;
            }
        }
        Ok(passes)
    }

    /// The place of a file, to read the file. None where the volume has no such number, or another's pass lies there.
    pub fn read<R: Wait>(
        &self,
        rt: &R,
        number: u32,
    ) -> Option<RwLockReadGuard<'_, Option<FilePass<V>>>>
        ensures own { IfSome result (λ guard. IfSome (read_guard_value guard) (λ pass. pass.number ≡ number)) }
    {
        if number == 0 || number as usize > self.places.len() {
            return None;
        }
        let guard = self.places[number as usize - 1].read(rt);
        if is_of(&*guard, number) {
            Some(guard)
        } else {
            None
        }
    }

    /// The place of a file, to change the file, or to put the pass of a new one there. None where the volume has no such number, or
    /// another's pass lies there.
    pub fn write<R: Wait>(
        &self,
        rt: &R,
        number: u32,
    ) -> Option<RwLockWriteGuard<'_, Option<FilePass<V>>>>
        ensures own { IfSome result (λ guard. IfSome (write_guard_value guard) (λ pass. pass.number ≡ number)) }
    {
        if number == 0 || number as usize > self.places.len() {
            return None;
        }
        let guard = self.places[number as usize - 1].write(rt);
        if is_of(&*guard, number) {
            Some(guard)
        } else {
            None
        }
    }
}

// Whether no pass lies there, or that of this number.
fn is_of<V: VolumeName>(place: &Option<FilePass<V>>, number: u32) -> bool
    ensures { result ≡ true → IfSome place.now (λ pass. pass.number ≡ number) }
{
    match place {
        Some(pass) => pass.number() == number,
        None => true,
    }
}
