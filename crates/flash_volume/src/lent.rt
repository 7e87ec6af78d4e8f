//! What a scheduler has of a volume, or one of its parts.
ghost use Rattle.std.specs.Prelude.{◌≡◌, [], vec_len};

use crate::rights::Rights;
use device::Block;
use file_cells::Reader;
use rights_permits::VolumeName;
use std::alloc::Global;
use std::marker::Model;
use std::mem;

/// Rights to a volume, and readers of its files, each at a place of its own.
#[derive(Drop)]
pub struct Lent<'v, V: VolumeName, B: Block + Drop> {
    pub(crate) rights: Rights<V>,
    pub(crate) readers: Vec<Option<Reader<'v, V, B>>>,
}

impl<'v, V: VolumeName, B: Block + Drop> Model for Lent<'v, V, B> {
    ghost use Rattle.std.specs.Prelude.{vec_len};
    ghost use Rattle.std.specs.Coded.{codes};
    ghost use Rattle.geometry.specs.File.{blocks_code};
    ghost use Rattle.file_cells.specs.Reader.{segments_code};
    ghost use Rattle.flash_volume.specs.Rounds.{Held};

    ghost Value = { Held };

    ghost coded = { Prim.hlevel (codes, blocks_code, segments_code) };

    ghost view = { λ l. record { passes = l.rights.passes.items; seats = vec_len l.rights.seats; readers = l.readers.items } };
}

impl<'v, V: VolumeName, B: Block + Drop> Lent<'v, V, B> {
    /// These rights and readers.
    pub fn new(rights: Rights<V>, readers: Vec<Option<Reader<'v, V, B>>>) -> Lent<'v, V, B>
        ensures { result ≡ record { passes = rights.passes.items; seats = vec_len rights.seats; readers = readers.entry.items } }
    {
        Lent { rights, readers }
    }

    /// The rights, and the readers.
    pub fn split(self) -> (Rights<V>, Vec<Option<Reader<'v, V, B>>>)
        ensures passes { result.0.passes.items ≡ self.entry.passes }
        ensures seats { vec_len result.0.seats ≡ self.entry.seats }
        ensures readers { result.1.items ≡ self.entry.readers }
    {
        let Lent { rights, readers } = self;
        (rights, readers)
    }

    /// Takes all that is here, and leaves nothing.
    pub fn take(&mut self, alloc: Global) -> Lent<'v, V, B>
        ensures taken { result ≡ self.old }
        ensures none { self.new ≡ record { passes = []; seats = 0; readers = [] } }
    {
        let nothing = Rights {
            seats: Vec::new(alloc),
            passes: Vec::new(alloc),
        };
        mem::replace(self, Lent::new(nothing, Vec::new(alloc)))
    }

    /// Puts this where it was taken.
    pub fn put(&mut self, lent: Lent<'v, V, B>)
        ensures put { self.new ≡ lent.entry }
    {
        // An assignment would say the same, but rattle does not prove one through a borrow of a type with a model.
        let _old = mem::replace(self, lent);
    }
}
