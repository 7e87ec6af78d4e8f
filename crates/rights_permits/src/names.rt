//! The names of a volume's tables, which exist for the proofs alone.
//!
//! What comes out of a lock, a queue or a channel is known by its type alone. So each such value is generic in the name of
//! its table, a type whose ghost members say which table it is. A name is picked at the call that is made once the table
//! exists, and the volume's names are put together in one.
use std::marker::{Brand, PhantomData};
/// Names the books of a volume, their layout, and the rows of its parts.
pub trait BooksName {
    ghost use Rattle.atomic_table.specs.Seated.{TableId};
    ghost use Rattle.rights_books.specs.ClaimRules.{Ruled};
    ghost use Rattle.rights_books.specs.declared.claim.Layout.{Layout};

    ghost books: { Ruled Layout };

    ghost rows: { TableId };
}

impl BooksName for Brand {
    ghost use Rattle.rights_permits.specs.Names.{no_books, no_table};

    ghost books = { no_books };

    ghost rows = { no_table };
}
/// Names the table of the segments' words.
pub trait WordsName {
    ghost use Rattle.atomic_table.specs.Seated.{TableId};

    ghost words: { TableId };
}

impl WordsName for Brand {
    ghost use Rattle.rights_permits.specs.Names.{no_table};

    ghost words = { no_table };
}
/// Names the two queues of free segments.
pub trait PoolName {
    ghost use Rattle.atomic_table.specs.Seated.{TableId};

    ghost ordinary: { TableId };

    ghost reserve: { TableId };
}

impl PoolName for Brand {
    ghost use Rattle.rights_permits.specs.Names.{no_table};

    ghost ordinary = { no_table };

    ghost reserve = { no_table };
}
/// Names the channel of the permits: its table, and the key of its messages, each of which is a permit of the books.
pub trait TurnName {
    ghost use Rattle.atomic_table.specs.Seated.{TableId};
    ghost use Rattle.atomic_table.specs.declared.badge.Badge.{Badge};
    ghost use Rattle.rights_books.specs.Accounts.{HandView};
    ghost use Rattle.crossbeam_channel.specs.declared.flavors.array.Key.{Key};

    ghost turns: { TableId };

    ghost key: { Badge (Key HandView) };
}

impl TurnName for Brand {
    ghost use Rattle.rights_permits.specs.Names.{no_table, no_turns};

    ghost turns = { no_table };

    ghost key = { no_turns };
}
/// Names the numbers of a volume: its shape, and how many segments, files and node numbers it has.
pub trait GeometryName {
    ghost use Rattle.geometry.specs.declared.geometry.Geometry.{Geometry};

    ghost geometry: { Geometry };
}

impl GeometryName for Brand {
    ghost use Rattle.rights_permits.specs.Names.{no_geometry};

    ghost geometry = { no_geometry };
}
/// Names all tables of one volume.
pub trait VolumeName {
    /// The name of its books.
    type Books: BooksName;
    /// The name of its segments' words.
    type Words: WordsName;
    /// The name of its two queues of free segments.
    type Pool: PoolName;
    /// The name of its channel of permits.
    type Turns: TurnName;
    /// The name of its numbers.
    type Numbers: GeometryName;
}
/// Names that were picked one after the other, put together in one.
pub struct PickedNames<B, W, P, T, N> {
    names: PhantomData<(B, W, P, T, N)>,
}

impl<B: BooksName, W: WordsName, P: PoolName, T: TurnName, N: GeometryName> VolumeName
    for PickedNames<B, W, P, T, N> {
    type Books = B;

    type Words = W;

    type Pool = P;

    type Turns = T;

    type Numbers = N;
}
