//! One name for all tables that stand before a volume's queues do.
//!
//! The books, the words and the numbers of a volume are there at once, so who opens it may pick their names at once: a
//! `TablesName`, out of which each of the three is had.
use crate::{BooksName, GeometryName, WordsName};
use std::marker::{Brand, PhantomData};
/// Names the books, the rows, the words and the numbers of a volume.
pub trait TablesName {
    ghost use Rattle.atomic_table.specs.Seated.{TableId};
    ghost use Rattle.rights_books.specs.declared.claim.Layout.{Layout};
    ghost use Rattle.rights_books.specs.ClaimRules.{Ruled};
    ghost use Rattle.geometry.specs.declared.geometry.Geometry.{Geometry};

    ghost books: { Ruled Layout };

    ghost rows: { TableId };

    ghost words: { TableId };

    ghost geometry: { Geometry };
}

impl TablesName for Brand {
    ghost use Rattle.rights_permits.specs.Names.{no_books, no_table, no_geometry};

    ghost books = { no_books };

    ghost rows = { no_table };

    ghost words = { no_table };

    ghost geometry = { no_geometry };
}
/// The name of the books and the rows of these tables.
pub struct BooksOf<K> {
    of: PhantomData<K>,
}

impl<K: TablesName> BooksName for BooksOf<K> {
    ghost books = { K.books };

    ghost rows = { K.rows };
}
/// The name of the words of these tables.
pub struct WordsOf<K> {
    of: PhantomData<K>,
}

impl<K: TablesName> WordsName for WordsOf<K> {
    ghost words = { K.words };
}
/// The name of the numbers of these tables.
pub struct NumbersOf<K> {
    of: PhantomData<K>,
}

impl<K: TablesName> GeometryName for NumbersOf<K> {
    ghost geometry = { K.geometry };
}
