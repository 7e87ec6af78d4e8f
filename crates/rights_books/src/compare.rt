//! What the views of two seats tell, where each is behind a `&`.
ghost use Rattle.std.specs.Prelude.{◌≡◌, List};
ghost use Rattle.rights_books.specs.Shown.{Tells, TellsApart};

use crate::shown::RestingSeat;
use atomic_table::{Shared, TableRule};

/// What the views of two seats tell. A type of the caller's names the fact, and the rule of the table has to give it.
pub trait Fact<V> {
    ghost told: { List V → List V → Type 0 };
}

/// Tells what the rule says of two seats at one moment. Both references may be of one seat. Nothing runs: the rule is
/// looked at while the seats are lent, so there is no load and no wait, and no error.
pub fn agree<S, V, K, P: TableRule<S, V, K>, M: Fact<V>>(
    table: &Shared<S, V, K, P>,
    one: &RestingSeat<V>,
    other: &RestingSeat<V>,
)
    // Both are seats of the table, and its rule tells the fact of them.
    requires { (one.now.table_id ≡ table.now.table_id) × (other.now.table_id ≡ table.now.table_id)
        × Tells (P.holds table.now.key) one.now.id one.now.views other.now.id other.now.views
        (M.told one.now.views other.now.views) }
    ensures { M.told one.now.views other.now.views }
{}

/// The same of two seats that are known to be two: the first is behind a `&mut`, so no other reference is of it. That is
/// for a rule that counts, as one that lets a single seat have a thing.
pub fn agree_apart<S, V, K, P: TableRule<S, V, K>, M: Fact<V>>(
    table: &Shared<S, V, K, P>,
    mine: &mut RestingSeat<V>,
    other: &RestingSeat<V>,
)
    requires { (mine.old.table_id ≡ table.now.table_id) × (other.now.table_id ≡ table.now.table_id)
        × TellsApart (P.holds table.now.key) mine.old.id mine.old.views other.now.id other.now.views
        (M.told mine.old.views other.now.views) }
    ensures { (mine.new ≡ mine.old) × M.told mine.old.views other.now.views }
{
    // Nothing runs here either.
}
