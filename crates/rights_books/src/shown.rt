//! A seat that holds no slot, and whose view can be compared through a `&`.
ghost use Rattle.std.specs.Prelude.{◌≡◌, ℕ, List, [], ◌∷◌};
ghost use base.Stored.{coded_list};
ghost use Rattle.atomic_table.specs.Seated.{TableId, table_id_coded, badge_owns};
ghost use Rattle.rights_books.specs.Shown.{shown_shares};

use atomic_table::{Badge, Seat};
use std::marker::{Model, PhantomData};

/// A seat of a table, at rest. It has no bytes. As a `Badge` it has one view, or none: then it stands in for a seat that
/// was taken out of its place. Where it is dropped its view stays among those of the table.
pub struct RestingSeat<V> {
    marker: PhantomData<V>,
    /// The table that it is a seat of.
    pub ghost table_id: { TableId } by { table_id_coded },
    /// Its number among the seats of the table.
    pub ghost id: { ℕ },
    /// What it knows: its one view, or nothing.
    pub ghost views: { List V } by { coded_list V.code },
}

impl<V> Model for RestingSeat<V> {
    ghost also_owns = { λ b. badge_owns V.row.coded.code b.table_id b.id b.views };

    ghost also_shares = { λ b _ κ. shown_shares V.row.coded.code b.table_id b.id b.views κ };
}

impl<V> RestingSeat<V> {
    /// No seat, to stand in the place of one.
    pub fn blank() -> RestingSeat<V>
        ensures { result.views ≡ [] }
    {
        RestingSeat {
            marker: PhantomData,
        }
    }

    /// Trades seats with the badge.
    pub fn swap(&mut self, badge: &mut Badge<V>)
        ensures { (self.new.table_id ≡ badge.old.table_id) × (self.new.id ≡ badge.old.id)
            × (self.new.views ≡ badge.old.views)
            × (badge.new.table_id ≡ self.old.table_id) × (badge.new.id ≡ self.old.id)
            × (badge.new.views ≡ self.old.views) }
    {}
}

impl<V> RestingSeat<V> {
    /// The seat of the badge.
    pub fn of(mut badge: Badge<V>) -> RestingSeat<V>
        ensures seat { (result.table_id ≡ badge.table_id) × (result.id ≡ badge.id) }
        ensures views { result.views ≡ badge.views }
    {
        let mut shown = RestingSeat::blank();
        shown.swap(&mut badge);
        shown
    }

    /// Takes the seat out, as a badge. A blank one stays in its place.
    pub fn take(&mut self) -> Badge<V>
        ensures seat { (result.table_id ≡ self.old.table_id) × (result.id ≡ self.old.id) }
        ensures views { result.views ≡ self.old.views }
        ensures blank { self.new.views ≡ [] }
    {
        let mut badge = Badge::blank();
        self.swap(&mut badge);
        badge
    }

    /// Takes the seat out, ready for a step. A blank one stays in its place, where `of_seat` puts it back after the step.
    pub fn take_seat<S>(&mut self) -> Seat<S, V>
        requires { (v : V) × (self.old.views ≡ v ∷ []) }
        ensures seat { (result.table_id ≡ self.old.table_id) × (result.id ≡ self.old.id) }
        ensures view { (self.old.views ≡ result.me.0 ∷ []) × (result.me.1 ≡ []) }
        ensures blank { self.new.views ≡ [] }
    {
        self.take().into_seat()
    }

    /// The seat that a step has used. It holds no slot.
    pub fn of_seat<S>(seat: Seat<S, V>) -> RestingSeat<V>
        requires { seat.me.1 ≡ [] }
        ensures seat { (result.table_id ≡ seat.table_id) × (result.id ≡ seat.id) }
        ensures view { result.views ≡ seat.me.0 ∷ [] }
    {
        RestingSeat::of(seat.into_badge())
    }
}

impl<V> Drop for RestingSeat<V> {
    fn drop(self) {
        let Self { marker: _ } = self;
    }
}

unsafe impl<V> Send for RestingSeat<V> {}

unsafe impl<V> Sync for RestingSeat<V> {}
