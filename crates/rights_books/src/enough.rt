//! Why all permits are needed.
ghost use Rattle.rights_books.specs.Enough.{IsEnough};

/// A law about the books, with nothing to run: who has every account, and 64 permits with nothing in hand, learns that
/// nothing is in flight, and who has but 63 such permits does not.
pub fn all_are_needed()
    ensures enough { IsEnough 64 }
    ensures too_few { ¬ IsEnough 63 }
{}
