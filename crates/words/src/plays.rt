//! The rule of the words, and what each step tells.
use crate::claim::{Plan, SeatClaim};
use atomic_table::{Join, Play, Seat, Split, Table, TableRule};
use std::alloc::Global;
use std::collections::LinkedList;

/// What a seat knows: its claims. No value of it is made.
pub type View = LinkedList<SeatClaim>;

/// The rule of the words.
pub struct WordLaw;

/// The table of the words.
pub type WordTable = Table<(), View, Plan, WordLaw, Global>;

/// A seat of the words.
pub type WordSeat = Seat<(), View>;

impl TableRule<(), View, Plan> for WordLaw {
    ghost use Rattle.words.specs.Rule.{Law};
    ghost use Rattle.words.specs.Claims.{opening_view};

    ghost holds = { λ plan s. Law plan.segments s.words s.views };

    ghost first = { λ plan. opening_view plan.segments plan.seats plan.version };
}

/// A standing loads the completed version.
pub struct LoadsVersion;

impl Play<(), View> for LoadsVersion {
    ghost use Rattle.words.specs.Steps.{version_loaded};

    ghost then = { version_loaded };
}

/// A standing loads its segment's pins.
pub struct PinsLoaded;

impl Play<(), View> for PinsLoaded {
    ghost use Rattle.words.specs.Steps.{counted};

    ghost then = { counted };
}

/// An open segment is sealed.
pub struct Seals;

impl Play<(), View> for Seals {
    ghost use Rattle.words.specs.Steps.{sealed};

    ghost then = { sealed };
}

/// A sealed segment is retired.
pub struct Retires;

impl Play<(), View> for Retires {
    ghost use Rattle.words.specs.Steps.{retired};

    ghost then = { retired };
}

/// A prefree segment is freed.
pub struct Frees;

impl Play<(), View> for Frees {
    ghost use Rattle.words.specs.Steps.{freed};

    ghost then = { freed };
}

/// A free segment is opened.
pub struct Opens;

impl Play<(), View> for Opens {
    ghost use Rattle.words.specs.Steps.{opened};

    ghost then = { opened };
}

/// A standing and an open slip of its segment are looked at together.
pub struct ShowsOpen;

impl Play<(), View> for ShowsOpen {
    ghost use Rattle.words.specs.Steps.{shown_open};

    ghost then = { shown_open };
}

/// Two open slips are looked at together.
pub struct ShowsApart;

impl Play<(), View> for ShowsApart {
    ghost use Rattle.words.specs.Steps.{shown_apart};

    ghost then = { shown_apart };
}

/// A segment is pinned.
pub struct Pinned;

impl Play<(), View> for Pinned {
    ghost use Rattle.words.specs.Steps.{pinned};

    ghost then = { pinned };
}

/// A segment is unpinned.
pub struct Unpinned;

impl Play<(), View> for Unpinned {
    ghost use Rattle.words.specs.Steps.{unpinned};

    ghost then = { unpinned };
}

/// A reader loads a segment's pins.
pub struct CountsPins;

impl Play<(), View> for CountsPins {
    ghost use Rattle.words.specs.Steps.{pins_counted};

    ghost then = { pins_counted };
}

/// A reader loads the completed version.
pub struct SeesVersion;

impl Play<(), View> for SeesVersion {
    ghost use Rattle.words.specs.Steps.{version_seen};

    ghost then = { version_seen };
}

/// The next version is complete.
pub struct Advances;

impl Play<(), View> for Advances {
    ghost use Rattle.words.specs.Steps.{advanced};

    ghost then = { advanced };
}

/// A standing and a reader are looked at together.
pub struct Agrees;

impl Play<(), View> for Agrees {
    ghost use Rattle.words.specs.Steps.{agreed};

    ghost then = { agreed };
}

/// The second claim goes to a seat of its own.
pub struct Second;

impl Split<View> for Second {
    ghost use Rattle.words.specs.Claims.{without_second, second};

    ghost left = { without_second };

    ghost right = { second };
}

/// All claims go.
pub struct AllClaims;

impl Split<View> for AllClaims {
    ghost use Rattle.std.specs.Prelude.{[]};

    ghost left = { λ v. [] };

    ghost right = { λ v. v };
}

/// The claims of two seats together.
pub struct Together;

impl Join<View> for Together {
    ghost use Rattle.std.specs.Prelude.{[], ◌++◌};

    ghost both = { λ v w. v ++ w };

    ghost spent = { [] };
}
