//! A value as it was at a moment, for the proofs alone.
ghost use Rattle.std.specs.Prelude.{◌≡◌};
ghost use Rattle.std.specs.Borrow.{ftrue};

use std::marker::{Model, PhantomData};

/// A value as it was, for the proofs alone. It takes no memory, and its function does nothing at run time.
#[derive(Drop)]
pub struct Remembered<T> {
    of: PhantomData<T>,
    pub ghost value: { T },
}

impl<T> Model for Remembered<T> {
    ghost also_owns = { λ _. ftrue };
}

// It owns nothing, whatever it remembers.
unsafe impl<T> Send for Remembered<T> {}

unsafe impl<T> Sync for Remembered<T> {}

impl<T> Remembered<T> {
    /// What the reference shows.
    pub fn of(shown: &T) -> Remembered<T>
        ensures { result.value ≡ shown.now }
    {
        let _ = shown;
        Remembered { of: PhantomData }
    }
}
