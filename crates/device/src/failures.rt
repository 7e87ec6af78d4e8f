//! A count of failures that has no upper end in proofs.
ghost use Rattle.std.specs.Prelude.{◌≡◌, ◌+◌, ◌-◌, ◌^◌, min, ℕ};

mod tally;

use tally::FailureTally;

/// How often a device has failed. It takes no memory but a number's.
///
/// A clause reads the count as `total.count`, which has no upper end. What is told stays at the largest number.
#[derive(Drop)]
pub struct Failures {
    told: u64,
    pub total: FailureTally,
    ghost told_is: { told ≡ min total.count (2 ^ 64 - 1) },
}

impl Failures {
    /// No failure.
    pub fn none() -> Failures
        ensures { result.total.count ≡ 0 }
    {
        Failures {
            told: 0,
            total: FailureTally::zero(),
        }
    }

    /// One more failure.
    pub fn count(&mut self)
        ensures { self.new.total.count ≡ self.old.total.count + 1 }
    {
        let told = self.told.saturating_add(1);
        let total = FailureTally::next(&self.total);
        *self = Failures { told, total };
    }

    /// The failures so far, or the largest number there is.
    pub fn told(&self) -> u64
        ensures { result ≡ min self.now.total.count (2 ^ 64 - 1) }
    {
        self.told
    }
}
