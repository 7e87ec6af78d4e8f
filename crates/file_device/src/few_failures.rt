//! A count of failures in two bytes.
ghost use Rattle.std.specs.Prelude.{◌≡◌, ◌+◌, ◌-◌, ◌^◌, ◌<◌, min};

use device::log::History;
use std::marker::Model;

/// How often a block has failed; to contracts it is that number, which has no upper end. It takes two bytes.
///
/// Failures are counted one by one up to 65534. The one after that counts as so many that there are 2^64 - 1, the largest number that
/// is told, and from then on they are counted for proofs alone.
#[derive(Drop)]
pub struct FewFailures {
    told: u16,
    past: History<(), ()>,
}

impl Model for FewFailures {
    ghost use Rattle.std.specs.Prelude.{ℕ, ◌+◌, ◌-◌, ◌^◌, ◌==◌, length, if◌then◌else◌};

    ghost Value = { ℕ };

    ghost view = { λ f. if f.told == 2 ^ 16 - 1 then 2 ^ 64 - 1 + length f.past.items else f.told };
}

impl FewFailures {
    /// No failure.
    pub fn none() -> FewFailures
        ensures { result ≡ 0 }
    {
        FewFailures {
            told: 0,
            past: History::new(),
        }
    }

    /// One more failure.
    pub fn count(&mut self)
        ensures more { self.old < self.new }
        ensures one { self.old < 2 ^ 16 - 2 → self.new ≡ self.old + 1 }
    {
        if self.told == u16::MAX {
            self.past = self.past.and(&(), &());
        } else {
            self.told += 1;
        }
    }

    /// The failures so far, or the largest number there is.
    pub fn told(&self) -> u64
        ensures { result ≡ min self.now (2 ^ 64 - 1) }
    {
        if self.told == u16::MAX {
            u64::MAX
        } else {
            u64::from(self.told)
        }
    }
}
