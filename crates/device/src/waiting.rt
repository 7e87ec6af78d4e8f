//! Failures that wait, each for a call.
ghost use Rattle.std.specs.Prelude.{◌≡◌, ◌≢◌, ◌+◌, ◌-◌, ◌^◌, ℕ, None, Some, min, OnOk, OnErr};
ghost use Rattle.std.specs.BTreeMap.{IsEmpty, IsUnchanged, get};
ghost use Rattle.std.specs.Option.{option_or};
ghost use Rattle.std.specs.Ordering.{nat_cmp};

use crate::faulty::FuseAction;
use std::alloc::{AllocError, Global};
use std::collections::BTreeMap;

/// How many calls were made, and the failures that wait, in the order of the calls that they wait for: one at most for each call.
#[derive(Drop)]
pub struct Waiting {
    calls: u64,
    due: BTreeMap<u64, FuseAction>,
}

impl Waiting {
    /// No call was made, and none is to fail.
    pub fn none(alloc: Global) -> Waiting
        ensures calls { result.calls ≡ 0 }
        ensures due { IsEmpty result.due }
    {
        Waiting {
            calls: 0,
            due: BTreeMap::new(alloc),
        }
    }

    /// Lets the n-th call from now on fail. Where a failure waits for it already, that one stays. The only error is want of memory.
    ///
    /// It costs no more than the logarithm of how many wait.
    pub fn arm(&mut self, nth: u64, fault: FuseAction) -> Result<(), AllocError>
        ensures calls { self.new.calls ≡ self.old.calls }
        ensures armed { OnOk result (get nat_cmp self.new.due (min (self.old.calls + nth) (2 ^ 64 - 1))
            ≡ option_or (get nat_cmp self.old.due (min (self.old.calls + nth) (2 ^ 64 - 1))) (Some fault)) }
        ensures others { (call : ℕ) → call ≢ min (self.old.calls + nth) (2 ^ 64 - 1) → get nat_cmp self.new.due call ≡ get nat_cmp self.old.due call }
        ensures refused { OnErr result (IsUnchanged self.old.due self.new.due) }
    {
        let call = self.calls.saturating_add(nth);
        if self.due.contains_key(&call) {
            return Ok(());
        }
        self.due.insert(call, fault)?;
        Ok(())
    }

    /// Counts one call, and says whether it is to fail. What waited for it waits no more.
    pub fn next(&mut self) -> Option<FuseAction>
        ensures calls { self.new.calls ≡ min (self.old.calls + 1) (2 ^ 64 - 1) }
        ensures due { result ≡ get nat_cmp self.old.due self.new.calls }
        ensures once { get nat_cmp self.new.due self.new.calls ≡ None }
        ensures others { (call : ℕ) → call ≢ self.new.calls → get nat_cmp self.new.due call ≡ get nat_cmp self.old.due call }
    {
        self.calls = self.calls.saturating_add(1);
        self.due.remove(&self.calls)
    }
}
