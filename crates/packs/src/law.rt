//! What a crash may do to two packs, as a law of areas.
ghost use Rattle.std.specs.Prelude.{◌≡◌, ◌⊎◌, List, ℕ, Some};
ghost use Rattle.packs.specs.Pack.{Reading, picked, IsSettled, Between};

/// Whatever a crash leaves of a pack write, the old pack counts or the new one; and of settled packs the one that was
/// settled. It holds however the slots of an area are read. It runs nothing.
pub fn crash_law()
    ensures between { (reading : Reading) (old new area : List ℕ) → Between reading old new area
        → (picked reading area ≡ Some old) ⊎ (picked reading area ≡ Some new) }
    ensures settled { (reading : Reading) (old area : List ℕ) → IsSettled reading old area
        → picked reading area ≡ Some old }
{}
