//! The crash law of a volume.
ghost use Rattle.image_law.specs.Crash.{CrashLaw};
ghost use Rattle.image_law.specs.Disk.{SlotsLaw, PickLaw};

/// After any events of the core machine, whatever a crash leaves, a pack is picked, of the completed version or a later
/// one, and its image and its files are whole: those of the time when its body was written. The slots are settled, or
/// between two packs, as a pack write leaves them; and between two packs one of the two is picked.
///
/// It runs nothing: its contract is the law.
pub fn crash_law()
    ensures kept { CrashLaw }
    ensures slots { SlotsLaw }
    ensures old_or_new { PickLaw }
{}
