//! No two logs have the same open segment.
ghost use Rattle.std.specs.Prelude.{◌≡◌, map, All, AllPairs, vec_capacity};
ghost use Rattle.checkpoint_image.specs.Cells.{OpenApart};
ghost use Rattle.checkpoint_sync.specs.LocksHeld.{open_in};

use crate::log::HeldLog;
use rights_permits::VolumeName;
use words::Words;

/// Shows it of all logs, the last one first. Nothing changes, and it takes no memory.
pub(crate) fn show_apart<'a, V: VolumeName>(words: &Words, logs: &mut Vec<HeldLog<'a, V>>)
    requires words { words.now ≡ record { table = V.Words.words; segments = V.Numbers.geometry.segments } }
    ensures apart { AllPairs OpenApart (map open_in logs.old.items) }
    ensures same { logs.new.items ≡ logs.old.items }
    ensures capacity { vec_capacity logs.new ≡ vec_capacity logs.old }
{
    if let Some(mut last) = logs.pop() {
        show_one_apart(words, logs, &mut last);
        show_apart(words, logs);
        logs.push_reserved(last);
    }
}

// Shows it of one log and each of the others.
fn show_one_apart<'a, V: VolumeName>(
    words: &Words,
    others: &mut Vec<HeldLog<'a, V>>,
    log: &mut HeldLog<'a, V>,
)
    requires words { words.now ≡ record { table = V.Words.words; segments = V.Numbers.geometry.segments } }
    ensures apart { All (λ other. OpenApart (open_in other) (open_in log.old)) others.old.items }
    ensures same { others.new.items ≡ others.old.items }
    ensures log { log.new ≡ log.old }
    ensures capacity { vec_capacity others.new ≡ vec_capacity others.old }
{
    for k in 0..others.len() {
        others[k].differ(words, log);
    }
}
