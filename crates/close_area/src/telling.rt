//! What holds of files that were out of sight for a call.
ghost use Rattle.std.specs.Prelude.{◌≡◌, map};
ghost use Rattle.rights_books.specs.Accounts.{AreFiles};
ghost use Rattle.checkpoint_sync.specs.WrittenFiles.{AreWritten};

use crate::written::WrittenFile;
use device::Block;
use rights_permits::VolumeName;

/// Tells that each of the files is written, where their accounts are those of a volume's files. Nothing changes.
pub(crate) fn tell_written<V: VolumeName, B: Block + Drop>(files: &Vec<WrittenFile<V, B>>)
    requires { AreFiles V.Books.books.book (map (λ c. c.account) files.now.items) }
    ensures { AreWritten V.Books.books.book V.Numbers.geometry files.now.items }
{
    for k in 0..files.len() {
        files[k].law();
    }
}
