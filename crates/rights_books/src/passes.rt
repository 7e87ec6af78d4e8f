//! Files and their passes: a pass is issued, notes what its file becomes, and is spent. What a pass shows, its file has.
ghost use Rattle.std.specs.Prelude.{◌≡◌, [], Some, None};
ghost use Rattle.geometry.specs.declared.kind.Kind.TheVariants as kind;
ghost use Rattle.rights_books.specs.declared.claim.FileContent.{FileContent};

use crate::account::{FileAccount, PassAccount};
use crate::books::Books;
use std::marker::Brand;

/// What a file becomes, for the proof alone. A type of the caller's names it, or a call at `Brand` picks it.
pub trait Noted {
    ghost content: { FileContent };
}

impl Noted for Brand {
    ghost content = { record { kind = kind.File; length = 0; blocks = [] } };
}

impl Books {
    /// Notes what the file becomes, in the file and in its pass at once. Before, the file had what the pass showed.
    pub fn note<N: Noted>(&self, file: &mut FileAccount, pass: &mut PassAccount)
        requires books { (file.old.book ≡ self.now.book) × (pass.old.book ≡ self.now.book) }
        requires inode { file.old.inode ≡ pass.old.inode }
        ensures same { file.old.content ≡ Some pass.old.content }
        ensures file { file.new ≡ record file.old { content = Some N.content } }
        ensures pass { pass.new ≡ record pass.old { content = N.content } }
    {
        self.exchange::<(), Brand>(&mut file.holder, &mut pass.holder, &());
    }

    /// Makes the pass of a file that none is out for, and says what the file is.
    pub fn issue<N: Noted>(&self, file: &mut FileAccount) -> PassAccount
        requires book { file.old.book ≡ self.now.book }
        requires none { file.old.content ≡ None }
        ensures file { file.new ≡ record file.old { content = Some N.content } }
        ensures pass { result ≡ record { book = file.old.book; inode = file.old.inode; content = N.content } }
    {
        let mut holder = self.book.part(&mut file.holder, 1);
        self.exchange::<(), Brand>(&mut file.holder, &mut holder, &());
        PassAccount { holder }
    }

    /// Spends the pass of a file, which had what the pass showed. From then on none is out for it.
    pub fn spend(&self, file: &mut FileAccount, pass: PassAccount)
        requires books { (file.old.book ≡ self.now.book) × (pass.book ≡ self.now.book) }
        requires inode { file.old.inode ≡ pass.inode }
        ensures same { file.old.content ≡ Some pass.content }
        ensures file { file.new ≡ record file.old { content = None } }
    {
        let PassAccount { holder } = pass;
        self.absorb::<Brand>(&mut file.holder, holder);
    }
}
