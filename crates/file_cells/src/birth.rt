//! A file comes into its lock, and goes out of it.
ghost use Rattle.std.specs.Prelude.{◌≡◌, ◌<◌, ◌≤◌, ◌∷◌, [], None, Some, IfOk, IfErr};
ghost use Rattle.geometry.specs.declared.error.Error.TheVariants.{NoMemory};
ghost use Rattle.geometry.specs.File.{new_file};
ghost use Rattle.rights_books.specs.Contents.{as_content};
ghost use Rattle.rights_books.specs.Rules.{bare_entry};
ghost use Rattle.nodes.specs.File.{file_of};
ghost use Rattle.rights_permits.specs.Turns.{at_home};
ghost use Rattle.file_cells.specs.Cell.{IsCell, IsLodged};

use crate::cell::FileCell;
use crate::lodged::recount;
use crate::marks::Marks;
use crate::pass::FilePass;
use crate::{give_node, give_up};
use area::MainArea;
use device::Block;
use geometry::{Error, Kind};
use nodes::FileState;
use rights_books::{Books, CallAccount, FileAccount, Noted, PassAccount};
use rights_permits::VolumeName;
use std::alloc::Global;
use std::marker::{Brand, PhantomData};
use std::sync::Wait;
use tickets::NidToken;

impl<V: VolumeName, B: Block + Drop> FileCell<V, B> {
    /// What lies in a lock: an account with what it has lodged.
    pub fn of(number: u32, account: FileAccount, state: Option<FileState<B>>) -> FileCell<V, B>
        requires { IsCell V.Books.books.book V.Numbers.geometry number account state }
        ensures number { result.number ≡ number }
        ensures account { result.account ≡ account }
    {
        FileCell {
            number,
            account,
            state,
            marks: Marks::NONE,
            volume: PhantomData,
        }
    }

    /// A file that stands on a device comes into its lock, with the account that has lodged what it has, and of which no pass is
    /// out: the lock's content, and the pass. It takes no memory.
    pub fn load(
        books: &Books,
        mut account: FileAccount,
        file: FileState<B>,
    ) -> (FileCell<V, B>, FilePass<V>)
        requires books { books.now ≡ V.Books.books }
        requires book { account.book ≡ V.Books.books.book }
        requires inode { account.inode ≡ file.token.number }
        requires none { account.content ≡ None }
        requires lodged { IsLodged V.Numbers.geometry account file }
        requires some { 0 < file.token.number }
        requires within { file.token.number ≤ V.Numbers.geometry.files }
        ensures number { result.0.number ≡ file.token.number }
        ensures pass { result.1 ≡ record { number = file.token.number; file = file_of file } }
    {
        let number = file.number();
        let shown = issue_file::<B, Brand>(books, &mut account, &file);
        let pass = FilePass::of(number, file.length(), shown);
        (FileCell::of(number, account, Some(file)), pass)
    }

    /// A file without blocks comes into its lock, with the token of its inode, which is in hand: its pass.
    ///
    /// The only error is NoMemory, where a growth was refused; then the token is given back.
    pub fn begin<R: Wait>(
        &mut self,
        rt: &R,
        alloc: Global,
        area: &MainArea<V, B>,
        hand: &mut CallAccount,
        kind: Kind,
        token: NidToken,
    ) -> Result<FilePass<V>, Error>
        requires token { token ≡ bare_entry self.old.number self.old.number }
        requires some { 0 < self.old.number }
        requires within { self.old.number ≤ V.Numbers.geometry.files }
        requires hand { hand.old ≡ record { book = V.Books.books.book; tickets = []; tokens = token ∷ [] } }
        ensures pass { IfOk result (λ pass. pass ≡ record { number = self.old.number; file = new_file kind }) }
        ensures hand { hand.new ≡ at_home V.Books.books.book }
        ensures number { self.new.number ≡ self.old.number }
        ensures error { IfErr result (λ error. error ≡ NoMemory) }
    {
        if self.state.is_some() {
            // The file that has a number has its token, which is in hand here. So this is not reached.
            for _ in rt.forever() {}
            unreachable!();
        }
        match FileState::new(alloc, area.geometry().shape, kind, token) {
            Ok(file) => {
                recount(area, kind, &mut self.marks, Marks::BORN);
                area.books().lodge_all(&mut self.account, hand);
                let account = issue_file::<B, Brand>(area.books(), &mut self.account, &file);
                let pass = FilePass::of(self.number, 0, account);
                match self.state.replace(file) {
                    None => Ok(pass),
                    Some(_) => unreachable!(),
                }
            }
            Err(token) => {
                give_node(rt, area, hand, token);
                Err(Error::NoMemory)
            }
        }
    }

    /// Spends the pass, and gives up the file with all that it has, its inode's number too. It is never refused.
    pub fn end<R: Wait>(
        &mut self,
        rt: &R,
        area: &MainArea<V, B>,
        hand: &mut CallAccount,
        pass: FilePass<V>,
    )
        requires hand { hand.old ≡ at_home V.Books.books.book }
        requires number { self.old.number ≡ pass.number }
        ensures hand { hand.new ≡ hand.old }
        ensures number { self.new.number ≡ self.old.number }
        ensures none { self.new.account.content ≡ None }
    {
        self.forget_marks(area);
        let file = self.take(area.books(), hand, pass);
        give_up(rt, area, hand, file);
    }

    /// Spends the pass, and takes the file, which is what the pass showed: its tickets and tokens are in hand.
    pub fn take(&mut self, books: &Books, hand: &mut CallAccount, pass: FilePass<V>) -> FileState<B>
        requires books { books.now ≡ V.Books.books }
        requires hand { hand.old ≡ at_home V.Books.books.book }
        requires number { self.old.number ≡ pass.number }
        ensures state { self.old.state ≡ Some result }
        ensures file { file_of result ≡ pass.file }
        ensures lodged { IsLodged V.Numbers.geometry self.old.account result }
        ensures hand { hand.new ≡ record hand.old { tickets = self.old.account.tickets; tokens = self.old.account.tokens } }
        ensures none { (self.new.state ≡ None) × (self.new.account.content ≡ None) }
        ensures number { self.new.number ≡ self.old.number }
    {
        let FilePass {
            number: _,
            length: _,
            account: spent,
            volume: _,
        } = pass;
        books.spend(&mut self.account, spent);
        books.unlodge_all(&mut self.account, hand);
        match self.state.take() {
            Some(file) => file,
            None => unreachable!(),
        }
    }

    /// The account of a number that has no file.
    pub fn into_account(self) -> FileAccount
        requires none { self.state ≡ None }
        ensures book { result.book ≡ V.Books.books.book }
        ensures inode { result.inode ≡ self.number }
        ensures tickets { result.tickets ≡ [] }
        ensures tokens { result.tokens ≡ [] }
    {
        let FileCell {
            number: _,
            account,
            state,
            marks: _,
            volume: _,
        } = self;
        match state {
            None => account,
            Some(_) => unreachable!(),
        }
    }

    /// What is left of a file's lock where the volume is left: its account, with nothing lodged. All that the file has is given
    /// back, and no pass is asked for.
    pub fn give_up<R: Wait>(
        self,
        rt: &R,
        area: &MainArea<V, B>,
        hand: &mut CallAccount,
    ) -> FileAccount
        requires hand { hand.old ≡ at_home V.Books.books.book }
        ensures hand { hand.new ≡ hand.old }
        ensures book { result.book ≡ V.Books.books.book }
        ensures inode { result.inode ≡ self.number }
        ensures tickets { result.tickets ≡ [] }
        ensures tokens { result.tokens ≡ [] }
    {
        let FileCell {
            number: _,
            mut account,
            state,
            marks: _,
            volume: _,
        } = self;
        if let Some(file) = state {
            area.books().unlodge_all(&mut account, hand);
            give_up(rt, area, hand, file);
        }
        account
    }
}

// Makes the pass of a file that none is out for, which shows what the file is.
fn issue_file<B: Block, N: Noted>(
    books: &Books,
    account: &mut FileAccount,
    file: &FileState<B>,
) -> PassAccount
    requires book { account.old.book ≡ books.now.book }
    requires none { account.old.content ≡ None }
    requires noted { N.content ≡ as_content (file_of file.now) }
    ensures account { account.new ≡ record account.old { content = Some (as_content (file_of file.now)) } }
    ensures pass { result ≡ record { book = account.old.book; inode = account.old.inode; content = as_content (file_of file.now) } }
{
    let _ = file;
    books.issue::<N>(account)
}
