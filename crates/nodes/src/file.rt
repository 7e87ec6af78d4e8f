//! The state of one file: its inode and the tree below it.
ghost use Rattle.std.specs.Prelude.{◌≡◌, true, false, ◌↔◌, IfOk, IfErr};
ghost use Rattle.nodes.specs.Change.{each_marked};

use crate::{Branch, Entries};
use device::Block;
use geometry::{Kind, Shape};
use std::alloc::Global;
use tickets::{NidToken, Ticket};

/// The inode of a file, and below it the nodes and the tickets of its blocks (Linux `filesystems/f2fs`, index structure).
///
/// To contracts `kind` and `length` are the file's, `ticket_at` gives the ticket at each index, and `weight_of` what all
/// tickets and nodes weigh. `IsFile` holds from `new` on.
pub struct FileState<B: Block> {
    /// Which says how many entries a node has.
    pub shape: Shape,
    /// What the file holds.
    pub kind: Kind,
    /// In blocks.
    pub length: u32,
    /// Whether the length was changed since the inode's block was written.
    pub resized: bool,
    /// The token of the inode's number.
    pub token: NidToken,
    /// The tickets that the inode names itself.
    pub tickets: Entries<Ticket<B>>,
    /// The two direct nodes.
    pub direct: Entries<Branch<Ticket<B>>>,
    /// The two indirect nodes.
    pub indirect: Entries<Branch<Branch<Ticket<B>>>>,
    /// The one double indirect node.
    pub double: Entries<Branch<Branch<Branch<Ticket<B>>>>>,
}

impl<B: Block> FileState<B> {
    ghost use Rattle.nodes.specs.File.{IsFile, IsBare, inode_of, weight_of};

    /// A file without blocks, whose inode is still to be written. All memory of the inode is made here; where it is missing
    /// the token is handed back.
    pub fn new(
        alloc: Global,
        shape: Shape,
        kind: Kind,
        token: NidToken,
    ) -> Result<FileState<B>, NidToken>
        ensures shape { IfOk result (λ file. file.shape ≡ shape) }
        ensures kind { IfOk result (λ file. file.kind ≡ kind) }
        ensures length { IfOk result (λ file. file.length ≡ 0) }
        ensures token { IfOk result (λ file. file.token ≡ token) }
        ensures marked { IfOk result (λ file. (inode_of file).dirty ≡ true) }
        ensures bare { IfOk result (λ file. IsBare file) }
        ensures file { IfOk result (λ file. IsFile file) }
        ensures refused { IfErr result (λ back. back ≡ token) }
    {
        let Ok(tickets) = Entries::empty(alloc, shape.inode_entries() as usize) else {
            return Err(token);
        };
        let Ok(direct) = Entries::empty(alloc, 2) else {
            tickets.destroy();
            return Err(token);
        };
        let Ok(indirect) = Entries::empty(alloc, 2) else {
            tickets.destroy();
            direct.destroy();
            return Err(token);
        };
        let Ok(double) = Entries::empty(alloc, 1) else {
            tickets.destroy();
            direct.destroy();
            indirect.destroy();
            return Err(token);
        };
        Ok(FileState {
            shape,
            kind,
            length: 0,
            resized: true,
            token,
            tickets,
            direct,
            indirect,
            double,
        })
    }

    /// What the file holds.
    pub fn kind(&self) -> Kind
        ensures { result ≡ self.now.kind }
    {
        self.kind
    }

    /// The length in blocks.
    pub fn length(&self) -> u32
        ensures { result ≡ self.now.length }
    {
        self.length
    }

    /// The number of its inode.
    pub fn number(&self) -> u32
        ensures { result ≡ self.now.token.number }
    {
        self.token.number()
    }

    /// Whether a node is marked, as changed since its block was written.
    pub fn dirty(&self) -> bool
        ensures { (result ≡ false) ↔ (weight_of self.now each_marked ≡ 0) }
    {
        self.resized
            || !(self.tickets.is_clean()
                && self.direct.is_clean()
                && self.indirect.is_clean()
                && self.double.is_clean())
    }

    /// Gives up a file that names nothing: the token of its inode.
    pub fn into_token(self) -> NidToken
        requires { IsBare self }
        ensures { result ≡ self.token }
    {
        let FileState {
            shape: _,
            kind: _,
            length: _,
            resized: _,
            token,
            tickets,
            direct,
            indirect,
            double,
        } = self;
        tickets.destroy();
        direct.destroy();
        indirect.destroy();
        double.destroy();
        token
    }
}
