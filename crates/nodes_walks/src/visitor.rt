//! Who is lent the token of a node.
ghost use Rattle.std.specs.Prelude.{◌≡◌, OnOk, OnErr, IfErr};
ghost use Rattle.rights_books.specs.declared.claim.TakenNumber.{TakenNumber};
ghost use Rattle.geometry.specs.declared.error.Error.{Error as Reason};

use geometry::{Class, Error};
use tickets::NidToken;

/// Who is lent the token of a node, and may move the node's block.
///
/// To contracts `ready` is what a visitor asks of a token, `visited` what an Ok says of the token before and after and of
/// the visitor before and after, and `refused` what an error says.
pub trait NodeVisitor {
    ghost ready: { Self → TakenNumber → Type 0 };

    ghost visited: { Self → TakenNumber → TakenNumber → Self → Type 0 };

    ghost refused: { Self → TakenNumber → Reason → Self → Type 0 };

    /// Works with the token of a node of this class. An error leaves the token as it was.
    fn visit(&mut self, class: Class, token: &mut NidToken) -> Result<(), Error>
        requires { ready self.old token.old }
        ensures visited { OnOk result (visited self.old token.old token.new self.new) }
        ensures refused { IfErr result (λ e. refused self.old token.old e self.new) }
        ensures number { token.new.number ≡ token.old.number }
        ensures same { OnErr result (token.new ≡ token.old) };
}
