//! The number that stands for a kind in an inode's block.
ghost use Rattle.std.specs.Prelude.{◌≡◌, ◌≢◌, IfSome, IfNone};
ghost use Rattle.image.specs.Node.{kind_code};
ghost use Rattle.geometry.specs.declared.kind.Kind.{Kind};

use geometry::Kind;

pub fn kind_code(kind: Kind) -> u8
    ensures { result ≡ kind_code kind }
{
    match kind {
        Kind::File => 0,
        Kind::Dir => 1,
        Kind::Media => 2,
    }
}

// The kind of a number, if there is one.
pub fn kind_of(code: u8) -> Option<Kind>
    ensures kind { IfSome result (λ kind. kind_code kind ≡ code) }
    ensures none { IfNone result ((kind : Kind) → kind_code kind ≢ code) }
{
    match code {
        0 => Some(Kind::File),
        1 => Some(Kind::Dir),
        2 => Some(Kind::Media),
        _ => None,
    }
}
