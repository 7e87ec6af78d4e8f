//! The number that stands for a class in a node's block.
ghost use Rattle.std.specs.Prelude.{◌≡◌};
ghost use Rattle.geometry.specs.Class.{class_code};

use geometry::Class;

/// The number that stands for a class in a node's block. A block of data is no node, and has none of 0 to 2.
pub fn class_code(class: Class) -> u32
    ensures { result ≡ class_code class }
{
    match class {
        Class::Inode => 0,
        Class::Direct => 1,
        Class::Indirect => 2,
        Class::Data => 3,
    }
}
