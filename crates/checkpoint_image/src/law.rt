//! The laws of an image that is taken with all locks in hand.
ghost use Rattle.checkpoint_image.specs.PartsLaw.{AuditLaw, BlocksLaw, ImageLaw, TakenLaw, ReadLaw};

/// Where all that lies in the locks keeps its law, and a settled audit has learned it, the parts of an image that it makes
/// keep their law and balance.
///
/// It runs nothing: its contract is the law.
pub fn audit_law()
    ensures { AuditLaw }
{}

/// An image of parts that keep their law and balance is lawful, has their files, and names exactly what is marked.
///
/// It runs nothing: its contract is the law.
pub fn image_law()
    ensures { ImageLaw }
{}

/// An image whose tables are those of such parts, row by row, and which has each node in the row of its number, is an
/// image of the parts.
///
/// It runs nothing: its contract is the law.
pub fn taken_law()
    ensures { TakenLaw }
{}

/// The nodes of an image of such parts are those that its table reads out of main blocks that spell them.
///
/// It runs nothing: its contract is the law.
pub fn read_law()
    ensures { ReadLaw }
{}

/// Where a settled audit has learned all that lies in the locks, each address has one node at most: so there are main blocks
/// that hold what the tokens show.
///
/// It runs nothing: its contract is the law.
pub fn blocks_law()
    ensures { BlocksLaw }
{}
