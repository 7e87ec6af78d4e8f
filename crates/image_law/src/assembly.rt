//! The law of an image that is assembled where the books balance.
ghost use Rattle.image_law.specs.AssemblyLaw.{AssemblyLaw};

/// Where each segment, shard, log and file keeps its law, and the books balance, the image that is assembled of them
/// keeps all ten rules, its files are what the files' index trees hold, and its names are exactly what is marked.
///
/// It runs nothing: its contract is the law.
pub fn assembly_law()
    ensures { AssemblyLaw }
{}
