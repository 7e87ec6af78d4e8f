//! The law that the bytes of a device hold one image.
ghost use Rattle.pack_tables.specs.OneImage.{OneImageLaw};

/// The bytes of a meta area and of main blocks hold at most one image, of a volume of one geometry: so its files over these
/// blocks are one list too. Whoever reads them finds what was written, and nothing else.
///
/// It runs nothing: its contract is the law.
pub fn one_image_law()
    ensures { OneImageLaw }
{}
