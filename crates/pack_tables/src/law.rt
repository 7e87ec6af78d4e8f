//! What the definitions of a pack's bytes promise to those who write and read them.
ghost use Rattle.std.specs.Prelude.{◌≡◌, ℕ, List};
ghost use Rattle.geometry.specs.File.{Block};
ghost use Rattle.geometry.specs.declared.geometry.Geometry.{Geometry};
ghost use Rattle.image.specs.Image.{Image};
ghost use Rattle.image.specs.Pack.{pack_body};
ghost use Rattle.image.specs.Reading.{image_in, read_nodes};
ghost use Rattle.packs.specs.Area.{reading_of};
ghost use Rattle.packs.specs.Pack.{picked};
ghost use Rattle.pack_tables.specs.File.{picked_body};
ghost use Rattle.pack_tables.specs.Grammar.{HasSpelling};

/// The tables of an image whose numbers fit their fields are read back from its pack's body, whatever they are; its
/// nodes are those in the main blocks. And the pack that counts is one, whether it is chosen in an image file or in a
/// device's area. It runs nothing: its contract is the law.
pub fn reading_law()
    ensures round_trip { (geometry : Geometry) (image : Image) (blocks : ℕ → Block) → HasSpelling geometry image
        → image_in geometry (pack_body geometry.shape image) blocks
        ≡ record image { nodes = read_nodes geometry.shape blocks image.node_table } }
    ensures picked { (geometry : Geometry) (file : List ℕ)
        → picked (reading_of geometry) file ≡ picked_body geometry file }
{}
