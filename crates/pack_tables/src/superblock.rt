//! The superblock: 64 bytes that tell a volume's geometry.
ghost use Rattle.std.specs.Prelude.{◌≡◌, ◌≢◌, ◌≤◌, ◌+◌, length, take, IfOk, IfErr};
ghost use Rattle.geometry.specs.declared.error.Error.TheVariants.{BadGeometry};
ghost use Rattle.geometry.specs.declared.geometry.Geometry.{Geometry as Numbers};
ghost use Rattle.image.specs.Pack.{superblock};
ghost use Rattle.image.specs.Reading.{number_at};
ghost use Rattle.pack_tables.specs.Grammar.{HasSuper};
ghost use Rattle.pack_tables.specs.Fields.{HasNumbers};

use byteorder::{ByteOrder, LittleEndian};
use geometry::{Error, Geometry, Packing, SUPER_BYTES, Shape};

// The bytes of the superblock that tell the geometry. The maps of the two slots follow.
const FRONT_BYTES: usize = 32;

const NAME: &[u8; 8] = b"F2SEG001";

// The numbers of the two packings.
const SLOTS: u32 = 1;

const PAGES: u32 = 3;

/// Writes the superblock of a geometry over 64 bytes. It takes no memory.
pub fn write_super(geometry: &Geometry, out: &mut [u8])
    requires { length out.old ≡ 64 }
    ensures { out.new ≡ superblock geometry.now }
{
    let shape = match geometry.shape {
        Shape::Tiny => 0,
        Shape::Kernel => 1,
    };
    let packing = match geometry.packing {
        Packing::Slots => SLOTS,
        Packing::Pages => PAGES,
    };
    let numbers = [
        packing,
        shape,
        geometry.segments,
        geometry.per_section,
        geometry.files,
        geometry.nodes,
    ];
    let (name, rest) = out.split_at_mut(NAME.len());
    let (fields, zeros) = rest.split_at_mut(4 * numbers.len());
    name.copy_from_slice(NAME);
    LittleEndian::write_u32_into(&numbers, fields);
    zeros.fill(0);
}

fn number_in(head: &[u8], at: usize) -> u32
    requires { at + 4 ≤ length head.now }
    ensures { result ≡ number_at head.now at }
{
    LittleEndian::read_u32(&head[at..])
}

// The geometry of the numbers that stand in a superblock.
fn geometry_in(head: &[u8]) -> Result<Geometry, Error>
    requires { length head.now ≡ 64 }
    ensures ok { IfOk result (λ geometry. HasNumbers geometry head.now) }
    ensures err { IfErr result (λ e. (e ≡ BadGeometry) × ((geometry : Numbers) → ¬ HasNumbers geometry head.now)) }
{
    let packing = match number_in(head, 8) {
        SLOTS => Packing::Slots,
        PAGES => Packing::Pages,
        _ => return Err(Error::BadGeometry),
    };
    let shape = match number_in(head, 12) {
        0 => Shape::Tiny,
        1 => Shape::Kernel,
        _ => return Err(Error::BadGeometry),
    };
    let segments = number_in(head, 16);
    let per_section = number_in(head, 20);
    let files = number_in(head, 24);
    let nodes = number_in(head, 28);
    let geometry = Geometry::new(shape, segments, per_section, files, nodes)?;
    Ok(geometry.with_packing(packing))
}

/// The geometry that the first 32 bytes tell. What comes behind them is not looked at. Answers BadGeometry where they
/// are no superblock's of any geometry, also where there are fewer than 64 bytes. It takes no memory.
pub fn read_super(bytes: &[u8]) -> Result<Geometry, Error>
    ensures ok { IfOk result (λ geometry. HasSuper geometry bytes.now) }
    ensures err { IfErr result (λ e. (e ≡ BadGeometry) × ((geometry : Numbers) → ¬ HasSuper geometry bytes.now)) }
{
    if bytes.len() < SUPER_BYTES {
        return Err(Error::BadGeometry);
    }
    let head = &bytes[..SUPER_BYTES];
    let geometry = geometry_in(head)?;
    let mut spelled = [0u8; SUPER_BYTES];
    write_super(&geometry, &mut spelled);
    if head[..FRONT_BYTES] == spelled[..FRONT_BYTES] {
        Ok(geometry)
    } else {
        Err(Error::BadGeometry)
    }
}
