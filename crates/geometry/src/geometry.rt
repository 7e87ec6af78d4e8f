//! A volume's numbers, within their limits.
ghost use Rattle.std.specs.Prelude.{◌≡◌, ◌≢◌, ◌+◌, ◌-◌, ◌*◌, ◌/◌, ◌%◌, ◌<◌, ◌≤◌, ℕ, IsOk, IfOk, IfErr, ◌↔◌};
ghost use Rattle.geometry.specs.Shape.{block_bytes, segment_blocks};
ghost use Rattle.geometry.specs.Limits.{IsWithinLimits};
ghost use Rattle.geometry.specs.declared.error.Error.TheVariants.{BadGeometry};
ghost use Rattle.geometry.specs.declared.packing.Packing.TheVariants.{Slots};

use crate::{Error, Packing, Shape};

/// The bytes of a superblock, with which a meta area begins.
pub const SUPER_BYTES: usize = 64;

/// A volume's numbers. None is beyond its limits.
#[derive(Clone, Copy, Debug, PartialEq, Eq)]
pub struct Geometry {
    pub shape: Shape,
    /// 16 to 4096 segments.
    pub segments: u32,
    /// 1 to 16 segments a section, and every section has as many.
    pub per_section: u32,
    /// 1 to 1024 files at most.
    pub files: u32,
    /// As many node numbers as files, to 65536.
    pub nodes: u32,
    /// How the checkpoint packs lie.
    pub packing: Packing,
    ghost limits: { IsWithinLimits segments per_section files nodes },
}

impl Geometry {
    ghost use Rattle.geometry.specs.Area.{block_count, pack_bytes, meta_bytes};
    ghost use Rattle.geometry.specs.Address.{address_of, segment_of, offset_of};

    /// A geometry of these numbers, whose packs lie in slots. Answers BadGeometry where one of them is beyond its limits.
    pub fn new(
        shape: Shape,
        segments: u32,
        per_section: u32,
        files: u32,
        nodes: u32,
    ) -> Result<Geometry, Error>
        ensures within { IsOk result ↔ IsWithinLimits segments per_section files nodes }
        ensures ok { IfOk result (λ g. (g.shape ≡ shape) × (g.segments ≡ segments) × (g.per_section ≡ per_section) × (g.files ≡ files) × (g.nodes ≡ nodes) × (g.packing ≡ Slots)) }
        ensures err { IfErr result (λ e. e ≡ BadGeometry) }
    {
        if segments < 16 || segments > 4096 {
            return Err(Error::BadGeometry);
        }
        if per_section < 1 || per_section > 16 {
            return Err(Error::BadGeometry);
        }
        if segments % per_section != 0 {
            return Err(Error::BadGeometry);
        }
        if files < 1 || files > 1024 {
            return Err(Error::BadGeometry);
        }
        if nodes < files || nodes > 65536 {
            return Err(Error::BadGeometry);
        }
        Ok(Geometry {
            shape,
            segments,
            per_section,
            files,
            nodes,
            packing: Packing::Slots,
        })
    }

    /// The same numbers, with packs that lie so.
    pub fn with_packing(self, packing: Packing) -> Geometry
        ensures { result ≡ record self { packing = packing } }
    {
        Geometry {
            shape: self.shape,
            segments: self.segments,
            per_section: self.per_section,
            files: self.files,
            nodes: self.nodes,
            packing,
        }
    }

    /// How many blocks all segments have. The largest address is as large.
    pub fn blocks(&self) -> u32
        ensures { result ≡ block_count self.now }
    {
        self.segments * self.shape.segment_blocks()
    }

    /// The address of a block, by its segment and its place in it.
    pub fn address_of(&self, segment: u32, offset: u32) -> u32
        requires segment { segment < self.now.segments }
        requires offset { offset < segment_blocks self.now.shape }
        ensures { result ≡ address_of self.now.shape segment offset }
    {
        1 + segment * self.shape.segment_blocks() + offset
    }

    /// The segment that has the block of this address.
    pub fn segment_of(&self, address: u32) -> u32
        requires { (0 < address) × (address ≤ block_count self.now) }
        ensures number { result ≡ segment_of self.now.shape address }
        ensures within { result < self.now.segments }
    {
        (address - 1) / self.shape.segment_blocks()
    }

    /// The place in its segment of the block of this address.
    pub fn offset_of(&self, address: u32) -> u32
        requires { (0 < address) × (address ≤ block_count self.now) }
        ensures number { result ≡ offset_of self.now.shape address }
        ensures within { result < segment_blocks self.now.shape }
    {
        (address - 1) % self.shape.segment_blocks()
    }

    /// The section that has this segment.
    pub fn section_of(&self, segment: u32) -> u32
        requires { segment < self.now.segments }
        ensures { result ≡ segment / self.now.per_section }
    {
        segment / self.per_section
    }

    /// The bytes of one checkpoint pack.
    pub fn pack_bytes(&self) -> u64
        ensures { result ≡ pack_bytes self.now }
    {
        let segments = u64::from(self.segments);
        let blocks = u64::from(self.shape.segment_blocks());
        60 + 8 * u64::from(self.nodes) + segments * (12 + blocks / 8) + 8 * segments * blocks
    }

    /// The bytes of the meta area: the superblock, and two packs in slots, or two heads and two copies of each page.
    pub fn meta_bytes(&self) -> u64
        ensures { result ≡ meta_bytes self.now }
    {
        match self.packing {
            Packing::Slots => 64 + 2 * self.pack_bytes(),
            Packing::Pages => 12288 + 8192 * ((self.pack_bytes() - 60 + 4095) / 4096),
        }
    }
}
