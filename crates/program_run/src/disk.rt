//! The memory device of a script, which fails where the script says so.
ghost use Rattle.std.specs.Prelude.{◌≡◌, map, IfOk, IfErr};
ghost use Rattle.device.specs.Parts.{HasSize};
ghost use Rattle.program_run.specs.declared.stop.Stop.TheVariants.{NoMemory};

use crate::stop::Stop;
use device::{Faulty, Fuse};
use flash_volume::{Block, Geometry, MemBlock, MemDevice, MemMeta, Meta, Parts};
use program_script::Failure;
use std::alloc::{AllocError, Global};
use std::sync::Arc;

/// What lets calls of a device fail: one fuse for its meta area, and one for all its blocks.
#[derive(Drop)]
pub struct Faults {
    meta: Arc<Fuse>,
    block: Arc<Fuse>,
}

impl Faults {
    /// None is armed. It stops where there is no memory.
    pub fn new(alloc: Global) -> Result<Faults, Stop>
        ensures err { IfErr result (λ stop. stop ≡ NoMemory) }
    {
        let meta = shared_fuse(alloc)?;
        let block = shared_fuse(alloc)?;
        Ok(Faults { meta, block })
    }

    /// Lets a call fail that comes after this one. The only error is want of memory.
    pub fn arm(&self, failure: Failure) -> Result<(), AllocError> {
        match failure {
            Failure::Meta { call, late } => self.meta.arm(call, late),
            Failure::Block { call } => self.block.arm(call, false),
        }
    }
}

// A fuse that is not armed. It stops where there is no memory.
fn shared_fuse(alloc: Global) -> Result<Arc<Fuse>, Stop>
    ensures err { IfErr result (λ stop. stop ≡ NoMemory) }
{
    match Arc::new(alloc, Fuse::new(alloc)) {
        Ok(shared) => Ok(shared),
        Err(_) => Err(Stop::NoMemory),
    }
}

/// The parts of a new device in memory of the size of a geometry, which fail where their fuses say so. It stops where there is no
/// memory.
pub fn new_parts(
    alloc: Global,
    geometry: &Geometry,
    faults: &Faults,
) -> Result<Parts<Faulty<MemMeta>, Faulty<MemBlock>>, Stop>
    ensures size { IfOk result (λ parts. HasSize ⟦<Faulty<MemMeta> as Meta>⟧.seen ⟦<Faulty<MemBlock> as Block>⟧.address_of ⟦<Faulty<MemBlock> as Block>⟧.content_of geometry.now parts) }
    ensures err { IfErr result (λ stop. stop ≡ NoMemory) }
{
    match MemDevice::new(alloc, geometry) {
        Ok(device) => with_faults(alloc, device, faults),
        Err(_) => Err(Stop::NoMemory),
    }
}

/// The parts of a device in memory, which fail where their fuses say so. It stops where there is no memory.
pub fn with_faults(
    alloc: Global,
    device: MemDevice,
    faults: &Faults,
) -> Result<Parts<Faulty<MemMeta>, Faulty<MemBlock>>, Stop>
    ensures meta { IfOk result (λ parts. parts.meta.inner ≡ device.parts.meta) }
    ensures blocks { IfOk result (λ parts. map (λ block. block.inner) parts.blocks.items ≡ device.parts.blocks.items) }
    ensures err { IfErr result (λ stop. stop ≡ NoMemory) }
{
    let Parts { meta, blocks } = device.split();
    let meta = Faulty::new(meta, Arc::try_clone(&faults.meta)?);
    let mut faulty = Vec::with_capacity(alloc, blocks.len())?;
    for block in blocks {
        let fuse = Arc::try_clone(&faults.block)?;
        faulty.push_reserved(Faulty::new(block, fuse));
    }
    Ok(Parts {
        meta,
        blocks: faulty,
    })
}

/// The device without what lets it fail. It stops where there is no memory.
pub fn without_faults(
    alloc: Global,
    parts: Parts<Faulty<MemMeta>, Faulty<MemBlock>>,
) -> Result<MemDevice, Stop>
    ensures meta { IfOk result (λ device. device.parts.meta ≡ parts.meta.inner) }
    ensures blocks { IfOk result (λ device. device.parts.blocks.items ≡ map (λ block. block.inner) parts.blocks.items) }
    ensures err { IfErr result (λ stop. stop ≡ NoMemory) }
{
    let Parts { meta, blocks } = parts;
    let mut plain = Vec::with_capacity(alloc, blocks.len())?;
    for block in blocks {
        plain.push_reserved(block.into_inner());
    }
    Ok(MemDevice::join(Parts {
        meta: meta.into_inner(),
        blocks: plain,
    }))
}
