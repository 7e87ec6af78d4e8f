//! What is told at the end of a script: its device is mounted, and the files are read.
ghost use Rattle.std.specs.Prelude.{◌≡◌, ◌<◌, ◌++◌, ℕ, false, length, map, IfErr, IfOk, OnOk};
ghost use Rattle.std.specs.Io.KnownBytes.{Appends};
ghost use Rattle.device.specs.Parts.{IsBlockRun};
ghost use Rattle.geometry.specs.Shape.{block_bytes};
ghost use Rattle.program_run.specs.Ending.{ToldParts};
ghost use Rattle.program_run.specs.Lines.{block_text, file_line, lines_of, total_line};
ghost use Rattle.program_run.specs.Run.{names_line};

use crate::Content;
use crate::lines::tell_total;
use crate::stop::Stop;
use flash_volume::{
    Block, Done, Error, FilePass, HoleReuse, Leave, Meta, Parts, Rights, Visit, Volume, VolumeName,
    visit_volume,
};
use std::alloc::Global;
use std::io::Write;
use std::sync::Wait;

/// Mounts the parts of a device, and writes the line of each file and the total of the image that they hold.
pub fn tell_parts<M: Meta + Drop, B: Block + Drop, R: Wait, O: Write>(
    rt: &R,
    alloc: Global,
    parts: Parts<M, B>,
    out: &mut O,
) -> Result<(), Stop>
    requires run { (bytes : ℕ) × IsBlockRun B.address_of B.content_of bytes 1 parts.blocks.items }
    ensures told { OnOk result (ToldParts M.seen B.content_of parts (O.contents out.old) (O.contents out.new)) }
    ensures err { IfErr result (λ stop. names_line stop ≡ false) }
{
    let visit = TellFiles { out: &mut *out };
    match visit_volume(rt, alloc, parts, HoleReuse::Always, Leave::Discard, visit) {
        Ok(left) => match left {
            Ok(done) => {
                let Done {
                    parts: _parts,
                    output,
                } = done;
                let Told { out: writer, told } = output;
                // No effect at run time. The proof reads what `out` holds from this use of `writer`.
                let _ = &*writer;
                told
            }
            Err(fault) => Err(Stop::Refused(fault.error)),
        },
        Err(fault) => Err(Stop::Refused(fault.error)),
    }
}

// A visit that writes the line of each file, and the total of the image at which the volume was opened.
#[derive(Drop)]
struct TellFiles<'a, O> {
    out: &'a mut O,
}

// The writer that was lent, and whether all was told.
#[derive(Drop)]
struct Told<'a, O> {
    out: &'a mut O,
    told: Result<(), Stop>,
}

impl<'a, M: Meta, B: Block + Drop, O: Write> Visit<M, B> for TellFiles<'a, O> {
    ghost use Rattle.std.specs.Prelude.{◌≡◌, ◌++◌, false, map, IfErr, OnOk};
    ghost use Rattle.std.specs.Io.KnownBytes.{Appends};
    ghost use Rattle.program_run.specs.Lines.{lines_of, total_line};
    ghost use Rattle.program_run.specs.Run.{names_line};

    type Output = Told<'a, O>;

    // The writer that comes back is the one that was lent, so who lent it knows what it holds.
    ghost did = { λ tell geometry base before output after. (output.out.ghost_name ≡ tell.out.ghost_name)
        × OnOk output.told (Appends (O.contents tell.out.now) (O.contents output.out.now) (lines_of geometry.shape (map (λ pass. (pass.number, pass.file)) before) ++ total_line base.total))
        × IfErr output.told (λ stop. names_line stop ≡ false) };

    // What goes wrong is told by the output.
    ghost failed = { λ tell geometry base before error. ⊥ };

    fn visit<V: VolumeName, R: Wait>(
        self,
        rt: &R,
        alloc: Global,
        volume: &Volume<V, M, B>,
        rights: &mut Rights<V>,
    ) -> Result<Told<'a, O>, Error> {
        let out = self.out;
        let told = tell_volume(rt, alloc, volume, rights.passes.as_slice(), out);
        Ok(Told { out, told })
    }
}

// Writes the line of the file of each pass, and the total of the image at which the volume was opened.
fn tell_volume<V: VolumeName, M: Meta, B: Block + Drop, R: Wait, O: Write>(
    rt: &R,
    alloc: Global,
    volume: &Volume<V, M, B>,
    passes: &[FilePass<V>],
    out: &mut O,
) -> Result<(), Stop>
    ensures told { OnOk result (Appends (O.contents out.old) (O.contents out.new)
        (lines_of V.Numbers.geometry.shape (map (λ pass. (pass.number, pass.file)) passes.now) ++ total_line volume.now.base.total)) }
    ensures err { IfErr result (λ stop. names_line stop ≡ false) }
{
    let mut block = new_block(alloc, volume.geometry().shape.block_bytes())?;
    let block = block.as_mut_slice();
    for pass in passes {
        tell_pass(rt, volume, pass, block, out)?;
    }
    tell_total(volume.base().total, out)?;
    Ok(())
}

// A block of zeros. The only error is NoMemory.
fn new_block(alloc: Global, bytes: u32) -> Result<Vec<u8>, Error>
    ensures { IfOk result (λ block. length block.items ≡ bytes) }
{
    let block = vec![in alloc; 0; bytes as usize]?;
    Ok(block)
}

// Writes the line of the file of a pass: its number, its length, and each of its blocks.
fn tell_pass<V: VolumeName, M: Meta, B: Block + Drop, R: Wait, O: Write>(
    rt: &R,
    volume: &Volume<V, M, B>,
    pass: &FilePass<V>,
    block: &mut [u8],
    out: &mut O,
) -> Result<(), Stop>
    requires { length block.old ≡ block_bytes V.Numbers.geometry.shape }
    ensures told { OnOk result (Appends (O.contents out.old) (O.contents out.new) (file_line V.Numbers.geometry.shape pass.now.number pass.now.file)) }
    ensures err { IfErr result (λ stop. names_line stop ≡ false) }
{
    let file = pass.number();
    let length = pass.length();
    write!(out, "file {file} length {length}")?;
    for index in 0..length {
        tell_block(rt, volume, pass, index, block, out)?;
    }
    writeln!(out)?;
    Ok(())
}

// Writes what a block of the file of a pass is. Where it cannot be read its line ends.
fn tell_block<V: VolumeName, M: Meta, B: Block + Drop, R: Wait, O: Write>(
    rt: &R,
    volume: &Volume<V, M, B>,
    pass: &FilePass<V>,
    index: u32,
    block: &mut [u8],
    out: &mut O,
) -> Result<(), Stop>
    requires block { length block.old ≡ block_bytes V.Numbers.geometry.shape }
    requires below { index < pass.now.file.length }
    ensures told { OnOk result (Appends (O.contents out.old) (O.contents out.new) (block_text V.Numbers.geometry.shape pass.now.file index)) }
    ensures err { IfErr result (λ stop. names_line stop ≡ false) }
{
    match volume.read(rt, pass, index, block) {
        Ok(true) => {
            Content::of(block).tell(out)?;
            Ok(())
        }
        Ok(false) => unreachable!(),
        Err(error) => {
            writeln!(out)?;
            Err(Stop::Refused(error))
        }
    }
}
