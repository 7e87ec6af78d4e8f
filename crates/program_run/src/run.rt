//! Runs a script.
ghost use Rattle.std.specs.Prelude.{◌≡◌, ◌≢◌, ◌⊎◌, true, false, IfErr, IfOk, OnOk};
ghost use Rattle.std.specs.Io.KnownBytes.{IsAtEnd};
ghost use Rattle.device.specs.Parts.{HasSize};
ghost use Rattle.program_run.specs.Ending.{LeftScript};
ghost use Rattle.program_run.specs.Run.{WroteScript, WroteSomeScript, names_line};

use crate::disk::{Faults, new_parts, with_faults, without_faults};
use crate::gate::Gate;
use crate::reading::read_all;
use crate::remounting::{Left, run_mounted};
use crate::setting::{Rules, Setting};
use crate::status::DONE;
use crate::steps::Carried;
use crate::stop::Stop;
use crate::telling::tell_parts;
use flash_volume::{Block, Geometry, MemDevice, Meta, Parts, SharedBlock};
use pack_tables::one_image_law;
use program_script::{Numbers, Script, Step};
use std::alloc::Global;
use std::io::{Read, Write};
use std::sync::Wait;
use std::thread::Threads;
use volume_format::format;
use volume_law::{format_law, mount_law};

/// Reads a script to its end, and runs it on a new volume in memory: each command writes its line to `out`. Behind the last
/// one the readers that are open are closed, and the volume is closed with a checkpoint. A wounded volume has none: it is left
/// as it is, behind a line that tells so. The bytes of the device are added to `saved`, if there is one. Then the device is
/// mounted again, and each file has a line with its length and its blocks, and the image's total a last one.
///
/// The script's volume is made and written by `rules`. The calls of workers side by side go through `gate`.
///
/// Answers the exit status: 0 where all was done; 1 where the volume could not be made, closed or mounted again, or a file not
/// be read at the end, which is told on `out`; 3 where a line is not of the grammar, which is told on `errors` and nothing is
/// run; 4 where `input` could not be read, `out` could not be written, or the program itself found no memory. A command that is
/// refused writes its refusal, and the run goes on.
pub fn run_script<T: Threads + Wait + Sync, G: Gate + Sync, R: Read, W: Write, E: Write>(
    rt: &T,
    alloc: Global,
    input: &mut R,
    out: &mut W,
    errors: &mut E,
    saved: Option<&mut Vec<u8>>,
    rules: Rules,
    gate: &G,
) -> u8
    ensures status { (result ≡ 0) ⊎ ((result ≡ 1) ⊎ ((result ≡ 3) ⊎ (result ≡ 4))) }
    ensures read { result ≡ 0 → IsAtEnd (R.remaining input.new) }
    ensures done { result ≡ 0 → (out.new ≡ out.old) ⊎ WroteSomeScript (W.contents out.old) (W.contents out.new) }
    ensures bad_line { result ≡ 3 → out.new ≡ out.old }
    ensures quiet { result ≢ 3 → result ≢ 4 → errors.new ≡ errors.old }
{
    match read_and_run(rt, alloc, input, out, saved, rules, gate) {
        Ok(()) => DONE,
        Err(stop) => stop.tell(out, errors),
    }
}

fn read_and_run<T: Threads + Wait + Sync, G: Gate + Sync, R: Read, W: Write>(
    rt: &T,
    alloc: Global,
    input: &mut R,
    out: &mut W,
    saved: Option<&mut Vec<u8>>,
    rules: Rules,
    gate: &G,
) -> Result<(), Stop>
    ensures read { OnOk result (IsAtEnd (R.remaining input.new)) }
    ensures done { OnOk result ((out.new ≡ out.old) ⊎ WroteSomeScript (W.contents out.old) (W.contents out.new)) }
    ensures bad_line { IfErr result (λ stop. names_line stop ≡ true → out.new ≡ out.old) }
{
    let text = read_all(alloc, input)?;
    let script = Script::parse(alloc, text.as_slice())?;
    let Some(numbers) = script.volume else {
        return Ok(());
    };
    run_whole(
        rt,
        alloc,
        numbers,
        script.steps.as_slice(),
        out,
        saved,
        rules,
        gate,
    )
}

// Runs the steps on a new volume of these numbers, puts the bytes of the device that they leave aside, and tells its files.
fn run_whole<T: Threads + Wait + Sync, G: Gate + Sync, W: Write>(
    rt: &T,
    alloc: Global,
    numbers: Numbers,
    steps: &[Step],
    out: &mut W,
    saved: Option<&mut Vec<u8>>,
    rules: Rules,
    gate: &G,
) -> Result<(), Stop>
    ensures done { OnOk result (WroteScript steps.now (W.contents out.old) (W.contents out.new)) }
    ensures err { IfErr result (λ stop. names_line stop ≡ false) }
{
    let geometry = Geometry::new(
        numbers.shape,
        numbers.segments,
        numbers.per_section,
        numbers.files,
        numbers.nodes,
    )?
    .with_packing(rules.packing);
    let setting = Setting {
        faults: Faults::new(alloc)?,
        hole_reuse: rules.hole_reuse,
        gate,
    };
    let parts = new_parts(alloc, &geometry, &setting.faults)?;
    let left = run_volumes(rt, alloc, parts, geometry, steps, &setting, out)?;
    let device = without_faults(alloc, left)?;
    put_aside(&device, saved)?;
    let parts = with_faults(alloc, device, &setting.faults)?;
    tell_parts(rt, alloc, parts, out)?;
    one_image_law();
    Ok(())
}

// Runs all steps, each on the volume that the last one before it mounted, and leaves the last of these volumes: the parts of its
// device.
fn run_volumes<
    M: Meta + Drop + Send,
    B: SharedBlock,
    T: Threads + Wait + Sync,
    G: Gate + Sync,
    W: Write,
>(
    rt: &T,
    alloc: Global,
    parts: Parts<M, B>,
    geometry: Geometry,
    steps: &[Step],
    setting: &Setting<'_, G>,
    out: &mut W,
) -> Result<Parts<M, B>, Stop>
    requires size { HasSize M.seen B.address_of B.content_of geometry parts }
    ensures done { IfOk result (λ parts. LeftScript M.seen B.address_of B.content_of steps.now parts (W.contents out.old) (W.contents out.new)) }
    ensures err { IfErr result (λ stop. names_line stop ≡ false) }
{
    let parts = match format(alloc, parts, geometry) {
        Ok(parts) => parts,
        Err(fault) => return Err(Stop::Refused(fault.error)),
    };
    mount_law::<M, B>();
    format_law::<M, B>();
    let new = Carried {
        formatted: true,
        time: 0,
        readers: 0,
    };
    let mut rest = steps;
    let mut left = run_mounted(rt, alloc, parts, new, rest, setting, out)?;
    while left.run < rest.len() {
        let Left {
            parts,
            run,
            carried,
        } = left;
        rest = &rest[run + 1..];
        left = run_mounted(rt, alloc, parts, carried, rest, setting, out)?;
    }
    let Left {
        parts,
        run: _,
        carried: _,
    } = left;
    Ok(parts)
}

// Adds the bytes of a device to `saved`, if there is one.
fn put_aside(device: &MemDevice, saved: Option<&mut Vec<u8>>) -> Result<(), Stop>
    ensures { IfErr result (λ stop. names_line stop ≡ false) }
{
    match saved {
        Some(saved) => device.append_to(saved).map_err(|_| Stop::NoMemory),
        None => Ok(()),
    }
}
