//! What a command makes, written to its file and told by lines.

ghost use Rattle.std.specs.Prelude.{◌≤◌, None, Some, IfErr, OnOk, option_map, string_bytes};
ghost use Rattle.warg_program.specs.World.{SeenFiles, seen_files, seen_output, world};
ghost use Rattle.warg_program.specs.Delivery.{IsDelivered, IsUndelivered};

use crate::stop::{Access, Stop};
use std::alloc::Global;
use warg_base::{FileError, Files, Out, OutError};

/// What a command makes. It is made before anything is written, so want of memory for it leaves the file as it was.
#[derive(Debug, Drop)]
pub struct Made {
    /// The component, which is written to the command's file, where it has one.
    pub bytes: Vec<u8>,
    /// The lines that tell of them.
    pub lines: String,
}

/// Writes what was made to the file at `out`, and prints its lines.
fn deliver_to<'a, F: Files, O: Out>(
    alloc: Global,
    files: &mut F,
    output: &mut O,
    out: &'a str,
    made: &Made,
) -> Result<(), Stop<'a>>
    ensures files_never_fall { F.faults files.old ≤ F.faults files.new }
    ensures out_never_falls { O.faults output.old ≤ O.faults output.new }
    ensures done { let before = world
        (seen_files (F.told files.old) (F.faults files.old))
        (seen_output (O.told output.old) (O.faults output.old)) in
        let after = world
        (seen_files (F.told files.new) (F.faults files.new))
        (seen_output (O.told output.new) (O.faults output.new)) in
        OnOk result (IsDelivered (Some out.now) made.now.bytes.items (string_bytes made.now.lines) before after) }
    ensures stopped { let before = world
        (seen_files (F.told files.old) (F.faults files.old))
        (seen_output (O.told output.old) (O.faults output.old)) in
        let after = world
        (seen_files (F.told files.new) (F.faults files.new))
        (seen_output (O.told output.new) (O.faults output.new)) in
        IfErr result (λ stop.
        IsUndelivered stop (Some out.now) made.now.bytes.items (string_bytes made.now.lines) before after) }
{
    match files.write(alloc, out, &made.bytes) {
        Ok(()) => {}
        Err(FileError::Failed) => return Err(Stop::Fault(Access::Written(out))),
        Err(FileError::Memory) => return Err(Stop::Memory),
        // Only a read answers this.
        Err(FileError::Missing) => unreachable!(),
    }
    match output.write_all(alloc, made.lines.as_bytes()) {
        Ok(()) => Ok(()),
        Err(OutError::Failed) => Err(Stop::Fault(Access::Printed)),
        Err(OutError::Memory) => Err(Stop::Memory),
    }
}

/// Prints the lines of what was made, where no file is written.
fn tell<'a, O: Out>(alloc: Global, output: &mut O, made: &Made) -> Result<(), Stop<'a>>
    ensures never_falls { O.faults output.old ≤ O.faults output.new }
    ensures done { (files : SeenFiles) → OnOk result
        (IsDelivered None made.now.bytes.items (string_bytes made.now.lines)
        (world files (seen_output (O.told output.old) (O.faults output.old)))
        (world files (seen_output (O.told output.new) (O.faults output.new)))) }
    ensures stopped { (files : SeenFiles) → IfErr result (λ stop.
        IsUndelivered stop None made.now.bytes.items (string_bytes made.now.lines)
        (world files (seen_output (O.told output.old) (O.faults output.old)))
        (world files (seen_output (O.told output.new) (O.faults output.new)))) }
{
    match output.write_all(alloc, made.lines.as_bytes()) {
        Ok(()) => Ok(()),
        Err(OutError::Failed) => Err(Stop::Fault(Access::Printed)),
        Err(OutError::Memory) => Err(Stop::Memory),
    }
}

/// Writes what was made to the file at `out`, where there is one, and prints its lines.
pub fn deliver<'a, F: Files, O: Out>(
    alloc: Global,
    files: &mut F,
    output: &mut O,
    out: Option<&'a str>,
    made: &Made,
) -> Result<(), Stop<'a>>
    ensures files_never_fall { F.faults files.old ≤ F.faults files.new }
    ensures out_never_falls { O.faults output.old ≤ O.faults output.new }
    ensures done { let before = world
        (seen_files (F.told files.old) (F.faults files.old))
        (seen_output (O.told output.old) (O.faults output.old)) in
        let after = world
        (seen_files (F.told files.new) (F.faults files.new))
        (seen_output (O.told output.new) (O.faults output.new)) in
        OnOk result (IsDelivered (option_map (λ path. path.now) out.entry) made.now.bytes.items
        (string_bytes made.now.lines) before after) }
    ensures stopped { let before = world
        (seen_files (F.told files.old) (F.faults files.old))
        (seen_output (O.told output.old) (O.faults output.old)) in
        let after = world
        (seen_files (F.told files.new) (F.faults files.new))
        (seen_output (O.told output.new) (O.faults output.new)) in
        IfErr result (λ stop. IsUndelivered stop (option_map (λ path. path.now) out.entry) made.now.bytes.items
        (string_bytes made.now.lines) before after) }
{
    match out {
        Some(path) => deliver_to(alloc, files, output, path, made),
        None => tell(alloc, output, made),
    }
}
