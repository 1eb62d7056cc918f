//! The command `assemble PLAN REPLIES CHECKED OUT`.

ghost use Rattle.std.specs.Prelude.{◌≡◌, ◌≤◌, IfOk, IfErr, string_bytes};
ghost use Rattle.warg_program.specs.World.{seen_files};
ghost use Rattle.warg_program.specs.Command.{named};
ghost use Rattle.warg_program.specs.Assembly.{IsAssembly, IsAssemblyCause, refusal_of};

use crate::command::Sources;
use crate::delivery::Made;
use crate::lines::assembly_lines;
use crate::sources::{checked, read_plan, recorded};
use crate::stop::Stop;
use std::alloc::{AllocError, Global};
use warg_base::Files;
use warg_replay::{ClientError, replay};

/// The stop of an error.
pub fn refusal<'a>(error: ClientError) -> Stop<'a>
    ensures { result ≡ refusal_of error }
{
    if let ClientError::Memory = &error {
        // A call that is generic is proved once, and not for each of the hundred cases of an error.
        drop(error);
        return Stop::Memory;
    }
    Stop::Refused(error)
}

/// The component that the plan of a text makes, over replies and signatures, and the lines that tell of its entries and of
/// it.
pub fn assembled<'a, F: Files>(
    alloc: Global,
    files: &mut F,
    sources: Sources<'a>,
) -> Result<Made, Stop<'a>>
    ensures never_falls { F.faults files.old ≤ F.faults files.new }
    ensures kept { F.told files.new ≡ F.told files.old }
    ensures made { IfOk result (λ made. IsAssembly (named sources.entry)
        (seen_files (F.told files.old) (F.faults files.old)) made.bytes.items (string_bytes made.lines)) }
    ensures stopped { IfErr result (λ stop. IsAssemblyCause stop (named sources.entry)
        (seen_files (F.told files.old) (F.faults files.old)) (seen_files (F.told files.new) (F.faults files.new))) }
{
    let text = read_plan(alloc, files, sources.plan)?;
    let replies = recorded(alloc, files, sources.replies)?;
    let checked = checked(alloc, files, sources.checked)?;
    let replayed = match replay(alloc, &text, replies, checked) {
        Ok(replayed) => replayed,
        Err(error) => return Err(refusal(error)),
    };
    match assembly_lines(alloc, &replayed.plan, &replayed.lock, &replayed.bytes) {
        Ok(lines) => Ok(Made {
            bytes: replayed.bytes,
            lines,
        }),
        Err(AllocError) => Err(Stop::Memory),
    }
}
