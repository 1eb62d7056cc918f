//! The command `demo SEED COUNT`.

ghost use Rattle.std.specs.Prelude.{IfOk, IfErr, string_bytes};
ghost use Rattle.warg_program.specs.Demo.{IsDemonstration, IsDemonstrationCause};

use crate::assemble::refusal;
use crate::delivery::Made;
use crate::lines::demo_lines;
use crate::stop::Stop;
use std::alloc::{AllocError, Global};
use warg_demo::demonstrate;

/// The component that the plan of a world of so many packages makes, and the lines that tell of it. The world is drawn from a
/// seed; no file is read.
pub fn demonstrated<'a>(alloc: Global, seed: u64, count: u32) -> Result<Made, Stop<'a>>
    ensures made { IfOk result (λ made. IsDemonstration seed count made.bytes.items (string_bytes made.lines)) }
    ensures stopped { IfErr result (λ stop. IsDemonstrationCause stop seed count) }
{
    let made = match demonstrate(alloc, seed, count) {
        Ok(made) => made,
        Err(error) => return Err(refusal(error)),
    };
    match demo_lines(alloc, &made.plan, &made.lock, &made.bytes) {
        Ok(lines) => Ok(Made {
            bytes: made.bytes,
            lines,
        }),
        Err(AllocError) => Err(Stop::Memory),
    }
}
