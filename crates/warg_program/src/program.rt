//! A run of the program.

ghost use Rattle.std.specs.Prelude.{◌≡◌, ◌≤◌, ◌⊎◌, map, IfOk, IfErr, OnOk, string_bytes};
ghost use Rattle.warg_program.specs.World.{IsUnfailing, seen_files, seen_world};
ghost use Rattle.warg_program.specs.Able.{IsAble};
ghost use Rattle.warg_program.specs.Command.{asked};
ghost use Rattle.warg_program.specs.Run.{IsDone, IsShortOfMemory, IsStop, IsStopped, IsUnmade, Makes, MayHold};
ghost use Rattle.warg_program.specs.Stop.{status_of};
ghost use Rattle.warg_program.specs.declared.stop.Stop.{Stop as AnyStop};

use crate::assemble::assembled;
use crate::command::{Command, command_of};
use crate::compose::composed;
use crate::delivery::{Made, deliver};
use crate::demo::demonstrated;
use crate::lines::refuse;
use crate::link::linked;
use crate::stop::Stop;
use comp_shape::laws::one_shape;
use compose_complete::laws::graphs_that_can_be_encoded_are_refused_for_their_numbers;
use std::alloc::Global;
use warg_base::{Files, Out};
use yaml_small::laws::one_document;

/// What a command makes. Nothing is written yet.
fn make<'a, F: Files>(alloc: Global, command: &Command<'a>, files: &mut F) -> Result<Made, Stop<'a>>
    ensures never_falls { F.faults files.old ≤ F.faults files.new }
    ensures kept { F.told files.new ≡ F.told files.old }
    ensures made { IfOk result (λ made. Makes (asked command.now)
        (seen_files (F.told files.old) (F.faults files.old)) made.bytes.items (string_bytes made.lines)) }
    ensures unmade { IfErr result (λ stop. IsUnmade stop (asked command.now)
        (seen_files (F.told files.old) (F.faults files.old)) (seen_files (F.told files.new) (F.faults files.new))) }
{
    match *command {
        Command::Link { root, out } => linked(alloc, files, root, out),
        Command::Compose { root, config, .. } => composed(alloc, files, root, config),
        Command::Assemble { sources, .. } => assembled(alloc, files, sources),
        Command::Demo { seed, count } => demonstrated(alloc, seed, count),
    }
}

/// Does what the words ask for. The line of a stop is not printed yet.
fn perform<'a, F: Files, O: Out>(
    alloc: Global,
    words: &'a [String],
    files: &mut F,
    out: &mut O,
) -> Result<(), Stop<'a>>
    ensures files_never_fall { F.faults files.old ≤ F.faults files.new }
    ensures out_never_falls { O.faults out.old ≤ O.faults out.new }
    ensures done { OnOk result (IsDone (map string_bytes words.now)
        (seen_world (F.told files.old) (F.faults files.old) (O.told out.old) (O.faults out.old))
        (seen_world (F.told files.new) (F.faults files.new) (O.told out.new) (O.faults out.new))) }
    ensures stopped { IfErr result (λ stop. IsStopped stop (map string_bytes words.now)
        (seen_world (F.told files.old) (F.faults files.old) (O.told out.old) (O.faults out.old))
        (seen_world (F.told files.new) (F.faults files.new) (O.told out.new) (O.faults out.new))) }
{
    let Some(command) = command_of(words) else {
        return Err(Stop::Usage);
    };
    let made = make(alloc, &command, files)?;
    deliver(alloc, files, out, command.out(), &made)
}

/// What [`run`] does, with the cause where it stops.
///
/// `Ok` stands for the status 0, and a stop for its [`Stop::status`].
pub fn outcome<'a, F: Files, O: Out>(
    alloc: Global,
    words: &'a [String],
    files: &mut F,
    out: &mut O,
) -> Result<(), Stop<'a>>
    ensures files_never_fall { F.faults files.old ≤ F.faults files.new }
    ensures out_never_falls { O.faults out.old ≤ O.faults out.new }
    ensures done { OnOk result (IsDone (map string_bytes words.now)
        (seen_world (F.told files.old) (F.faults files.old) (O.told out.old) (O.faults out.old))
        (seen_world (F.told files.new) (F.faults files.new) (O.told out.new) (O.faults out.new))) }
    ensures stopped { IfErr result (λ stop. IsStop stop (map string_bytes words.now)
        (seen_world (F.told files.old) (F.faults files.old) (O.told out.old) (O.faults out.old))
        (seen_world (F.told files.new) (F.faults files.new) (O.told out.new) (O.faults out.new))) }
    ensures holds { MayHold (map string_bytes words.now)
        (seen_world (F.told files.old) (F.faults files.old) (O.told out.old) (O.faults out.old))
        (seen_world (F.told files.new) (F.faults files.new) (O.told out.new) (O.faults out.new)) }
    // Where the files let the command do what it is for, and no call of theirs or of the output failed, it does that, or
    // memory runs out.
    ensures complete { IsAble (map string_bytes words.now) (seen_files (F.told files.old) (F.faults files.old))
        → IsUnfailing
        (seen_world (F.told files.old) (F.faults files.old) (O.told out.old) (O.faults out.old))
        (seen_world (F.told files.new) (F.faults files.new) (O.told out.new) (O.faults out.new))
        → IfErr result IsShortOfMemory }
{
    match perform(alloc, words, files, out) {
        Ok(()) => Ok(()),
        Err(stop) => {
            one_shape();
            one_document();
            graphs_that_can_be_encoded_are_refused_for_their_numbers();
            refuse(alloc, out, &stop);
            Err(stop)
        }
    }
}

/// Runs the command that the words are, and gives the exit status of the program.
///
/// `link ROOT OUT` reads the component in the file ROOT and writes, into the file OUT, the component that nests it, makes
/// one instance of it and exports that instance's exports. `compose ROOT CONFIG OUT` writes the component that is composed of
/// the one in the file ROOT, by the configuration in the file CONFIG, of components that this names or that are found in its
/// folders. `assemble PLAN REPLIES CHECKED OUT` reads the text of a plan, a
/// registry's replies and the signatures that were checked, and writes, into the file OUT, the component of the plan, as a
/// client assembles it that has kept nothing. `demo SEED COUNT` makes a registry of COUNT packages that need each other, drawn
/// from SEED, assembles the component of a plan of all of them over it, and writes no file. All other words are none of the
/// commands.
///
/// | status | line | cause |
/// |---|---|---|
/// | 0 | `bytes LENGTH HEX` | OUT is written by `link` or `compose`: how many bytes it has, and their SHA-256 in lower case |
/// | 0 | `entry PACKAGE VERSION DIGEST KEY`, `bundle LENGTH HEX` | OUT is written by `assemble`: a line for each entry of the plan, and that of OUT |
/// | 0 | `entries N left N`, `lock LENGTH HEX`, `bundle LENGTH HEX` | by `demo`: of the plan, its lock and its component |
/// | 2 | `usage` | the words are no command |
/// | 3 | `missing PATH` | there is no file at PATH, which the words name |
/// | 4 | `fault` | the files failed, or the output did at the lines of status 0 |
/// | 5 | `bad PATH` | PLAN is no UTF-8 text, or REPLIES or CHECKED has another form |
/// | 6 | `refused BadComponent` | ROOT is no component, or has no shape |
/// | 6 | `refused Incompatible` | what ROOT imports and exports does not go together |
/// | 6 | `refused TooLarge` | a length, a count or an index of OUT would be above 2^32 - 1 |
/// | 6 | `refused VARIANT` | CONFIG holds no configuration: `NotUtf8` or `Yaml` |
/// | 6 | `refused VARIANT` | ROOT is not composed: the variant of the composer's error, or of the graph's within it |
/// | 6 | `refused VARIANT` | the plan is not assembled: the variant of the client's error |
/// | 7 | `memory` | no memory was left, or more than 200 scopes, or a thousand types, of a component lie in each other |
///
/// With the statuses 2, 3, 5 and 6 no file changes. With 4 and 7 OUT is as it was, holds a front of the new bytes, or is
/// written whole where its lines were not all printed. A line that tells of a stop and that the output does not take
/// changes no status.
pub fn run<F: Files, O: Out>(alloc: Global, words: &[String], files: &mut F, out: &mut O) -> u8
    ensures files_never_fall { F.faults files.old ≤ F.faults files.new }
    ensures out_never_falls { O.faults out.old ≤ O.faults out.new }
    ensures done { result ≡ 0 → IsDone (map string_bytes words.now)
        (seen_world (F.told files.old) (F.faults files.old) (O.told out.old) (O.faults out.old))
        (seen_world (F.told files.new) (F.faults files.new) (O.told out.new) (O.faults out.new)) }
    ensures stopped { (result ≡ 0 → ⊥) → (stop : AnyStop) × (result ≡ status_of stop)
        × IsStop stop (map string_bytes words.now)
        (seen_world (F.told files.old) (F.faults files.old) (O.told out.old) (O.faults out.old))
        (seen_world (F.told files.new) (F.faults files.new) (O.told out.new) (O.faults out.new)) }
    ensures holds { MayHold (map string_bytes words.now)
        (seen_world (F.told files.old) (F.faults files.old) (O.told out.old) (O.faults out.old))
        (seen_world (F.told files.new) (F.faults files.new) (O.told out.new) (O.faults out.new)) }
    // Where the files let the command do what it is for, and no call of theirs or of the output failed, it does that, or
    // memory runs out.
    ensures complete { IsAble (map string_bytes words.now) (seen_files (F.told files.old) (F.faults files.old))
        → IsUnfailing
        (seen_world (F.told files.old) (F.faults files.old) (O.told out.old) (O.faults out.old))
        (seen_world (F.told files.new) (F.faults files.new) (O.told out.new) (O.faults out.new))
        → (result ≡ 0) ⊎ (result ≡ 7) }
{
    match outcome(alloc, words, files, out) {
        Ok(()) => 0,
        Err(stop) => {
            let status = stop.status();
            // A call that is generic is proved once, and not for each of the hundred cases of a stop.
            drop(stop);
            status
        }
    }
}
