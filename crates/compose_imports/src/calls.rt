//! What those that need an import call in it, noted.

ghost use Rattle.std.specs.Prelude.{◌≡◌, IfErr, IfOk, OnOk};
ghost use Rattle.std.specs.List.{AllByRecursion};
ghost use Rattle.compose_image.specs.Imports.{all_called, called_too};
ghost use Rattle.compose_imports.specs.Calls.{IsNamedCall};
ghost use Rattle.compose_types.specs.Scopes.{scopes};

use comp_encoder::EncodeError;
use comp_entity::TypeNo;
use compose_left::Spot;
use compose_types::TypeState;
use std::alloc::Global;
use warg_values::{Memory, Sequence, Text};

/// A copy of a path's names.
fn copy_of(alloc: Global, names: &[Text]) -> Result<Sequence<Text>, Memory>
    ensures { IfOk result (λ copy. copy ≡ names.now) }
{
    let mut copy = Sequence::new(alloc);
    for name in names {
        copy.push(name.try_clone(alloc)?)?;
    }
    Ok(copy)
}

/// Notes the number by which a type is called that stands in the import of this index. `Memory` also where no name holds
/// the number.
fn note_call(
    alloc: Global,
    state: &mut TypeState,
    index: u32,
    call: &Spot,
) -> Result<(), EncodeError>
    requires { IsNamedCall call.now }
    ensures noted { OnOk result (scopes state.new ≡ called_too index call.now (scopes state.old)) }
    ensures err { IfErr result (λ e. e ≡ EncodeError.Memory) }
{
    if call.what.is_type {
        let name = TypeNo::new(call.what.out, call.what.number).ok_or(Memory)?;
        let path = copy_of(alloc, call.path.names())?;
        state.also(name, index, path)?;
    }
    Ok(())
}

/// The same of some calls.
pub fn note_calls(
    alloc: Global,
    state: &mut TypeState,
    index: u32,
    calls: &[Spot],
) -> Result<(), EncodeError>
    requires { AllByRecursion IsNamedCall calls.now }
    ensures noted { OnOk result (scopes state.new ≡ all_called index calls.now (scopes state.old)) }
    ensures err { IfErr result (λ e. e ≡ EncodeError.Memory) }
{
    for call in calls {
        note_call(alloc, state, index, call)?;
    }
    Ok(())
}
