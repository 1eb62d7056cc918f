//! What instances are given.

ghost use Rattle.std.specs.Prelude.{◌≡◌, IfOk, List, map, option_map};
ghost use Rattle.comp_image.specs.Numbered.{IsEntry, NumberAll, indexed_of, items_of};
ghost use Rattle.comp_image.specs.Progress.{Answers, arguments_in, given_in};
ghost use Rattle.comp_image.specs.Views.{argument_of, given_of};
ghost use Rattle.comp_scope.specs.Image.{as_argument};

use crate::error::ItemError;
use crate::image::ArgOf;
use crate::numbered::{Indexed, Numbered};
use comp_format::Arg;
use std::alloc::Global;
use warg_values::{Memory, Text};

/// What an argument is that stands for this, where it can be one.
fn argument_of(alloc: Global, indexed: Option<Indexed<'_>>) -> Result<Option<ArgOf>, Memory>
    ensures { IfOk result (λ a. option_map argument_of a ≡ as_argument (option_map indexed_of indexed.entry)) }
{
    match indexed {
        Some(Indexed::Made(number)) => Ok(Some(ArgOf::Instance(number))),
        Some(Indexed::Part(number, name)) => {
            let name = Text::copy_of(alloc, name)?;
            Ok(Some(ArgOf::Export(number, name)))
        }
        Some(Indexed::Left(name)) => {
            let name = Text::copy_of(alloc, name)?;
            Ok(Some(ArgOf::Left(name)))
        }
        _ => Ok(None),
    }
}

/// What an argument is, under its name.
fn given_for(alloc: Global, numbered: &Numbered<'_>, arg: &Arg) -> Result<(Text, ArgOf), ItemError>
    ensures { (es : List IsEntry) → NumberAll (items_of numbered.now.spaces.items) es
        → Answers given_of result (given_in es arg.now) }
{
    let Some(of) = argument_of(alloc, numbered.get(arg.sort, arg.index))? else {
        return Err(ItemError::NotCarried);
    };
    let name = arg.name.try_clone(alloc)?;
    Ok((name, of))
}

/// What arguments are, in order.
pub fn arguments_of(
    alloc: Global,
    numbered: &Numbered<'_>,
    args: &[Arg],
) -> Result<Vec<(Text, ArgOf)>, ItemError>
    ensures { (es : List IsEntry) → NumberAll (items_of numbered.now.spaces.items) es
        → Answers (λ v. map given_of v.items) result (arguments_in es args.now) }
{
    let mut given = Vec::new(alloc);
    for arg in args {
        let argument = given_for(alloc, numbered, arg)?;
        given.push(argument)?;
    }
    Ok(given)
}
