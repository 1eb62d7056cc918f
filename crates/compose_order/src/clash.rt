//! Names of left imports, and of their exports, that differ in letter case alone.

ghost use Rattle.std.specs.Prelude.{map, IfOk, MatchOption};
ghost use Rattle.comp_entity.specs.Views.{entity_tree};
ghost use Rattle.compose_agree.specs.LetterCase.{AreApart};
ghost use Rattle.compose_order.specs.Agreed.{AreExportsApart, NoClash, export_names};
ghost use Rattle.compose_order.specs.Known.{IsCaseClashOf, IsNameClashOf, IsExportClashOf, left_tree};

use crate::left::LeftImport;
use comp_entity::Entity;
use compose_agree::{Named, case_clash};
use std::alloc::Global;
use warg_values::{Memory, Text};

/// The first two of some names that differ in letter case alone.
fn clash_among<N: Named>(alloc: Global, named: &[N]) -> Result<Option<(Text, Text)>, Memory>
    ensures { IfOk result (λ clash. MatchOption clash (AreApart (map (λ n. N.name n) named.now))
        (IsNameClashOf (map (λ n. N.name n) named.now))) }
{
    match case_clash(alloc, named)? {
        Some(clash) => {
            let earlier = named[clash.earlier].name().try_clone(alloc)?;
            let later = named[clash.later].name().try_clone(alloc)?;
            Ok(Some((earlier, later)))
        }
        None => Ok(None),
    }
}

/// The same of the names of what an entity exports, where it is an instance.
fn export_clash(alloc: Global, entity: &Entity) -> Result<Option<(Text, Text)>, Memory>
    ensures { IfOk result (λ clash. MatchOption clash (AreApart (export_names (entity_tree entity.now)))
        (IsNameClashOf (export_names (entity_tree entity.now)))) }
{
    match entity {
        Entity::Instance(instance) => {
            let clash = clash_among(alloc, &instance.exports)?;
            Ok(clash)
        }
        Entity::Func(_) | Entity::Component(_) | Entity::Module(_) | Entity::Ty(_) => Ok(None),
    }
}

/// The same of the first import of whose exports two do.
fn first_export_clash(alloc: Global, lefts: &[LeftImport]) -> Result<Option<(Text, Text)>, Memory>
    ensures { IfOk result (λ clash. MatchOption clash (AreExportsApart (map left_tree lefts.now))
        (IsExportClashOf (map left_tree lefts.now))) }
{
    for left in lefts {
        if let Some(clash) = export_clash(alloc, &left.entity)? {
            return Ok(Some(clash));
        }
    }
    Ok(None)
}

/// The first two names of imports that differ in letter case alone, or else of the exports of one.
pub fn first_clash(alloc: Global, lefts: &[LeftImport]) -> Result<Option<(Text, Text)>, Memory>
    ensures { IfOk result (λ clash. MatchOption clash (NoClash (map left_tree lefts.now))
        (IsCaseClashOf (map left_tree lefts.now))) }
{
    match clash_among(alloc, lefts)? {
        Some(clash) => Ok(Some(clash)),
        None => {
            let clash = first_export_clash(alloc, lefts)?;
            Ok(clash)
        }
    }
}
