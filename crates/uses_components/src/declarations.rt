//! A caller of `comp_declare`.

ghost use Rattle.std.specs.Prelude.{List, true};
ghost use Rattle.comp_declare.specs.Scopes.{ShowsScope};
ghost use Rattle.comp_entity.specs.Bounds.{bounded};
ghost use Rattle.comp_format.specs.declared.types.TypeRef.TheVariants.{TyFresh};
ghost use Rattle.comp_scope.specs.Descriptions.{imported};
ghost use Rattle.comp_scope.specs.Spaces.{nothing_known};
ghost use Rattle.comp_space.specs.Faults.{Finds};
ghost use Rattle.comp_table.specs.Trees.{Extends, PlainTree};

use comp_declare::Scope;
use comp_format::TypeRef;
use comp_space::ScopeError;
use comp_table::TypeTable;
use std::alloc::Global;
use warg_values::Text;

/// What is known of a component that imports a resource of this name.
pub fn one_resource(alloc: Global, table: &mut TypeTable, name: &Text) -> Result<Scope, ScopeError>
    ensures kept { Extends table.old table.new }
    ensures found { Finds (ShowsScope table.new) result (imported bounded (nothing_known true) name.now TyFresh) }
{
    let mut scope = Scope::new(alloc, true);
    scope.import(table, alloc, name, TypeRef::TyFresh)?;
    Ok(scope)
}
