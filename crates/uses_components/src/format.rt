//! A caller of `comp_format`.

ghost use Rattle.std.specs.Prelude.{◌≡◌, ◌<◌, ◌^◌, length, IfOk, OnOk};
ghost use Rattle.comp_format.specs.declared.types.TypeRef.TheVariants as description;
ghost use Rattle.comp_format.specs.Definitions as tree;
ghost use Rattle.comp_format.specs.Definitions.{with_decl};
ghost use Rattle.comp_format.specs.Views.{component_type_tree};

use comp_format::{ComponentType, EncodeError, TypeRef};
use std::alloc::Global;

/// A type of components that import an instance of the type 0 under this name.
pub fn one_import(alloc: Global, name: &str) -> Result<ComponentType, EncodeError>
    ensures declared { IfOk result
        (λ ty. component_type_tree ty ≡ with_decl tree.none (tree.Import name.now (description.Instance 0))) }
    ensures fits { OnOk result (length name.now < 2 ^ 32) }
{
    let mut ty = ComponentType::new(alloc);
    ty.import(alloc, name, TypeRef::Instance(0))?;
    Ok(ty)
}
