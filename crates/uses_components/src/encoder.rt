//! Callers of `comp_encoder`.

ghost use Rattle.std.specs.Prelude.{◌≡◌, ◌<◌, ◌∷◌, [], List, length, IfOk};
ghost use Rattle.comp_format.specs.declared.types.TypeRef.TheVariants as description;
ghost use Rattle.comp_format.specs.Items.{ItemTree, Import};
ghost use Rattle.comp_format.specs.Sections.{Reads};
ghost use Rattle.comp_format.specs.Fits.{IsComponent};

use comp_encoder::laws::{items_stand_in_order, what_is_read_can_be_written};
use comp_encoder::{ComponentBuilder, EncodeError, TypeRef};
use comp_reader::read_items;
use std::alloc::Global;

/// A component that imports a fresh resource type under this name, and holds nothing else.
pub fn import_resource(alloc: Global, name: &str) -> Result<Vec<u8>, EncodeError>
    requires { 0 < length name.now }
    ensures { IfOk result
        (λ bytes. Reads bytes.items (Import (record { name = name.now; ty = description.TyFresh }) ∷ [])) }
{
    let mut builder = ComponentBuilder::new(alloc);
    builder.import(alloc, name, &TypeRef::TyFresh)?;
    builder.finish(alloc)
}

/// A component written again from its items, each number in its shortest spelling.
pub fn written_again(alloc: Global, bytes: &[u8]) -> Result<Vec<u8>, EncodeError>
    requires { IsComponent bytes.now }
    ensures { IfOk result
        (λ again. (items : List ItemTree) → Reads bytes.now items → Reads again.items items) }
{
    what_is_read_can_be_written();
    items_stand_in_order();
    let Ok(items) = read_items(alloc, bytes) else {
        return Err(EncodeError::Memory);
    };
    let mut builder = ComponentBuilder::new(alloc);
    for item in &items {
        builder.push_item(alloc, item)?;
    }
    builder.finish(alloc)
}
