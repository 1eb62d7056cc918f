//! Types of core modules, written.

ghost use Rattle.std.specs.Prelude.{◌≡◌, ◌≤◌, ◌^◌, ℕ, IfErr, IfOk, OnOk, Err, All};
ghost use Rattle.comp_format.specs.CoreTypes as core;
ghost use Rattle.comp_format.specs.Forms.{AreModuleDecls};
ghost use Rattle.comp_format.specs.Views.{module_tree};
ghost use Rattle.compose_writing.specs.Conditions.{KeepsModule};
ghost use Rattle.compose_writing.specs.WriteModules.{before, core_description, module_exports, module_imports, write_module};
ghost use Rattle.compose_types.specs.Largest.{IsTooLarge, module_size};
ghost use Rattle.compose_types.specs.Modules.{IsCounted, module_scope};

use crate::open::next;
use comp_entity::{CoreShape, CoreVal, ModuleShape};
use comp_format::{CoreDesc, CoreType, EncodeError, ModuleType};
use std::alloc::Global;
use warg_values::{Sequence, Text};

/// A type of core modules that is written.
#[derive(Drop)]
pub struct Module {
    /// The type.
    pub ty: ModuleType,
    /// How many core types it numbers.
    pub types: u32,
}

/// A copy of types of core values.
fn copies(alloc: Global, values: &[CoreVal]) -> Result<Sequence<CoreVal>, EncodeError>
    ensures value { IfOk result (λ copy. copy ≡ values.now) }
    ensures err { IfErr result (λ e. e ≡ EncodeError.Memory) }
{
    let copies = Vec::from_slice(alloc, values)?;
    Ok(Sequence::from_vec(copies))
}

impl Module {
    /// Declares the core type that an item needs, where it needs one, and describes the item.
    #[tactic(auto, using(crate::proofs::ModuleLaws::core_func))]
    fn describe(&mut self, alloc: Global, shape: &CoreShape) -> Result<CoreDesc, EncodeError>
        ensures before { OnOk result (module_scope self.new ≡ before shape.now (module_scope self.old)) }
        ensures described { IfOk result (λ desc. desc ≡ core_description shape.now self.old.types) }
        ensures too_large { IsCounted (module_scope self.old) → (n : ℕ) → result ≡ Err (EncodeError.TooLarge n)
            → IsTooLarge n (module_size (before shape.now (module_scope self.old)).decls) }
    {
        match shape {
            CoreShape::Func { params, results } => {
                let params = copies(alloc, params.as_slice())?;
                let results = copies(alloc, results.as_slice())?;
                let index = self.types;
                let types = next(index)?;
                self.ty.core_ty(alloc, CoreType::Func { params, results })?;
                self.types = types;
                Ok(CoreDesc::Func(index))
            }
            CoreShape::Table { element, limits } => Ok(CoreDesc::Table {
                element: *element,
                limits: *limits,
            }),
            CoreShape::Memory(limits) => Ok(CoreDesc::Memory(*limits)),
            CoreShape::Global { value, mutable } => Ok(CoreDesc::Global {
                value: *value,
                mutable: *mutable,
            }),
        }
    }

    /// Declares imports, in order.
    fn import(
        &mut self,
        alloc: Global,
        imports: &[(Text, Text, CoreShape)],
    ) -> Result<(), EncodeError>
        ensures written { OnOk result (module_scope self.new ≡ module_imports imports.now (module_scope self.old)) }
        ensures too_large { IsCounted (module_scope self.old) → (n : ℕ) → result ≡ Err (EncodeError.TooLarge n)
            → IsTooLarge n (module_size (module_imports imports.now (module_scope self.old)).decls) }
    {
        for import in imports {
            let desc = self.describe(alloc, &import.2)?;
            self.ty
                .import(alloc, import.0.as_str(), import.1.as_str(), desc)?;
        }
        Ok(())
    }

    /// Declares exports, in order.
    fn export(&mut self, alloc: Global, exports: &[(Text, CoreShape)]) -> Result<(), EncodeError>
        ensures written { OnOk result (module_scope self.new ≡ module_exports exports.now (module_scope self.old)) }
        ensures too_large { IsCounted (module_scope self.old) → (n : ℕ) → result ≡ Err (EncodeError.TooLarge n)
            → IsTooLarge n (module_size (module_exports exports.now (module_scope self.old)).decls) }
    {
        for export in exports {
            let desc = self.describe(alloc, &export.1)?;
            self.ty.export(alloc, export.0.as_str(), desc)?;
        }
        Ok(())
    }
}

/// The type of core modules like this one.
#[tactic(auto, using(crate::proofs::ModuleLaws::module_written, crate::proofs::ModuleLaws::module_kept))]
pub fn module_type(alloc: Global, module: &ModuleShape) -> Result<ModuleType, EncodeError>
    requires { KeepsModule «module».now }
    ensures written { IfOk result (λ ty. module_tree ty ≡ write_module «module».now) }
    ensures form { IfOk result (λ ty. AreModuleDecls (module_tree ty)) }
    ensures too_large { (n : ℕ) → result ≡ Err (EncodeError.TooLarge n)
        → IsTooLarge n (module_size (write_module «module».now)) }
{
    let mut written = Module {
        ty: ModuleType::new(alloc),
        types: 0,
    };
    written.import(alloc, module.imports.as_slice())?;
    written.export(alloc, module.exports.as_slice())?;
    Ok(written.ty)
}
