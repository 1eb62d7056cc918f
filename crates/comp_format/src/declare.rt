//! Types that hold declarations, built one declaration at a time.

ghost use Rattle.std.specs.Prelude.{◌≡◌, ◌≤◌, ◌<◌, ◌+◌, ◌^◌, ◌⊎◌, ℕ, length, IfOk, OnOk, OnErr, Err};
ghost use Rattle.comp_format.specs.CoreTypes as core;
ghost use Rattle.comp_format.specs.CoreTypes.{with_module_decl, module_count};
ghost use Rattle.comp_format.specs.Definitions as tree;
ghost use Rattle.comp_format.specs.Definitions.{with_decl, decl_count};
ghost use Rattle.comp_format.specs.Views.{core_tree, module_tree, type_tree, instance_type_tree, component_type_tree};

use crate::core_types::{CoreDesc, CoreType, ModuleDecl, ModuleType};
use crate::error::EncodeError;
use crate::types::{Alias, ComponentType, Decl, DefType, InstanceType, TypeRef};
use std::alloc::Global;
use warg_values::Text;

/// Whether one more declaration can be counted.
fn room_behind(count: usize) -> Result<(), EncodeError>
    requires { count < 2 ^ 63 }
    ensures fits { OnOk result (count + 1 < 2 ^ 32) }
    ensures too_large { (n : ℕ) → result ≡ Err (EncodeError.TooLarge n) → (2 ^ 32 ≤ n) × (n ≡ count + 1) }
{
    let count = count as u64 + 1;
    match u32::try_from(count) {
        Ok(_) => Ok(()),
        Err(_) => Err(EncodeError::TooLarge(count)),
    }
}

/// A name that can be written, as a copy.
fn short_name(alloc: Global, name: &str) -> Result<Text, EncodeError>
    ensures value { IfOk result (λ text. text ≡ name.now) }
    ensures fits { OnOk result (length name.now < 2 ^ 32) }
    ensures too_large { (n : ℕ) → result ≡ Err (EncodeError.TooLarge n) → (2 ^ 32 ≤ n) × (n ≡ length name.now) }
{
    if u32::try_from(name.len()).is_err() {
        return Err(EncodeError::TooLarge(name.len() as u64));
    }
    Ok(Text::copy_of(alloc, name)?)
}

impl InstanceType {
    /// A type of instances that export nothing.
    pub fn new(alloc: Global) -> Self
        ensures { instance_type_tree result ≡ tree.none }
    {
        InstanceType {
            decls: Vec::new(alloc),
        }
    }

    /// Declares a type, which is no resource.
    ///
    /// `TooLarge` has the number of declarations with this one, where that is above 2^32 - 1. A refusal adds nothing.
    #[tactic(auto, using(crate::specs::ViewLaws::instance_pushed, crate::specs::ViewLaws::instance_counted))]
    pub fn ty(&mut self, _alloc: Global, ty: DefType) -> Result<(), EncodeError>
        ensures added { OnOk result
            (instance_type_tree self.new ≡ with_decl (instance_type_tree self.old) (tree.Ty (type_tree ty))) }
        ensures unchanged { OnErr result (instance_type_tree self.new ≡ instance_type_tree self.old) }
        ensures fits { OnOk result (decl_count (instance_type_tree self.old) + 1 < 2 ^ 32) }
        ensures too_large { (n : ℕ) → result ≡ Err (EncodeError.TooLarge n)
            → (2 ^ 32 ≤ n) × (n ≡ decl_count (instance_type_tree self.old) + 1) }
    {
        room_behind(self.decls.len())?;
        self.decls.push(Decl::Ty(ty))?;
        Ok(())
    }

    /// Declares a core type.
    ///
    /// `TooLarge` has the number of declarations with this one, where that is above 2^32 - 1. A refusal adds nothing.
    #[tactic(auto, using(crate::specs::ViewLaws::instance_pushed, crate::specs::ViewLaws::instance_counted))]
    pub fn core_ty(&mut self, _alloc: Global, ty: CoreType) -> Result<(), EncodeError>
        ensures added { OnOk result
            (instance_type_tree self.new ≡ with_decl (instance_type_tree self.old) (tree.CoreTy (core_tree ty))) }
        ensures unchanged { OnErr result (instance_type_tree self.new ≡ instance_type_tree self.old) }
        ensures fits { OnOk result (decl_count (instance_type_tree self.old) + 1 < 2 ^ 32) }
        ensures too_large { (n : ℕ) → result ≡ Err (EncodeError.TooLarge n)
            → (2 ^ 32 ≤ n) × (n ≡ decl_count (instance_type_tree self.old) + 1) }
    {
        room_behind(self.decls.len())?;
        self.decls.push(Decl::CoreTy(ty))?;
        Ok(())
    }

    /// Declares an alias: of a type or an instance that an instance exports, or of a type or core type of an outer
    /// scope.
    ///
    /// `TooLarge` has the number of declarations with this one, where that is above 2^32 - 1. A refusal adds nothing.
    #[tactic(auto, using(crate::specs::ViewLaws::instance_pushed, crate::specs::ViewLaws::instance_counted))]
    pub fn alias(&mut self, _alloc: Global, alias: Alias) -> Result<(), EncodeError>
        ensures added { OnOk result
            (instance_type_tree self.new ≡ with_decl (instance_type_tree self.old) (tree.Aliased alias)) }
        ensures unchanged { OnErr result (instance_type_tree self.new ≡ instance_type_tree self.old) }
        ensures fits { OnOk result (decl_count (instance_type_tree self.old) + 1 < 2 ^ 32) }
        ensures too_large { (n : ℕ) → result ≡ Err (EncodeError.TooLarge n)
            → (2 ^ 32 ≤ n) × (n ≡ decl_count (instance_type_tree self.old) + 1) }
    {
        room_behind(self.decls.len())?;
        self.decls.push(Decl::Alias(alias))?;
        Ok(())
    }

    /// Declares an export of this description.
    ///
    /// `TooLarge` has the length of `name`, or the number of declarations with this one, where that is above
    /// 2^32 - 1. A refusal adds nothing.
    #[tactic(auto, using(crate::specs::ViewLaws::instance_pushed, crate::specs::ViewLaws::instance_counted))]
    pub fn export(&mut self, alloc: Global, name: &str, ty: TypeRef) -> Result<(), EncodeError>
        ensures added { OnOk result
            (instance_type_tree self.new ≡ with_decl (instance_type_tree self.old) (tree.Export name.now ty)) }
        ensures unchanged { OnErr result (instance_type_tree self.new ≡ instance_type_tree self.old) }
        ensures fits { OnOk result
            ((length name.now < 2 ^ 32) × (decl_count (instance_type_tree self.old) + 1 < 2 ^ 32)) }
        ensures too_large { (n : ℕ) → result ≡ Err (EncodeError.TooLarge n)
            → (2 ^ 32 ≤ n) × ((n ≡ length name.now) ⊎ (n ≡ decl_count (instance_type_tree self.old) + 1)) }
    {
        room_behind(self.decls.len())?;
        let name = short_name(alloc, name)?;
        self.decls.push(Decl::Export { name, ty })?;
        Ok(())
    }
}

impl ComponentType {
    /// A type of components that import and export nothing.
    pub fn new(alloc: Global) -> Self
        ensures { component_type_tree result ≡ tree.none }
    {
        ComponentType {
            decls: Vec::new(alloc),
        }
    }

    /// Declares a type, which is no resource.
    ///
    /// `TooLarge` has the number of declarations with this one, where that is above 2^32 - 1. A refusal adds nothing.
    #[tactic(auto, using(crate::specs::ViewLaws::component_pushed, crate::specs::ViewLaws::component_counted))]
    pub fn ty(&mut self, _alloc: Global, ty: DefType) -> Result<(), EncodeError>
        ensures added { OnOk result
            (component_type_tree self.new ≡ with_decl (component_type_tree self.old) (tree.Ty (type_tree ty))) }
        ensures unchanged { OnErr result (component_type_tree self.new ≡ component_type_tree self.old) }
        ensures fits { OnOk result (decl_count (component_type_tree self.old) + 1 < 2 ^ 32) }
        ensures too_large { (n : ℕ) → result ≡ Err (EncodeError.TooLarge n)
            → (2 ^ 32 ≤ n) × (n ≡ decl_count (component_type_tree self.old) + 1) }
    {
        room_behind(self.decls.len())?;
        self.decls.push(Decl::Ty(ty))?;
        Ok(())
    }

    /// Declares a core type.
    ///
    /// `TooLarge` has the number of declarations with this one, where that is above 2^32 - 1. A refusal adds nothing.
    #[tactic(auto, using(crate::specs::ViewLaws::component_pushed, crate::specs::ViewLaws::component_counted))]
    pub fn core_ty(&mut self, _alloc: Global, ty: CoreType) -> Result<(), EncodeError>
        ensures added { OnOk result
            (component_type_tree self.new ≡ with_decl (component_type_tree self.old) (tree.CoreTy (core_tree ty))) }
        ensures unchanged { OnErr result (component_type_tree self.new ≡ component_type_tree self.old) }
        ensures fits { OnOk result (decl_count (component_type_tree self.old) + 1 < 2 ^ 32) }
        ensures too_large { (n : ℕ) → result ≡ Err (EncodeError.TooLarge n)
            → (2 ^ 32 ≤ n) × (n ≡ decl_count (component_type_tree self.old) + 1) }
    {
        room_behind(self.decls.len())?;
        self.decls.push(Decl::CoreTy(ty))?;
        Ok(())
    }

    /// Declares an alias: of a type or an instance that an instance exports, or of a type or core type of an outer
    /// scope.
    ///
    /// `TooLarge` has the number of declarations with this one, where that is above 2^32 - 1. A refusal adds nothing.
    #[tactic(auto, using(crate::specs::ViewLaws::component_pushed, crate::specs::ViewLaws::component_counted))]
    pub fn alias(&mut self, _alloc: Global, alias: Alias) -> Result<(), EncodeError>
        ensures added { OnOk result
            (component_type_tree self.new ≡ with_decl (component_type_tree self.old) (tree.Aliased alias)) }
        ensures unchanged { OnErr result (component_type_tree self.new ≡ component_type_tree self.old) }
        ensures fits { OnOk result (decl_count (component_type_tree self.old) + 1 < 2 ^ 32) }
        ensures too_large { (n : ℕ) → result ≡ Err (EncodeError.TooLarge n)
            → (2 ^ 32 ≤ n) × (n ≡ decl_count (component_type_tree self.old) + 1) }
    {
        room_behind(self.decls.len())?;
        self.decls.push(Decl::Alias(alias))?;
        Ok(())
    }

    /// Declares an import of this description.
    ///
    /// `TooLarge` has the length of `name`, or the number of declarations with this one, where that is above
    /// 2^32 - 1. A refusal adds nothing.
    #[tactic(auto, using(crate::specs::ViewLaws::component_pushed, crate::specs::ViewLaws::component_counted))]
    pub fn import(&mut self, alloc: Global, name: &str, ty: TypeRef) -> Result<(), EncodeError>
        ensures added { OnOk result
            (component_type_tree self.new ≡ with_decl (component_type_tree self.old) (tree.Import name.now ty)) }
        ensures unchanged { OnErr result (component_type_tree self.new ≡ component_type_tree self.old) }
        ensures fits { OnOk result
            ((length name.now < 2 ^ 32) × (decl_count (component_type_tree self.old) + 1 < 2 ^ 32)) }
        ensures too_large { (n : ℕ) → result ≡ Err (EncodeError.TooLarge n)
            → (2 ^ 32 ≤ n) × ((n ≡ length name.now) ⊎ (n ≡ decl_count (component_type_tree self.old) + 1)) }
    {
        room_behind(self.decls.len())?;
        let name = short_name(alloc, name)?;
        self.decls.push(Decl::Import { name, ty })?;
        Ok(())
    }

    /// Declares an export of this description.
    ///
    /// `TooLarge` has the length of `name`, or the number of declarations with this one, where that is above
    /// 2^32 - 1. A refusal adds nothing.
    #[tactic(auto, using(crate::specs::ViewLaws::component_pushed, crate::specs::ViewLaws::component_counted))]
    pub fn export(&mut self, alloc: Global, name: &str, ty: TypeRef) -> Result<(), EncodeError>
        ensures added { OnOk result
            (component_type_tree self.new ≡ with_decl (component_type_tree self.old) (tree.Export name.now ty)) }
        ensures unchanged { OnErr result (component_type_tree self.new ≡ component_type_tree self.old) }
        ensures fits { OnOk result
            ((length name.now < 2 ^ 32) × (decl_count (component_type_tree self.old) + 1 < 2 ^ 32)) }
        ensures too_large { (n : ℕ) → result ≡ Err (EncodeError.TooLarge n)
            → (2 ^ 32 ≤ n) × ((n ≡ length name.now) ⊎ (n ≡ decl_count (component_type_tree self.old) + 1)) }
    {
        room_behind(self.decls.len())?;
        let name = short_name(alloc, name)?;
        self.decls.push(Decl::Export { name, ty })?;
        Ok(())
    }
}

impl ModuleType {
    /// A type of core modules that import and export nothing.
    pub fn new(alloc: Global) -> Self
        ensures { module_tree result ≡ core.none }
    {
        ModuleType {
            decls: Vec::new(alloc),
        }
    }

    /// Declares a core type.
    ///
    /// `TooLarge` has the number of declarations with this one, where that is above 2^32 - 1. A refusal adds nothing.
    #[tactic(auto, using(crate::specs::ViewLaws::module_pushed, crate::specs::ViewLaws::modules_counted))]
    pub fn core_ty(&mut self, _alloc: Global, ty: CoreType) -> Result<(), EncodeError>
        ensures added { OnOk result
            (module_tree self.new ≡ with_module_decl (module_tree self.old) (core.CoreTy (core_tree ty))) }
        ensures unchanged { OnErr result (module_tree self.new ≡ module_tree self.old) }
        ensures fits { OnOk result (module_count (module_tree self.old) + 1 < 2 ^ 32) }
        ensures too_large { (n : ℕ) → result ≡ Err (EncodeError.TooLarge n)
            → (2 ^ 32 ≤ n) × (n ≡ module_count (module_tree self.old) + 1) }
    {
        room_behind(self.decls.len())?;
        self.decls.push(ModuleDecl::CoreTy(ty))?;
        Ok(())
    }

    /// Declares an alias of the core type of this index of the scope that is `count` scopes further out.
    ///
    /// `TooLarge` has the number of declarations with this one, where that is above 2^32 - 1. A refusal adds nothing.
    #[tactic(auto, using(crate::specs::ViewLaws::module_pushed, crate::specs::ViewLaws::modules_counted))]
    pub fn alias(&mut self, _alloc: Global, count: u32, index: u32) -> Result<(), EncodeError>
        ensures added { OnOk result
            (module_tree self.new ≡ with_module_decl (module_tree self.old) (core.OuterAlias count index)) }
        ensures unchanged { OnErr result (module_tree self.new ≡ module_tree self.old) }
        ensures fits { OnOk result (module_count (module_tree self.old) + 1 < 2 ^ 32) }
        ensures too_large { (n : ℕ) → result ≡ Err (EncodeError.TooLarge n)
            → (2 ^ 32 ≤ n) × (n ≡ module_count (module_tree self.old) + 1) }
    {
        room_behind(self.decls.len())?;
        self.decls.push(ModuleDecl::OuterAlias { count, index })?;
        Ok(())
    }

    /// Declares an export of this description. The name may be empty.
    ///
    /// `TooLarge` has the length of `name`, or the number of declarations with this one, where that is above
    /// 2^32 - 1. A refusal adds nothing.
    #[tactic(auto, using(crate::specs::ViewLaws::module_pushed, crate::specs::ViewLaws::modules_counted))]
    pub fn export(&mut self, alloc: Global, name: &str, desc: CoreDesc) -> Result<(), EncodeError>
        ensures added { OnOk result
            (module_tree self.new ≡ with_module_decl (module_tree self.old) (core.Export name.now desc)) }
        ensures unchanged { OnErr result (module_tree self.new ≡ module_tree self.old) }
        ensures fits { OnOk result ((length name.now < 2 ^ 32) × (module_count (module_tree self.old) + 1 < 2 ^ 32)) }
        ensures too_large { (n : ℕ) → result ≡ Err (EncodeError.TooLarge n)
            → (2 ^ 32 ≤ n) × ((n ≡ length name.now) ⊎ (n ≡ module_count (module_tree self.old) + 1)) }
    {
        room_behind(self.decls.len())?;
        let name = short_name(alloc, name)?;
        self.decls.push(ModuleDecl::Export { name, desc })?;
        Ok(())
    }

    /// Declares an import of this description. The names may be empty.
    ///
    /// `TooLarge` has the length of `module` or `name`, or the number of declarations with this one, where that is
    /// above 2^32 - 1. A refusal adds nothing.
    #[tactic(auto, using(crate::specs::ViewLaws::module_pushed, crate::specs::ViewLaws::modules_counted))]
    pub fn import(
        &mut self,
        alloc: Global,
        module: &str,
        name: &str,
        desc: CoreDesc,
    ) -> Result<(), EncodeError>
        ensures added { OnOk result
            (module_tree self.new ≡ with_module_decl (module_tree self.old) (core.Import «module».now name.now desc)) }
        ensures unchanged { OnErr result (module_tree self.new ≡ module_tree self.old) }
        ensures fits { OnOk result
            ((length «module».now < 2 ^ 32)
            × (length name.now < 2 ^ 32)
            × (module_count (module_tree self.old) + 1 < 2 ^ 32)) }
        ensures too_large { (n : ℕ) → result ≡ Err (EncodeError.TooLarge n)
            → (2 ^ 32 ≤ n)
            × ((n ≡ length «module».now)
            ⊎ ((n ≡ length name.now) ⊎ (n ≡ module_count (module_tree self.old) + 1))) }
    {
        room_behind(self.decls.len())?;
        let module = short_name(alloc, module)?;
        let name = short_name(alloc, name)?;
        self.decls.push(ModuleDecl::Import { module, name, desc })?;
        Ok(())
    }
}
