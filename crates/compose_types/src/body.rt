//! Scopes of which the declarations are written, of each kind.

ghost use Rattle.std.specs.Prelude.{◌≡◌, ◌≢◌, ◌<◌, ◌≤◌, ◌+◌, ◌^◌, ◌++◌, ◌∷◌, ◌⊎◌, [], ℕ, false, true, length, OnOk, OnErr, IfOk, Err};
ghost use Rattle.comp_format.specs.CoreTypes as core;
ghost use Rattle.comp_format.specs.Definitions as tree;
ghost use Rattle.comp_format.specs.Definitions.{with_decl, is_exported_sort, is_resource};
ghost use Rattle.comp_format.specs.Forms.{AreDecls, AreModuleDecls, IsDefinition};
ghost use Rattle.comp_format.specs.Items.{Ty};
ghost use Rattle.comp_format.specs.Views.{component_type_tree, instance_type_tree, module_tree, type_tree};
ghost use Rattle.comp_format.specs.declared.types.Alias.TheVariants as alias;
ghost use Rattle.comp_format.specs.declared.types.Sort.TheVariants as sort;
ghost use Rattle.comp_encoder.specs.Builder.{entries_of};
ghost use Rattle.comp_encoder.specs.Largest.{definition_largest};
ghost use Rattle.comp_encoder.specs.Writing.{Single, described_sort, next_index};
ghost use Rattle.compose_types.specs.Bodies.{declared, entries_for, kind_in};
ghost use Rattle.compose_types.specs.Largest.{IsTooLarge, decls_size};

use comp_encoder::ComponentBuilder;
use comp_format::{
    Alias, ComponentType, CoreType, DefType, EncodeError, InstanceType, ModuleType, Sort, TypeRef,
};
use std::alloc::Global;
use std::marker::Model;
use warg_values::Text;

/// The kind of a scope that is written: a component, a type of instances, or a type of components.
#[derive(Clone, Copy, Debug, PartialEq, Eq)]
pub enum Scope {
    /// The component that is built.
    Builder,
    /// A type of instances.
    Instance,
    /// A type of components.
    Component,
}

/// What is declared under a name: an import, or an export.
#[derive(Clone, Copy, Debug, PartialEq, Eq)]
pub enum Side {
    /// An import.
    Imports,
    /// An export.
    Exports,
}

/// What is written into a scope, by its kind.
#[derive(Drop)]
pub enum Items {
    /// The component that is built.
    OfBuilder(ComponentBuilder),
    /// The declarations of a type of instances.
    OfInstance(InstanceType),
    /// The declarations of a type of components.
    OfComponent(ComponentType),
}

/// What is written into a scope. A clause sees its kind and its declarations.
#[derive(Drop)]
pub struct Body {
    /// The declarations.
    items: Items,
}

impl Model for Body {
    ghost use Rattle.compose_types.specs.declared.body.Items.{Items};
    ghost use Rattle.compose_types.specs.contracts.body.Items as e;
    ghost use Rattle.std.specs.Coded.{codes};

    ghost Value = { Items };

    ghost coded = { Prim.hlevel (codes, e.the_row.coded) };

    ghost use Rattle.compose_types.specs.Bodies.{AreWritten};

    ghost view = { λ b. b.items };

    ghost invariant = { λ b. AreWritten b.items };
}

/// Adds a type to a component.
fn add_type(alloc: Global, builder: &mut ComponentBuilder, ty: &DefType) -> Result<(), EncodeError>
    requires resource { is_resource (type_tree ty.now) ≡ false }
    requires form { IsDefinition (type_tree ty.now) }
    ensures added { OnOk result (entries_of builder.new
        ≡ entries_of builder.old ++ Single (Ty (type_tree ty.now)) ∷ []) }
    ensures unchanged { OnErr result (builder.new ≡ builder.old) }
    ensures too_large { (n : ℕ) → result ≡ Err (EncodeError.TooLarge n) → 2 ^ 32 ≤ n }
    ensures among { (n : ℕ) → result ≡ Err (EncodeError.TooLarge n)
        → (n ≡ definition_largest (type_tree ty.now)) ⊎ (n ≡ next_index sort.Ty (entries_of builder.old) + 1) }
{
    match ty {
        DefType::Defined(ty) => builder.type_defined(alloc, ty)?,
        DefType::Func(ty) => builder.type_function(alloc, ty)?,
        DefType::Component(ty) => builder.type_component(alloc, ty)?,
        DefType::Instance(ty) => builder.type_instance(alloc, ty)?,
        DefType::Resource { destructor: _ } => unreachable!(),
    };
    Ok(())
}

impl Body {
    /// A scope of this kind, with no declarations.
    pub fn new(alloc: Global, kind: Scope) -> Self
        ensures kind { kind_in result ≡ kind }
        ensures decls { declared result ≡ tree.none }
    {
        let items = match kind {
            Scope::Builder => Items::OfBuilder(ComponentBuilder::new(alloc)),
            Scope::Instance => Items::OfInstance(InstanceType::new(alloc)),
            Scope::Component => Items::OfComponent(ComponentType::new(alloc)),
        };
        Body { items }
    }

    /// Declares a type, which is no resource.
    #[tactic(auto, using(crate::proofs::BodyLaws::type_pushed, crate::proofs::BodyLaws::type_kept, crate::proofs::BodyLaws::decls_pushed))]
    pub fn ty(&mut self, alloc: Global, ty: DefType) -> Result<(), EncodeError>
        requires resource { is_resource (type_tree ty) ≡ false }
        requires form { IsDefinition (type_tree ty) }
        ensures kind { kind_in self.new ≡ kind_in self.old }
        ensures added { OnOk result (declared self.new ≡ with_decl (declared self.old) (tree.Ty (type_tree ty))) }
        ensures too_large { (n : ℕ) → result ≡ Err (EncodeError.TooLarge n) → 2 ^ 32 ≤ n }
        ensures among { (n : ℕ) → result ≡ Err (EncodeError.TooLarge n)
            → n ≤ decls_size (with_decl (declared self.old) (tree.Ty (type_tree ty))) }
    {
        match &mut self.items {
            Items::OfBuilder(builder) => add_type(alloc, builder, &ty)?,
            Items::OfInstance(decls) => decls.ty(alloc, ty)?,
            Items::OfComponent(decls) => decls.ty(alloc, ty)?,
        }
        Ok(())
    }

    /// Declares a type of core modules.
    #[tactic(auto, using(crate::proofs::BodyLaws::core_module, crate::proofs::BodyLaws::core_pushed, crate::proofs::BodyLaws::core_kept, crate::proofs::BodyLaws::decls_pushed))]
    pub fn core_ty(&mut self, alloc: Global, ty: ModuleType) -> Result<(), EncodeError>
        requires { AreModuleDecls (module_tree ty) }
        ensures kind { kind_in self.new ≡ kind_in self.old }
        ensures added { OnOk result
            (declared self.new ≡ with_decl (declared self.old) (tree.CoreTy (core.Module (module_tree ty)))) }
        ensures too_large { (n : ℕ) → result ≡ Err (EncodeError.TooLarge n) → 2 ^ 32 ≤ n }
        ensures among { (n : ℕ) → result ≡ Err (EncodeError.TooLarge n)
            → n ≤ decls_size (with_decl (declared self.old) (tree.CoreTy (core.Module (module_tree ty)))) }
    {
        match &mut self.items {
            Items::OfBuilder(builder) => {
                builder.core_type_module(alloc, &ty)?;
            }
            Items::OfInstance(decls) => decls.core_ty(alloc, CoreType::Module(ty))?,
            Items::OfComponent(decls) => decls.core_ty(alloc, CoreType::Module(ty))?,
        }
        Ok(())
    }

    /// Declares an alias of the type or the instance that an instance exports under a name.
    #[tactic(auto, using(crate::proofs::BodyLaws::alias_pushed, crate::proofs::BodyLaws::alias_kept, crate::proofs::BodyLaws::decls_pushed))]
    pub fn alias_export(
        &mut self,
        alloc: Global,
        instance: u32,
        name: &Text,
        sort: Sort,
    ) -> Result<(), EncodeError>
        requires sort { is_exported_sort sort ≡ true }
        requires name { 0 < length name.now }
        ensures kind { kind_in self.new ≡ kind_in self.old }
        ensures added { OnOk result
            (declared self.new ≡ with_decl (declared self.old) (tree.Aliased (alias.Export sort instance name.now))) }
        ensures too_large { (n : ℕ) → result ≡ Err (EncodeError.TooLarge n) → 2 ^ 32 ≤ n }
        ensures among { (n : ℕ) → result ≡ Err (EncodeError.TooLarge n)
            → n ≤ decls_size (with_decl (declared self.old) (tree.Aliased (alias.Export sort instance name.now))) }
    {
        match &mut self.items {
            Items::OfBuilder(builder) => {
                builder.alias_export(alloc, instance, name.as_str(), sort)?;
            }
            Items::OfInstance(decls) => {
                let name = name.try_clone(alloc)?;
                decls.alias(
                    alloc,
                    Alias::Export {
                        sort,
                        instance,
                        name,
                    },
                )?;
            }
            Items::OfComponent(decls) => {
                let name = name.try_clone(alloc)?;
                decls.alias(
                    alloc,
                    Alias::Export {
                        sort,
                        instance,
                        name,
                    },
                )?;
            }
        }
        Ok(())
    }

    /// Declares an alias of the type of this index of the scope that is so many scopes further out.
    #[tactic(auto, using(crate::proofs::BodyLaws::alias_pushed, crate::proofs::BodyLaws::alias_kept, crate::proofs::BodyLaws::decls_pushed))]
    pub fn alias_outer(&mut self, alloc: Global, count: u32, index: u32) -> Result<(), EncodeError>
        ensures kind { kind_in self.new ≡ kind_in self.old }
        ensures added { OnOk result
            (declared self.new ≡ with_decl (declared self.old) (tree.Aliased (alias.Outer sort.Ty count index))) }
        ensures too_large { (n : ℕ) → result ≡ Err (EncodeError.TooLarge n) → 2 ^ 32 ≤ n }
        ensures among { (n : ℕ) → result ≡ Err (EncodeError.TooLarge n)
            → n ≤ decls_size (with_decl (declared self.old) (tree.Aliased (alias.Outer sort.Ty count index))) }
    {
        let sort = Sort::Ty;
        match &mut self.items {
            Items::OfBuilder(builder) => {
                builder.alias_outer(alloc, count, index, sort)?;
            }
            Items::OfInstance(decls) => decls.alias(alloc, Alias::Outer { sort, count, index })?,
            Items::OfComponent(decls) => decls.alias(alloc, Alias::Outer { sort, count, index })?,
        }
        Ok(())
    }

    /// Declares an import in a type of components.
    #[tactic(auto, using(crate::proofs::BodyLaws::decls_pushed))]
    pub fn import(&mut self, alloc: Global, name: &str, ty: TypeRef) -> Result<(), EncodeError>
        requires kind { kind_in self.old ≡ Scope.Component }
        requires name { 0 < length name.now }
        ensures kind { kind_in self.new ≡ kind_in self.old }
        ensures added { OnOk result (declared self.new ≡ with_decl (declared self.old) (tree.Import name.now ty)) }
        ensures too_large { (n : ℕ) → result ≡ Err (EncodeError.TooLarge n) → 2 ^ 32 ≤ n }
        ensures among { (n : ℕ) → result ≡ Err (EncodeError.TooLarge n)
            → n ≤ decls_size (with_decl (declared self.old) (tree.Import name.now ty)) }
    {
        match &mut self.items {
            Items::OfComponent(decls) => decls.import(alloc, name, ty)?,
            Items::OfBuilder(_) | Items::OfInstance(_) => unreachable!(),
        }
        Ok(())
    }

    /// Declares an import of the component that is built, and gives the index of what is imported.
    #[tactic(auto, using(crate::proofs::BodyLaws::import_pushed, crate::proofs::BodyLaws::import_kept))]
    pub fn import_item(
        &mut self,
        alloc: Global,
        name: &str,
        ty: TypeRef,
    ) -> Result<u32, EncodeError>
        requires kind { kind_in self.old ≡ Scope.Builder }
        requires name { 0 < length name.now }
        ensures kind { kind_in self.new ≡ kind_in self.old }
        ensures added { OnOk result (declared self.new ≡ with_decl (declared self.old) (tree.Import name.now ty)) }
        ensures index { IfOk result (λ i. i ≡ next_index (described_sort ty) (entries_for (declared self.old))) }
        ensures too_large { (n : ℕ) → result ≡ Err (EncodeError.TooLarge n)
            → IsTooLarge n (decls_size (with_decl (declared self.old) (tree.Import name.now ty))) }
    {
        match &mut self.items {
            Items::OfBuilder(builder) => {
                let index = builder.import(alloc, name, &ty)?;
                Ok(index)
            }
            Items::OfInstance(_) | Items::OfComponent(_) => unreachable!(),
        }
    }

    /// Declares an export in a type of instances or of components.
    #[tactic(auto, using(crate::proofs::BodyLaws::decls_pushed))]
    pub fn export(&mut self, alloc: Global, name: &str, ty: TypeRef) -> Result<(), EncodeError>
        requires kind { kind_in self.old ≢ Scope.Builder }
        requires name { 0 < length name.now }
        ensures kind { kind_in self.new ≡ kind_in self.old }
        ensures added { OnOk result (declared self.new ≡ with_decl (declared self.old) (tree.Export name.now ty)) }
        ensures too_large { (n : ℕ) → result ≡ Err (EncodeError.TooLarge n) → 2 ^ 32 ≤ n }
        ensures among { (n : ℕ) → result ≡ Err (EncodeError.TooLarge n)
            → n ≤ decls_size (with_decl (declared self.old) (tree.Export name.now ty)) }
    {
        match &mut self.items {
            Items::OfInstance(decls) => decls.export(alloc, name, ty)?,
            Items::OfComponent(decls) => decls.export(alloc, name, ty)?,
            Items::OfBuilder(_) => unreachable!(),
        }
        Ok(())
    }

    /// The component that is built.
    pub fn into_builder(self) -> ComponentBuilder
        requires { kind_in self ≡ Scope.Builder }
        ensures { entries_of result ≡ entries_for (declared self) }
    {
        let Body { items } = self;
        match items {
            Items::OfBuilder(builder) => builder,
            Items::OfInstance(_) | Items::OfComponent(_) => unreachable!(),
        }
    }

    /// The type of instances.
    pub fn into_instance(self) -> InstanceType
        requires { kind_in self ≡ Scope.Instance }
        ensures decls { instance_type_tree result ≡ declared self }
        ensures form { AreDecls false (instance_type_tree result) }
    {
        let Body { items } = self;
        match items {
            Items::OfInstance(decls) => decls,
            Items::OfBuilder(_) | Items::OfComponent(_) => unreachable!(),
        }
    }

    /// The type of components.
    pub fn into_component(self) -> ComponentType
        requires { kind_in self ≡ Scope.Component }
        ensures decls { component_type_tree result ≡ declared self }
        ensures form { AreDecls true (component_type_tree result) }
    {
        let Body { items } = self;
        match items {
            Items::OfComponent(decls) => decls,
            Items::OfBuilder(_) | Items::OfInstance(_) => unreachable!(),
        }
    }
}
