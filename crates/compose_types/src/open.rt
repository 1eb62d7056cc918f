//! Scopes that are open, and what is declared in them.

ghost use Rattle.std.specs.Prelude.{◌≡◌, ◌<◌, ◌≤◌, ◌^◌, ℕ, suc, false, true, All, length, OnOk, IfOk, IsSomeAnd, Err, None, option_map};
ghost use Rattle.comp_format.specs.CoreTypes as core;
ghost use Rattle.comp_format.specs.Definitions as tree;
ghost use Rattle.comp_format.specs.Definitions.{is_resource};
ghost use Rattle.comp_format.specs.Forms.{AreModuleDecls, IsDefinition};
ghost use Rattle.comp_format.specs.Views.{module_tree, type_tree};
ghost use Rattle.comp_format.specs.declared.types.Alias.TheVariants as alias;
ghost use Rattle.comp_format.specs.declared.types.Sort.TheVariants as sort;
ghost use Rattle.compose_writing.specs.Keys.{KnownThings, known_at};
ghost use Rattle.compose_writing.specs.Scopes.{add_alias, add_core_type, add_instance, add_type, along, index_in, opened};
ghost use Rattle.compose_writing.specs.Scopes.{declared as declare};
ghost use Rattle.compose_writing.specs.WriteEntities.{counted};
ghost use Rattle.comp_encoder.specs.Writing.{described_sort, next_index};
ghost use Rattle.compose_types.specs.Bodies.{declared as decls_of_body, entries_for, kind_in};
ghost use Rattle.compose_types.specs.Largest.{IsTooLarge, scope_size};
ghost use Rattle.compose_types.specs.Scopes.{Takes, item_of, scope_of, with_names};
ghost use Rattle.compose_types.specs.Views.{mention_of};

use crate::body::{Body, Scope, Side};
use crate::known::{At, Key, KnownThings};
use comp_format::{DefType, EncodeError, ModuleType, Sort, TypeRef};
use std::alloc::Global;
use warg_values::Text;

/// What is declared in a scope, and how many types, instances and core types it numbers.
#[derive(Drop)]
pub struct Declared {
    /// The declarations.
    pub body: Body,
    /// How many types they number.
    pub types: u32,
    /// How many instances they number.
    pub instances: u32,
    /// How many core types they number.
    pub core_types: u32,
}

/// A scope that is open.
#[derive(Drop)]
pub struct Open {
    /// How many scopes of names it counts as.
    pub width: usize,
    /// What is declared in it.
    pub declared: Declared,
    /// What is known in it.
    pub known: KnownThings,
}

/// How many there are with one more.
pub fn next(count: u32) -> Result<u32, EncodeError>
    ensures value { IfOk result (λ n. n ≡ suc count) }
    ensures too_large { (n : ℕ) → result ≡ Err (EncodeError.TooLarge n) → 2 ^ 32 ≤ n }
    ensures number { (n : ℕ) → result ≡ Err (EncodeError.TooLarge n) → n ≡ suc count }
{
    match count.checked_add(1) {
        Some(next) => Ok(next),
        None => Err(EncodeError::TooLarge(count as u64 + 1)),
    }
}

impl Declared {
    /// Declares a type, which is no resource, and gives its index.
    pub fn add_type(&mut self, alloc: Global, ty: DefType) -> Result<u32, EncodeError>
        requires resource { is_resource (type_tree ty) ≡ false }
        requires form { IsDefinition (type_tree ty) }
        ensures added { IfOk result (λ i. (width : ℕ) (known : KnownThings)
            → add_type (type_tree ty) (with_names width known self.old) ≡ (with_names width known self.new, i)) }
        ensures kind { kind_in self.new.body ≡ kind_in self.old.body }
        ensures too_large { (n : ℕ) → result ≡ Err (EncodeError.TooLarge n) → 2 ^ 32 ≤ n }
        ensures among { (width : ℕ) (known : KnownThings) (n : ℕ) → result ≡ Err (EncodeError.TooLarge n)
            → n ≤ scope_size (add_type (type_tree ty) (with_names width known self.old)).0 }
    {
        let index = self.types;
        let types = next(index)?;
        self.body.ty(alloc, ty)?;
        self.types = types;
        Ok(index)
    }

    /// Declares a type of core modules, and gives its index.
    pub fn add_core_type(&mut self, alloc: Global, ty: ModuleType) -> Result<u32, EncodeError>
        requires { AreModuleDecls (module_tree ty) }
        ensures added { IfOk result (λ i. (width : ℕ) (known : KnownThings)
            → add_core_type (core.Module (module_tree ty)) (with_names width known self.old)
            ≡ (with_names width known self.new, i)) }
        ensures kind { kind_in self.new.body ≡ kind_in self.old.body }
        ensures too_large { (n : ℕ) → result ≡ Err (EncodeError.TooLarge n) → 2 ^ 32 ≤ n }
        ensures among { (width : ℕ) (known : KnownThings) (n : ℕ) → result ≡ Err (EncodeError.TooLarge n)
            → n ≤ scope_size (add_core_type (core.Module (module_tree ty)) (with_names width known self.old)).0 }
    {
        let index = self.core_types;
        let core_types = next(index)?;
        self.body.core_ty(alloc, ty)?;
        self.core_types = core_types;
        Ok(index)
    }

    /// Declares an alias of a type that an instance exports, and gives its index.
    pub fn add_export(
        &mut self,
        alloc: Global,
        instance: u32,
        name: &Text,
    ) -> Result<u32, EncodeError>
        requires { 0 < length name.now }
        ensures added { IfOk result (λ i. (width : ℕ) (known : KnownThings)
            → add_alias (alias.Export sort.Ty instance name.now) (with_names width known self.old)
            ≡ (with_names width known self.new, i)) }
        ensures kind { kind_in self.new.body ≡ kind_in self.old.body }
        ensures too_large { (n : ℕ) → result ≡ Err (EncodeError.TooLarge n) → 2 ^ 32 ≤ n }
        ensures among { (width : ℕ) (known : KnownThings) (n : ℕ) → result ≡ Err (EncodeError.TooLarge n)
            → n ≤ scope_size (add_alias (alias.Export sort.Ty instance name.now) (with_names width known self.old)).0 }
    {
        let index = self.types;
        let types = next(index)?;
        self.body.alias_export(alloc, instance, name, Sort::Ty)?;
        self.types = types;
        Ok(index)
    }

    /// Declares an alias of a type of a scope that is so many scopes further out, and gives its index.
    pub fn add_outer(&mut self, alloc: Global, count: u32, index: u32) -> Result<u32, EncodeError>
        ensures added { IfOk result (λ i. (width : ℕ) (known : KnownThings)
            → add_alias (alias.Outer sort.Ty count index) (with_names width known self.old)
            ≡ (with_names width known self.new, i)) }
        ensures kind { kind_in self.new.body ≡ kind_in self.old.body }
        ensures too_large { (n : ℕ) → result ≡ Err (EncodeError.TooLarge n) → 2 ^ 32 ≤ n }
        ensures among { (width : ℕ) (known : KnownThings) (n : ℕ) → result ≡ Err (EncodeError.TooLarge n)
            → n ≤ scope_size (add_alias (alias.Outer sort.Ty count index) (with_names width known self.old)).0 }
    {
        let place = self.types;
        let types = next(place)?;
        self.body.alias_outer(alloc, count, index)?;
        self.types = types;
        Ok(place)
    }

    /// Declares an alias of an instance that an instance exports, and gives its index.
    pub fn add_instance(
        &mut self,
        alloc: Global,
        instance: u32,
        name: &Text,
    ) -> Result<u32, EncodeError>
        requires { 0 < length name.now }
        ensures added { IfOk result (λ i. (width : ℕ) (known : KnownThings)
            → add_instance instance name.now (with_names width known self.old)
            ≡ (with_names width known self.new, i)) }
        ensures kind { kind_in self.new.body ≡ kind_in self.old.body }
        ensures too_large { (n : ℕ) → result ≡ Err (EncodeError.TooLarge n) → 2 ^ 32 ≤ n }
        ensures among { (width : ℕ) (known : KnownThings) (n : ℕ) → result ≡ Err (EncodeError.TooLarge n)
            → n ≤ scope_size (add_instance instance name.now (with_names width known self.old)).0 }
    {
        let index = self.instances;
        let instances = next(index)?;
        self.body
            .alias_export(alloc, instance, name, Sort::Instance)?;
        self.instances = instances;
        Ok(index)
    }

    /// Declares aliases along a path in an instance, and gives the index of the type at its end.
    #[tactic(auto, using(crate::proofs::ScopeLaws::along_none, crate::proofs::ScopeLaws::along_last, crate::proofs::ScopeLaws::along_more))]
    pub fn along(&mut self, alloc: Global, from: u32, path: &[Text]) -> Result<u32, EncodeError>
        requires { All (λ name. 0 < length name) path.now }
        ensures added { IfOk result (λ i. (width : ℕ) (known : KnownThings)
            → along from path.now (with_names width known self.old) ≡ (with_names width known self.new, i)) }
        ensures kind { kind_in self.new.body ≡ kind_in self.old.body }
        ensures too_large { (n : ℕ) → result ≡ Err (EncodeError.TooLarge n) → 2 ^ 32 ≤ n }
        ensures among { (width : ℕ) (known : KnownThings) (n : ℕ) → result ≡ Err (EncodeError.TooLarge n)
            → n ≤ scope_size (along from path.now (with_names width known self.old)).0 }
    {
        match path {
            [] => Ok(from),
            [name, rest @ ..] => {
                if rest.is_empty() {
                    let index = self.add_export(alloc, from, name)?;
                    Ok(index)
                } else {
                    let instance = self.add_instance(alloc, from, name)?;
                    let index = self.along(alloc, instance, rest)?;
                    Ok(index)
                }
            }
        }
    }

    /// Declares an import or an export in a scope of a kind that takes it, and counts it.
    pub fn name(
        &mut self,
        alloc: Global,
        side: Side,
        name: &str,
        ty: TypeRef,
    ) -> Result<(), EncodeError>
        requires kind { Takes side (kind_in self.old.body) }
        requires name { 0 < length name.now }
        ensures named { OnOk result ((width : ℕ) (known : KnownThings)
            → counted ty (declare (item_of side name.now ty) (with_names width known self.old))
            ≡ with_names width known self.new) }
        ensures kind { kind_in self.new.body ≡ kind_in self.old.body }
        ensures too_large { (n : ℕ) → result ≡ Err (EncodeError.TooLarge n) → 2 ^ 32 ≤ n }
        ensures among { (width : ℕ) (known : KnownThings) (n : ℕ) → result ≡ Err (EncodeError.TooLarge n)
            → n ≤ scope_size
            (counted ty (declare (item_of side name.now ty) (with_names width known self.old))) }
    {
        match side {
            Side::Imports => self.body.import(alloc, name, ty)?,
            Side::Exports => self.body.export(alloc, name, ty)?,
        }
        self.count(ty)?;
        Ok(())
    }

    /// Declares an import of the component that is built, counts it, and gives the index of what is imported.
    pub fn import(&mut self, alloc: Global, name: &str, ty: TypeRef) -> Result<u32, EncodeError>
        requires kind { kind_in self.old.body ≡ Scope.Builder }
        requires name { 0 < length name.now }
        ensures named { OnOk result ((width : ℕ) (known : KnownThings)
            → counted ty (declare (tree.Import name.now ty) (with_names width known self.old))
            ≡ with_names width known self.new) }
        ensures index { IfOk result (λ i.
            i ≡ next_index (described_sort ty) (entries_for (decls_of_body self.old.body))) }
        ensures kind { kind_in self.new.body ≡ kind_in self.old.body }
        ensures too_large { (width : ℕ) (known : KnownThings) (n : ℕ) → result ≡ Err (EncodeError.TooLarge n)
            → IsTooLarge n
            (scope_size (counted ty (declare (tree.Import name.now ty) (with_names width known self.old)))) }
    {
        let index = self.body.import_item(alloc, name, ty)?;
        self.count(ty)?;
        Ok(index)
    }

    /// Counts an import or export of this description.
    fn count(&mut self, ty: TypeRef) -> Result<(), EncodeError>
        ensures counted { OnOk result ((width : ℕ) (known : KnownThings)
            → counted ty (with_names width known self.old) ≡ with_names width known self.new) }
        ensures body { self.new.body ≡ self.old.body }
        ensures too_large { (width : ℕ) (known : KnownThings) (n : ℕ) → result ≡ Err (EncodeError.TooLarge n)
            → IsTooLarge n (scope_size (counted ty (with_names width known self.old))) }
    {
        match ty {
            TypeRef::TyEqual(_) | TypeRef::TyFresh => self.types = next(self.types)?,
            TypeRef::Instance(_) => self.instances = next(self.instances)?,
            TypeRef::Module(_) | TypeRef::Func(_) | TypeRef::Component(_) => {}
        }
        Ok(())
    }
}

impl Open {
    /// A scope of this kind at its begin, which counts as so many scopes of names.
    pub fn new(alloc: Global, kind: Scope, width: usize) -> Self
        ensures scope { scope_of result ≡ opened width }
        ensures kind { kind_in result.declared.body ≡ kind }
    {
        Open {
            width,
            declared: Declared {
                body: Body::new(alloc, kind),
                types: 0,
                instances: 0,
                core_types: 0,
            },
            known: KnownThings::new(alloc),
        }
    }

    /// The index of a thing in a scope that knows it. `None` where it does not.
    pub fn index_of(&mut self, alloc: Global, key: Key) -> Result<Option<u32>, EncodeError>
        ensures found { IfOk result (λ i. option_map (λ i. (scope_of self.new, i)) i
            ≡ option_map (λ at. index_in at (scope_of self.old)) (known_at self.old.known (mention_of key))) }
        ensures same { IfOk result (λ i. i ≡ None → scope_of self.new ≡ scope_of self.old) }
        ensures width { self.new.width ≡ self.old.width }
        ensures kind { kind_in self.new.declared.body ≡ kind_in self.old.declared.body }
        ensures too_large { (n : ℕ) → result ≡ Err (EncodeError.TooLarge n) → 2 ^ 32 ≤ n }
        ensures among { (n : ℕ) → result ≡ Err (EncodeError.TooLarge n)
            → IsSomeAnd (known_at self.old.known (mention_of key))
            (λ at. n ≤ scope_size (index_in at (scope_of self.old)).0) }
    {
        match self.known.find(key) {
            None => Ok(None),
            Some(At::Index(index)) => Ok(Some(*index)),
            Some(At::InInstance { instance, path }) => {
                let index = self.declared.along(alloc, *instance, path.as_slice())?;
                Ok(Some(index))
            }
        }
    }
}
