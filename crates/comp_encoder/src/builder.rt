//! A builder that writes components.

ghost use Rattle.std.specs.Prelude.{◌≡◌, ◌<◌, ◌≤◌, ◌+◌, ◌^◌, ◌++◌, ◌∷◌, ◌⊎◌, [], ℕ, List, length, All, Some, OnOk, OnErr, IfOk, IfErr, Err, None, option_map, true, false};
ghost use Rattle.std.specs.List.{AllByRecursion};
ghost use Rattle.comp_format.specs.declared.types.CoreSort.TheVariants as core_sort;
ghost use Rattle.comp_format.specs.declared.types.Sort.{Sort as sort_of_item};
ghost use Rattle.comp_format.specs.declared.types.Sort.TheVariants as sort;
ghost use Rattle.comp_format.specs.declared.types.InstanceItem.TheVariants as instance;
ghost use Rattle.comp_format.specs.declared.types.Alias.TheVariants as alias;
ghost use Rattle.comp_format.specs.Parts.{is_outer};
ghost use Rattle.comp_format.specs.CoreTypes as core_tree;
ghost use Rattle.comp_format.specs.Definitions as tree;
ghost use Rattle.comp_format.specs.Views.{module_tree, instance_type_tree, component_type_tree};
ghost use Rattle.comp_format.specs.Items.{ItemTree, item_tree, CoreTy, Component, Instance, Aliased, Ty, Import, Export};
ghost use Rattle.comp_format.specs.Sections.{Reads};
ghost use Rattle.comp_format.specs.Fits.{FitsItem, IsComponent};
ghost use Rattle.comp_format.specs.Forms.{IsDefined, IsFunc, AreDecls, AreModuleDecls};
ghost use Rattle.comp_format.specs.Spaces.{space_of};
ghost use Rattle.comp_encoder.specs.Largest.{vector_largest, arg_largest, defined_largest, func_largest, core_largest, definition_largest};
ghost use Rattle.comp_encoder.specs.Writing.{Single, GivenSection, item_id, item_text, numbered, IsTooLongAmong, IsShort, items_of, described_sort, is_shared, is_plain, item_sort, sections_of, component_text, next_index};
ghost use Rattle.comp_encoder.specs.Builder.{IsBytesOf, IsContent, IsContentOf, item_of, entries_of};

use crate::any_item::{encode_item, section_of};
use crate::built::{Built, Kind};
use crate::items::{
    encode_alias_export, encode_alias_outer, encode_component, encode_component_type,
    encode_core_module, encode_defined, encode_export, encode_function, encode_import,
    encode_instance, encode_instance_type, encode_resource,
};
use crate::raw::{count_item, count_section};
use crate::spaces::{described_sort, space_of};
use comp_format::{
    Arg, ComponentType, CoreSort, DefinedType, EncodeError, FuncType, InstanceType, Item,
    ModuleType, Sort, TypeRef, section,
};
use std::alloc::Global;
use std::marker::Model;
use std::mem;

/// Builds a component, item by item, and writes it.
///
/// A clause sees what was added, in order, by the word `entries_of`. Each adder gives the new item's index in the
/// index space of its sort, and a refusal adds nothing.
///
/// A section is written as soon as it is whole, so what was added takes about the memory that the component takes.
#[derive(Drop)]
pub struct ComponentBuilder {
    /// What was added, in order.
    built: Built,
    /// Where an item is written before it is added, so that not each takes memory of its own.
    buffer: Vec<u8>,
    /// How many items each index space numbers.
    counts: [u32; 11],
}

impl Model for ComponentBuilder {
    ghost use Rattle.std.specs.Prelude.{List};
    ghost use Rattle.comp_encoder.specs.Builder.{Kept};

    ghost Value = { List Kept };

    ghost use Rattle.comp_encoder.specs.Builder.{IsBuilt};

    ghost view = { λ b. b.built };

    ghost invariant = { λ b. IsBuilt b.built b.counts };
}

impl ComponentBuilder {
    /// A component without items.
    pub fn new(alloc: Global) -> Self
        ensures { entries_of result ≡ [] }
    {
        ComponentBuilder {
            built: Built::new(alloc),
            buffer: Vec::new(alloc),
            counts: [0; 11],
        }
    }

    /// The index of the next item of a sort, and the size of its index space once it is added.
    fn next_of(&self, sort: Sort) -> Result<(u32, u32), EncodeError>
        ensures index { IfOk result (λ n. (n.0 ≡ next_index sort (entries_of self.now)) × (n.1 ≡ n.0 + 1)) }
        ensures too_large { (n : ℕ) → result ≡ Err (EncodeError.TooLarge n)
            → (n ≡ next_index sort (entries_of self.now) + 1) × (2 ^ 32 ≤ n) }
    {
        let index = self.counts[space_of(sort)];
        match index.checked_add(1) {
            Some(size) => Ok((index, size)),
            None => Err(EncodeError::TooLarge(index as u64 + 1)),
        }
    }

    /// The buffer for an item, which `add` and `push_item` bring back.
    fn take_buffer(&mut self, alloc: Global) -> Vec<u8>
        ensures { self.new ≡ self.old }
    {
        mem::replace(&mut self.buffer, Vec::new(alloc))
    }

    /// Adds an item that was written into the buffer, and counts it in the index space of its sort.
    fn add(&mut self, id: u8, bytes: Vec<u8>, sort: Sort, size: u32) -> Result<(), EncodeError>
        requires bytes { IsBytesOf (item_of id bytes.items) id bytes.items }
        requires shared { is_shared id ≡ true }
        requires kind { item_sort (item_of id bytes.items) ≡ Some sort }
        requires next { size ≡ next_index sort (entries_of self.old) + 1 }
        ensures added { OnOk result
            (entries_of self.new ≡ entries_of self.old ++ Single (item_of id bytes.items) ∷ []) }
        ensures unchanged { OnErr result (self.new ≡ self.old) }
        ensures err { IfErr result (λ e. e ≡ EncodeError.Memory) }
    {
        self.buffer = self.built.push_item(id, bytes)?;
        self.counts[space_of(sort)] = size;
        Ok(())
    }

    /// Adds an item that has a section of its own, and counts it in the index space of its sort.
    fn add_alone(&mut self, id: u8, bytes: &[u8], sort: Sort, size: u32) -> Result<(), EncodeError>
        requires bytes { IsBytesOf (item_of id bytes.now) id bytes.now }
        requires plain { is_plain id ≡ true }
        requires kind { item_sort (item_of id bytes.now) ≡ Some sort }
        requires next { size ≡ next_index sort (entries_of self.old) + 1 }
        ensures added { OnOk result
            (entries_of self.new ≡ entries_of self.old ++ Single (item_of id bytes.now) ∷ []) }
        ensures unchanged { OnErr result (self.new ≡ self.old) }
        ensures too_large { (n : ℕ) → result ≡ Err (EncodeError.TooLarge n) → (n ≡ length bytes.now) × (2 ^ 32 ≤ n) }
    {
        self.built.push_section(Kind::Item(id), &[], bytes)?;
        self.counts[space_of(sort)] = size;
        Ok(())
    }

    /// How many types the component has.
    pub fn type_count(&self) -> u32
        ensures { result ≡ next_index sort.Ty (entries_of self.now) }
    {
        self.counts[space_of(Sort::Ty)]
    }

    /// How many instances the component has.
    pub fn instance_count(&self) -> u32
        ensures { result ≡ next_index sort.Instance (entries_of self.now) }
    {
        self.counts[space_of(Sort::Instance)]
    }

    /// Adds a nested component, and gives its index.
    ///
    /// `TooLarge` has the length of `bytes`, or the number of components with this one, where that is above
    /// 2^32 - 1.
    pub fn component_raw(&mut self, alloc: Global, bytes: &[u8]) -> Result<u32, EncodeError>
        requires { IsComponent bytes.now }
        ensures index { IfOk result (λ i. i ≡ next_index sort.Component (entries_of self.old)) }
        ensures added { OnOk result (entries_of self.new ≡ entries_of self.old ++ Single (Component bytes.now) ∷ []) }
        ensures unchanged { OnErr result (self.new ≡ self.old) }
        ensures fits { OnOk result
            ((length bytes.now < 2 ^ 32) × (next_index sort.Component (entries_of self.old) + 1 < 2 ^ 32)) }
        ensures too_large { (n : ℕ) → result ≡ Err (EncodeError.TooLarge n)
            → (2 ^ 32 ≤ n) × ((n ≡ length bytes.now) ⊎ (n ≡ next_index sort.Component (entries_of self.old) + 1)) }
    {
        let (index, size) = self.next_of(Sort::Component)?;
        let bytes = encode_component(bytes)?;
        self.add_alone(section::COMPONENT, bytes, Sort::Component, size)?;
        Ok(index)
    }

    /// Adds an instance of the component of this index, with these arguments, and gives its index.
    ///
    /// `TooLarge` has the largest of the number of arguments and of the lengths of their names, or the number of
    /// instances with this one, where that is above 2^32 - 1.
    pub fn instantiate(
        &mut self,
        alloc: Global,
        component: u32,
        args: &[Arg],
    ) -> Result<u32, EncodeError>
        requires { All (λ arg. 0 < length arg.name) args.now }
        ensures index { IfOk result (λ i. i ≡ next_index sort.Instance (entries_of self.old)) }
        ensures added { OnOk result
            (entries_of self.new
            ≡ entries_of self.old ++ Single (Instance (instance.Instantiate component args.now)) ∷ []) }
        ensures unchanged { OnErr result (self.new ≡ self.old) }
        ensures fits { OnOk result
            ((vector_largest arg_largest args.now < 2 ^ 32)
            × (next_index sort.Instance (entries_of self.old) + 1 < 2 ^ 32)) }
        ensures too_large { (n : ℕ) → result ≡ Err (EncodeError.TooLarge n)
            → (2 ^ 32 ≤ n)
            × ((n ≡ vector_largest arg_largest args.now)
            ⊎ (n ≡ next_index sort.Instance (entries_of self.old) + 1)) }
    {
        let (index, size) = self.next_of(Sort::Instance)?;
        let bytes = encode_instance(self.take_buffer(alloc), component, args)?;
        self.add(section::INSTANCE, bytes, Sort::Instance, size)?;
        Ok(index)
    }

    /// Adds an alias of the export of this name and sort of an instance, and gives its index.
    ///
    /// `TooLarge` has the length of `name`, or the number of items of the sort with this one, where that is above
    /// 2^32 - 1.
    pub fn alias_export(
        &mut self,
        alloc: Global,
        instance: u32,
        name: &str,
        sort: Sort,
    ) -> Result<u32, EncodeError>
        requires { 0 < length name.now }
        ensures index { IfOk result (λ i. i ≡ next_index sort (entries_of self.old)) }
        ensures added { OnOk result
            (entries_of self.new ≡ entries_of self.old ++ Single (Aliased (alias.Export sort instance name.now)) ∷ []) }
        ensures unchanged { OnErr result (self.new ≡ self.old) }
        ensures fits { OnOk result ((length name.now < 2 ^ 32) × (next_index sort (entries_of self.old) + 1 < 2 ^ 32)) }
        ensures too_large { (n : ℕ) → result ≡ Err (EncodeError.TooLarge n)
            → (2 ^ 32 ≤ n) × ((n ≡ length name.now) ⊎ (n ≡ next_index sort (entries_of self.old) + 1)) }
    {
        let (index, size) = self.next_of(sort)?;
        let bytes = encode_alias_export(self.take_buffer(alloc), instance, name, sort)?;
        self.add(section::ALIAS, bytes, sort, size)?;
        Ok(index)
    }

    /// Adds an alias of the type, core type, core module or component of this index of the scope that is `count`
    /// scopes further out, and gives its index.
    ///
    /// `TooLarge` has the number of items of the sort with this one, where that is above 2^32 - 1.
    pub fn alias_outer(
        &mut self,
        alloc: Global,
        count: u32,
        index: u32,
        sort: Sort,
    ) -> Result<u32, EncodeError>
        requires { is_outer sort ≡ true }
        ensures index { IfOk result (λ i. i ≡ next_index sort (entries_of self.old)) }
        ensures added { OnOk result
            (entries_of self.new ≡ entries_of self.old ++ Single (Aliased (alias.Outer sort count index)) ∷ []) }
        ensures unchanged { OnErr result (self.new ≡ self.old) }
        ensures fits { OnOk result (next_index sort (entries_of self.old) + 1 < 2 ^ 32) }
        ensures too_large { (n : ℕ) → result ≡ Err (EncodeError.TooLarge n)
            → (2 ^ 32 ≤ n) × (n ≡ next_index sort (entries_of self.old) + 1) }
    {
        let (place, size) = self.next_of(sort)?;
        let bytes = encode_alias_outer(self.take_buffer(alloc), count, index, sort)?;
        self.add(section::ALIAS, bytes, sort, size)?;
        Ok(place)
    }

    /// Adds an import, and gives the index of what is imported.
    ///
    /// `TooLarge` has the length of `name`, or the number of items of the description's sort with this one, where
    /// that is above 2^32 - 1.
    pub fn import(&mut self, alloc: Global, name: &str, ty: &TypeRef) -> Result<u32, EncodeError>
        requires { 0 < length name.now }
        ensures index { IfOk result (λ i. i ≡ next_index (described_sort ty.now) (entries_of self.old)) }
        ensures added { OnOk result
            (entries_of self.new
            ≡ entries_of self.old ++ Single (Import (record { name = name.now; ty = ty.now })) ∷ []) }
        ensures unchanged { OnErr result (self.new ≡ self.old) }
        ensures fits { OnOk result
            ((length name.now < 2 ^ 32) × (next_index (described_sort ty.now) (entries_of self.old) + 1 < 2 ^ 32)) }
        ensures too_large { (n : ℕ) → result ≡ Err (EncodeError.TooLarge n)
            → (2 ^ 32 ≤ n)
            × ((n ≡ length name.now) ⊎ (n ≡ next_index (described_sort ty.now) (entries_of self.old) + 1)) }
    {
        let sort = described_sort(*ty);
        let (index, size) = self.next_of(sort)?;
        let bytes = encode_import(self.take_buffer(alloc), name, *ty)?;
        self.add(section::IMPORT, bytes, sort, size)?;
        Ok(index)
    }

    /// Adds an export of the item of this sort and index, and gives the index of what is exported.
    ///
    /// `TooLarge` has the length of `name`, or the number of items of the sort with this one, where that is above
    /// 2^32 - 1.
    pub fn export(
        &mut self,
        alloc: Global,
        name: &str,
        sort: Sort,
        index: u32,
        ty: Option<&TypeRef>,
    ) -> Result<u32, EncodeError>
        requires { 0 < length name.now }
        ensures index { IfOk result (λ i. i ≡ next_index sort (entries_of self.old)) }
        ensures added { OnOk result
            (entries_of self.new
            ≡ entries_of self.old
            ++ Single
            (Export
            (record
            { name = name.now; sort = sort; index = index; ty = option_map (λ t. t.now) ty.entry }))
            ∷ []) }
        ensures unchanged { OnErr result (self.new ≡ self.old) }
        ensures fits { OnOk result ((length name.now < 2 ^ 32) × (next_index sort (entries_of self.old) + 1 < 2 ^ 32)) }
        ensures too_large { (n : ℕ) → result ≡ Err (EncodeError.TooLarge n)
            → (2 ^ 32 ≤ n) × ((n ≡ length name.now) ⊎ (n ≡ next_index sort (entries_of self.old) + 1)) }
    {
        let (place, size) = self.next_of(sort)?;
        let bytes = encode_export(self.take_buffer(alloc), name, sort, index, ty.copied())?;
        self.add(section::EXPORT, bytes, sort, size)?;
        Ok(place)
    }

    /// Adds a type of values, and gives its index.
    ///
    /// `TooLarge` has the largest length, count or index in the type, or the number of types with this one, where that
    /// is above 2^32 - 1.
    pub fn type_defined(&mut self, alloc: Global, ty: &DefinedType) -> Result<u32, EncodeError>
        requires { IsDefined ty.now }
        ensures index { IfOk result (λ i. i ≡ next_index sort.Ty (entries_of self.old)) }
        ensures added { OnOk result
            (entries_of self.new ≡ entries_of self.old ++ Single (Ty (tree.Defined ty.now)) ∷ []) }
        ensures unchanged { OnErr result (self.new ≡ self.old) }
        ensures fits { OnOk result
            ((defined_largest ty.now < 2 ^ 32) × (next_index sort.Ty (entries_of self.old) + 1 < 2 ^ 32)) }
        ensures too_large { (n : ℕ) → result ≡ Err (EncodeError.TooLarge n)
            → (2 ^ 32 ≤ n) × ((n ≡ defined_largest ty.now) ⊎ (n ≡ next_index sort.Ty (entries_of self.old) + 1)) }
    {
        let (index, size) = self.next_of(Sort::Ty)?;
        let bytes = encode_defined(self.take_buffer(alloc), ty)?;
        self.add(section::TYPE, bytes, Sort::Ty, size)?;
        Ok(index)
    }

    /// Adds a type of functions, and gives its index.
    ///
    /// `TooLarge` has the largest length, count or index in the type, or the number of types with this one, where that
    /// is above 2^32 - 1.
    pub fn type_function(&mut self, alloc: Global, ty: &FuncType) -> Result<u32, EncodeError>
        requires { IsFunc ty.now }
        ensures index { IfOk result (λ i. i ≡ next_index sort.Ty (entries_of self.old)) }
        ensures added { OnOk result (entries_of self.new ≡ entries_of self.old ++ Single (Ty (tree.Func ty.now)) ∷ []) }
        ensures unchanged { OnErr result (self.new ≡ self.old) }
        ensures fits { OnOk result
            ((func_largest ty.now < 2 ^ 32) × (next_index sort.Ty (entries_of self.old) + 1 < 2 ^ 32)) }
        ensures too_large { (n : ℕ) → result ≡ Err (EncodeError.TooLarge n)
            → (2 ^ 32 ≤ n) × ((n ≡ func_largest ty.now) ⊎ (n ≡ next_index sort.Ty (entries_of self.old) + 1)) }
    {
        let (index, size) = self.next_of(Sort::Ty)?;
        let bytes = encode_function(self.take_buffer(alloc), ty)?;
        self.add(section::TYPE, bytes, Sort::Ty, size)?;
        Ok(index)
    }

    /// Adds a type of instances, and gives its index.
    ///
    /// `TooLarge` has the largest length, count or index in the type, or the number of types with this one, where that
    /// is above 2^32 - 1.
    pub fn type_instance(&mut self, alloc: Global, ty: &InstanceType) -> Result<u32, EncodeError>
        requires { AreDecls false (instance_type_tree ty.now) }
        ensures index { IfOk result (λ i. i ≡ next_index sort.Ty (entries_of self.old)) }
        ensures added { OnOk result
            (entries_of self.new
            ≡ entries_of self.old ++ Single (Ty (tree.Instance (instance_type_tree ty.now))) ∷ []) }
        ensures unchanged { OnErr result (self.new ≡ self.old) }
        ensures fits { OnOk result
            ((definition_largest (tree.Instance (instance_type_tree ty.now)) < 2 ^ 32)
            × (next_index sort.Ty (entries_of self.old) + 1 < 2 ^ 32)) }
        ensures too_large { (n : ℕ) → result ≡ Err (EncodeError.TooLarge n)
            → (2 ^ 32 ≤ n)
            × ((n ≡ definition_largest (tree.Instance (instance_type_tree ty.now)))
            ⊎ (n ≡ next_index sort.Ty (entries_of self.old) + 1)) }
    {
        let (index, size) = self.next_of(Sort::Ty)?;
        let bytes = encode_instance_type(self.take_buffer(alloc), ty)?;
        self.add(section::TYPE, bytes, Sort::Ty, size)?;
        Ok(index)
    }

    /// Adds a type of components, and gives its index.
    ///
    /// `TooLarge` has the largest length, count or index in the type, or the number of types with this one, where that
    /// is above 2^32 - 1.
    pub fn type_component(&mut self, alloc: Global, ty: &ComponentType) -> Result<u32, EncodeError>
        requires { AreDecls true (component_type_tree ty.now) }
        ensures index { IfOk result (λ i. i ≡ next_index sort.Ty (entries_of self.old)) }
        ensures added { OnOk result
            (entries_of self.new
            ≡ entries_of self.old ++ Single (Ty (tree.Component (component_type_tree ty.now))) ∷ []) }
        ensures unchanged { OnErr result (self.new ≡ self.old) }
        ensures fits { OnOk result
            ((definition_largest (tree.Component (component_type_tree ty.now)) < 2 ^ 32)
            × (next_index sort.Ty (entries_of self.old) + 1 < 2 ^ 32)) }
        ensures too_large { (n : ℕ) → result ≡ Err (EncodeError.TooLarge n)
            → (2 ^ 32 ≤ n)
            × ((n ≡ definition_largest (tree.Component (component_type_tree ty.now)))
            ⊎ (n ≡ next_index sort.Ty (entries_of self.old) + 1)) }
    {
        let (index, size) = self.next_of(Sort::Ty)?;
        let bytes = encode_component_type(self.take_buffer(alloc), ty)?;
        self.add(section::TYPE, bytes, Sort::Ty, size)?;
        Ok(index)
    }

    /// Adds a fresh resource that no function destroys, and gives its index.
    ///
    /// `TooLarge` has the number of types with this one, where that is above 2^32 - 1.
    pub fn type_resource(&mut self, alloc: Global) -> Result<u32, EncodeError>
        ensures index { IfOk result (λ i. i ≡ next_index sort.Ty (entries_of self.old)) }
        ensures added { OnOk result
            (entries_of self.new ≡ entries_of self.old ++ Single (Ty (tree.Resource None)) ∷ []) }
        ensures unchanged { OnErr result (self.new ≡ self.old) }
        ensures fits { OnOk result (next_index sort.Ty (entries_of self.old) + 1 < 2 ^ 32) }
        ensures too_large { (n : ℕ) → result ≡ Err (EncodeError.TooLarge n)
            → (2 ^ 32 ≤ n) × (n ≡ next_index sort.Ty (entries_of self.old) + 1) }
    {
        let (index, size) = self.next_of(Sort::Ty)?;
        let bytes = encode_resource(self.take_buffer(alloc))?;
        self.add(section::TYPE, bytes, Sort::Ty, size)?;
        Ok(index)
    }

    /// Adds a type of core modules, and gives its index.
    ///
    /// `TooLarge` has the largest length, count or index in the type, or the number of core types with this one, where
    /// that is above 2^32 - 1.
    pub fn core_type_module(&mut self, alloc: Global, ty: &ModuleType) -> Result<u32, EncodeError>
        requires { AreModuleDecls (module_tree ty.now) }
        ensures index { IfOk result (λ i. i ≡ next_index (sort.Core core_sort.Ty) (entries_of self.old)) }
        ensures added { OnOk result
            (entries_of self.new
            ≡ entries_of self.old ++ Single (CoreTy (core_tree.Module (module_tree ty.now))) ∷ []) }
        ensures unchanged { OnErr result (self.new ≡ self.old) }
        ensures fits { OnOk result
            ((core_largest (core_tree.Module (module_tree ty.now)) < 2 ^ 32)
            × (next_index (sort.Core core_sort.Ty) (entries_of self.old) + 1 < 2 ^ 32)) }
        ensures too_large { (n : ℕ) → result ≡ Err (EncodeError.TooLarge n)
            → (2 ^ 32 ≤ n)
            × ((n ≡ core_largest (core_tree.Module (module_tree ty.now)))
            ⊎ (n ≡ next_index (sort.Core core_sort.Ty) (entries_of self.old) + 1)) }
    {
        let (index, size) = self.next_of(Sort::Core(CoreSort::Ty))?;
        let bytes = encode_core_module(self.take_buffer(alloc), ty)?;
        self.add(section::CORE_TYPE, bytes, Sort::Core(CoreSort::Ty), size)?;
        Ok(index)
    }

    /// Adds any item that was read: it is read again as the same.
    ///
    /// `TooLarge` has the length of the item's bytes, or the number of items of its sort with this one, where that is
    /// above 2^32 - 1.
    pub fn push_item(&mut self, alloc: Global, item: &Item<'_>) -> Result<(), EncodeError>
        requires { FitsItem (item_tree item.now) }
        ensures added { OnOk result
            (entries_of self.new ≡ entries_of self.old ++ Single (item_tree item.now) ∷ []) }
        ensures unchanged { OnErr result (self.new ≡ self.old) }
        ensures short { OnOk result
            (is_plain (item_id (item_tree item.now)) ≡ true → length (item_text (item_tree item.now)) < 2 ^ 32) }
        ensures small { OnOk result ((kind : sort_of_item) → next_index kind (entries_of self.new) < 2 ^ 32) }
        ensures too_large { (n : ℕ) → result ≡ Err (EncodeError.TooLarge n)
            → (2 ^ 32 ≤ n)
            × ((n ≡ length (item_text (item_tree item.now)))
            ⊎ ((kind : sort_of_item)
            × (item_sort (item_tree item.now) ≡ Some kind)
            × (n ≡ next_index kind (entries_of self.old) + 1))) }
    {
        let counts = count_item(self.counts, item)?;
        let id = section_of(item);
        let (written, lent) = encode_item(self.take_buffer(alloc), item)?;
        match lent {
            None => self.buffer = self.built.push_item(id, written)?,
            Some(lent) => {
                self.built.push_section(Kind::Item(id), &written, lent)?;
                self.buffer = written;
            }
        }
        self.counts = counts;
        Ok(())
    }

    /// Adds the section of this id and content, with the items that it holds, in order. It is written as it is.
    ///
    /// `TooLarge` has the length of `content`, or the number of items that an index space would have with these, where
    /// that is above 2^32 - 1. `Memory` is also answered where more than 200 scopes are open in the section at one
    /// place.
    pub fn raw_section(&mut self, alloc: Global, id: u8, content: &[u8]) -> Result<(), EncodeError>
        requires { IsContent id content.now }
        ensures added { (items : List ItemTree) → IsContentOf items id content.now
            → OnOk result (entries_of self.new ≡ entries_of self.old ++ GivenSection id content.now items ∷ []) }
        ensures unchanged { OnErr result (self.new ≡ self.old) }
        ensures short { OnOk result (length content.now < 2 ^ 32) }
        ensures small { OnOk result ((kind : sort_of_item) → next_index kind (entries_of self.new) < 2 ^ 32) }
        ensures too_large { (items : List ItemTree) → IsContentOf items id content.now
            → (n : ℕ)
            → result ≡ Err (EncodeError.TooLarge n)
            → (2 ^ 32 ≤ n)
            × ((n ≡ length content.now)
            ⊎ ((kind : sort_of_item) × (n ≡ next_index kind (entries_of self.old) + numbered kind items))) }
    {
        let counts = count_section(alloc, self.counts, id, content)?;
        self.built.push_section(Kind::Section(id), &[], content)?;
        self.counts = counts;
        Ok(())
    }

    /// The component as bytes. They read as the items that were added, in order, and as nothing else.
    ///
    /// Lengths, counts and indices have their shortest spelling, but in sections that were given as bytes.
    /// Neighbouring items of one kind share a section; a custom section, a core module and a nested component have each
    /// their own. `TooLarge` has the length of a section's content, or the number of its items, where that is above
    /// 2^32 - 1.
    pub fn finish(self, alloc: Global) -> Result<Vec<u8>, EncodeError>
        ensures reads { IfOk result (λ bytes. Reads bytes.items (items_of (entries_of self))) }
        ensures once { IfOk result
            (λ bytes. (items : List ItemTree) → Reads bytes.items items → items ≡ items_of (entries_of self)) }
        ensures text { IfOk result (λ bytes. bytes.items ≡ component_text (entries_of self)) }
        ensures fits { OnOk result (AllByRecursion IsShort (sections_of (entries_of self))) }
        ensures too_large { (n : ℕ) → result ≡ Err (EncodeError.TooLarge n)
            → IsTooLongAmong n (sections_of (entries_of self)) }
    {
        self.built.finish()
    }
}
