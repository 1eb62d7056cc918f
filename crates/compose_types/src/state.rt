//! Scopes into which types are written.

ghost use Rattle.std.specs.Prelude.{◌≡◌, ◌<◌, ◌≤◌, ◌^◌, ◌∷◌, [], ℕ, false, true, All, length, OnOk, IfOk, IfErr, IsSome, IsSomeAnd, Err, Some};
ghost use Rattle.comp_format.specs.CoreTypes as core;
ghost use Rattle.comp_format.specs.Definitions.{is_resource};
ghost use Rattle.comp_format.specs.Forms.{AreDecls, AreModuleDecls, IsDefinition};
ghost use Rattle.comp_format.specs.Views.{component_type_tree, instance_type_tree, module_tree, type_tree};
ghost use Rattle.comp_format.specs.declared.types.Alias.TheVariants as alias;
ghost use Rattle.comp_format.specs.declared.types.Sort.TheVariants as sort;
ghost use Rattle.compose_writing.specs.Scopes.{WrittenScope, add_alias, add_core_type, add_type, change_top, closed, knows, on_top, opened, outermost, standing, type_index, with_known};
ghost use Rattle.compose_writing.specs.Scopes.{declared as declare};
ghost use Rattle.compose_writing.specs.WriteEntities.{at_end, counted, note_new, write_also, write_import};
ghost use Rattle.compose_writing.specs.Conditions.{KeepsForm, is_known};
ghost use Rattle.compose_meaning.specs.Described.{IsDescribed};
ghost use Rattle.compose_meaning.specs.Keeps.{IsImported, Keeps, spot_of};
ghost use Rattle.compose_meaning.specs.Meaning.{Meaning, Means, meant};
ghost use Rattle.compose_meaning.specs.Readable.{HasMeaning, IsOlder};
ghost use Rattle.compose_meaning.specs.Stands.{at_place};
ghost use Rattle.comp_entity.specs.Names.{OfPlace, in_value};
ghost use Rattle.comp_scope.specs.Spaces.{Known, Standing};
ghost use Rattle.std.specs.List.{AllByRecursion, list_any};
ghost use Rattle.std.specs.Str.{str_eq_ignore_ascii_case};
ghost use Rattle.comp_entity.specs.Entity.{Entries, IsComponent};
ghost use Rattle.comp_entity.specs.Views.{entity_tree};
ghost use Rattle.comp_encoder.specs.Writing.{described_sort, next_index};
ghost use Rattle.comp_encoder.specs.Builder.{entries_of};
ghost use Rattle.compose_types.specs.Bodies.{entries_for};
ghost use Rattle.compose_types.specs.Largest.{IsTooLarge, IsWithin, scopes_size, standing_size, written_size};
ghost use Rattle.compose_types.specs.Scopes.{Declares, Takes, inner_kind, item_of, outermost_scope, scopes, scopes_in};
ghost use Rattle.compose_types.specs.Views.{IsNamed, at_of, mention_of};

use crate::body::{Scope, Side};
use crate::entities::note_entity;
use crate::inner::Inner;
use crate::known::{At, Key};
use crate::open::{Open, next};
use crate::sights::{Sight, entity_seen};
use comp_encoder::ComponentBuilder;
use comp_entity::{Entity, TypeNo};
use comp_format::{ComponentType, DefType, EncodeError, InstanceType, ModuleType, TypeRef};
use compose_meaning::laws::{an_import_reads_back, another_number_is_known};
use std::alloc::Global;
use std::marker::Model;
use warg_values::{Sequence, Text};

/// Scopes into which types are written, the outermost of which is a component.
///
/// A clause sees the scopes from the innermost.
#[derive(Drop)]
pub struct TypeState {
    /// The component that is built.
    outermost: Open,
    /// The scopes within it that are open, the innermost last.
    inner: Vec<Inner>,
}

impl Model for TypeState {
    ghost use Rattle.std.specs.Prelude.{List};
    ghost use Rattle.compose_types.specs.declared.open.Open.{Open};
    ghost use Rattle.compose_types.specs.contracts.open.Open as e;
    ghost use Rattle.std.specs.Coded.{codes};

    ghost Value = { Open × List Open };

    ghost coded = { Prim.hlevel (codes, e.the_row.coded) };

    ghost use Rattle.compose_types.specs.Scopes.{IsOutermost};

    ghost view = { λ s. (s.outermost, s.inner.items) };

    ghost invariant = { λ s. IsOutermost s.outermost };
}

impl TypeState {
    /// A component without items, of which nothing is known.
    pub fn new(alloc: Global) -> Self
        ensures { scopes result ≡ outermost ∷ [] }
    {
        TypeState {
            outermost: Open::new(alloc, Scope::Builder, 2),
            inner: Vec::new(alloc),
        }
    }

    /// Declares a type in the innermost scope, and gives its index.
    pub(crate) fn add_type(&mut self, alloc: Global, ty: DefType) -> Result<u32, EncodeError>
        requires resource { is_resource (type_tree ty) ≡ false }
        requires form { IsDefinition (type_tree ty) }
        ensures added { IfOk result (λ i. on_top (add_type (type_tree ty)) (scopes self.old)
            ≡ Some (scopes self.new, i)) }
        ensures too_large { (n : ℕ) → result ≡ Err (EncodeError.TooLarge n) → 2 ^ 32 ≤ n }
        ensures among { (n : ℕ) → result ≡ Err (EncodeError.TooLarge n)
            → IsWithin n written_size (on_top (add_type (type_tree ty)) (scopes self.old)) }
    {
        match self.inner.pop() {
            Some(scope) => {
                let mut scope = scope.into_open();
                let index = scope.declared.add_type(alloc, ty)?;
                self.inner.push(Inner::of(scope))?;
                Ok(index)
            }
            None => {
                let index = self.outermost.declared.add_type(alloc, ty)?;
                Ok(index)
            }
        }
    }

    /// Declares a type of core modules in the innermost scope, and gives its index.
    pub(crate) fn add_core_type(
        &mut self,
        alloc: Global,
        ty: ModuleType,
    ) -> Result<u32, EncodeError>
        requires { AreModuleDecls (module_tree ty) }
        ensures added { IfOk result (λ i.
            on_top (add_core_type (core.Module (module_tree ty))) (scopes self.old) ≡ Some (scopes self.new, i)) }
        ensures too_large { (n : ℕ) → result ≡ Err (EncodeError.TooLarge n) → 2 ^ 32 ≤ n }
        ensures among { (n : ℕ) → result ≡ Err (EncodeError.TooLarge n)
            → IsWithin n written_size (on_top (add_core_type (core.Module (module_tree ty))) (scopes self.old)) }
    {
        match self.inner.pop() {
            Some(scope) => {
                let mut scope = scope.into_open();
                let index = scope.declared.add_core_type(alloc, ty)?;
                self.inner.push(Inner::of(scope))?;
                Ok(index)
            }
            None => {
                let index = self.outermost.declared.add_core_type(alloc, ty)?;
                Ok(index)
            }
        }
    }

    /// Declares an alias of a type of a scope that is so many scopes further out in the innermost scope, and gives its
    /// index.
    fn add_outer(&mut self, alloc: Global, count: u32, index: u32) -> Result<u32, EncodeError>
        ensures added { IfOk result (λ i.
            on_top (add_alias (alias.Outer sort.Ty count index)) (scopes self.old) ≡ Some (scopes self.new, i)) }
        ensures too_large { (n : ℕ) → result ≡ Err (EncodeError.TooLarge n) → 2 ^ 32 ≤ n }
        ensures among { (n : ℕ) → result ≡ Err (EncodeError.TooLarge n)
            → IsWithin n written_size (on_top (add_alias (alias.Outer sort.Ty count index)) (scopes self.old)) }
    {
        match self.inner.pop() {
            Some(scope) => {
                let mut scope = scope.into_open();
                let place = scope.declared.add_outer(alloc, count, index)?;
                self.inner.push(Inner::of(scope))?;
                Ok(place)
            }
            None => {
                let place = self.outermost.declared.add_outer(alloc, count, index)?;
                Ok(place)
            }
        }
    }

    /// How many scopes further out a thing is known, and its index there. Some scope knows it.
    fn stand(&mut self, alloc: Global, key: Key) -> Result<(u32, u32), EncodeError>
        requires { IsSome (standing (scopes self.old) (mention_of key)) }
        ensures stood { IfOk result (λ x. standing (scopes self.old) (mention_of key) ≡ Some (scopes self.new, x)) }
        ensures too_large { (n : ℕ) → result ≡ Err (EncodeError.TooLarge n) → 2 ^ 32 ≤ n }
        ensures among { (n : ℕ) → result ≡ Err (EncodeError.TooLarge n)
            → IsWithin n standing_size (standing (scopes self.old) (mention_of key)) }
    {
        let Some(scope) = self.inner.pop() else {
            let Some(index) = self.outermost.index_of(alloc, key)? else {
                unreachable!()
            };
            return Ok((0, index));
        };
        let mut scope = scope.into_open();
        match scope.index_of(alloc, key)? {
            Some(index) => {
                self.inner.push(Inner::of(scope))?;
                Ok((0, index))
            }
            None => {
                let Some(further) = key.outside(scope.width) else {
                    unreachable!()
                };
                let (up, index) = self.stand(alloc, further)?;
                let up = next(up)?;
                self.inner.push(Inner::of(scope))?;
                Ok((up, index))
            }
        }
    }

    /// The index of a thing in the innermost scope. Some scope knows it.
    #[tactic(auto, using(crate::proofs::ScopeLaws::index_here, crate::proofs::ScopeLaws::index_brought))]
    pub(crate) fn index_of(&mut self, alloc: Global, key: Key) -> Result<u32, EncodeError>
        requires { IsSome (type_index (mention_of key) (scopes self.old)) }
        ensures found { IfOk result (λ i. type_index (mention_of key) (scopes self.old) ≡ Some (scopes self.new, i)) }
        ensures too_large { (n : ℕ) → result ≡ Err (EncodeError.TooLarge n) → 2 ^ 32 ≤ n }
        ensures among { (n : ℕ) → result ≡ Err (EncodeError.TooLarge n)
            → IsWithin n written_size (type_index (mention_of key) (scopes self.old)) }
    {
        let (up, index) = self.stand(alloc, key)?;
        if up == 0 {
            return Ok(index);
        }
        let index = self.add_outer(alloc, up, index)?;
        Ok(index)
    }

    /// Whether some scope knows a thing.
    pub(crate) fn knows_key(&self, key: Key) -> bool
        ensures { result ≡ knows (scopes self.now) (mention_of key) }
    {
        knows_in(self.inner.as_slice(), &self.outermost, key)
    }

    /// Opens a scope which counts as so many scopes of names: a type of components as two, one of instances as less.
    pub(crate) fn open(&mut self, alloc: Global, width: usize) -> Result<(), EncodeError>
        ensures opened { OnOk result (scopes self.new ≡ opened width ∷ scopes self.old) }
        ensures err { IfErr result (λ e. e ≡ EncodeError.Memory) }
    {
        self.inner.push(Inner::new(alloc, width))?;
        Ok(())
    }

    /// Closes the innermost scope, a type of instances.
    pub(crate) fn close_instance(&mut self) -> InstanceType
        requires { inner_kind (scopes self.old) ≡ Some Scope.Instance }
        ensures closed { closed (scopes self.old) ≡ Some (scopes self.new, instance_type_tree result) }
        ensures form { AreDecls false (instance_type_tree result) }
    {
        let Some(scope) = self.inner.pop() else {
            unreachable!()
        };
        let scope = scope.into_open();
        scope.declared.body.into_instance()
    }

    /// Closes the innermost scope, a type of components.
    pub(crate) fn close_component(&mut self) -> ComponentType
        requires { inner_kind (scopes self.old) ≡ Some Scope.Component }
        ensures closed { closed (scopes self.old) ≡ Some (scopes self.new, component_type_tree result) }
        ensures form { AreDecls true (component_type_tree result) }
    {
        let Some(scope) = self.inner.pop() else {
            unreachable!()
        };
        let scope = scope.into_open();
        scope.declared.body.into_component()
    }

    /// Declares an import or an export in the innermost scope, a type of components or of instances, and gives how many
    /// types and instances stood before it.
    pub(crate) fn name(
        &mut self,
        alloc: Global,
        side: Side,
        name: &str,
        ty: TypeRef,
    ) -> Result<(u32, u32), EncodeError>
        requires kind { IsSomeAnd (inner_kind (scopes self.old)) (Takes side) }
        requires name { 0 < length name.now }
        ensures named { IfOk result (λ x.
            Declares (item_of side name.now ty) ty (scopes self.old) (scopes self.new) x.0 x.1) }
        ensures too_large { (n : ℕ) → result ≡ Err (EncodeError.TooLarge n) → 2 ^ 32 ≤ n }
        ensures among { (n : ℕ) → result ≡ Err (EncodeError.TooLarge n)
            → n ≤ scopes_size (change_top (λ m. counted ty (declare (item_of side name.now ty) m)) (scopes self.old)) }
    {
        let Some(scope) = self.inner.pop() else {
            unreachable!()
        };
        let mut scope = scope.into_open();
        let before = (scope.declared.types, scope.declared.instances);
        scope.declared.name(alloc, side, name, ty)?;
        self.inner.push(Inner::of(scope))?;
        Ok(before)
    }

    /// Notes that the innermost scope has a thing there, where it has it nowhere yet.
    pub(crate) fn note(&mut self, key: Key, at: At) -> Result<(), EncodeError>
        requires { IsNamed (at_of at) }
        ensures noted { OnOk result
            (scopes self.new ≡ change_top (with_known (mention_of key) (at_of at)) (scopes self.old)) }
        ensures err { IfErr result (λ e. e ≡ EncodeError.Memory) }
    {
        match self.inner.pop() {
            Some(scope) => {
                let mut scope = scope.into_open();
                scope.known.note(key, at)?;
                self.inner.push(Inner::of(scope))?;
                Ok(())
            }
            None => {
                self.outermost.known.note(key, at)?;
                Ok(())
            }
        }
    }

    /// Notes that the innermost scope has a thing there, where no scope knows it.
    pub(crate) fn note_new(&mut self, key: Key, at: At) -> Result<(), EncodeError>
        requires { IsNamed (at_of at) }
        ensures noted { OnOk result (scopes self.new ≡ note_new (mention_of key) (at_of at) (scopes self.old)) }
        ensures err { IfErr result (λ e. e ≡ EncodeError.Memory) }
    {
        if !self.knows_key(key) {
            self.note(key, at)?;
        }
        Ok(())
    }

    /// Writes an import of this entity and description into the component, and gives the index of what is imported.
    /// From then on the state knows each resource and named type that the entity brings.
    ///
    /// The description is the one that `TypeEncoder::entity` gave for the entity in this state. `TooLarge` has a number
    /// of 2^32 or more, which is not above the largest length, count or index that would have to be written. After a
    /// refusal the state is spent.
    pub fn import(
        &mut self,
        alloc: Global,
        name: &str,
        entity: &Entity,
        ty: &TypeRef,
    ) -> Result<u32, EncodeError>
        requires name { 0 < length name.now }
        requires form { KeepsForm (entity_tree entity.now) }
        ensures written { OnOk result
            (scopes self.new ≡ write_import name.now (entity_tree entity.now) ty.now (scopes self.old)) }
        ensures alone { OnOk result (scopes self.old ≡ outermost_scope self.old ∷ []) }
        ensures index { IfOk result (λ i.
            i ≡ next_index (described_sort ty.now) (entries_for (outermost_scope self.old).decls)) }
        ensures reads_back { (mean : Meaning) (m : WrittenScope) (k : Known) → scopes self.old ≡ m ∷ [] → Keeps mean m k
            → HasMeaning mean (spot_of m k) (entity_tree entity.now)
            → IsDescribed mean (spot_of m k) ty.now (entity_tree entity.now) k.spaces
            → list_any (str_eq_ignore_ascii_case name.now) (spot_of m k).names ≡ false
            → OnOk result (IsImported mean m k (scopes self.new) name.now (entity_tree entity.now)) }
        ensures too_large { (n : ℕ) → result ≡ Err (EncodeError.TooLarge n)
            → IsTooLarge n (scopes_size (write_import name.now (entity_tree entity.now) ty.now (scopes self.old))) }
    {
        an_import_reads_back();
        match self.inner.pop() {
            Some(_) => Err(EncodeError::Memory),
            None => {
                let types = self.outermost.declared.types;
                let instances = self.outermost.declared.instances;
                let index = self.outermost.declared.import(alloc, name, *ty)?;
                note_entity(alloc, self, entity, types, instances)?;
                Ok(index)
            }
        }
    }

    /// Writes an import of a component of this description into the component that is built, and gives the index of what
    /// is imported. A component brings nothing, so nothing more is known from then on.
    ///
    /// The description is the one that `TypeEncoder::component_ref` gave for the imports and exports of the component in
    /// this state. `TooLarge` and what a refusal leaves are as of `import`.
    pub fn import_component(
        &mut self,
        alloc: Global,
        name: &str,
        ty: &TypeRef,
    ) -> Result<u32, EncodeError>
        requires { 0 < length name.now }
        ensures written { (imports exports : Entries) → OnOk result
            (scopes self.new ≡ write_import name.now (IsComponent imports exports) ty.now (scopes self.old)) }
        ensures alone { OnOk result (scopes self.old ≡ outermost_scope self.old ∷ []) }
        ensures index { IfOk result (λ i.
            i ≡ next_index (described_sort ty.now) (entries_for (outermost_scope self.old).decls)) }
        ensures reads_back { (imports exports : Entries) (mean : Meaning) (m : WrittenScope) (k : Known)
            → scopes self.old ≡ m ∷ [] → Keeps mean m k
            → HasMeaning mean (spot_of m k) (IsComponent imports exports)
            → IsDescribed mean (spot_of m k) ty.now (IsComponent imports exports) k.spaces
            → list_any (str_eq_ignore_ascii_case name.now) (spot_of m k).names ≡ false
            → OnOk result (IsImported mean m k (scopes self.new) name.now (IsComponent imports exports)) }
        ensures too_large { (imports exports : Entries) (n : ℕ) → result ≡ Err (EncodeError.TooLarge n) → IsTooLarge n
            (scopes_size (write_import name.now (IsComponent imports exports) ty.now (scopes self.old))) }
    {
        an_import_reads_back();
        match self.inner.pop() {
            Some(_) => Err(EncodeError::Memory),
            None => {
                let index = self.outermost.declared.import(alloc, name, *ty)?;
                Ok(index)
            }
        }
    }

    /// How many types the component that is built has.
    pub fn types(&self) -> u32
        ensures { result ≡ (outermost_scope self.now).types }
    {
        self.outermost.declared.types
    }

    /// How many instances the component that is built has.
    pub fn instances(&self) -> u32
        ensures { result ≡ (outermost_scope self.now).instances }
    {
        self.outermost.declared.instances
    }

    /// Notes that a named type that the state knows at this place is called by this number too: the type of this index,
    /// or the one at the end of this path, where it is not empty, in the instance of this index. Where the number is
    /// known already, that stays. It answers `Memory` alone.
    pub fn also(
        &mut self,
        number: TypeNo,
        from: u32,
        path: Sequence<Text>,
    ) -> Result<(), EncodeError>
        requires { All (λ name. 0 < length name) path }
        ensures written { OnOk result (scopes self.new ≡ write_also number from path (scopes self.old)) }
        ensures reads_back { (mean : Meaning) (m : WrittenScope) (k : Known) (s : Standing) → scopes self.old ≡ m ∷ []
            → Keeps mean m k → at_place k.spaces (at_end from path) ≡ Some s → Means 0 (meant mean (OfPlace number)) s
            → AllByRecursion (IsOlder mean (spot_of m k)) (in_value 0 (mean.tree number))
            → OnOk result ((scope : WrittenScope) × (scopes self.new ≡ scope ∷ []) × Keeps mean scope k) }
        ensures err { IfErr result (λ e. e ≡ EncodeError.Memory) }
    {
        another_number_is_known();
        self.note_number(number, from, path)?;
        Ok(())
    }

    /// Notes that what stands there is called by this number of a named type too, where the number is not known.
    #[tactic(auto, using(crate::proofs::ScopeLaws::end_empty, crate::proofs::ScopeLaws::end_path))]
    fn note_number(
        &mut self,
        number: TypeNo,
        from: u32,
        path: Sequence<Text>,
    ) -> Result<(), EncodeError>
        requires { All (λ name. 0 < length name) path }
        ensures written { OnOk result (scopes self.new ≡ write_also number from path (scopes self.old)) }
        ensures err { IfErr result (λ e. e ≡ EncodeError.Memory) }
    {
        let key = Key::of_place(number);
        if path.is_empty() {
            self.note_new(key, At::Index(from))?;
            Ok(())
        } else {
            self.note_new(
                key,
                At::InInstance {
                    instance: from,
                    path,
                },
            )?;
            Ok(())
        }
    }

    /// Whether the state knows each resource and named type that an entity mentions and does not itself bring, there or
    /// earlier. It takes no memory, and so looks back over what the entity brings at each mention: its time grows with
    /// the square of that.
    pub fn knows(&self, entity: &Entity) -> bool
        ensures { result ≡ is_known (knows (scopes self.now)) (entity_tree entity.now) }
    {
        entity_seen(&Sight::State(self), entity)
    }

    /// The component that was built, with all that was written into it.
    pub fn into_builder(self) -> ComponentBuilder
        ensures { entries_of result ≡ entries_for (outermost_scope self).decls }
    {
        let TypeState {
            outermost,
            inner: _,
        } = self;
        outermost.declared.body.into_builder()
    }
}

/// Whether some scope knows a thing, of the outermost and those within it, the innermost last.
fn knows_in(inner: &[Inner], outermost: &Open, key: Key) -> bool
    ensures { result ≡ knows (scopes_in inner.now outermost.now) (mention_of key) }
{
    match inner {
        [] => outermost.known.knows(key),
        [around @ .., scope] => {
            let scope = scope.as_open();
            if scope.known.knows(key) {
                return true;
            }
            match key.outside(scope.width) {
                Some(key) => knows_in(around, outermost, key),
                None => false,
            }
        }
    }
}
