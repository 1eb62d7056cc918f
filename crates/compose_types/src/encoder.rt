//! Entities of shapes as types.

ghost use Rattle.std.specs.Prelude.{◌≡◌, ◌≤◌, ◌^◌, ℕ, List, [], ◌∷◌, false, true, IfOk, IsSome, Err, Ok, Some};
ghost use Rattle.comp_format.specs.CoreTypes as core;
ghost use Rattle.comp_format.specs.Definitions as tree;
ghost use Rattle.comp_format.specs.Definitions.{Decls};
ghost use Rattle.comp_format.specs.Forms.{AreDecls, AreModuleDecls};
ghost use Rattle.comp_format.specs.Views.{component_type_tree, instance_type_tree, module_tree};
ghost use Rattle.comp_format.specs.declared.types.TypeRef.{TypeRef};
ghost use Rattle.comp_format.specs.declared.types.TypeRef.TheVariants as description;
ghost use Rattle.comp_entity.specs.Bounds.{unbounded};
ghost use Rattle.comp_entity.specs.Entity.{IsComponent, IsInstance};
ghost use Rattle.comp_scope.specs.CoreScopes.{core_type_of};
ghost use Rattle.comp_scope.specs.Spaces.{Known, KnownCoreType, OfModules};
ghost use Rattle.compose_meaning.specs.Keeps.{IsNextType, IsWritten, Keeps, spot_of};
ghost use Rattle.compose_meaning.specs.Meaning.{Meaning};
ghost use Rattle.compose_meaning.specs.Readable.{HasMeaning};
ghost use Rattle.comp_entity.specs.Views.{entity_tree, entries_of, named_entities};
ghost use Rattle.compose_writing.specs.Conditions.{KeepsEntries, KeepsForm, KeepsModule, are_known, is_known, sides_known};
ghost use Rattle.compose_writing.specs.Scopes.{WrittenScope, knows};
ghost use Rattle.compose_writing.specs.WriteEntities.{write_component, write_entity, write_instance};
ghost use Rattle.compose_writing.specs.WriteModules.{write_module};
ghost use Rattle.compose_types.specs.Largest.{IsTooLarge, IsWithin, closed_size, module_size, written_size};
ghost use Rattle.compose_types.specs.Scopes.{scopes};

use crate::body::Side;
use crate::entities::{entity_ref, instance_type, write_entries};
use crate::modules::module_type;
use crate::state::TypeState;
use comp_entity::{Entity, ModuleShape, Shape};
use comp_format::{ComponentType, DefType, EncodeError, InstanceType, ModuleType, TypeRef};
use compose_meaning::laws::{
    a_component_type_reads_back, a_module_reads_back, an_instance_type_reads_back,
    what_is_written_reads_back,
};
use compose_writing::laws::what_is_known_is_written;
use std::alloc::Global;
use warg_values::Text;

/// The type of components with these imports and exports.
#[tactic(auto, using(crate::proofs::EntityLaws::component_written))]
fn component_type(
    alloc: Global,
    state: &mut TypeState,
    imports: &[(Text, Entity)],
    exports: &[(Text, Entity)],
) -> Result<ComponentType, EncodeError>
    requires imports { KeepsEntries (entries_of (named_entities imports.now)) }
    requires exports { KeepsEntries (entries_of (named_entities exports.now)) }
    requires possible { IsSome (write_component (entries_of (named_entities imports.now))
        (entries_of (named_entities exports.now)) (scopes state.old)) }
    ensures written { IfOk result (λ t. write_component (entries_of (named_entities imports.now))
        (entries_of (named_entities exports.now)) (scopes state.old) ≡ Some (scopes state.new, component_type_tree t)) }
    ensures form { IfOk result (λ t. AreDecls true (component_type_tree t)) }
    ensures too_large { (n : ℕ) → result ≡ Err (EncodeError.TooLarge n) → 2 ^ 32 ≤ n }
    ensures among { (n : ℕ) → result ≡ Err (EncodeError.TooLarge n)
        → IsWithin n closed_size (write_component (entries_of (named_entities imports.now))
        (entries_of (named_entities exports.now)) (scopes state.old)) }
{
    state.open(alloc, 2)?;
    write_entries(alloc, state, Side::Imports, imports)?;
    write_entries(alloc, state, Side::Exports, exports)?;
    let ty = state.close_component();
    Ok(ty)
}

/// Writes what a shape imports and exports as types.
///
/// The entities given to its calls mention nothing but what the state knows, or what they bring themselves, there or
/// earlier. After a refusal the state is spent.
#[derive(Debug, Drop)]
pub struct TypeEncoder<'a> {
    /// The shape that the entities are of.
    shape: &'a Shape,
}

impl<'a> TypeEncoder<'a> {
    /// An encoder of the entities of a shape.
    pub fn new(shape: &'a Shape) -> Self {
        TypeEncoder { shape }
    }

    /// The type of components with these imports and exports (`Binary.md`, `componenttype`), imports first. Their names
    /// are those of a shape: what the imports bring is one scope further out than what the component makes.
    ///
    /// `TooLarge` has a number of 2^32 or more, which is not above the largest length, count or index that would have
    /// to be written.
    pub fn component(
        &self,
        alloc: Global,
        state: &mut TypeState,
        imports: &[(Text, Entity)],
        exports: &[(Text, Entity)],
    ) -> Result<ComponentType, EncodeError>
        requires imports { KeepsEntries (entries_of (named_entities imports.now)) }
        requires exports { KeepsEntries (entries_of (named_entities exports.now)) }
        requires known { sides_known (knows (scopes state.old)) (entries_of (named_entities imports.now))
            (entries_of (named_entities exports.now)) ≡ true }
        ensures written { IfOk result (λ t. write_component (entries_of (named_entities imports.now))
            (entries_of (named_entities exports.now)) (scopes state.old)
            ≡ Some (scopes state.new, component_type_tree t)) }
        ensures form { IfOk result (λ t. AreDecls true (component_type_tree t)) }
        ensures possible { (x : List WrittenScope × Decls) × (write_component (entries_of (named_entities imports.now))
            (entries_of (named_entities exports.now)) (scopes state.old) ≡ Some x) }
        ensures reads_back { (mean : Meaning) (m : WrittenScope) (k : Known) → scopes state.old ≡ m ∷ []
            → Keeps mean m k → HasMeaning mean (spot_of m k)
            (IsComponent (entries_of (named_entities imports.now)) (entries_of (named_entities exports.now)))
            → IfOk result (λ t. IsNextType mean m k (scopes state.new) (tree.Component (component_type_tree t))
            description.Component
            (IsComponent (entries_of (named_entities imports.now)) (entries_of (named_entities exports.now)))) }
        ensures too_large { (n : ℕ) → result ≡ Err (EncodeError.TooLarge n) → 2 ^ 32 ≤ n }
        ensures among { (n : ℕ) (x : List WrittenScope × Decls) → result ≡ Err (EncodeError.TooLarge n)
            → write_component (entries_of (named_entities imports.now))
            (entries_of (named_entities exports.now)) (scopes state.old) ≡ Some x
            → n ≤ closed_size x }
    {
        what_is_known_is_written();
        a_component_type_reads_back();
        let ty = component_type(alloc, state, imports, exports)?;
        Ok(ty)
    }

    /// The type of an instance with these exports, which are called as in the scope in which the instance stands
    /// (`Binary.md`, `instancetype`).
    ///
    /// `TooLarge` has a number of 2^32 or more, which is not above the largest length, count or index that would have
    /// to be written.
    pub fn instance(
        &self,
        alloc: Global,
        state: &mut TypeState,
        exports: &[(Text, Entity)],
    ) -> Result<InstanceType, EncodeError>
        requires form { KeepsEntries (entries_of (named_entities exports.now)) }
        requires known { are_known (knows (scopes state.old)) (entries_of (named_entities exports.now)) ≡ true }
        ensures written { IfOk result (λ t. write_instance (entries_of (named_entities exports.now)) (scopes state.old)
            ≡ Some (scopes state.new, instance_type_tree t)) }
        ensures form { IfOk result (λ t. AreDecls false (instance_type_tree t)) }
        ensures possible { (x : List WrittenScope × Decls)
            × (write_instance (entries_of (named_entities exports.now)) (scopes state.old) ≡ Some x) }
        ensures reads_back { (mean : Meaning) (m : WrittenScope) (k : Known) → scopes state.old ≡ m ∷ []
            → Keeps mean m k → HasMeaning mean (spot_of m k) (IsInstance (entries_of (named_entities exports.now)))
            → IfOk result (λ t. IsNextType mean m k (scopes state.new) (tree.Instance (instance_type_tree t))
            description.Instance (IsInstance (entries_of (named_entities exports.now)))) }
        ensures too_large { (n : ℕ) → result ≡ Err (EncodeError.TooLarge n) → 2 ^ 32 ≤ n }
        ensures among { (n : ℕ) (x : List WrittenScope × Decls) → result ≡ Err (EncodeError.TooLarge n)
            → write_instance (entries_of (named_entities exports.now)) (scopes state.old) ≡ Some x
            → n ≤ closed_size x }
    {
        what_is_known_is_written();
        an_instance_type_reads_back();
        let ty = instance_type(alloc, state, 0, exports)?;
        Ok(ty)
    }

    /// The type of core modules like this one (`Binary.md`, `core:moduletype`).
    ///
    /// `TooLarge` has a number of 2^32 or more, which is not above the largest length, count or index that would have
    /// to be written.
    pub fn module(&self, alloc: Global, module: &ModuleShape) -> Result<ModuleType, EncodeError>
        requires { KeepsModule «module».now }
        ensures written { IfOk result (λ t. module_tree t ≡ write_module «module».now) }
        ensures form { IfOk result (λ t. AreModuleDecls (module_tree t)) }
        ensures reads_back { IfOk result (λ t. (scopes : List (List KnownCoreType))
            → core_type_of unbounded scopes (core.Module (module_tree t)) ≡ Ok (OfModules «module».now)) }
        ensures too_large { (n : ℕ) → result ≡ Err (EncodeError.TooLarge n)
            → IsTooLarge n (module_size (write_module «module».now)) }
    {
        a_module_reads_back();
        let ty = module_type(alloc, module)?;
        Ok(ty)
    }

    /// Writes what an import of a component with these imports and exports needs into the state, and gives its description
    /// (`Binary.md`, `externdesc`). Their names are as for `component`.
    ///
    /// `TooLarge` has a number of 2^32 or more, which is not above the largest length, count or index that would have
    /// to be written.
    #[tactic(auto, using(crate::proofs::EntityLaws::component_described, crate::proofs::EntityLaws::tree_component))]
    pub fn component_ref(
        &self,
        alloc: Global,
        state: &mut TypeState,
        imports: &[(Text, Entity)],
        exports: &[(Text, Entity)],
    ) -> Result<TypeRef, EncodeError>
        requires form { KeepsForm
            (IsComponent (entries_of (named_entities imports.now)) (entries_of (named_entities exports.now))) }
        requires known { is_known (knows (scopes state.old))
            (IsComponent (entries_of (named_entities imports.now)) (entries_of (named_entities exports.now))) ≡ true }
        ensures written { IfOk result (λ ty. write_entity
            (IsComponent (entries_of (named_entities imports.now)) (entries_of (named_entities exports.now)))
            (scopes state.old) ≡ Some (scopes state.new, ty)) }
        ensures possible { (x : List WrittenScope × TypeRef) × (write_entity
            (IsComponent (entries_of (named_entities imports.now)) (entries_of (named_entities exports.now)))
            (scopes state.old) ≡ Some x) }
        ensures reads_back { (mean : Meaning) (m : WrittenScope) (k : Known) → scopes state.old ≡ m ∷ []
            → Keeps mean m k → HasMeaning mean (spot_of m k)
            (IsComponent (entries_of (named_entities imports.now)) (entries_of (named_entities exports.now)))
            → IfOk result (λ ty. IsWritten mean m k (scopes state.new) ty
            (IsComponent (entries_of (named_entities imports.now)) (entries_of (named_entities exports.now)))) }
        ensures too_large { (n : ℕ) → result ≡ Err (EncodeError.TooLarge n) → 2 ^ 32 ≤ n }
        ensures among { (n : ℕ) (x : List WrittenScope × TypeRef) → result ≡ Err (EncodeError.TooLarge n)
            → write_entity
            (IsComponent (entries_of (named_entities imports.now)) (entries_of (named_entities exports.now)))
            (scopes state.old) ≡ Some x
            → n ≤ written_size x }
    {
        what_is_known_is_written();
        what_is_written_reads_back();
        let ty = component_type(alloc, state, imports, exports)?;
        let index = state.add_type(alloc, DefType::Component(ty))?;
        Ok(TypeRef::Component(index))
    }

    /// Writes what an import of this entity needs into the state, and gives its description (`Binary.md`,
    /// `externdesc`).
    ///
    /// `TooLarge` has a number of 2^32 or more, which is not above the largest length, count or index that would have
    /// to be written.
    pub fn entity(
        &self,
        alloc: Global,
        state: &mut TypeState,
        entity: &Entity,
    ) -> Result<TypeRef, EncodeError>
        requires form { KeepsForm (entity_tree entity.now) }
        requires known { is_known (knows (scopes state.old)) (entity_tree entity.now) ≡ true }
        ensures written { IfOk result (λ ty. write_entity (entity_tree entity.now) (scopes state.old)
            ≡ Some (scopes state.new, ty)) }
        ensures possible { (x : List WrittenScope × TypeRef)
            × (write_entity (entity_tree entity.now) (scopes state.old) ≡ Some x) }
        ensures reads_back { (mean : Meaning) (m : WrittenScope) (k : Known) → scopes state.old ≡ m ∷ []
            → Keeps mean m k → HasMeaning mean (spot_of m k) (entity_tree entity.now)
            → IfOk result (λ ty. IsWritten mean m k (scopes state.new) ty (entity_tree entity.now)) }
        ensures too_large { (n : ℕ) → result ≡ Err (EncodeError.TooLarge n) → 2 ^ 32 ≤ n }
        ensures among { (n : ℕ) (x : List WrittenScope × TypeRef) → result ≡ Err (EncodeError.TooLarge n)
            → write_entity (entity_tree entity.now) (scopes state.old) ≡ Some x
            → n ≤ written_size x }
    {
        what_is_known_is_written();
        what_is_written_reads_back();
        let ty = entity_ref(alloc, state, entity)?;
        Ok(ty)
    }
}
