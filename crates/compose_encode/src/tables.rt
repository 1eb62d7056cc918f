//! What is looked up while instances are written.

ghost use Rattle.std.specs.Prelude.{◌≡◌, ◌<◌, ◌≤◌, ◌^◌, ℕ, Bool, length, slice_index, IfOk, Err};
ghost use Rattle.comp_format.specs.declared.error.EncodeError.TheVariants as encode_error;
ghost use Rattle.compose_check.specs.Composition.{composition_tree};
ghost use Rattle.compose_encode.specs.Held.{Items};
ghost use Rattle.compose_encode.specs.Looked.{AreTables};
ghost use Rattle.compose_image.specs.Instances.{component_index};

use comp_format::EncodeError;
use compose_check::Composition;
use compose_left::{Input, Wire};
use std::collections::BTreeMap;
use warg_values::Text;

/// What is looked up while instances are written.
#[derive(Drop)]
pub struct Tables<'a> {
    /// The composition.
    pub composition: &'a Composition<'a>,
    /// The wires into each instance.
    pub wires: BTreeMap<usize, Vec<Wire>>,
    /// The wire into each import.
    pub inputs: BTreeMap<Input, Wire>,
    /// The index of the first import of each name.
    pub names: BTreeMap<Text, u32>,
    /// The index of the first component of which an instance is made.
    pub first: u32,
    /// For the number of each component how many of these stand in front of it.
    pub ranks: Vec<usize>,
}

/// The index of the component of an instance. `TooLarge` has that index, where it is above 2^32 - 1.
pub fn component_index(tables: &Tables<'_>, instance: usize) -> Result<u32, EncodeError>
    requires there { instance < length tables.now.composition.now.instances.items }
    requires small { (n : ℕ) → slice_index tables.now.ranks.items n < 2 ^ 63 }
    ensures index { (define : Bool) (imports : Items) → AreTables tables.now define imports → IfOk result (λ i.
        i ≡ component_index (composition_tree tables.now.composition.now) define imports instance) }
    ensures too_large { (define : Bool) (imports : Items) (n : ℕ) → AreTables tables.now define imports
        → result ≡ Err (encode_error.TooLarge n)
        → (2 ^ 32 ≤ n) × (n ≡ component_index (composition_tree tables.now.composition.now) define imports instance) }
{
    let number = tables.composition.instances[instance];
    let rank = tables.ranks.get(number).copied().unwrap_or(0);
    let index = tables.first as u64 + rank as u64;
    match u32::try_from(index) {
        Ok(index) => Ok(index),
        Err(_) => Err(EncodeError::TooLarge(index)),
    }
}
