//! Scopes that are open, with the naming bits of what is named in them.

ghost use Rattle.std.specs.Prelude.{◌≡◌, ◌∷◌, [], IfOk, true};
ghost use Rattle.comp_entity.specs.Entity.{Name};
ghost use Rattle.compose_naming.specs.Bits.{bit_in, closed, noted, opened};
ghost use Rattle.compose_naming.specs.Scopes.{scope_of, scopes_in, where_passed};
ghost use Rattle.compose_naming.specs.Settled.{name_in};

use compose_left::Thing;
use std::alloc::Global;
use std::collections::BTreeMap;
use warg_values::Memory;

/// A scope that is open.
#[derive(Drop)]
pub struct Open {
    /// How many scopes of names it counts.
    pub width: usize,
    /// Whether the types that are named in it have the naming bit.
    pub bits: BTreeMap<Thing, bool>,
}

impl Open {
    /// A scope at its begin.
    pub fn new(alloc: Global, width: usize) -> Self
        ensures { scope_of result ≡ opened width }
    {
        Open {
            width,
            bits: BTreeMap::new(alloc),
        }
    }
}

/// Whether a type that a place named has the naming bit, where one did. The innermost scope is the last.
pub fn bit_in(scopes: &[Open], thing: Thing) -> Option<bool>
    requires { thing.is_type ≡ true }
    ensures { result ≡ bit_in (scopes_in scopes.now) (name_in thing) }
{
    match scopes {
        [] => None,
        [around @ .., scope] => match thing.out.checked_sub(scope.width) {
            None => scope.bits.get(&thing).copied(),
            Some(out) => bit_in(
                around,
                Thing {
                    is_type: true,
                    out,
                    number: thing.number,
                },
            ),
        },
    }
}

/// Opens a scope within the others.
pub fn enter(alloc: Global, scopes: &mut Vec<Open>, width: usize) -> Result<(), Memory>
    ensures { IfOk result (λ done. scopes_in scopes.new.items ≡ opened width ∷ scopes_in scopes.old.items) }
{
    scopes.push(Open::new(alloc, width))?;
    Ok(())
}

/// Closes the innermost scope. `false` where none is open.
pub fn leave(scopes: &mut Vec<Open>) -> bool
    ensures { closed (scopes_in scopes.old.items) ≡ where_passed result (scopes_in scopes.new.items) }
{
    scopes.pop().is_some()
}

/// Notes whether a type that is new in the innermost scope has the bit. `false` where it is not of that scope.
pub fn note(scopes: &mut Vec<Open>, thing: Thing, bit: bool) -> Result<bool, Memory>
    requires { thing.is_type ≡ true }
    ensures { IfOk result (λ passes. noted (name_in thing) bit (scopes_in scopes.old.items)
        ≡ where_passed passes (scopes_in scopes.new.items)) }
{
    let Some(mut scope) = scopes.pop() else {
        return Ok(false);
    };
    if thing.out >= scope.width {
        return Ok(false);
    }
    scope.bits.insert(thing, bit)?;
    scopes.push(scope)?;
    Ok(true)
}
