//! Readers of canonical definitions.

ghost use Rattle.std.specs.Prelude.{Result, Ok};
ghost use Rattle.comp_format.specs.declared.types.Canon.{Canon as canonical};
ghost use Rattle.comp_format.specs.declared.types.CanonOption.{CanonOption as canonical_option};
ghost use Rattle.comp_format.specs.Canons.{option_at, lift_at, lower_at, canon_at};
ghost use Rattle.comp_reader.specs.Refusal.{Gives};

use crate::read::{Field, byte_of, mark_of, number_of, vector_of};
use crate::refusal::Refusal;
use comp_format::{Canon, CanonOption};
use std::alloc::Global;
use warg_values::Sequence;

impl Field for CanonOption {
    ghost Tree = { canonical_option };

    ghost tree = { λ o. o };

    ghost tree_at = { λ scopes. option_at };

    #[tactic(auto, unfolding(comp_format::specs::Canons::option_at))]
    fn read(_alloc: Global, _scopes: u8, bytes: &[u8]) -> Result<(Self, &[u8]), Refusal> {
        let (byte, rest) = byte_of(bytes)?;
        if byte < 3 {
            return Ok((CanonOption::Encoding(byte), rest));
        }
        match byte {
            3 => {
                let (index, rest) = number_of(rest)?;
                Ok((CanonOption::Memory(index), rest))
            }
            4 => {
                let (index, rest) = number_of(rest)?;
                Ok((CanonOption::Realloc(index), rest))
            }
            5 => {
                let (index, rest) = number_of(rest)?;
                Ok((CanonOption::PostReturn(index), rest))
            }
            _ => {
                if byte < 8 {
                    return Err(Refusal::NotCarried(bytes.len()));
                }
                Err(Refusal::Form(bytes.len()))
            }
        }
    }
}

/// A function made from a core function, behind its byte.
#[tactic(auto, unfolding(comp_format::specs::Canons::lift_at))]
fn lift_of(alloc: Global, bytes: &[u8]) -> Result<(Canon, &[u8]), Refusal>
    ensures { Gives (λ x. (x.0, x.1.now)) result (lift_at bytes.now) }
{
    let (func, rest) = number_of(mark_of(0, bytes)?)?;
    let (options, rest) = vector_of::<CanonOption>(alloc, 0, rest)?;
    let (ty, rest) = number_of(rest)?;
    let options = Sequence::from_vec(options);
    Ok((Canon::Lift { func, options, ty }, rest))
}

/// A core function made from a function, behind its byte.
#[tactic(auto, unfolding(comp_format::specs::Canons::lower_at))]
fn lower_of(alloc: Global, bytes: &[u8]) -> Result<(Canon, &[u8]), Refusal>
    ensures { Gives (λ x. (x.0, x.1.now)) result (lower_at bytes.now) }
{
    let (func, rest) = number_of(mark_of(0, bytes)?)?;
    let (options, rest) = vector_of::<CanonOption>(alloc, 0, rest)?;
    let options = Sequence::from_vec(options);
    Ok((Canon::Lower { func, options }, rest))
}

impl Field for Canon {
    ghost Tree = { canonical };

    ghost tree = { λ c. c };

    ghost tree_at = { λ scopes. canon_at };

    #[tactic(auto, unfolding(comp_format::specs::Canons::canon_at))]
    fn read(alloc: Global, _scopes: u8, bytes: &[u8]) -> Result<(Self, &[u8]), Refusal> {
        let (byte, rest) = byte_of(bytes)?;
        match byte {
            0 => lift_of(alloc, rest),
            1 => lower_of(alloc, rest),
            2 => {
                let (ty, rest) = number_of(rest)?;
                Ok((Canon::ResourceNew(ty), rest))
            }
            3 => {
                let (ty, rest) = number_of(rest)?;
                Ok((Canon::ResourceDrop(ty), rest))
            }
            4 => {
                let (ty, rest) = number_of(rest)?;
                Ok((Canon::ResourceRep(ty), rest))
            }
            _ => Err(Refusal::NotCarried(bytes.len())),
        }
    }
}
