//! Laws of origins: each is a function that does nothing, and is proved of all instances and wires.
//!
//! Origins, and the numbers for them, are those of `specs/Origins`.

ghost use Rattle.std.specs.Prelude.{◌≡◌, ℕ};
ghost use Rattle.comp_entity.specs.Names.{changing};
ghost use Rattle.compose_left.specs.Numbers.{AreOrigins, HasNumber, OriginList};
ghost use Rattle.compose_left.specs.Origins.{follow, import_at, import_of, number_in, of_resource, of_type, origin, step_from};
ghost use Rattle.compose_left.specs.Renaming.{placed_resource, placed_type};
ghost use Rattle.compose_left.specs.Wiring.{HasNoCircle, Wiring};
ghost use Rattle.compose_left.specs.declared.known.Origins.{Origins};
ghost use Rattle.compose_left.specs.declared.origin.Held.{Held};
ghost use Rattle.compose_left.specs.declared.origin.Origin.{Origin};

/// Where wires have no circle, a thing that is wired has the origin of what it is one wire on.
pub fn origins_pass_along_wires()
    ensures { (w : Wiring) → HasNoCircle w → (h : Held) → origin w h ≡ follow (origin w) (step_from w h) }
{}

/// No two origins have one number: origins that instances below a count make, or that are in a table.
pub fn no_two_origins_have_one_number()
    ensures { (instances : ℕ) (table : OriginList) (a b : Origin) → HasNumber instances table a
        → HasNumber instances table b → number_in instances table a ≡ number_in instances table b → a ≡ b }
{}

/// What `Origins` call the things of an instance, one by one, is what they are called in a placed entity.
pub fn origins_call_things_as_placed()
    ensures { (o : Origins) (w : Wiring) (at : ℕ) → AreOrigins o w → HasNoCircle w
        → changing (placed_resource o at) (placed_type o at) ≡ changing (of_resource w at) (of_type w at) }
{}

/// The number of an origin tells the left import of which it is.
pub fn numbers_tell_left_imports()
    ensures { (instances : ℕ) (table : OriginList) (o : Origin) → HasNumber instances table o
        → import_at instances table (number_in instances table o) ≡ import_of o }
{}
