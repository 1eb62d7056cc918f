//! Laws of entities: each is a function that does nothing, and is proved of all trees.
//!
//! The trees, and changes of the names in them, are those of `specs/Entity` and `specs/Names`.

ghost use Rattle.std.specs.Prelude.{◌≡◌, ℕ, Bool};
ghost use Rattle.comp_entity.specs.Entity.{Name, EntityTree};
ghost use Rattle.comp_entity.specs.Fits.{entities_equal, fits_with};
ghost use Rattle.comp_entity.specs.NameLaws.{IsTwice};
ghost use Rattle.comp_entity.specs.Names.{Change, bare, entity_by};

/// Two changes of names, one after the other, are one change.
pub fn two_changes_are_one()
    ensures { (c b a : Change) → IsTwice c b a
        → (depth : ℕ) (e : EntityTree) → entity_by c depth (entity_by b depth e) ≡ entity_by a depth e }
{}

/// Where names are changed one to one, the same fits that fitted before, and no other.
pub fn a_change_keeps_fit()
    ensures { (c : Change) (before after : Name → Name → Bool)
        → ((depth : ℕ) (m n : Name) → after (c.resource depth m) (c.resource depth n) ≡ before m n)
        → (depth : ℕ) (given asked : EntityTree)
        → fits_with after (entity_by c depth given) (entity_by c depth asked) ≡ fits_with before given asked }
{}

/// Where names are changed one to one, the same is equal that was before, and no other.
pub fn a_change_keeps_equality()
    ensures { (c : Change) (before after : Name → Name → Bool)
        → ((depth : ℕ) (m n : Name) → after (c.resource depth m) (c.resource depth n) ≡ before m n)
        → (depth : ℕ) (a b : EntityTree)
        → entities_equal after (entity_by c depth a) (entity_by c depth b) ≡ entities_equal before a b }
{}

/// Which places named types, and which entries have the naming bit, tells nothing of fit.
pub fn bare_entities_fit_alike()
    ensures { (same : Name → Name → Bool) (given asked : EntityTree) → fits_with same (bare given) (bare asked)
        ≡ fits_with same given asked }
{}
