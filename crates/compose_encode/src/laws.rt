//! What is known of compositions. Each law is the contract of a function that does nothing.

ghost use Rattle.compose_check.specs.Composition.{CompositionTree};
ghost use Rattle.compose_encode.specs.Whole.{AreApart, HaveComponentNames};

/// Where no two components of a composition have one name, they are imported under names that differ.
pub fn components_apart_have_own_names()
    ensures { (c : CompositionTree) → AreApart c.components → HaveComponentNames c }
{}
