//! Laws of index spaces by number: each is a function that does nothing, and is proved of all of them.

ghost use Rattle.std.specs.Prelude.{List};
ghost use Rattle.comp_scope.specs.Spaces.{Spaces};
ghost use Rattle.comp_space.specs.SpaceViews.{ShowsSpaces, SpaceIsThere};
ghost use Rattle.comp_space.specs.declared.space.Space.{Space};
ghost use Rattle.comp_table.specs.Trees.{Extends, PlainTree};

/// What a scope shows by a table, it shows by one that has grown from it.
pub fn a_growing_table_keeps_spaces()
    ensures { (old new : List PlainTree) → Extends old new → (space : Space) (s : Spaces)
        → ShowsSpaces old space s → ShowsSpaces new space s }
{}

/// Where a scope shows something, each of its numbers stands for something.
pub fn what_is_shown_is_there()
    ensures { (table : List PlainTree) (space : Space) (s : Spaces)
        → ShowsSpaces table space s → SpaceIsThere table space }
{}
