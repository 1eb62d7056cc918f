//! Laws over definitions alone.

ghost use Rattle.std.specs.Prelude.{◌≡◌, ℕ};
ghost use Rattle.comp_entity.specs.Entity.{EntityTree};
ghost use Rattle.comp_entity.specs.Names.{in_entity};
ghost use Rattle.comp_mention.specs.Mentions.{tree_mentions};
ghost use Rattle.comp_table.specs.Plain.{plain_entity};

/// The tree of heads of an entity mentions what the entity does, in the same order.
pub fn trees_mention_as_entities()
    ensures { (depth : ℕ) (e : EntityTree) → tree_mentions depth (plain_entity e) ≡ in_entity depth e }
{}
