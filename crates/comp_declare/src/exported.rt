//! What instances export under names.

ghost use Rattle.std.specs.Prelude.{◌≡◌, ◌<◌, ℕ, Bool, List, None, Some, bytes_eq, if◌then◌else◌, length, map};
ghost use Rattle.comp_declare.specs.Exported.{ShowsExport};
ghost use Rattle.comp_entity.specs.Entity.{Entries, EntityTree};
ghost use Rattle.comp_entity.specs.Fits.{under};
ghost use Rattle.comp_table.specs.declared.head.Head.TheVariants as Head;
ghost use Rattle.comp_table.specs.Plain.{around, plain_entity, plain_entries};
ghost use Rattle.comp_table.specs.Trees.{IsBelow, Stands, tree_at, trees_of};

use comp_space::Standing;
use comp_table::{Head, TypeTable};
use warg_values::Text;

/// The entity that an export is, with its naming bit, where the export has this name.
fn entity_under(table: &TypeTable, export: usize, name: &Text) -> Option<Standing>
    requires { export < length table.now }
    ensures { (n : List ℕ) (e : EntityTree) (mark : Bool)
        → Stands table.now export (around (Head.Entry mark n) (plain_entity e))
        → ShowsExport table.now result (if bytes_eq name.now n then Some (e, mark) else None) }
{
    let Head::Entry(mark, label) = table.head(export) else {
        return None;
    };
    if *name != *label {
        return None;
    }
    let entity = table.parts(export).first()?;
    Some(Standing {
        number: *entity,
        named: *mark,
    })
}

/// The first entity under a name among exports, with its naming bit.
pub fn export_under(table: &TypeTable, exports: &[usize], name: &Text) -> Option<Standing>
    requires { IsBelow (length table.now) exports.now }
    ensures { (es : Entries) → trees_of (map (tree_at table.now) exports.now) ≡ plain_entries es
        → ShowsExport table.now result (under name.now es) }
{
    for export in exports {
        if let Some(found) = entity_under(table, *export, name) {
            return Some(found);
        }
    }
    None
}
