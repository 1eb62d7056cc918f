//! Laws over definitions alone, for those who make several calls of one store.

ghost use Rattle.std.specs.Prelude.{◌≡◌, Bool, Option};
ghost use Rattle.warg_exchange.specs.declared.checkpoint.SignedCheckpoint.{SignedCheckpoint as Signed};
ghost use Rattle.warg_publish.specs.Publish.{PlainPublishInfo};
ghost use Rattle.warg_store.specs.Entry.{Entry, Whole};
ghost use Rattle.warg_store.specs.Held.{Held, Info, NamedInfo, Package, Registry, SameHeld, Tells, after_reset, entry_named, with_checkpoint, with_operator, with_package, with_publish};

/// A store that tells some entries tells equal ones too, and equal entries are changed alike.
pub fn telling_goes_on()
    ensures tells { (told : Option Held) (held other : Held) → SameHeld held other → Tells told held
        → Tells told other }
    ensures checkpoint { (held other : Held) (r : Registry) (entry : Entry Signed) → SameHeld held other
        → SameHeld (with_checkpoint held r entry) (with_checkpoint other r entry) }
    ensures operator { (held other : Held) (r : Registry) (entry : Entry Info) → SameHeld held other
        → SameHeld (with_operator held r entry) (with_operator other r entry) }
    ensures package { (held other : Held) (p : Package) (entry : Entry NamedInfo) → SameHeld held other
        → SameHeld (with_package held p entry) (with_package other p entry) }
    ensures publish { (held other : Held) (entry : Entry PlainPublishInfo) → SameHeld held other
        → SameHeld (with_publish held entry) (with_publish other entry) }
    ensures reset { (all : Bool) (held other : Held) → SameHeld held other
        → SameHeld (after_reset all held) (after_reset all other) }
{}

/// An entry that was changed is the one under its key, and what is kept of a package is found by its name.
pub fn changed_entry_stands()
    ensures checkpoint { (held : Held) (r : Registry) (entry : Entry Signed)
        → (with_checkpoint held r entry).checkpoints r ≡ entry }
    ensures operator { (held : Held) (r : Registry) (entry : Entry Info)
        → (with_operator held r entry).operators r ≡ entry }
    ensures package { (held : Held) (p : Package) (entry : Entry NamedInfo)
        → (with_package held p entry).packages p ≡ entry }
    ensures publish { (held : Held) (entry : Entry PlainPublishInfo) → (with_publish held entry).publish ≡ entry }
    ensures named { (kept : NamedInfo) → entry_named kept.name (Whole kept) ≡ Whole kept }
{}
