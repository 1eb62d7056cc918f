//! Laws of component bytes: each is a function that does nothing, and is proved of all bytes.
//!
//! Bytes are the written form of items where they stand in the relation `Reads`; `component_at` is the reading as a
//! function, in which at most so many scopes are open at one place.

ghost use Rattle.std.specs.Prelude.{◌≡◌, ◌≤◌, ◌⊎◌, ℕ, List, Ok, Err};
ghost use Rattle.comp_format.specs.Fault.{TooDeep};
ghost use Rattle.comp_format.specs.Items.{ItemTree};
ghost use Rattle.comp_format.specs.Sections.{Sections, ComponentForm, Reads, component_at};

/// No bytes are the written form of two lists of items.
pub fn one_reading()
    ensures { (bytes : List ℕ) (a b : List ItemTree) → Reads bytes a → Reads bytes b → a ≡ b }
{}

/// What is read as a component is one.
pub fn what_is_read_is_a_component()
    ensures { (scopes : ℕ) (bytes : List ℕ) (ss : Sections) → component_at scopes bytes ≡ Ok ss
        → ComponentForm ss bytes }
{}

/// Each component is read as its sections, but where it has more open scopes than are followed.
pub fn each_component_is_read()
    ensures { (ss : Sections) (scopes : ℕ) (bytes : List ℕ) → ComponentForm ss bytes
        → (component_at scopes bytes ≡ Err TooDeep) ⊎ (component_at scopes bytes ≡ Ok ss) }
{}

/// What is read, and each fault but that too many scopes are open, is the same where more scopes are followed.
pub fn more_scopes_read_alike()
    ensures { (scopes more : ℕ) → scopes ≤ more
        → (bytes : List ℕ)
        → (component_at scopes bytes ≡ Err TooDeep) ⊎ (component_at scopes bytes ≡ component_at more bytes) }
{}
