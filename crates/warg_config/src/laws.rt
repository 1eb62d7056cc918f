//! What is known of paths. Each law is the contract of a function that does nothing.

ghost use Rattle.std.specs.Prelude.{◌≡◌, ℕ, List};
ghost use Rattle.std.specs.Path.{path_join};
ghost use Rattle.warg_config.specs.Paths.{place_of, relative_to};

/// A path that is written relative to a folder, and joined with it again, leads to the same place.
pub fn a_relative_path_leads_to_its_place()
    ensures { (folder path : List ℕ)
        → place_of (path_join folder (relative_to folder path)) ≡ place_of (path_join folder path) }
{}
