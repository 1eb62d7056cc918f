//! What is known of the folders of registries. Each law is the contract of a function that does nothing.

ghost use Rattle.std.specs.Prelude.{◌≡◌, List, ℕ, true, false};
ghost use Rattle.warg_store.specs.Held.{Registry};
ghost use Rattle.warg_registry_files.specs.Paths.{Place, folder_name, folder_path, has_slash, is_named};

/// Where the name of the home registry's folder has no slash, no folder's name has one: each is right beside it,
/// whatever the registry's name is.
pub fn a_folder_is_beside_the_home()
    ensures { (own : List ℕ) (r : Registry) → has_slash own ≡ false → has_slash (folder_name own r) ≡ false }
{}

/// Two registries have two folders.
pub fn two_registries_have_two_folders()
    ensures { (place : Place) (a b : Registry) → is_named a ≡ true → is_named b ≡ true
        → folder_path place a ≡ folder_path place b → a ≡ b }
{}
