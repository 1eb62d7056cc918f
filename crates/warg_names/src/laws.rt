//! What is known of import names and of the texts that are written. Each law is the contract of a function that does
//! nothing; as lemmas they stand in `specs/ImportLaws`, `specs/ReadLaws`, `specs/TextLaws`,
//! `specs/MarkLaws` and `specs/SameLaws`.

ghost use Rattle.std.specs.Prelude.{◌≡◌, ◌↔◌, ◌++◌, ℕ, List, Some, codes, true};
ghost use Rattle.semver.specs.Grammar.{IsValid};
ghost use Rattle.semver.specs.Parse.{Parts};
ghost use Rattle.warg_hash.specs.Hash.{IsDigest};
ghost use Rattle.warg_hash.specs.Name.{IsPackageName};
ghost use Rattle.warg_names.specs.Grammar.{Names, Range, IsRange, range_requirement};
ghost use Rattle.warg_names.specs.Import.{ImportTree, import_of, dependency, locked};
ghost use Rattle.warg_names.specs.Mark.{digest_marked, mark_text};
ghost use Rattle.warg_names.specs.Same.{same_import};
ghost use Rattle.warg_names.specs.Texts.{locked_text, versioned_text};

/// A text is read exactly where one of the forms gives it, as what that form asks for; so it asks for one import at most.
pub fn a_name_asks_for_one_import()
    ensures exact { (text : List ℕ) (tree : ImportTree) → (import_of text ≡ Some tree) ↔ Names text tree }
    ensures one { (text : List ℕ) (a b : ImportTree) → Names text a → Names text b → a ≡ b }
{}

/// What a locked package is written as reads back as that package, version and digest, exactly.
pub fn a_locked_package_reads_back()
    ensures { (name : List ℕ) (version : Parts) (digest : List ℕ) → IsPackageName name → IsValid version → IsDigest digest
        → import_of (locked_text name version digest)
        ≡ Some (locked name (Some version) (Some (mark_text digest))) }
{}

/// What a package with a requirement is written as, inside of `unlocked-dep=<>`, reads back with that requirement.
pub fn a_versioned_package_reads_back()
    ensures { (name : List ℕ) (range : Range) → IsPackageName name → IsRange range
        → import_of (codes "unlocked-dep=<" ++ (versioned_text name (range_requirement range) ++ codes ">"))
        ≡ Some (dependency (range_requirement range) name) }
{}

/// A mark names a digest exactly where it is the digest's mark.
pub fn a_mark_names_one_digest()
    ensures { (mark digest : List ℕ) → (digest_marked mark ≡ Some digest) ↔ (IsDigest digest × (mark ≡ mark_text digest)) }
{}

/// `is_same` is true exactly of equal imports.
pub fn the_same_imports_are_equal()
    ensures { (a b : ImportTree) → (same_import a b ≡ true) ↔ (a ≡ b) }
{}
