//! What is known of the files of contents. Each law is the contract of a function that does nothing.

ghost use Rattle.std.specs.Prelude.{◌≡◌, List, ℕ, Some, None, true};
ghost use Rattle.warg_base.specs.Files.{FileMap, file_at};
ghost use Rattle.warg_hash.specs.Hash.{IsDigest};
ghost use Rattle.warg_content_files.specs.ContentFiles.{content_path, contents_in};

/// Two digests have two paths, so no content stands in the file of another one.
pub fn a_path_is_of_one_content()
    ensures { (folder a b : List ℕ) → IsDigest a → IsDigest b → content_path folder a ≡ content_path folder b → a ≡ b }
{}

/// What is held for a digest is what its file has.
pub fn a_content_is_what_its_file_has()
    ensures { (folder digest : List ℕ) (files : FileMap) → IsDigest digest
        → contents_in folder files digest ≡ file_at files (content_path folder digest) }
{}
