//! What is known of files of names. Each law is the contract of a function that does nothing.

ghost use Rattle.std.specs.Prelude.{◌≡◌, ◌<◌, ℕ, None, Some, true, bytes_eq, length, take};
ghost use Rattle.std.specs.List.{IsDistinct};
ghost use Rattle.std.specs.Map.{keys_of};
ghost use Rattle.std.specs.Str.{is_utf8};
ghost use Rattle.warg_store.specs.Namespaces.{Names};
ghost use Rattle.warg_namespace_files.specs.NamespaceFile.{names_in, names_text};

use warg_whole_json::laws::a_front_is_no_object;

/// Names that are written read back as they were, in their order, and no proper front of what is written can be read.
pub fn written_names_read_back()
    ensures whole { (names : Names) → IsDistinct bytes_eq (keys_of names) → is_utf8 (names_text names) ≡ true
        → names_in (names_text names) ≡ Some names }
    ensures front { (names : Names) (n : ℕ) → n < length (names_text names)
        → names_in (take n (names_text names)) ≡ None }
{
    a_front_is_no_object();
}
