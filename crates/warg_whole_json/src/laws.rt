//! What is known of the fronts of JSON texts (RFC 8259). Each law is the contract of a function that does nothing.

ghost use Rattle.std.specs.Prelude.{◌≡◌, ◌<◌, ℕ, List, Some, length, take};
ghost use Rattle.json.specs.Json.{Members, object};
ghost use Rattle.json.specs.Layout.{pretty};
ghost use Rattle.json.specs.Lex.{tokens};
ghost use Rattle.json.specs.Print.{print};
ghost use Rattle.json.specs.Tree.{HasNumbers, json_tokens};
ghost use Rattle.serde_json.specs.Data.{Members as DataMembers, object as data_object};
ghost use Rattle.serde_json.specs.Read.{read};
ghost use Rattle.serde_json.specs.Written.{IsInOrder};

/// A proper front of the text of an object is the text of no object, whether it is written with no space or in lines.
pub fn a_front_is_no_object()
    ensures compact { (whole front : Members) (n : ℕ) → HasNumbers (object whole)
        → n < length (print (json_tokens (object whole)))
        → tokens (take n (print (json_tokens (object whole)))) ≡ json_tokens (object front) → ⊥ }
    ensures in_lines { (whole front : Members) (n : ℕ) → HasNumbers (object whole)
        → n < length (pretty (json_tokens (object whole)))
        → tokens (take n (pretty (json_tokens (object whole)))) ≡ json_tokens (object front) → ⊥ }
{}

/// A proper front of the text in lines that is written of an object is read as no object.
pub fn a_front_is_read_as_no_object()
    ensures { (text : List ℕ) (whole front : DataMembers) (n : ℕ) → text ≡ pretty (tokens text)
        → IsInOrder text (data_object whole) → n < length text
        → read (take n text) ≡ Some (data_object front) → ⊥ }
{}
