//! Laws over definitions alone.

ghost use Rattle.std.specs.Prelude.{◌≡◌, ◌↔◌, ◌<◌, ◌^◌, ℕ, List, length, true, IsUtf8};
ghost use Rattle.warg_record.specs.Key.{IsKeyText, is_key_text};
ghost use Rattle.warg_record.specs.Record.{Kind, PlainRecord};
ghost use Rattle.warg_record.specs.Envelope.{IsMessageOf, IsEnvelopeOf, Signed};

/// Contents are the message of one record at most. So what is written of a record of the form is read as that record
/// again.
pub fn one_record()
    ensures { (kind : Kind) (contents : List ℕ) (r s : PlainRecord)
        → length contents < 2 ^ 64
        → IsMessageOf kind contents r
        → IsMessageOf kind contents s
        → r ≡ s }
{}

/// Contents, the text of a key's id and that of a signature are read as one envelope at most.
pub fn one_envelope()
    ensures { (kind : Kind) (contents key_id signature : List ℕ) (s t : Signed)
        → length contents < 2 ^ 64
        → IsEnvelopeOf kind contents key_id signature s
        → IsEnvelopeOf kind contents key_id signature t
        → s ≡ t }
{}

/// A text is that of a key, and of a signature, exactly where it passes the test.
pub fn key_texts_are_tested()
    ensures { (text : List ℕ) → IsUtf8 text → (is_key_text text ≡ true) ↔ IsKeyText text }
{}
