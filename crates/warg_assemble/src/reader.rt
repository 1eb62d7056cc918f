//! Who reads contents.

use std::alloc::Global;
use std::fmt;
use warg_plan::Content;

/// Reads contents as components: a session's contents are read so.
pub trait ContentReader: Drop {
    ghost use Rattle.std.specs.Prelude.{◌≡◌, ℕ, List, IfOk, IfErr};
    ghost use Rattle.warg_plan.specs.View.{content_view};
    ghost use Rattle.warg_plan.specs.Walk.{Content as Seen};

    /// Why bytes are not read.
    type Refusal: fmt::Debug + fmt::Display + Drop;

    /// Its bytes are a component with these names of imports and exports.
    ghost Reads: { Seen → Type 0 };

    /// For this reason bytes are not read. Want of memory says nothing.
    ghost Refuses: { List ℕ → Self.Refusal → Type 0 };

    /// The content of these bytes.
    fn read_content(&self, alloc: Global, bytes: Vec<u8>) -> Result<Content, Self::Refusal>
        ensures bytes { IfOk result (λ content. content.bytes.items ≡ bytes.items) }
        ensures read { IfOk result (λ content. Reads (content_view content)) }
        ensures refused { IfErr result (λ e. Refuses bytes.items e) };
}
