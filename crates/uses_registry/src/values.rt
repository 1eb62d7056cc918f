//! A caller of `warg_values`.

ghost use Rattle.std.specs.Prelude.{◌≡◌, ◌∷◌, [], IfOk};
ghost use Rattle.std.specs.Str.{str_to_ascii_lowercase};

use std::alloc::Global;
use warg_values::{Memory, Sequence, Text};

/// A text and its lower case, in this order.
pub fn both_cases(alloc: Global, text: &str) -> Result<Sequence<Text>, Memory>
    ensures { IfOk result (λ both. both ≡ text.now ∷ str_to_ascii_lowercase text.now ∷ []) }
{
    let text = Text::copy_of(alloc, text)?;
    let lower = text.to_ascii_lowercase(alloc)?;
    let mut both = Sequence::new(alloc);
    both.push(text)?;
    both.push(lower)?;
    Ok(both)
}
