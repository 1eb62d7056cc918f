//! Callers of `yaml_small`.

ghost use Rattle.std.specs.Prelude.{◌≡◌, Err, IfSome, OnErr};
ghost use Rattle.yaml_small.specs.declared.schema.Resolved.TheVariants.{Integer};
ghost use Rattle.yaml_small.specs.Schema.{resolved};
ghost use Rattle.yaml_small.specs.Answers.{state_of};
ghost use Rattle.yaml_small.specs.Stream.{top_of};
ghost use Rattle.yaml_small.specs.Uncarried.{Uncarried};

use std::alloc::Global;
use warg_values::Text;
use yaml_small::laws::not_carried_is_a_listed_form;
use yaml_small::{Event, Marker, Parser, Resolved, ScanError, resolve};

/// The number that a scalar's text stands for.
pub fn number_of(text: &str) -> Option<i64>
    ensures { IfSome result (λ number. resolved text.now ≡ Integer number) }
{
    match resolve(text) {
        Resolved::Integer(number) => Some(number),
        _ => None,
    }
}

/// Takes the next event, and gives its text where it is a scalar. A refused call leaves the parser where it was.
pub fn take_scalar(alloc: Global, parser: &mut Parser<'_>) -> Result<Option<Text>, ScanError>
    ensures { OnErr result (state_of parser.new ≡ state_of parser.old) }
{
    let (event, _) = parser.next_token(alloc)?;
    match event {
        Event::Scalar(text, _) => Ok(Some(text)),
        _ => Ok(None),
    }
}

/// Takes the next event. Where it answers that a form is not supported, one of the listed forms stands where the parser
/// stands.
pub fn next_or_form(alloc: Global, parser: &mut Parser<'_>) -> Result<(Event, Marker), ScanError>
    ensures { (mark : Marker) → result ≡ Err (ScanError.NotCarried mark)
        → Uncarried (state_of parser.old).mode (top_of (state_of parser.old).frames) (state_of parser.old).at }
{
    not_carried_is_a_listed_form();
    parser.next_token(alloc)
}
