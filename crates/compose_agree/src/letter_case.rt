//! Names that differ in the case of letters alone.

ghost use Rattle.std.specs.Prelude.{◌≡◌, ◌+◌, map, slice_get, IfOk, IfSome, IfNone, MatchOption, List, ℕ};
ghost use Rattle.std.specs.Str.{str_to_ascii_lowercase};
ghost use Rattle.compose_agree.specs.LetterCase.{AreApart, IsFirstClash};
ghost use Rattle.compose_agree.specs.Lowered.{FindsLowered, IsLowered, NoneLowered};

use comp_entity::Entity;
use std::alloc::Global;
use std::collections::BTreeMap;
use warg_values::{Memory, Text};

/// What has a name.
pub trait Named {
    /// Its name.
    ghost name: { Self → List ℕ };

    /// Its name.
    fn name(&self) -> &Text
        ensures { result.now ≡ name self.now };
}

impl Named for Text {
    ghost name = { λ n. n };

    fn name(&self) -> &Text {
        self
    }
}

impl Named for (Text, Entity) {
    ghost name = { λ n. n.0 };

    fn name(&self) -> &Text {
        &self.0
    }
}

/// Two names, by their numbers, that differ in the case of ASCII letters alone, or not at all.
#[derive(Clone, Copy, Debug, PartialEq, Eq)]
pub struct CaseClash {
    /// The number of the first one.
    pub earlier: usize,
    /// The number of the other.
    pub later: usize,
}

/// Notes where a name stands, by what it is in lower case. If an earlier one is noted there, that is the answer.
fn note(
    alloc: Global,
    places: &mut BTreeMap<Text, usize>,
    name: &Text,
    place: usize,
) -> Result<Option<usize>, Memory>
    ensures found { IfOk result (λ earlier. (names : List (List ℕ)) → FindsLowered places.old names place
        → IfSome earlier (λ p. IsLowered (str_to_ascii_lowercase name.now) names place p)) }
    ensures noted { IfOk result (λ earlier. (names : List (List ℕ)) → FindsLowered places.old names place
        → slice_get names place ≡ Some name.now → IfNone earlier (FindsLowered places.new names (place + 1)
        × NoneLowered (str_to_ascii_lowercase name.now) names place)) }
{
    let lower = name.to_ascii_lowercase(alloc)?;
    match places.get(&lower) {
        Some(earlier) => Ok(Some(*earlier)),
        None => {
            places.insert(lower, place)?;
            Ok(None)
        }
    }
}

/// The first name that differs from an earlier one in the case of ASCII letters alone, or not at all, with the first one
/// that it is like so. `None` where there is none.
pub fn case_clash<N: Named>(alloc: Global, named: &[N]) -> Result<Option<CaseClash>, Memory>
    ensures { IfOk result (λ clash. MatchOption clash (AreApart (map (λ n. N.name n) named.now))
        (IsFirstClash (map (λ n. N.name n) named.now))) }
{
    let mut places = BTreeMap::new(alloc);
    for later in 0..named.len() {
        if let Some(earlier) = note(alloc, &mut places, named[later].name(), later)? {
            return Ok(Some(CaseClash { earlier, later }));
        }
    }
    Ok(None)
}
