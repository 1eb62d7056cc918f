//! Laws over definitions alone.

ghost use Rattle.std.specs.Prelude.{◌≡◌, ◌++◌, ◌∷◌, [], ◌↔◌, ℕ, List, Option, None, IfSome, map};
ghost use Rattle.std.specs.List.{All};
ghost use Rattle.semver.specs.Grammar.{IsValid};
ghost use Rattle.semver.specs.Parse.{Parts, Held};
ghost use Rattle.warg_hash.specs.Hash.{IsDigest};
ghost use Rattle.warg_record.specs.Record.{Kind};
ghost use Rattle.warg_log.specs.Choice.{IsChosen, choice};
ghost use Rattle.warg_log.specs.History.{releases_of};
ghost use Rattle.warg_log.specs.Lawful.{IsLawful, AreRead};
ghost use Rattle.warg_log.specs.Rules.{Accepts, any_signature, entries_of, breach_of};
ghost use Rattle.warg_record.specs.Envelope.{Signed};

use warg_record::laws::one_record;

/// The empty list is lawful, and a list with one record more is lawful exactly where the list before is, and the record
/// breaks no rule after it. So the lists that `LogState::validate` accepts, one record after the other, are the lawful
/// ones.
pub fn lawful_record_by_record()
    ensures none { (kind : Kind) (accepts : Accepts) → IsLawful kind accepts [] }
    ensures more { (kind : Kind) (accepts : Accepts) (log : List Signed) (s : Signed)
        → IsLawful kind accepts (log ++ s ∷ [])
        ↔ (IsLawful kind accepts log × (breach_of kind accepts log s ≡ None)) }
{}

/// A lawful log leaves one choice.
pub fn one_choice()
    ensures { (kind : Kind) (accepts : Accepts) (log : List Signed) (req : List Held) (exact : Option Parts)
        (digest : Option (List ℕ)) (r s : Option (Parts × Option (List ℕ)))
        → IsLawful kind accepts log
        → IsChosen req exact digest (releases_of (entries_of log)) r
        → IsChosen req exact digest (releases_of (entries_of log)) s
        → r ≡ s }
{}

/// The choice as it is found is the choice; of releases that compare alike it is the first.
pub fn the_choice_is_found()
    ensures { (req : List Held) (exact : Option Parts) (digest : Option (List ℕ))
        (rs : List (Parts × Option (List ℕ))) → IsChosen req exact digest rs (choice req exact digest rs) }
{}

/// A record that breaks no rule for a verifier breaks none but for signatures; so lists that are lawful for a verifier
/// can be replayed.
pub fn accepted_is_lawful()
    ensures record { (kind : Kind) (accepts : Accepts) (log : List Signed) (s : Signed)
        → breach_of kind accepts log s ≡ None → breach_of kind any_signature log s ≡ None }
    ensures list { (kind : Kind) (accepts : Accepts) (log : List Signed)
        → IsLawful kind accepts log → IsLawful kind any_signature log }
{}

/// The front of a lawful list is lawful, and the record behind it breaks no rule after it.
pub fn fronts_are_lawful()
    ensures front { (kind : Kind) (accepts : Accepts) (log more : List Signed)
        → IsLawful kind accepts (log ++ more) → IsLawful kind accepts log }
    ensures next { (kind : Kind) (accepts : Accepts) (log more : List Signed) (s : Signed)
        → IsLawful kind accepts (log ++ s ∷ more) → breach_of kind accepts log s ≡ None }
{}

/// What was signed determines what a list says, where each envelope is as it is read: lists of the same contents have
/// the same entries.
pub fn contents_determine_entries()
    ensures { (kind : Kind) (log other : List Signed) → AreRead kind log → AreRead kind other
        → map (λ s. s.contents) log ≡ map (λ s. s.contents) other
        → entries_of log ≡ entries_of other }
{
    one_record();
}

/// Where each envelope is as it is read, each release has a version of the grammar, and its content is a digest.
pub fn releases_have_the_form()
    ensures { (kind : Kind) (log : List Signed) → AreRead kind log
        → All (λ r. IsValid r.0 × IfSome r.1 IsDigest) (releases_of (entries_of log)) }
{}
