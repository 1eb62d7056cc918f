//! Callers of `warg_log`.

ghost use Rattle.std.specs.Prelude.{◌≡◌, ◌++◌, ◌∷◌, [], List, None, Some, IfOk, MatchOption, map, option_map, option_copied};
ghost use Rattle.semver.specs.Identifiers.{comparator_view};
ghost use Rattle.warg_record.specs.Envelope.{Signed};
ghost use Rattle.warg_record.specs.Record.{Package};
ghost use Rattle.warg_record.specs.View.{envelope_view, package_entry_view};
ghost use Rattle.warg_log.specs.Choice.{choice};
ghost use Rattle.warg_log.specs.Follows.{Follows, IsReplayOf};
ghost use Rattle.warg_log.specs.History.{releases_of};
ghost use Rattle.warg_log.specs.Lawful.{IsLawful};
ghost use Rattle.warg_log.specs.Places.{release_view};
ghost use Rattle.warg_log.specs.Rules.{any_signature, entries_of};

use semver::VersionReq;
use std::alloc::Global;
use warg_log::package::LogState;
use warg_log::{AnyHash, Envelope, PackageRecord, Release, ValidationError, Verifier};
use warg_values::Memory;

/// The state of a list of records, where they are lawful but for their signatures.
pub fn replayed(alloc: Global, envs: &[Envelope<PackageRecord>]) -> Result<Option<LogState>, Memory>
    ensures { IfOk result (λ o. MatchOption o
        (IsLawful Package any_signature (map (envelope_view package_entry_view) envs.now) → ⊥)
        (λ state. IsReplayOf Package state (map (envelope_view package_entry_view) envs.now))) }
{
    LogState::replay(alloc, envs)
}

/// The release that meets a requirement and has this digest, of the records that the state follows.
pub fn with_digest<'a>(
    state: &'a LogState,
    req: &VersionReq,
    digest: &AnyHash,
) -> Option<&'a Release>
    ensures { (log : List Signed) → Follows Package state.now log
        → option_map release_view (option_copied result)
        ≡ choice (map comparator_view req.now.comparators.items) None (Some digest.now)
        (releases_of (entries_of log)) }
{
    state.find_release(req, None, Some(digest))
}

/// The state that a record leaves, where it is lawful after those that the state follows: the state itself stays.
pub fn with_record<V: Verifier>(
    alloc: Global,
    state: &LogState,
    verifier: &V,
    env: &Envelope<PackageRecord>,
) -> Result<LogState, ValidationError>
    ensures { IfOk result (λ next. (log : List Signed) → Follows Package state.now log
        → Follows Package next (log ++ envelope_view package_entry_view env.now ∷ [])) }
{
    let mut next = state.try_clone(alloc)?;
    next.validate(alloc, verifier, env)?;
    Ok(next)
}
