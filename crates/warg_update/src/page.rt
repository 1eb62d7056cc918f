//! The page that a reply gives, and why it gives none.

ghost use Rattle.std.specs.Prelude.{◌≡◌, ◌≢◌, ◌⊎◌, ℕ, List, Ok, Contains, IfOk, IfErr, IfSome, IfNone, MatchOption, Option, option_copied, map};
ghost use Rattle.http_header.specs.FieldValue.{FieldValue};
ghost use Rattle.warg_hash.specs.Hash.{package_log_id};
ghost use Rattle.warg_hint.specs.Hint.{Gives, MustAsk, hint_value};
ghost use Rattle.warg_info.specs.Kept.{Kept};
ghost use Rattle.warg_exchange.specs.declared.exchange.Reply.{Reply as Answer};
ghost use Rattle.warg_exchange.specs.declared.service.ServiceError.TheVariants.{LogNotFound as NotFound};
ghost use Rattle.warg_exchange.specs.Replies.{says, page_in};
ghost use Rattle.warg_exchange.specs.Views.{page_view};
ghost use Rattle.warg_api.specs.Calls.{IsReplyFault};
ghost use Rattle.warg_api.specs.Errors.{error_with_hint, logs_error};
ghost use Rattle.warg_page.specs.Steps.{id_of, HaveIds};
ghost use Rattle.warg_page.specs.Views.{package_view};
ghost use Rattle.warg_update.specs.Errors.{call_error};
ghost use Rattle.warg_update.specs.NotFound.{hint_in, IsNotFound, IsAnswered, IsNoPageFault};
ghost use Rattle.warg_update.specs.declared.error.UpdateError.TheVariants.{Memory as WantsMemory, PackageDoesNotExist as DoesNotExist, NotBuilt as IsNotBuilt};

use crate::error::UpdateError;
use http_header::HeaderValue;
use indexmap::IndexSet;
use std::alloc::Global;
use warg_api::{ClientError, read_logs};
use warg_exchange::{FetchLogsResponse, Reply, ServiceError};
use warg_hash::{LogId, PackageName};
use warg_hint::{Decide, HintAnswer, HintSettings, answer_hint};
use warg_info::PackageInfo;
use warg_page::place_of;

/// That a registry does not find a log.
#[derive(Clone, Copy)]
struct MissingLog<'a> {
    /// The log's id.
    id: LogId,
    /// The header by which the registry tells of another one.
    hint: Option<&'a HeaderValue>,
}

/// That a registry does not find the log of a package.
#[derive(Clone, Copy)]
struct MissingPackage<'a> {
    /// The package.
    info: &'a PackageInfo,
    /// The header by which the registry tells of another one.
    hint: Option<&'a HeaderValue>,
}

/// The log that is not found, where this is why a registry gives no page.
fn missing_log(error: &ClientError) -> Option<MissingLog<'_>>
    ensures found { IfSome result (λ m. error.now ≡ error_with_hint (NotFound m.id) (option_copied m.hint)) }
    ensures other { IfNone result ((id : List ℕ) (hint : Option FieldValue)
        → error.now ≡ error_with_hint (NotFound id) hint → ⊥) }
{
    match error {
        ClientError::LogNotFoundWithHint(id, hint) => Some(MissingLog {
            id: *id,
            hint: Some(hint),
        }),
        ClientError::Fetch(refused) => match &refused.error {
            ServiceError::LogNotFound { id } => Some(MissingLog {
                id: *id,
                hint: None,
            }),
            _ => None,
        },
        _ => None,
    }
}

/// The package whose log has this id.
fn package_of<'a>(
    ids: &IndexSet<LogId>,
    packages: &'a [PackageInfo],
    id: &LogId,
) -> Option<&'a PackageInfo>
    ensures found { IfSome result (λ info. HaveIds ids.now.keys packages.now → id_of info.now ≡ id.now) }
    ensures there { IfSome result (λ info. Contains (map package_view packages.now) (package_view info.now)) }
    ensures absent { IfNone result (HaveIds ids.now.keys packages.now → (p : List ℕ × List Kept)
        → Contains (map package_view packages.now) p → package_log_id p.0 ≢ id.now) }
{
    let Some(at) = place_of(ids, id) else {
        return None;
    };
    packages.get(at)
}

/// The package whose log is not found, where this is why a registry gives no page.
fn missing_package<'a>(
    ids: &IndexSet<LogId>,
    packages: &'a [PackageInfo],
    error: &'a ClientError,
) -> Option<MissingPackage<'a>>
    ensures found { IfSome result (λ m. HaveIds ids.now.keys packages.now
        → error.now ≡ error_with_hint (NotFound (id_of m.info.now)) (option_copied m.hint)) }
    ensures there { IfSome result (λ m. Contains (map package_view packages.now) (package_view m.info.now)) }
    ensures other { IfNone result (HaveIds ids.now.keys packages.now → (p : List ℕ × List Kept)
        (hint : Option FieldValue) → Contains (map package_view packages.now) p
        → error.now ≡ error_with_hint (NotFound (package_log_id p.0)) hint → ⊥) }
{
    let Some(missing) = missing_log(error) else {
        return None;
    };
    let Some(info) = package_of(ids, packages, &missing.id) else {
        return None;
    };
    Some(MissingPackage {
        info,
        hint: missing.hint,
    })
}

/// That a package does not exist.
fn does_not_exist(alloc: Global, name: &PackageName) -> UpdateError
    ensures { (result ≡ WantsMemory) ⊎ (result ≡ DoesNotExist name.now) }
{
    match name.try_clone(alloc) {
        Ok(name) => UpdateError::PackageDoesNotExist { name },
        Err(_) => UpdateError::Memory,
    }
}

/// That a hint at another registry is neither followed nor reported.
fn not_built(alloc: Global, name: &PackageName) -> UpdateError
    ensures { (result ≡ WantsMemory) ⊎ (result ≡ IsNotBuilt name.now) }
{
    match name.try_clone(alloc) {
        Ok(name) => UpdateError::NotBuilt { name },
        Err(_) => UpdateError::Memory,
    }
}

/// What is answered where the log of a package is not found.
fn not_found<D: Decide>(
    alloc: Global,
    settings: &HintSettings,
    decide: &mut D,
    name: &PackageName,
    hint: Option<&HeaderValue>,
) -> UpdateError
    ensures answer { IsAnswered result settings.now (D.said decide.old decide.new) name.now
        (hint_value (option_copied hint.entry)) }
    ensures unasked { ((namespace registry : List ℕ) → Gives (hint_value (option_copied hint.entry)) namespace registry
        → MustAsk settings.now name.now namespace → ⊥) → decide.new ≡ decide.old }
{
    match answer_hint(settings, decide, name, hint) {
        HintAnswer::Left => does_not_exist(alloc, name),
        HintAnswer::Reported => not_built(alloc, name),
        HintAnswer::Followed => not_built(alloc, name),
    }
}

/// What is answered where a registry gives no page because it does not find the log of a package.
fn missing_answer<D: Decide>(
    alloc: Global,
    settings: &HintSettings,
    decide: &mut D,
    ids: &IndexSet<LogId>,
    packages: &[PackageInfo],
    error: &ClientError,
) -> Option<UpdateError>
    ensures fault { IfSome result (λ e. (reply : Answer) → HaveIds ids.now.keys packages.now
        → IsReplyFault logs_error error.now reply page_in
        → IsNoPageFault e settings.now (D.said decide.old decide.new) (map package_view packages.now) reply) }
    ensures unasked { (reply : Answer) → HaveIds ids.now.keys packages.now
        → IsReplyFault logs_error error.now reply page_in
        → ((name namespace registry : List ℕ) → IsNotFound name (map package_view packages.now) reply
        → Gives (hint_in reply) namespace registry → MustAsk settings.now name namespace → ⊥)
        → decide.new ≡ decide.old }
    ensures other { IfNone result ((reply : Answer) → HaveIds ids.now.keys packages.now
        → IsReplyFault logs_error error.now reply page_in
        → IsNoPageFault (call_error error.now) settings.now (D.said decide.old decide.new)
        (map package_view packages.now) reply) }
{
    let Some(missing) = missing_package(ids, packages, error) else {
        return None;
    };
    let info = missing.info;
    Some(not_found(alloc, settings, decide, &info.name, missing.hint))
}

/// The answer, or else the error of the call.
fn answer_or(answer: Option<UpdateError>, error: ClientError) -> UpdateError
    ensures { MatchOption answer (result ≡ call_error error) (λ a. result ≡ a) }
{
    match answer {
        Some(answer) => answer,
        None => UpdateError::from(error),
    }
}

/// The page that a reply gives.
///
/// Where the registry does not find the log of a package, the answer is `PackageDoesNotExist`, or `NotBuilt` where the
/// reply has a hint at another registry that would be followed or reported. The decision is asked at most once, and only
/// where nothing else decides. Any other reply without a page is `Api`.
pub fn read_page<D: Decide>(
    alloc: Global,
    settings: &HintSettings,
    decide: &mut D,
    ids: &IndexSet<LogId>,
    packages: &[PackageInfo],
    reply: &Reply,
) -> Result<FetchLogsResponse, UpdateError>
    ensures ok { IfOk result (λ page. says page_in reply.now ≡ Ok (page_view page)) }
    ensures err { IfErr result (λ e. HaveIds ids.now.keys packages.now
        → IsNoPageFault e settings.now (D.said decide.old decide.new) (map package_view packages.now) reply.now) }
    ensures unasked { HaveIds ids.now.keys packages.now
        → ((name namespace registry : List ℕ) → IsNotFound name (map package_view packages.now) reply.now
        → Gives (hint_in reply.now) namespace registry → MustAsk settings.now name namespace → ⊥)
        → decide.new ≡ decide.old }
{
    match read_logs(alloc, reply) {
        Ok(page) => Ok(page),
        Err(error) => {
            let answer = missing_answer(alloc, settings, decide, ids, packages, &error);
            Err(answer_or(answer, error))
        }
    }
}
