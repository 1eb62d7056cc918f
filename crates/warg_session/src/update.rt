//! The update of a registry's logs over a link.

ghost use Rattle.std.specs.Prelude.{◌≡◌, ◌≤◌, ◌<◌, ◌⊎◌, ℕ, List, Some, Ok, Err, true, false, length, map, slice_get, IfOk, IfErr, IfSome, IfNone, OnOk};
ghost use Rattle.warg_values.specs.Faults.{Rose};
ghost use Rattle.warg_log.specs.Rules.{Accepts};
ghost use Rattle.warg_page.specs.Steps.{id_of, AreGood, IsGoodOperator};
ghost use Rattle.warg_page.specs.Views.{logs_view, AreSound};
ghost use Rattle.warg_exchange.specs.declared.exchange.Exchange.{Exchange as Said};
ghost use Rattle.warg_exchange.specs.declared.exchange.Reply.{Reply as Replied};
ghost use Rattle.warg_exchange.specs.declared.exchange.Request.{Request as Sent};
ghost use Rattle.warg_exchange.specs.Requests.{Asker as Who};
ghost use Rattle.warg_api.specs.Asking.{asker};
ghost use Rattle.warg_api.specs.Link.{answered};
ghost use Rattle.warg_api.specs.declared.client.Client.{Client as Asking};
ghost use Rattle.warg_update.specs.Proved.{Start, Asks};
ghost use Rattle.warg_update.specs.Standing.{asker_of, request_at, turns_left, HasSoundLogs, Stands, Advances, Counts, IsProved, IsRefused};
ghost use Rattle.warg_update.specs.FeedFaults.{AsksDecision};
ghost use Rattle.warg_session.specs.declared.error.UpdateRefusal.TheVariants.{LinkFault as IsLinkFault};
ghost use Rattle.warg_session.specs.Recording.{Transcript, IsKept, exchange, link_of, transcript};
ghost use Rattle.warg_session.specs.Turns.{IsSilent, IsSendRefusal, IsUnasked, IsUnfit, IsAnswered};
ghost use Rattle.warg_session.specs.Updating.{IsBegun, IsUnderWay, IsRefusedTurn, IsUpdated, IsGoodStart, IsUpdateRefusal, LeavesPages, start_view};

use crate::error::UpdateRefusal;
use crate::recording::Recording;
use std::alloc::Global;
use warg_api::{Client, Link, LinkError};
use warg_exchange::{Reply, Request, SignedCheckpoint};
use warg_hint::Decide;
use warg_info::{OperatorInfo, PackageInfo};
use warg_log::Verifier;
use warg_update::{ProvedInfos, Settings, UpdateError, UpdateStep};
use warg_url::RegistryDomain;

/// What an update begins with.
#[derive(Drop)]
pub struct UpdateStart {
    /// The registry's name, which the home registry has not.
    pub registry: Option<RegistryDomain>,
    /// What is kept of the operator's log.
    pub operator: OperatorInfo,
    /// What is kept of the packages' logs.
    pub packages: Vec<PackageInfo>,
    /// The checkpoint under which logs of the registry were proved before.
    pub stored: Option<SignedCheckpoint>,
}

/// What an update gives.
#[derive(Drop)]
pub struct Updated {
    /// What it has proved.
    pub proved: ProvedInfos,
    /// How many pages may still be asked for.
    pub pages_left: u64,
}

/// The request that an update sends next, unless it is over.
fn next_request(
    alloc: Global,
    client: &Client,
    step: &UpdateStep,
) -> Result<Option<Request>, UpdateRefusal>
    ensures asks { (accepts : Accepts) (start : Start) (xs : List Said)
        → Stands accepts (asker_of client.now step.now) start step.now xs
        → IfOk result (λ o. IfSome o (λ r. Asks (asker_of client.now step.now) start xs r
        × (request_at (asker_of client.now step.now) step.now ≡ Some r))) }
    ensures over { (accepts : Accepts) (start : Start) (xs : List Said)
        → Stands accepts (asker_of client.now step.now) start step.now xs
        → IfOk result (λ o. IfNone o (IsProved step.now ⊎ IsRefused step.now)) }
    ensures refused { IfErr result (λ e. IsSilent e (asker_of client.now step.now) step.now) }
{
    Ok(step.next_request(alloc, client)?)
}

/// Sends a request, and gives the place of its exchange among those that are kept.
fn send<L: Link>(
    alloc: Global,
    link: &mut Recording<L>,
    request: Request,
) -> Result<usize, UpdateRefusal>
    ensures never_falls { L.faults (link_of link.old) ≤ L.faults (link_of link.new) }
    ensures replied { IfOk result (λ place. (reply : Replied)
        × (slice_get (transcript L.told link.new).exchanges place ≡ Some (exchange request reply))
        × IsKept L.Steps (transcript L.told link.old) (answered request reply) (transcript L.told link.new)) }
    ensures within { IfOk result (λ place. place < length (transcript L.told link.new).exchanges) }
    ensures link_fault { (result ≡ Err IsLinkFault)
        → Rose (L.faults (link_of link.old)) (L.faults (link_of link.new)) }
    ensures refused { IfErr result (λ e. IsSendRefusal e L.Steps (transcript L.told link.old) request
        (transcript L.told link.new)) }
{
    match link.send(alloc, request) {
        Ok(place) => Ok(place),
        Err(LinkError::Failed) => Err(UpdateRefusal::LinkFault),
        Err(LinkError::Memory) => Err(UpdateRefusal::Memory),
    }
}

/// Feeds the reply to the request that was asked last.
fn feed<V: Verifier, D: Decide>(
    alloc: Global,
    verifier: &V,
    decide: &mut D,
    step: &mut UpdateStep,
    reply: &Reply,
) -> Result<(), UpdateRefusal>
    ensures stands { Advances (V.good verifier.now) step.old reply.now step.new }
    ensures sound { HasSoundLogs step.old → HasSoundLogs step.new }
    ensures asker { (client : Asking) → asker_of client step.new ≡ asker_of client step.old }
    ensures turns { OnOk result (turns_left step.new < turns_left step.old) }
    ensures counted { Counts step.old step.new }
    ensures fault { (result ≡ Err IsLinkFault) → ⊥ }
    ensures refused { IfErr result (λ e. (a : Who) (start : Start) (xs : List Said)
        → Stands (V.good verifier.now) a start step.old xs
        → IsUnfit e (V.good verifier.now) (D.said decide.old decide.new) step.old reply.now) }
    ensures unasked { (a : Who) (start : Start) (xs : List Said) → Stands (V.good verifier.now) a start step.old xs
        → ¬ AsksDecision step.old reply.now → decide.new ≡ decide.old }
{
    match step.feed(alloc, verifier, decide, reply) {
        Ok(()) => Ok(()),
        Err(UpdateError::Memory) => Err(UpdateRefusal::Memory),
        Err(error) => Err(UpdateRefusal::Reply(error)),
    }
}

/// Sends the next request of an update, unless it is over, and gives the place of its exchange.
fn ask<L: Link>(
    alloc: Global,
    client: &Client,
    link: &mut Recording<L>,
    step: &UpdateStep,
) -> Result<Option<usize>, UpdateRefusal>
    ensures never_falls { L.faults (link_of link.old) ≤ L.faults (link_of link.new) }
    ensures within { IfOk result (λ o. IfSome o (λ place. place < length (transcript L.told link.new).exchanges)) }
    ensures asked { IfOk result (λ o. IfSome o (λ place. (accepts : Accepts) (start : Start) (xs : List Said)
        → Stands accepts (asker_of client.now step.now) start step.now xs
        → IsAnswered L.Steps (transcript L.told link.old) (asker_of client.now step.now) step.now place
        (transcript L.told link.new))) }
    ensures over { IfOk result (λ o. IfNone o ((accepts : Accepts) (start : Start) (xs : List Said)
        → Stands accepts (asker_of client.now step.now) start step.now xs
        → (transcript L.told link.new ≡ transcript L.told link.old) × (IsProved step.now ⊎ IsRefused step.now))) }
    ensures link_fault { (result ≡ Err IsLinkFault)
        → Rose (L.faults (link_of link.old)) (L.faults (link_of link.new)) }
    ensures refused { IfErr result (λ e. IsUnasked e L.Steps (transcript L.told link.old)
        (asker_of client.now step.now) step.now (transcript L.told link.new)) }
{
    match next_request(alloc, client, step) {
        Ok(Some(request)) => match send(alloc, link, request) {
            Ok(place) => Ok(Some(place)),
            Err(refusal) => Err(refusal),
        },
        Ok(None) => Ok(None),
        Err(refusal) => Err(refusal),
    }
}

/// Sends the next request of an update, and feeds the reply. Whether there was one.
fn turn<L: Link, V: Verifier, D: Decide>(
    alloc: Global,
    client: &Client,
    link: &mut Recording<L>,
    verifier: &V,
    decide: &mut D,
    step: &mut UpdateStep,
) -> Result<bool, UpdateRefusal>
    ensures never_falls { L.faults (link_of link.old) ≤ L.faults (link_of link.new) }
    ensures link_fault { (result ≡ Err IsLinkFault)
        → Rose (L.faults (link_of link.old)) (L.faults (link_of link.new)) }
    ensures come { OnOk result ((limit : ℕ) (start : Start) (begun : Transcript L.Told)
        → IsUnderWay (V.good verifier.now) (asker_of client.now step.old) start L.Steps begun
        (transcript L.told link.old) limit step.old
        → IsUnderWay (V.good verifier.now) (asker_of client.now step.old) start L.Steps begun
        (transcript L.told link.new) limit step.new) }
    ensures turns { (result ≡ Ok true) → turns_left step.new < turns_left step.old }
    ensures over { (result ≡ Ok false) → (limit : ℕ) (start : Start) (begun : Transcript L.Told)
        → IsUnderWay (V.good verifier.now) (asker_of client.now step.old) start L.Steps begun
        (transcript L.told link.old) limit step.old
        → IsProved step.new ⊎ IsRefused step.new }
    ensures sound { HasSoundLogs step.old → HasSoundLogs step.new }
    ensures asker { (client : Asking) → asker_of client step.new ≡ asker_of client step.old }
    ensures refused { IfErr result (λ e. (ids : List (List ℕ)) (limit : ℕ) (start : Start) (begun : Transcript L.Told)
        → IsUnderWay (V.good verifier.now) (asker_of client.now step.old) start L.Steps begun
        (transcript L.told link.old) limit step.old
        → (before : D)
        → ((request : Sent) → request_at (asker_of client.now step.old) step.old ≡ Some request
        → decide.old ≡ before)
        → IsRefusedTurn e ids (V.good verifier.now) (D.said before decide.new) limit (asker_of client.now step.old)
        start L.Steps begun (transcript L.told link.new)) }
    ensures unasked { OnOk result ((limit : ℕ) (start : Start) (begun : Transcript L.Told)
        → IsUnderWay (V.good verifier.now) (asker_of client.now step.old) start L.Steps begun
        (transcript L.told link.old) limit step.old
        → ¬ IsRefused step.new → (¬ IsRefused step.old) × (decide.new ≡ decide.old)) }
{
    match ask(alloc, client, link, step) {
        Ok(Some(place)) => {
            match feed(
                alloc,
                verifier,
                decide,
                step,
                &link.exchanges()[place].reply,
            ) {
                Ok(()) => Ok(true),
                Err(refusal) => Err(refusal),
            }
        }
        Ok(None) => Ok(false),
        Err(refusal) => Err(refusal),
    }
}

/// Goes on with an update until it is over.
fn go_on<L: Link, V: Verifier, D: Decide>(
    alloc: Global,
    client: &Client,
    link: &mut Recording<L>,
    verifier: &V,
    decide: &mut D,
    step: &mut UpdateStep,
) -> Result<(), UpdateRefusal>
    ensures never_falls { L.faults (link_of link.old) ≤ L.faults (link_of link.new) }
    ensures link_fault { (result ≡ Err IsLinkFault)
        → Rose (L.faults (link_of link.old)) (L.faults (link_of link.new)) }
    ensures sound { HasSoundLogs step.old → HasSoundLogs step.new }
    ensures over { OnOk result ((limit : ℕ) (start : Start) (begun : Transcript L.Told)
        → IsUnderWay (V.good verifier.now) (asker_of client.now step.old) start L.Steps begun
        (transcript L.told link.old) limit step.old
        → IsUnderWay (V.good verifier.now) (asker_of client.now step.old) start L.Steps begun
        (transcript L.told link.new) limit step.new × (IsProved step.new ⊎ IsRefused step.new)) }
    ensures unasked { OnOk result ((limit : ℕ) (start : Start) (begun : Transcript L.Told)
        → IsUnderWay (V.good verifier.now) (asker_of client.now step.old) start L.Steps begun
        (transcript L.told link.old) limit step.old
        → ¬ IsRefused step.new → decide.new ≡ decide.old) }
    ensures refused { IfErr result (λ e. (ids : List (List ℕ)) (limit : ℕ) (start : Start) (begun : Transcript L.Told)
        → IsUnderWay (V.good verifier.now) (asker_of client.now step.old) start L.Steps begun
        (transcript L.told link.old) limit step.old
        → IsRefusedTurn e ids (V.good verifier.now) (D.said decide.old decide.new) limit (asker_of client.now step.old)
        start L.Steps begun (transcript L.told link.new)) }
{
    loop {
        match turn(alloc, client, link, verifier, decide, step) {
            Ok(true) => {}
            Ok(false) => return Ok(()),
            Err(refusal) => return Err(refusal),
        }
    }
}

/// Updates the logs of a registry's operator and of packages over a link.
///
/// It asks for the latest checkpoint, for pages of the logs, for the inclusion of the logs' last records, and, where a
/// shorter checkpoint is stored, for the consistency with it; and each exchange is kept. The first fault is answered:
/// that two packages have one log, before anything is asked; that a page is to be asked for where no more pages may be;
/// that a request can't be built; that the link failed; or that a reply is refused. Where the log of a package is not
/// found, `decide` is asked where nothing else says whether a hint at another registry would be followed. Such a reply is
/// refused either way, so an update that proves something has asked for no decision.
pub fn run_update<L: Link, V: Verifier, D: Decide>(
    alloc: Global,
    client: &Client,
    link: &mut Recording<L>,
    verifier: &V,
    decide: &mut D,
    start: UpdateStart,
    settings: Settings,
) -> Result<Updated, UpdateRefusal>
    ensures never_falls { L.faults (link_of link.old) ≤ L.faults (link_of link.new) }
    ensures link_fault { (result ≡ Err IsLinkFault)
        → Rose (L.faults (link_of link.old)) (L.faults (link_of link.new)) }
    ensures proves { IfOk result (λ updated. IsGoodStart (V.good verifier.now) start
        → IsUpdated (V.good verifier.now) (asker client.now start.registry) (start_view start) L.Steps
        (transcript L.told link.old) (transcript L.told link.new)
        (logs_view updated.proved.operator updated.proved.packages.items) updated.proved.checkpoint) }
    ensures sound { IfOk result (λ updated. AreSound start.operator start.packages.items
        → AreSound updated.proved.operator updated.proved.packages.items) }
    ensures good { IfOk result (λ updated. IsGoodStart (V.good verifier.now) start
        → IsGoodOperator (V.good verifier.now) updated.proved.operator
        × AreGood (V.good verifier.now) updated.proved.packages.items) }
    ensures pages { IfOk result (λ updated. IsGoodStart (V.good verifier.now) start
        → LeavesPages (asker client.now start.registry) (transcript L.told link.old) (transcript L.told link.new)
        settings.round_limit updated.pages_left) }
    ensures unasked { OnOk result (IsGoodStart (V.good verifier.now) start → decide.new ≡ decide.old) }
    ensures begun { IsGoodStart (V.good verifier.now) start
        → IsBegun (asker client.now start.registry) (start_view start) (transcript L.told link.old)
        (transcript L.told link.new) }
    ensures cause { IfErr result (λ e. IsGoodStart (V.good verifier.now) start
        → IsUpdateRefusal e (map id_of start.packages.items) (V.good verifier.now) (D.said decide.old decide.new)
        settings.round_limit (asker client.now start.registry) (start_view start) L.Steps (transcript L.told link.old)
        (transcript L.told link.new)) }
{
    let mut step = UpdateStep::new(
        alloc,
        start.registry,
        start.operator,
        start.packages,
        start.stored,
        settings,
    )?;
    go_on(alloc, client, link, verifier, decide, &mut step)?;
    let pages_left = step.pages_left();
    match step.into_proved() {
        Some(proved) => Ok(Updated { proved, pages_left }),
        None => Err(UpdateRefusal::Memory),
    }
}
