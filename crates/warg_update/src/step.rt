//! The update of a registry's logs, request by request.

ghost use Rattle.std.specs.Prelude.{◌≡◌, ◌≢◌, ◌↔◌, ◌<◌, ◌+◌, ◌++◌, ◌∷◌, ◌⊎◌, [], Bool, List, Some, None, true, false, Err, IfOk, IfErr, IfSome, IfNone, IsSome, OnOk, OnErr, map};
ghost use Rattle.warg_log.specs.Rules.{Accepts};
ghost use Rattle.warg_exchange.specs.declared.exchange.Exchange.{Exchange};
ghost use Rattle.warg_exchange.specs.declared.exchange.Request.{Request as Sent};
ghost use Rattle.warg_exchange.specs.Requests.{Asker as Who};
ghost use Rattle.warg_request.specs.Asking.{asker_view, CanAsk};
ghost use Rattle.warg_api.specs.declared.client.Client.{Client as Asking};
ghost use Rattle.warg_api.specs.Asking.{asker};
ghost use Rattle.warg_update.specs.Proved.{Start, Asks, Proves};
ghost use Rattle.warg_page.specs.Steps.{id_of, HaveIds, AreGood, IsGoodOperator};
ghost use Rattle.warg_page.specs.IdFaults.{IsIdsFault};
ghost use Rattle.warg_page.specs.Views.{logs_view, AreSound};
ghost use Rattle.warg_update.specs.Standing.{pages_left as pages_left_of, hints_of, asker_of, start_of, request_at, IsAtLimit, IsProved, IsRefused, turns_left, HasSoundLogs, IsReady, Stands, KeepsOn, Advances, Counts};
ghost use Rattle.warg_update.specs.FeedFaults.{IsFeedFault, AsksDecision};
ghost use Rattle.warg_update.specs.declared.error.AskError.TheVariants.{RoundLimit as IsRoundLimit, BadHeader as IsBadHeader};
ghost use Rattle.warg_update.specs.declared.error.UpdateError.TheVariants.{NotAsked as IsNotAsked};
ghost use Rattle.warg_update.specs.declared.stage.Stage.TheVariants as at;

use crate::error::{AskError, UpdateError};
use crate::page::read_page;
use crate::settings::Settings;
use crate::showing::{show_continuation, show_heads, stage_after};
use crate::stage::Stage;
use crate::turn::turn_page;
use indexmap::IndexSet;
use std::alloc::Global;
use warg_api::{Client, read_checkpoint};
use warg_exchange::{
    Checkpoint, ConsistencyRequest, InclusionRequest, Reply, Request, SignedCheckpoint,
};
use warg_hash::LogId;
use warg_hint::{Decide, HintSettings};
use warg_info::{OperatorInfo, PackageInfo};
use warg_log::Verifier;
use warg_page::{IdsError, heads_of, log_ids, logs_behind};
use warg_request::Asker;
use warg_url::RegistryDomain;
use warg_values::Sequence;

/// The update of the logs of a registry's operator and of packages, one request at a time.
///
/// It asks for the latest checkpoint, for pages of the logs, for the inclusion of the logs' last records, and, where a
/// shorter checkpoint is stored, for the consistency with it. A reply that is refused ends it.
#[derive(Drop)]
pub struct UpdateStep {
    /// How far it is.
    stage: Stage,
    /// The registry's name, which the home registry has not.
    registry: Option<RegistryDomain>,
    /// The operator's log, as far as it came.
    operator: OperatorInfo,
    /// The packages' logs, as far as they came.
    packages: Vec<PackageInfo>,
    /// The ids of the packages' logs, in order.
    ids: IndexSet<LogId>,
    /// The checkpoint under which logs of the registry were proved before.
    stored: Option<SignedCheckpoint>,
    /// The checkpoint that came.
    checkpoint: Option<SignedCheckpoint>,
    /// How many pages may still be asked for.
    pages_left: u64,
    /// What is done about hints at other registries.
    hints: HintSettings,
}

/// What an update has proved.
#[derive(Clone, Copy)]
pub struct ProvedLogs<'a> {
    /// The operator's log.
    pub operator: &'a OperatorInfo,
    /// The packages' logs, in the order in which they were given.
    pub packages: &'a [PackageInfo],
    /// The checkpoint under which they are proved.
    pub checkpoint: &'a SignedCheckpoint,
}

/// What an update has proved, with the logs themselves.
#[derive(Drop)]
pub struct ProvedInfos {
    /// The operator's log.
    pub operator: OperatorInfo,
    /// The packages' logs, in the order in which they were given.
    pub packages: Vec<PackageInfo>,
    /// The checkpoint under which they are proved.
    pub checkpoint: SignedCheckpoint,
}

impl UpdateStep {
    /// The update of the logs of a registry's operator and of packages, behind what is kept of them and the stored
    /// checkpoint. Packages of which two have one log are refused.
    pub fn new(
        alloc: Global,
        registry: Option<RegistryDomain>,
        operator: OperatorInfo,
        packages: Vec<PackageInfo>,
        stored: Option<SignedCheckpoint>,
        settings: Settings,
    ) -> Result<Self, IdsError>
        ensures stands { IfOk result (λ step. (accepts : Accepts) (a : Who)
            → IsGoodOperator accepts operator → AreGood accepts packages.items
            → Stands accepts a (start_of operator packages.items stored) step []) }
        ensures sound { IfOk result (λ step. AreSound operator packages.items → HasSoundLogs step) }
        ensures asker { IfOk result (λ step. (client : Asking) → asker_of client step ≡ asker client registry) }
        ensures pages { IfOk result (λ step. pages_left_of step ≡ settings.round_limit) }
        ensures hints { IfOk result (λ step. hints_of step ≡ settings.hints) }
        ensures err { IfErr result (λ e. IsIdsFault e (map id_of packages.items)) }
    {
        let ids = log_ids(alloc, packages.as_slice())?;
        Ok(UpdateStep {
            stage: Stage::Checkpoint,
            registry,
            operator,
            packages,
            ids,
            stored,
            checkpoint: None,
            pages_left: settings.round_limit,
            hints: settings.hints,
        })
    }

    /// How many pages may still be asked for.
    pub fn pages_left(&self) -> u64
        ensures { result ≡ pages_left_of self.now }
    {
        self.pages_left
    }

    /// What is proved, where all checks have passed.
    pub fn proved(&self) -> Option<ProvedLogs<'_>>
        ensures proves { IfSome result (λ p. (accepts : Accepts) (a : Who) (start : Start) (xs : List Exchange)
            → Stands accepts a start self.now xs
            → Proves accepts a start xs (logs_view p.operator.now p.packages.now) p.checkpoint.now) }
        ensures sound { IfSome result (λ p. HasSoundLogs self.now → AreSound p.operator.now p.packages.now) }
        ensures good { IfSome result (λ p. (accepts : Accepts) (a : Who) (start : Start) (xs : List Exchange)
            → Stands accepts a start self.now xs
            → IsGoodOperator accepts p.operator.now × AreGood accepts p.packages.now) }
        ensures given { (accepts : Accepts) (a : Who) (start : Start) (xs : List Exchange)
            → Stands accepts a start self.now xs → IsSome result ↔ IsProved self.now }
    {
        let Some(checkpoint) = &self.checkpoint else {
            return None;
        };
        match self.stage {
            Stage::Proved => Some(ProvedLogs {
                operator: &self.operator,
                packages: self.packages.as_slice(),
                checkpoint,
            }),
            _ => None,
        }
    }

    /// What is proved, with the logs themselves, where all checks have passed.
    pub fn into_proved(self) -> Option<ProvedInfos>
        ensures proves { IfSome result (λ p. (accepts : Accepts) (a : Who) (start : Start) (xs : List Exchange)
            → Stands accepts a start self xs
            → Proves accepts a start xs (logs_view p.operator p.packages.items) p.checkpoint) }
        ensures sound { IfSome result (λ p. HasSoundLogs self → AreSound p.operator p.packages.items) }
        ensures good { IfSome result (λ p. (accepts : Accepts) (a : Who) (start : Start) (xs : List Exchange)
            → Stands accepts a start self xs
            → IsGoodOperator accepts p.operator × AreGood accepts p.packages.items) }
        ensures given { (accepts : Accepts) (a : Who) (start : Start) (xs : List Exchange)
            → Stands accepts a start self xs → IsSome result ↔ IsProved self }
    {
        match (self.stage, self.checkpoint) {
            (Stage::Proved, Some(checkpoint)) => Some(ProvedInfos {
                operator: self.operator,
                packages: self.packages,
                checkpoint,
            }),
            _ => None,
        }
    }

    /// The request for a page, where more may be asked for.
    fn ask_page(&self, alloc: Global, asker: &Asker<'_>) -> Result<Option<Request>, AskError>
        ensures exact { IfOk result (λ r. self.now.stage ≡ at.Page
            → HaveIds self.now.ids.keys self.now.packages.items
            → r ≡ request_at (asker_view asker.now) self.now) }
        ensures limit { (result ≡ Err IsRoundLimit) ↔ (self.now.pages_left ≡ 0) }
        ensures header { (result ≡ Err IsBadHeader) → CanAsk (asker_view asker.now) → ⊥ }
    {
        if self.pages_left == 0 {
            return Err(AskError::RoundLimit);
        }
        let Some(checkpoint) = &self.checkpoint else {
            return Ok(None);
        };
        let log_length = checkpoint.contents.log_length;
        let logs = logs_behind(alloc, log_length, &self.operator, self.packages.as_slice())?;
        let request = asker.logs_request(alloc, &logs)?;
        Ok(Some(request))
    }

    /// The request for the inclusion of the logs' last records.
    fn ask_inclusion(&self, alloc: Global, asker: &Asker<'_>) -> Result<Option<Request>, AskError>
        ensures exact { IfOk result (λ r. self.now.stage ≡ at.Inclusion
            → AreSound self.now.operator self.now.packages.items
            → r ≡ request_at (asker_view asker.now) self.now) }
        ensures limit { result ≢ Err IsRoundLimit }
        ensures header { (result ≡ Err IsBadHeader) → CanAsk (asker_view asker.now) → ⊥ }
    {
        let Some(checkpoint) = &self.checkpoint else {
            return Ok(None);
        };
        let heads = heads_of(alloc, &self.operator, self.packages.as_slice())?;
        let asked = InclusionRequest {
            log_length: checkpoint.contents.log_length,
            leafs: Sequence::from_vec(heads.indices),
        };
        let request = asker.inclusion_request(alloc, &asked)?;
        Ok(Some(request))
    }

    /// The request for the consistency with an older checkpoint.
    fn ask_consistency(
        &self,
        alloc: Global,
        asker: &Asker<'_>,
        old: &Checkpoint,
    ) -> Result<Option<Request>, AskError>
        ensures exact { IfOk result (λ r. self.now.stage ≡ at.Consistency old.now
            → r ≡ request_at (asker_view asker.now) self.now) }
        ensures limit { result ≢ Err IsRoundLimit }
        ensures header { (result ≡ Err IsBadHeader) → CanAsk (asker_view asker.now) → ⊥ }
    {
        let Some(checkpoint) = &self.checkpoint else {
            return Ok(None);
        };
        let lengths = ConsistencyRequest {
            from: old.log_length,
            to: checkpoint.contents.log_length,
        };
        let request = asker.consistency_request(alloc, &lengths)?;
        Ok(Some(request))
    }

    /// The request that is asked next, unless the update is over.
    ///
    /// Where a page is to be asked for, and no more pages may be, the answer is `RoundLimit`.
    pub fn next_request(&self, alloc: Global, client: &Client) -> Result<Option<Request>, AskError>
        ensures exact { (accepts : Accepts) (a : Who) (start : Start) (xs : List Exchange)
            → Stands accepts a start self.now xs
            → IfOk result (λ r. r ≡ request_at (asker_of client.now self.now) self.now) }
        ensures asks { (accepts : Accepts) (start : Start) (xs : List Exchange)
            → Stands accepts (asker_of client.now self.now) start self.now xs
            → IfOk result (λ r. IfSome r (λ r. Asks (asker_of client.now self.now) start xs r)) }
        ensures over { (accepts : Accepts) (a : Who) (start : Start) (xs : List Exchange)
            → Stands accepts a start self.now xs
            → IfOk result (λ r. IfNone r (IsProved self.now ⊎ IsRefused self.now)) }
        ensures limit { (result ≡ Err IsRoundLimit) ↔ IsAtLimit self.now }
        ensures header { (result ≡ Err IsBadHeader) → CanAsk (asker_of client.now self.now) → ⊥ }
    {
        let asker = Asker {
            url: &client.url,
            token: &client.auth_token,
            registry: self.registry.as_ref(),
        };
        match self.stage {
            Stage::Checkpoint => Ok(Some(asker.checkpoint_request(alloc)?)),
            Stage::Page => self.ask_page(alloc, &asker),
            Stage::Inclusion => self.ask_inclusion(alloc, &asker),
            Stage::Consistency { from } => self.ask_consistency(alloc, &asker, &from),
            Stage::Proved => Ok(None),
            Stage::Refused => Ok(None),
        }
    }

    /// Whether a reply is awaited.
    fn is_asking(&self) -> bool
        ensures silent { result ≡ false → (a : Who) → request_at a self.now ≡ None }
        ensures asks { result ≡ true → (a : Who) → request_at a self.now ≢ None }
    {
        match self.stage {
            Stage::Checkpoint => true,
            Stage::Page => self.pages_left > 0 && self.checkpoint.is_some(),
            Stage::Inclusion => self.checkpoint.is_some(),
            Stage::Consistency { from: _ } => self.checkpoint.is_some(),
            Stage::Proved => false,
            Stage::Refused => false,
        }
    }

    /// Takes the reply to the request for the checkpoint.
    fn feed_checkpoint(&mut self, alloc: Global, reply: &Reply) -> Result<(), UpdateError>
        ensures kept { (accepts : Accepts) → KeepsOn accepts self.old self.new }
        ensures stands { OnOk result ((accepts : Accepts) → self.old.stage ≡ at.Checkpoint
            → Advances accepts self.old reply.now self.new) }
        ensures turns { OnOk result (self.old.stage ≡ at.Checkpoint → turns_left self.new < turns_left self.old) }
        ensures counted { self.old.stage ≡ at.Checkpoint → Counts self.old self.new }
        ensures cause { IfErr result (λ e. (accepts : Accepts) (said : Bool → Bool) → self.old.stage ≡ at.Checkpoint
            → IsFeedFault e accepts said self.old reply.now) }
    {
        self.checkpoint = Some(read_checkpoint(alloc, reply)?);
        self.stage = Stage::Page;
        Ok(())
    }

    /// Takes the reply to the request for a page.
    fn feed_page<V: Verifier, D: Decide>(
        &mut self,
        alloc: Global,
        verifier: &V,
        decide: &mut D,
        reply: &Reply,
    ) -> Result<(), UpdateError>
        ensures kept { KeepsOn (V.good verifier.now) self.old self.new }
        ensures stands { OnOk result (self.old.stage ≡ at.Page
            → Advances (V.good verifier.now) self.old reply.now self.new) }
        ensures turns { OnOk result (self.old.stage ≡ at.Page → turns_left self.new < turns_left self.old) }
        ensures counted { self.old.stage ≡ at.Page → Counts self.old self.new }
        ensures cause { IfErr result (λ e. self.old.stage ≡ at.Page → IsReady (V.good verifier.now) self.old
            → IsFeedFault e (V.good verifier.now) (D.said decide.old decide.new) self.old reply.now) }
        ensures unasked { IsReady (V.good verifier.now) self.old → ¬ AsksDecision self.old reply.now
            → decide.new ≡ decide.old }
    {
        let (Some(left), Some(checkpoint)) = (self.pages_left.checked_sub(1), &self.checkpoint)
        else {
            return Err(UpdateError::NotAsked);
        };
        self.pages_left = left;
        let page = read_page(
            alloc,
            &self.hints,
            decide,
            &self.ids,
            self.packages.as_slice(),
            reply,
        )?;
        self.stage = turn_page(
            alloc,
            verifier,
            &self.ids,
            &mut self.operator,
            &mut self.packages,
            checkpoint,
            &page,
        )?;
        Ok(())
    }

    /// Takes the reply to the request for the inclusion of the logs' last records.
    fn feed_inclusion(&mut self, alloc: Global, reply: &Reply) -> Result<(), UpdateError>
        ensures kept { (accepts : Accepts) → KeepsOn accepts self.old self.new }
        ensures stands { OnOk result ((accepts : Accepts) → self.old.stage ≡ at.Inclusion
            → Advances accepts self.old reply.now self.new) }
        ensures turns { OnOk result (self.old.stage ≡ at.Inclusion → turns_left self.new < turns_left self.old) }
        ensures counted { self.old.stage ≡ at.Inclusion → Counts self.old self.new }
        ensures cause { IfErr result (λ e. (accepts : Accepts) (said : Bool → Bool) → self.old.stage ≡ at.Inclusion
            → IsReady accepts self.old → IsFeedFault e accepts said self.old reply.now) }
    {
        let Some(checkpoint) = &self.checkpoint else {
            return Err(UpdateError::NotAsked);
        };
        let contents = checkpoint.contents;
        show_heads(
            alloc,
            &contents,
            &self.operator,
            self.packages.as_slice(),
            reply,
        )?;
        self.stage = stage_after(self.stored.as_ref(), &contents)?;
        Ok(())
    }

    /// Takes the reply to the request for the consistency with an older checkpoint.
    fn feed_consistency(
        &mut self,
        alloc: Global,
        old: &Checkpoint,
        reply: &Reply,
    ) -> Result<(), UpdateError>
        ensures kept { (accepts : Accepts) → KeepsOn accepts self.old self.new }
        ensures stands { OnOk result ((accepts : Accepts) → self.old.stage ≡ at.Consistency old.now
            → Advances accepts self.old reply.now self.new) }
        ensures turns { OnOk result (self.old.stage ≡ at.Consistency old.now
            → turns_left self.new < turns_left self.old) }
        ensures counted { self.old.stage ≡ at.Consistency old.now → Counts self.old self.new }
        ensures cause { IfErr result (λ e. (accepts : Accepts) (said : Bool → Bool)
            → self.old.stage ≡ at.Consistency old.now → IsFeedFault e accepts said self.old reply.now) }
    {
        let Some(checkpoint) = &self.checkpoint else {
            return Err(UpdateError::NotAsked);
        };
        let contents = checkpoint.contents;
        show_continuation(alloc, old, &contents, reply)?;
        self.stage = Stage::Proved;
        Ok(())
    }

    /// Takes a reply, by the stage.
    fn take_reply<V: Verifier, D: Decide>(
        &mut self,
        alloc: Global,
        verifier: &V,
        decide: &mut D,
        reply: &Reply,
    ) -> Result<(), UpdateError>
        ensures kept { KeepsOn (V.good verifier.now) self.old self.new }
        ensures stands { OnOk result (Advances (V.good verifier.now) self.old reply.now self.new) }
        ensures turns { OnOk result (turns_left self.new < turns_left self.old) }
        ensures counted { Counts self.old self.new }
        ensures cause { IfErr result (λ e. IsReady (V.good verifier.now) self.old
            → IsFeedFault e (V.good verifier.now) (D.said decide.old decide.new) self.old reply.now) }
        ensures unasked { IsReady (V.good verifier.now) self.old → ¬ AsksDecision self.old reply.now
            → decide.new ≡ decide.old }
    {
        match self.stage {
            Stage::Checkpoint => self.feed_checkpoint(alloc, reply),
            Stage::Page => self.feed_page(alloc, verifier, decide, reply),
            Stage::Inclusion => self.feed_inclusion(alloc, reply),
            Stage::Consistency { from } => self.feed_consistency(alloc, &from, reply),
            Stage::Proved => Err(UpdateError::NotAsked),
            Stage::Refused => Err(UpdateError::NotAsked),
        }
    }

    /// Takes the reply to the request that was asked last. A reply that is refused ends the update.
    ///
    /// The first fault is answered, in this order: what the reply says; of a page, each record, the operator's first; of
    /// the last page, that each log has a record, and the checkpoint's signature; of the inclusion, its proofs, and how the
    /// checkpoint stands to the stored one; of the consistency, its proof. Where the log of a package is not found, a
    /// hint at another registry decides between `PackageDoesNotExist` and `NotBuilt`, and the decision is asked where
    /// nothing else says whether the hint would be followed. Where nothing was asked, the answer is `NotAsked`, and
    /// nothing changes.
    pub fn feed<V: Verifier, D: Decide>(
        &mut self,
        alloc: Global,
        verifier: &V,
        decide: &mut D,
        reply: &Reply,
    ) -> Result<(), UpdateError>
        ensures stands { Advances (V.good verifier.now) self.old reply.now self.new }
        ensures sound { HasSoundLogs self.old → HasSoundLogs self.new }
        ensures asker { (client : Asking) → asker_of client self.new ≡ asker_of client self.old }
        ensures hints { hints_of self.new ≡ hints_of self.old }
        ensures turns { OnOk result (turns_left self.new < turns_left self.old) }
        ensures counted { Counts self.old self.new }
        ensures refused { OnErr result ((a : Who) → request_at a self.new ≡ None) }
        ensures unchanged { (a : Who) → request_at a self.old ≡ None
            → (result ≡ Err IsNotAsked) × (self.new ≡ self.old) }
        ensures cause { IfErr result (λ e. (a : Who) (start : Start) (xs : List Exchange)
            → Stands (V.good verifier.now) a start self.old xs
            → IsFeedFault e (V.good verifier.now) (D.said decide.old decide.new) self.old reply.now) }
        ensures unasked { (a : Who) (start : Start) (xs : List Exchange)
            → Stands (V.good verifier.now) a start self.old xs → ¬ AsksDecision self.old reply.now
            → decide.new ≡ decide.old }
    {
        if !self.is_asking() {
            return Err(UpdateError::NotAsked);
        }
        match self.take_reply(alloc, verifier, decide, reply) {
            Ok(()) => Ok(()),
            Err(error) => {
                self.stage = Stage::Refused;
                Err(error)
            }
        }
    }
}
