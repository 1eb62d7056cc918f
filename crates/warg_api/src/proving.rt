//! Calls that ask for proofs, and verify them.

ghost use Rattle.std.specs.Prelude.{◌≡◌, ◌≤◌, ◌⊎◌, Err, OnOk, IfErr, option_copied};
ghost use Rattle.warg_values.specs.Faults.{Rose};
ghost use Rattle.warg_proof.specs.declared.fault.ProofFault.{ProofFault as Fault};
ghost use Rattle.warg_exchange.specs.Replies.{bundles_in, proof_in};
ghost use Rattle.warg_exchange.specs.Requests.{inclusion_request, consistency_request};
ghost use Rattle.warg_verify.specs.Shown.{Includes, Continues};
ghost use Rattle.warg_verify.specs.Faults.{IsInclusionFault, IsConsistencyFault};
ghost use Rattle.warg_api.specs.Asking.{asker};
ghost use Rattle.warg_api.specs.Calls.{Shows, IsCallFault};
ghost use Rattle.warg_api.specs.Errors.{proof_error, inclusion_error as inclusion_error_of, consistency_error as consistency_error_of};
ghost use Rattle.warg_api.specs.declared.error.ClientError.TheVariants.{LinkFault as Faulted};

use crate::ask::call;
use crate::client::Client;
use crate::error::{ClientError, ProofError, consistency_error, inclusion_error};
use crate::link::Link;
use std::alloc::Global;
use warg_exchange::{
    Checkpoint, ConsistencyRequest, ConsistencyResponse, InclusionRequest, InclusionResponse,
};
use warg_hash::AnyHash;
use warg_proof::LogLeaf;
use warg_request::Asker;
use warg_url::RegistryDomain;
use warg_verify::{verify_consistency, verify_inclusion};

impl Client {
    /// Proves that leaves are in a checkpoint's log, and each the last of its log in the checkpoint's map.
    ///
    /// The request has the checkpoint's length, and the index of each leaf in the order of `leafs`. What the registry
    /// refuses is `Proof`. Bundles of another form, or with other proofs than one for each leaf, are
    /// `Proof(BundleFailure)`; a path that gives another root is `Proof(IncorrectProof)`; one for another length or
    /// index, or that lacks a hash, is `InclusionProof`.
    pub fn prove_inclusion<L: Link>(
        &self,
        alloc: Global,
        link: &mut L,
        registry: Option<&RegistryDomain>,
        request: &InclusionRequest,
        checkpoint: &Checkpoint,
        leafs: &[LogLeaf],
    ) -> Result<(), ClientError>
        ensures never_falls { L.faults link.old ≤ L.faults link.new }
        ensures ok { OnOk result (Shows L.Steps (L.told link.old)
            (inclusion_request (asker self.now (option_copied registry.entry)) request.now.log_length request.now.leafs)
            (L.told link.new) bundles_in
            (λ bundles. Includes checkpoint.now request.now.leafs leafs.now bundles)) }
        ensures err { IfErr result (λ e.
            IsCallFault (asker self.now (option_copied registry.entry)) proof_error e L.Steps (L.told link.old)
            (inclusion_request (asker self.now (option_copied registry.entry)) request.now.log_length request.now.leafs)
            (L.told link.new) bundles_in
            ⊎ Shows L.Steps (L.told link.old)
            (inclusion_request (asker self.now (option_copied registry.entry)) request.now.log_length request.now.leafs)
            (L.told link.new) bundles_in
            (λ bundles. (fault : Fault) × (e ≡ inclusion_error_of fault)
            × IsInclusionFault checkpoint.now request.now.leafs leafs.now bundles fault)) }
        ensures link_fault { (result ≡ Err Faulted) → Rose (L.faults link.old) (L.faults link.new) }
    {
        let asker = Asker {
            url: &self.url,
            token: &self.auth_token,
            registry,
        };
        let asked = asker.inclusion_request(alloc, request);
        let bundles = call::<L, InclusionResponse, ProofError>(alloc, link, asked)?;
        match verify_inclusion(alloc, &bundles, checkpoint, request.leafs.as_slice(), leafs) {
            Ok(()) => Ok(()),
            Err(fault) => Err(inclusion_error(fault)),
        }
    }

    /// Proves that a registry's log of one length continues that of another, by their roots.
    ///
    /// What the registry refuses is `Proof`. A bundle of another form, or with other proofs, is `Proof(BundleFailure)`;
    /// a proof that gives another root is `IncorrectConsistencyProof`; one for other lengths, or that lacks a hash, is
    /// `ConsistencyProof`.
    pub fn prove_log_consistency<L: Link>(
        &self,
        alloc: Global,
        link: &mut L,
        registry: Option<&RegistryDomain>,
        request: &ConsistencyRequest,
        from_log_root: &AnyHash,
        to_log_root: &AnyHash,
    ) -> Result<(), ClientError>
        ensures never_falls { L.faults link.old ≤ L.faults link.new }
        ensures ok { OnOk result (Shows L.Steps (L.told link.old)
            (consistency_request (asker self.now (option_copied registry.entry)) request.now.from request.now.to)
            (L.told link.new) proof_in
            (λ shown. Continues request.now.from request.now.to from_log_root.now to_log_root.now shown.proof)) }
        ensures err { IfErr result (λ e.
            IsCallFault (asker self.now (option_copied registry.entry)) proof_error e L.Steps (L.told link.old)
            (consistency_request (asker self.now (option_copied registry.entry)) request.now.from request.now.to)
            (L.told link.new) proof_in
            ⊎ Shows L.Steps (L.told link.old)
            (consistency_request (asker self.now (option_copied registry.entry)) request.now.from request.now.to)
            (L.told link.new) proof_in
            (λ shown. (fault : Fault) × (e ≡ consistency_error_of fault)
            × IsConsistencyFault request.now.from request.now.to from_log_root.now to_log_root.now shown.proof fault)) }
        ensures link_fault { (result ≡ Err Faulted) → Rose (L.faults link.old) (L.faults link.new) }
    {
        let asker = Asker {
            url: &self.url,
            token: &self.auth_token,
            registry,
        };
        let asked = asker.consistency_request(alloc, request);
        let bundle = call::<L, ConsistencyResponse, ProofError>(alloc, link, asked)?;
        match verify_consistency(alloc, &bundle, request, from_log_root, to_log_root) {
            Ok(()) => Ok(()),
            Err(fault) => Err(consistency_error(fault)),
        }
    }
}
