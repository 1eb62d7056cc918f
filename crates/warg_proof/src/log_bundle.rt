//! Bundles of proofs over a log.

ghost use Rattle.std.specs.Prelude.{◌≡◌, ◌≢◌, ◌↔◌, ◌⊎◌, ◌<◌, ◌^◌, List, ℕ, length, IfOk, IfErr, IsOk, IsSome, IsSomeAnd, Err, None, MatchResult};
ghost use Rattle.warg_proof.specs.LogProofs.{LogProofs, bundle_of, IsOfOtherLength, IsOfOtherLeaf, log_text, IsLogBundle, numbered as numbered_proof, only_one as only_proof, asked_inclusion, inclusion_path, AsksInclusion, ProvesInclusion, asked_consistency, consistency_hashes, AsksConsistency, ProvesConsistency, IsOtherRoot};
ghost use Rattle.warg_proof.specs.Reading.{GivesOrForm, log_at, log_rest_at};
ghost use Rattle.warg_proof.specs.Judging.{inclusion_verdict, consistency_verdict};

use crate::fault::ProofFault;
use crate::node::{Consistency, Inclusion, Node};
use crate::ranges::{TOP, rebuilt_root, rebuilt_roots};
use crate::reading::{counted_of, is_ascending};
use crate::verdict::{judge_root, judge_roots};
use crate::writing::push_counted;
use std::alloc::Global;
use std::marker::Model;
use warg_hash::AnyHash;
use warg_values::Memory;

/// A bundle of inclusion proofs, or one consistency proof, over a log, with the hashes that they need.
///
/// A clause sees it as the nodes, the consistencies and the inclusions that it lists.
#[derive(Debug, Drop)]
pub struct LogBundle {
    nodes: Vec<Node>,
    consistencies: Vec<Consistency>,
    inclusions: Vec<Inclusion>,
}

impl Model for LogBundle {
    ghost use Rattle.warg_proof.specs.LogProofs.{LogProofs, bundle_of, IsLogBundle};

    ghost Value = { LogProofs };

    ghost view = { λ b. bundle_of b.nodes.items b.consistencies.items b.inclusions.items };

    ghost invariant = { λ b. IsLogBundle (bundle_of b.nodes.items b.consistencies.items b.inclusions.items) };
}

type Lists = (Vec<Node>, Vec<Consistency>, Vec<Inclusion>);

/// What a bundle lists, read from the bytes after its version.
#[tactic(auto, unfolding(crate::specs::Reading::log_rest_at))]
fn lists_of(alloc: Global, bytes: &[u8]) -> Result<Lists, ProofFault>
    ensures { GivesOrForm (λ x. bundle_of x.0.items x.1.items x.2.items) result (log_rest_at bytes.now) }
{
    let (nodes, rest) = counted_of::<Node>(alloc, bytes)?;
    let (consistencies, rest) = counted_of::<Consistency>(alloc, rest)?;
    let (inclusions, rest) = counted_of::<Inclusion>(alloc, rest)?;
    if !rest.is_empty() || !is_ascending(nodes.as_slice()) {
        return Err(ProofFault::Form);
    }
    Ok((nodes, consistencies, inclusions))
}

/// What a bundle lists, read from all of its bytes.
#[tactic(auto, unfolding(crate::specs::Reading::log_at))]
fn all_of(alloc: Global, bytes: &[u8]) -> Result<Lists, ProofFault>
    ensures { GivesOrForm (λ x. bundle_of x.0.items x.1.items x.2.items) result (log_at bytes.now) }
{
    match bytes {
        [0, rest @ ..] => lists_of(alloc, rest),
        _ => Err(ProofFault::Form),
    }
}

/// The inclusion proof of a number, in a bundle without consistency proofs.
fn numbered(consistencies: &[Consistency], inclusions: &[Inclusion], at: usize) -> Option<Inclusion>
    ensures { result ≡ numbered_proof consistencies.now inclusions.now at }
{
    match consistencies {
        [] => inclusions.get(at).copied(),
        [_, ..] => None,
    }
}

/// The one proof of a bundle that holds a consistency proof and nothing else.
fn only_one(consistencies: &[Consistency], inclusions: &[Inclusion]) -> Option<Consistency>
    ensures { result ≡ only_proof consistencies.now inclusions.now }
{
    match (consistencies, inclusions) {
        ([asked], []) => Some(*asked),
        _ => None,
    }
}

impl LogBundle {
    /// The bundle that the bytes are, all of them.
    ///
    /// The bytes are a byte 0, the nodes, the consistencies and the inclusions, each as a count in four bytes and as
    /// many values. A node is a level in one byte, a place in eight and a hash of 32 bytes, and nodes ascend strictly
    /// by level and then by place. A consistency is two lengths, an inclusion a length and an index, each in eight
    /// bytes. The highest byte of a number comes first. Any other bytes are `Form`.
    pub fn decode(alloc: Global, bytes: &[u8]) -> Result<LogBundle, ProofFault>
        // What is read is a bundle with these bytes.
        ensures found { IfOk result (λ bundle. IsLogBundle bundle × (bytes.now ≡ log_text bundle)) }
        // A bundle with these bytes is read, unless memory runs out.
        ensures only { (bundle : LogProofs) → IsLogBundle bundle → bytes.now ≡ log_text bundle
            → MatchResult result (λ found. found ≡ bundle) (λ fault. fault ≡ ProofFault.Memory) }
        ensures err { IfErr result (λ fault. (fault ≡ ProofFault.Form) ⊎ (fault ≡ ProofFault.Memory)) }
    {
        let (nodes, consistencies, inclusions) = all_of(alloc, bytes)?;
        Ok(LogBundle {
            nodes,
            consistencies,
            inclusions,
        })
    }

    /// The bundle's bytes, which `decode` reads as this bundle.
    pub fn encode(&self, alloc: Global) -> Result<Vec<u8>, Memory>
        ensures { IfOk result (λ bytes. bytes.items ≡ log_text self.now) }
    {
        let mut bytes = Vec::new(alloc);
        bytes.push(0)?;
        push_counted(&mut bytes, self.nodes.as_slice())?;
        push_counted(&mut bytes, self.consistencies.as_slice())?;
        push_counted(&mut bytes, self.inclusions.as_slice())?;
        Ok(bytes)
    }

    /// The bytes of a bundle of these nodes, consistencies and inclusions, which `decode` reads where the nodes ascend.
    pub fn write(
        alloc: Global,
        nodes: &[Node],
        consistencies: &[Consistency],
        inclusions: &[Inclusion],
    ) -> Result<Vec<u8>, Memory>
        requires few_nodes { length nodes.now < 2 ^ 32 }
        requires few_consistencies { length consistencies.now < 2 ^ 32 }
        requires few_inclusions { length inclusions.now < 2 ^ 32 }
        ensures { IfOk result (λ bytes.
            bytes.items ≡ log_text (bundle_of nodes.now consistencies.now inclusions.now)) }
    {
        let mut bytes = Vec::new(alloc);
        bytes.push(0)?;
        push_counted(&mut bytes, nodes)?;
        push_counted(&mut bytes, consistencies)?;
        push_counted(&mut bytes, inclusions)?;
        Ok(bytes)
    }

    /// How many consistencies and how many inclusions the bundle has proofs of.
    pub fn counts(&self) -> (usize, usize)
        ensures counts { result ≡ (length self.now.consistencies, length self.now.inclusions) }
        ensures formed { IsLogBundle self.now }
    {
        (self.consistencies.len(), self.inclusions.len())
    }

    /// Whether the bundle's inclusion proof of number `at` proves that `entry` is the entry at `index` of a log of
    /// `length` entries with this root (RFC 6962, section 2.1.1).
    ///
    /// It takes no memory. The first of these faults is answered:
    ///
    /// - `WrongCount`: the bundle has no inclusion proof of that number, or it has consistency proofs.
    /// - `WrongLength`: the proof is for a log of another length.
    /// - `WrongLeaf`: the proof is for another index, or the index is not below the length.
    /// - `MissingHash`: the bundle lacks a node that the path needs.
    /// - `OtherRoot`: the path gives another root.
    pub fn inclusion(
        &self,
        at: usize,
        length: u64,
        index: u64,
        entry: &[u8],
        root: &AnyHash,
    ) -> Result<(), ProofFault>
        ensures ok { IsOk result ↔ ProvesInclusion self.now at length index entry.now root.now }
        ensures wrong_count { (result ≡ Err ProofFault.WrongCount)
            ↔ (asked_inclusion self.now at ≡ None) }
        ensures wrong_length { (result ≡ Err ProofFault.WrongLength)
            ↔ IsSomeAnd (asked_inclusion self.now at) (IsOfOtherLength length) }
        ensures wrong_leaf { (result ≡ Err ProofFault.WrongLeaf)
            ↔ IsSomeAnd (asked_inclusion self.now at) (IsOfOtherLeaf length index) }
        ensures missing_hash { (result ≡ Err ProofFault.MissingHash)
            ↔ (AsksInclusion self.now at length index × (inclusion_path self.now length index ≡ None)) }
        ensures other_root { (given found : List ℕ) → (result ≡ Err (ProofFault.OtherRoot given found))
            ↔ ((given ≡ root.now) × (found ≢ root.now)
            × ProvesInclusion self.now at length index entry.now found) }
        ensures judged { (result ≢ Err ProofFault.Form) × (result ≢ Err ProofFault.Memory) }
    {
        self.judge_inclusion(at, length, index, entry, root)
    }

    fn judge_inclusion(
        &self,
        at: usize,
        length: u64,
        index: u64,
        entry: &[u8],
        root: &AnyHash,
    ) -> Result<(), ProofFault>
        ensures verdict { result ≡ inclusion_verdict self.now at length index entry.now root.now }
        ensures formed { IsLogBundle self.now }
    {
        let (consistencies, inclusions) = (
            self.consistencies.as_slice(),
            self.inclusions.as_slice(),
        );
        let Some(asked) = numbered(consistencies, inclusions, at) else {
            return Err(ProofFault::WrongCount);
        };
        if asked.log_length != length {
            return Err(ProofFault::WrongLength);
        }
        if asked.index != index || length <= index {
            return Err(ProofFault::WrongLeaf);
        }
        judge_root(
            rebuilt_root(self.nodes.as_slice(), TOP, 0, length, index, entry),
            root,
        )
    }

    /// Whether the bundle's one proof, of a consistency, proves that the log of length `from` with the root `from_root`
    /// is the beginning of that of length `to` with the root `to_root` (RFC 6962, section 2.1.2).
    ///
    /// It takes no memory. The first of these faults is answered:
    ///
    /// - `WrongCount`: the bundle does not hold exactly one consistency proof and nothing else.
    /// - `WrongLength`: the proof is for other lengths, or `from` is 0 or past `to`.
    /// - `MissingHash`: the bundle lacks a node that the proof needs.
    /// - `OtherRoot`: the proof gives another old root, or else another new one.
    pub fn consistency(
        &self,
        from: u64,
        to: u64,
        from_root: &AnyHash,
        to_root: &AnyHash,
    ) -> Result<(), ProofFault>
        ensures ok { IsOk result ↔ ProvesConsistency self.now from to from_root.now to_root.now }
        ensures wrong_count { (result ≡ Err ProofFault.WrongCount)
            ↔ (asked_consistency self.now ≡ None) }
        ensures wrong_length { (result ≡ Err ProofFault.WrongLength)
            ↔ (IsSome (asked_consistency self.now) × ¬ AsksConsistency self.now from to) }
        ensures missing_hash { (result ≡ Err ProofFault.MissingHash)
            ↔ (AsksConsistency self.now from to × (consistency_hashes self.now from to ≡ None)) }
        ensures other_root { (given found : List ℕ) → (result ≡ Err (ProofFault.OtherRoot given found))
            ↔ IsOtherRoot self.now from to from_root.now to_root.now given found }
        ensures judged { (result ≢ Err ProofFault.WrongLeaf) × (result ≢ Err ProofFault.Form)
            × (result ≢ Err ProofFault.Memory) }
    {
        self.judge_consistency(from, to, from_root, to_root)
    }

    fn judge_consistency(
        &self,
        from: u64,
        to: u64,
        from_root: &AnyHash,
        to_root: &AnyHash,
    ) -> Result<(), ProofFault>
        ensures verdict { result ≡ consistency_verdict self.now from to from_root.now to_root.now }
        ensures formed { IsLogBundle self.now }
    {
        let (consistencies, inclusions) = (
            self.consistencies.as_slice(),
            self.inclusions.as_slice(),
        );
        let Some(asked) = only_one(consistencies, inclusions) else {
            return Err(ProofFault::WrongCount);
        };
        if asked.old_length != from || asked.new_length != to || from == 0 || to < from {
            return Err(ProofFault::WrongLength);
        }
        judge_roots(
            rebuilt_roots(self.nodes.as_slice(), TOP, 0, from, to),
            from_root,
            to_root,
        )
    }
}
