//! Small logs of a package and of an operator. Their records are bytes that Python wrote, and the digests are computed by
//! Python's `hashlib`.

use semver::{Version, VersionReq};
use std::alloc::Global;
use std::test::Fail;
use test_check::{holds, is_text};
use warg_log::operator::{LogState as OperatorState, OperatorEntry};
use warg_log::package::LogState;
use warg_log::{
    AnyHash, Envelope, ListedSigner, ListedVerifier, NamespaceState, PackageRecord, PublicKey,
    Record, Release, SignError, Signature, Signer, ValidationError, Verifier,
};
use warg_values::Text;

/// The id of the first record.
const FIRST_ID: &str = "sha256:96821d936df6b0494b21fac7f5ef251be58d55d1f6198e13ba57f64a778d05c5";

/// The SHA-256 of the text that is signed for it.
const SIGNED_DIGEST: &str =
    "sha256:574e087e8d46c185a6f9b94342966d3732010c1ccc1567050f54ed71cdcac0cb";

/// The id of the key `k:AA==`.
const KEY_ID: &str = "sha256:4efe654bc30051152bd60218d04e883ec1e6b92f39f8623b4caa049a90f71205";

/// The id of the key `k:BA==`.
const OTHER_ID: &str = "sha256:f6a34b9d6898ee770745f9a04b1cc8bb4222a92da9aa921d8bf29d0cf0564ebf";

/// The SHA-256 of `a text`.
const TEXT_DIGEST: &str = "sha256:734194ede5b063e654d63cb95a682ca1551b45e3cc86e88f1a85c1286eedd4ac";

/// Init with the key `k:AA==`, releases of 1.0.0 and 1.1.0, and a yank of 1.1.0.
const FIRST: &[u8] = b"\
    \x1a\x02\x08\x01\x22\x12\x0a\x10\x0a\x06k:AA==\x12\x06sha256\x22R\x22P\x0a\x051.0.0\x12Gsha256:92521fc3cbd96\
    4bdc9f584a991b89fddaa5754ed1cc96d6d42445338669c1305\x22R\x22P\x0a\x051.1.0\x12Gsha256:7fbd210ebec11f65a97190\
    ef900795c4b8da3805af3f5a1b8d1d272556b292ca\x22\x09*\x07\x0a\x051.1.0";

/// Init, releases of 1.2.0, 1.10.0, 2.0.0-rc.1 and 1.11.0, and a yank of 1.11.0.
const NUMBERS: &[u8] = b"\
    \x1a\x02\x08\x01\x22\x12\x0a\x10\x0a\x06k:AA==\x12\x06sha256\x22R\x22P\x0a\x051.2.0\x12Gsha256:9f77034b1eb57\
    d24f21ac7deb65c9cc99f63b72775e311f1f280ab2b6c2e06a2\x22S\x22Q\x0a\x061.10.0\x12Gsha256:e91dee3b412922e56d788\
    d757cd30eaaae92b0846323abdb99eeb58b9cfe30c1\x22W\x22U\x0a\x0a2.0.0-rc.1\x12Gsha256:f6136960062333a3fc2057263\
    d36eab32360adea7b3b2dfb1d6ab4442991f755\x22S\x22Q\x0a\x061.11.0\x12Gsha256:f1deeb62e209be1a1fa35478861037ecd\
    c5d1ad1d6f8fd692680f7f5cb1a4991\x22\x0a*\x08\x0a\x061.11.0";

/// Init, and releases of 1.0.0-rc.2+1, 1.0.0-rc.2+2 and 1.0.0-rc.1.
const CANDIDATES: &[u8] = b"\
    \x1a\x02\x08\x01\x22\x12\x0a\x10\x0a\x06k:AA==\x12\x06sha256\x22Y\x22W\x0a\x0c1.0.0-rc.2+1\x12Gsha256:48e9de\
    f4eb0037dddfee69677a78ed24422e53ecb7d00beeeee1bae108e364ee\x22Y\x22W\x0a\x0c1.0.0-rc.2+2\x12Gsha256:e16a3444\
    523cbc658738f58825eb553aa4e4675dbec773b6fc01ce26a63d65b1\x22W\x22U\x0a\x0a1.0.0-rc.1\x12Gsha256:8fe5d2b604b1\
    137eb59bd086b7528c06d258135e58b84fbf3b3c0d9e1d14b375";

/// Init, and releases of 1.0.0, 1.0.0+1 and 1.1.0.
const BUILDS: &[u8] = b"\
    \x1a\x02\x08\x01\x22\x12\x0a\x10\x0a\x06k:AA==\x12\x06sha256\x22R\x22P\x0a\x051.0.0\x12Gsha256:92521fc3cbd96\
    4bdc9f584a991b89fddaa5754ed1cc96d6d42445338669c1305\x22T\x22R\x0a\x071.0.0+1\x12Gsha256:20a7a6ab9c5348aef49e\
    6e7873511d13d9516efadddfa1a01e14bdfce8f4e894\x22R\x22P\x0a\x051.1.0\x12Gsha256:7fbd210ebec11f65a97190ef90079\
    5c4b8da3805af3f5a1b8d1d272556b292ca";

/// A release of 1.2.0 after the first record, at the same time.
const NEXT: &[u8] = b"\
    \x0aGsha256:96821d936df6b0494b21fac7f5ef251be58d55d1f6198e13ba57f64a778d05c5\x1a\x02\x08\x01\x22R\x22P\x0a\
    \x051.2.0\x12Gsha256:9f77034b1eb57d24f21ac7deb65c9cc99f63b72775e311f1f280ab2b6c2e06a2";

/// The same in a record of another version of the form.
const OTHER_FORM: &[u8] = b"\
    \x0aGsha256:96821d936df6b0494b21fac7f5ef251be58d55d1f6198e13ba57f64a778d05c5\x10\x01\x1a\x02\x08\x01\x22R\
    \x22P\x0a\x051.2.0\x12Gsha256:9f77034b1eb57d24f21ac7deb65c9cc99f63b72775e311f1f280ab2b6c2e06a2";

/// The same without the record before it.
const NOT_BEHIND: &[u8] = b"\
    \x1a\x02\x08\x01\x22R\x22P\x0a\x051.2.0\x12Gsha256:9f77034b1eb57d24f21ac7deb65c9cc99f63b72775e311f1f280ab2b6\
    c2e06a2";

/// The same a second earlier.
const EARLIER: &[u8] = b"\
    \x0aGsha256:96821d936df6b0494b21fac7f5ef251be58d55d1f6198e13ba57f64a778d05c5\x1a\x00\x22R\x22P\x0a\x051.2.0\
    \x12Gsha256:9f77034b1eb57d24f21ac7deb65c9cc99f63b72775e311f1f280ab2b6c2e06a2";

/// The permission to yank for the key `k:BA==`.
const GRANT: &[u8] = b"\
    \x0aGsha256:96821d936df6b0494b21fac7f5ef251be58d55d1f6198e13ba57f64a778d05c5\x1a\x02\x08\x01\x22\x10\x12\x0e\
    \x0a\x06k:BA==\x12\x04yank";

/// Init again.
const INIT_AGAIN: &[u8] = b"\
    \x0aGsha256:96821d936df6b0494b21fac7f5ef251be58d55d1f6198e13ba57f64a778d05c5\x1a\x02\x08\x01\x22\x12\x0a\x10\
    \x0a\x06k:AA==\x12\x06sha256";

/// A release of 1.1.0 again.
const RELEASE_AGAIN: &[u8] = b"\
    \x0aGsha256:96821d936df6b0494b21fac7f5ef251be58d55d1f6198e13ba57f64a778d05c5\x1a\x02\x08\x01\x22R\x22P\x0a\
    \x051.1.0\x12Gsha256:7fbd210ebec11f65a97190ef900795c4b8da3805af3f5a1b8d1d272556b292ca";

/// A yank of 2.0.0.
const YANK_UNRELEASED: &[u8] = b"\
    \x0aGsha256:96821d936df6b0494b21fac7f5ef251be58d55d1f6198e13ba57f64a778d05c5\x1a\x02\x08\x01\x22\x09*\x07\
    \x0a\x052.0.0";

/// A yank of 1.1.0 again.
const YANK_AGAIN: &[u8] = b"\
    \x0aGsha256:96821d936df6b0494b21fac7f5ef251be58d55d1f6198e13ba57f64a778d05c5\x1a\x02\x08\x01\x22\x09*\x07\
    \x0a\x051.1.0";

/// The permission to release is taken from the key `k:AA==`, which then releases 1.2.0.
const REVOKE_AND_RELEASE: &[u8] = b"\
    \x0aGsha256:96821d936df6b0494b21fac7f5ef251be58d55d1f6198e13ba57f64a778d05c5\x1a\x02\x08\x01\x22T\x1aR\x0aGs\
    ha256:4efe654bc30051152bd60218d04e883ec1e6b92f39f8623b4caa049a90f71205\x12\x07release\x22R\x22P\x0a\x051.2.0\
    \x12Gsha256:9f77034b1eb57d24f21ac7deb65c9cc99f63b72775e311f1f280ab2b6c2e06a2";

/// A first record that begins with a release.
const WITHOUT_INIT: &[u8] = b"\
    \x1a\x02\x08\x01\x22R\x22P\x0a\x051.0.0\x12Gsha256:92521fc3cbd964bdc9f584a991b89fddaa5754ed1cc96d6d424453386\
    69c1305";

/// A first record that asks for another hash.
const OTHER_HASH: &[u8] = b"\x1a\x02\x08\x01\x22\x12\x0a\x10\x0a\x06k:AA==\x12\x06sha512";

/// A registry's log: Init, and the namespace `a`.
const NAMESPACE: &[u8] =
    b"\x1a\x02\x08\x01\x22\x12\x0a\x10\x0a\x06k:AA==\x12\x06sha256\x22\x05\x22\x03\x0a\x01a";

/// The same, and the namespace `a` again, from the registry `r`.
const NAMESPACE_AGAIN: &[u8] = b"\
    \x1a\x02\x08\x01\x22\x12\x0a\x10\x0a\x06k:AA==\x12\x06sha256\x22\x05\x22\x03\x0a\x01a\x22\x08*\x06\x0a\x01a\
    \x12\x01r";

/// Accepts every signature.
#[derive(Debug, Drop)]
struct EverySignature;

impl Verifier for EverySignature {
    ghost use Rattle.std.specs.Prelude.{true};

    ghost good = { λ verifier key text signature. true };

    fn accepts(&self, _key: &PublicKey, _text: &[u8], _signature: &Signature) -> bool {
        true
    }
}

/// The record of these contents, by the signer with this id, and the signature `k:BA==`.
fn read(alloc: Global, contents: &[u8], signer: &str) -> Result<Envelope<PackageRecord>, Fail> {
    Ok(Envelope::read(alloc, contents, signer, "k:BA==")?)
}

/// The name of an error.
fn name_of(error: &ValidationError) -> &'static str {
    match error {
        ValidationError::ProtocolVersion { .. } => "ProtocolVersion",
        ValidationError::PreviousRecord { .. } => "PreviousRecord",
        ValidationError::TimeLower { .. } => "TimeLower",
        ValidationError::FirstEntryNotInit => "FirstEntryNotInit",
        ValidationError::UnknownKey { .. } => "UnknownKey",
        ValidationError::BadSignature { .. } => "BadSignature",
        ValidationError::InitAgain => "InitAgain",
        ValidationError::HashAlgorithm { .. } => "HashAlgorithm",
        ValidationError::Unpermitted { .. } => "Unpermitted",
        ValidationError::ReleaseAgain { .. } => "ReleaseAgain",
        ValidationError::YankUnreleased { .. } => "YankUnreleased",
        ValidationError::YankYanked { .. } => "YankYanked",
        ValidationError::NamespaceTaken { .. } => "NamespaceTaken",
        ValidationError::Memory => "Memory",
    }
}

/// The name of the error of an answer, or `accepted`.
fn name_in(answer: &Result<(), ValidationError>) -> &'static str {
    match answer {
        Ok(()) => "accepted",
        Err(error) => name_of(error),
    }
}

/// What a state answers to a record. It stands alone, since a call brings its whole contract with it.
fn validated<V: Verifier>(
    alloc: Global,
    verifier: &V,
    state: &mut LogState,
    next: &Envelope<PackageRecord>,
) -> Result<(), ValidationError> {
    state.validate(alloc, verifier, next)
}

/// The name of what a state answers to a record. It holds the answer alone, which is dropped here.
fn name_of_answer<V: Verifier>(
    alloc: Global,
    verifier: &V,
    state: &mut LogState,
    next: &Envelope<PackageRecord>,
) -> &'static str {
    name_in(&validated(alloc, verifier, state, next))
}

/// What a state answers to a record: the name of the error, or `accepted`.
fn judged<V: Verifier>(
    alloc: Global,
    verifier: &V,
    state: &mut LogState,
    contents: &[u8],
    signer: &str,
) -> Result<&'static str, Fail> {
    let next = read(alloc, contents, signer)?;
    Ok(name_of_answer(alloc, verifier, state, &next))
}

/// Enters the first record of a log, whatever its signature.
fn enter(alloc: Global, state: &mut LogState, contents: &[u8]) -> Result<(), Fail> {
    let name = judged(alloc, &EverySignature, state, contents, KEY_ID)?;
    is_text(name, "accepted")
}

/// The state of a log of one record.
fn state_of(alloc: Global, contents: &[u8]) -> Result<LogState, Fail> {
    let mut state = LogState::new(alloc);
    enter(alloc, &mut state, contents)?;
    Ok(state)
}

/// The verifier that knows the one good signature of the first record.
fn listed(alloc: Global) -> Result<ListedVerifier, Fail> {
    let digest = AnyHash::from_text(alloc, SIGNED_DIGEST)?;
    let key = PublicKey::new(alloc, "k:AA==")?;
    let triple = (key, digest, Signature::new(alloc, "k:BA==")?);
    Ok(ListedVerifier::new(vec![in alloc; triple]?))
}

/// Fails where the head's id has another text.
fn has_head(alloc: Global, state: &LogState, id: &str) -> Result<(), Fail> {
    let head = state.head().ok_or("a head")?;
    is_text(head.digest.text(alloc)?.as_str(), id)
}

/// Fails where the first record is not accepted by a verifier, or the head's id then has another text.
fn is_first(alloc: Global, verifier: &ListedVerifier, id: &str) -> Result<(), Fail> {
    let mut state = LogState::new(alloc);
    is_text(
        judged(alloc, verifier, &mut state, FIRST, KEY_ID)?,
        "accepted",
    )?;
    has_head(alloc, &state, id)
}

#[test]
fn a_listed_signature_is_good(rt: HostRuntime) -> Result<(), Fail> {
    let verifier = listed(rt.alloc())?;
    is_first(rt.alloc(), &verifier, FIRST_ID)
}

/// A version, where it is given.
fn version(alloc: Global, text: Option<&str>) -> Result<Option<Version>, Fail> {
    match text {
        Some(text) => Ok(Some(Version::parse(alloc, text)?)),
        None => Ok(None),
    }
}

/// Fails where a release has another version than this; it is empty where there is to be none.
fn is_version(alloc: Global, found: Option<&Release>, want: &str) -> Result<(), Fail> {
    match found {
        Some(found) => is_text(&format!(in alloc; "{}", found.version)?, want),
        None => is_text("", want),
    }
}

/// Fails where the latest release that meets a requirement has another version.
fn has_latest(alloc: Global, state: &LogState, requirement: &str, want: &str) -> Result<(), Fail> {
    let requirement = VersionReq::parse(alloc, requirement)?;
    is_version(alloc, state.find_latest_release(&requirement), want)
}

/// Contents of logs of one record, requirements, and the versions of the latest releases that meet them; empty where
/// there is none.
const LATEST: &[(&[u8], &str, &str)] = &[
    (FIRST, "*", "1.0.0"),
    (NUMBERS, ">=1.0.0", "1.10.0"),
    (CANDIDATES, "*", ""),
    (CANDIDATES, ">=1.0.0-rc.1", "1.0.0-rc.2+2"),
];

/// Fails at the first log whose latest release that meets a requirement has another version.
fn have_latest(alloc: Global, rows: &[(&[u8], &str, &str)]) -> Result<(), Fail> {
    for (contents, requirement, want) in rows {
        let state = state_of(alloc, contents)?;
        has_latest(alloc, &state, requirement, want)?;
    }
    Ok(())
}

#[test]
fn the_greatest_open_release_is_chosen(rt: HostRuntime) -> Result<(), Fail> {
    have_latest(rt.alloc(), LATEST)
}

/// The version and the text whose digest is asked for, where they are given, and the version that is found; empty where
/// there is none.
const FOUND: &[(Option<&str>, Option<&str>, &str)] = &[
    (None, None, "1.1.0"),
    (Some("1.0.0"), None, "1.0.0"),
    (Some("1.0.0+1"), None, "1.0.0+1"),
    (None, Some("1.0.0"), "1.0.0"),
    (Some("1.0.0"), Some("1.0.0+1"), ""),
    (Some("1.2.0"), None, ""),
];

/// Fails where the release that meets a requirement, and has this version and the digest of this version's text, where
/// they are given, has another version.
fn is_found(
    alloc: Global,
    state: &LogState,
    requirement: &VersionReq,
    row: &(Option<&str>, Option<&str>, &str),
) -> Result<(), Fail> {
    let (exact, content, want) = row;
    let exact = version(alloc, *exact)?;
    let digest = content.map(|text| AnyHash::sha256_of(text.as_bytes()));
    let found = state.find_release(requirement, exact.as_ref(), digest.as_ref());
    is_version(alloc, found, want)
}

/// Fails at the first row in which another release is found.
fn are_found(
    alloc: Global,
    state: &LogState,
    rows: &[(Option<&str>, Option<&str>, &str)],
) -> Result<(), Fail> {
    let requirement = VersionReq::parse(alloc, "*")?;
    for row in rows {
        is_found(alloc, state, &requirement, row)?;
    }
    Ok(())
}

#[test]
fn a_release_is_found_by_its_version_and_its_digest(rt: HostRuntime) -> Result<(), Fail> {
    let state = state_of(rt.alloc(), BUILDS)?;
    are_found(rt.alloc(), &state, FOUND)
}

/// What is answered of a record after the first one.
fn second_answer(alloc: Global, contents: &[u8], signer: &str) -> Result<&'static str, Fail> {
    let mut state = state_of(alloc, FIRST)?;
    judged(alloc, &EverySignature, &mut state, contents, signer)
}

/// Records after the first one, their signers, and what is answered.
const SECONDS: &[(&[u8], &str, &str)] = &[
    (NEXT, KEY_ID, "accepted"),
    (OTHER_FORM, KEY_ID, "ProtocolVersion"),
    (NOT_BEHIND, KEY_ID, "PreviousRecord"),
    (EARLIER, KEY_ID, "TimeLower"),
    (NEXT, OTHER_ID, "UnknownKey"),
];

/// Records after the first one by its signer, and what is answered of their entries.
const ENTRIES: &[(&[u8], &str)] = &[
    (GRANT, "accepted"),
    (INIT_AGAIN, "InitAgain"),
    (RELEASE_AGAIN, "ReleaseAgain"),
    (YANK_UNRELEASED, "YankUnreleased"),
    (YANK_AGAIN, "YankYanked"),
    (REVOKE_AND_RELEASE, "Unpermitted"),
];

/// Fails at the first record of which something else is answered after the first one.
fn are_answered(alloc: Global, rows: &[(&[u8], &str, &str)]) -> Result<(), Fail> {
    for (contents, signer, want) in rows {
        is_text(second_answer(alloc, contents, signer)?, want)?;
    }
    Ok(())
}

/// Fails at the first record of which something else is answered after the first one, where its signer is the same.
fn are_judged(alloc: Global, rows: &[(&[u8], &str)]) -> Result<(), Fail> {
    for (contents, want) in rows {
        is_text(second_answer(alloc, contents, KEY_ID)?, want)?;
    }
    Ok(())
}

#[test]
fn the_rules_of_a_record_against_the_head_are_checked(rt: HostRuntime) -> Result<(), Fail> {
    are_answered(rt.alloc(), SECONDS)
}

#[test]
fn the_rules_of_entries_are_checked(rt: HostRuntime) -> Result<(), Fail> {
    are_judged(rt.alloc(), ENTRIES)
}

/// What is answered of a record whose signature nobody lists.
fn answer_without_signature(alloc: Global) -> Result<&'static str, Fail> {
    let mut state = state_of(alloc, FIRST)?;
    let verifier = ListedVerifier::new(Vec::new(alloc));
    judged(alloc, &verifier, &mut state, NEXT, KEY_ID)
}

/// What is answered of a log's first record.
fn first_answer(alloc: Global, contents: &[u8]) -> Result<&'static str, Fail> {
    let mut state = LogState::new(alloc);
    judged(alloc, &EverySignature, &mut state, contents, KEY_ID)
}

#[test]
fn signatures_and_first_records_are_checked(rt: HostRuntime) -> Result<(), Fail> {
    let alloc = rt.alloc();
    is_text(answer_without_signature(alloc)?, "BadSignature")?;
    is_text(first_answer(alloc, WITHOUT_INIT)?, "FirstEntryNotInit")?;
    is_text(first_answer(alloc, OTHER_HASH)?, "HashAlgorithm")
}

/// Fails where the error of an answer has another text; it is empty where a record is accepted.
fn has_error(alloc: Global, answer: &Result<(), ValidationError>, want: &str) -> Result<(), Fail> {
    match answer {
        Ok(()) => is_text("", want),
        Err(error) => is_text(&format!(in alloc; "{error}")?, want),
    }
}

/// Fails where the error of a record has another text. It holds the answer alone, which is dropped here.
fn is_told(
    alloc: Global,
    state: &mut LogState,
    next: &Envelope<PackageRecord>,
    want: &str,
) -> Result<(), Fail> {
    has_error(alloc, &validated(alloc, &EverySignature, state, next), want)
}

/// Fails where the error of a record after the first one has another text.
fn is_second_told(alloc: Global, contents: &[u8], want: &str) -> Result<(), Fail> {
    let mut state = state_of(alloc, FIRST)?;
    let next = read(alloc, contents, KEY_ID)?;
    is_told(alloc, &mut state, &next, want)
}

#[test]
fn an_error_tells_times_as_people_read_them(rt: HostRuntime) -> Result<(), Fail> {
    is_second_told(
        rt.alloc(),
        EARLIER,
        "the record's time 1970-01-01T00:00:00Z is before the head's, 1970-01-01T00:00:01Z: \
        publish it with a later time",
    )
}

/// The first record alone, as a log.
fn first_records(alloc: Global) -> Result<Vec<Envelope<PackageRecord>>, Fail> {
    let mut envs = Vec::new(alloc);
    envs.push(read(alloc, FIRST, KEY_ID)?)?;
    Ok(envs)
}

/// The state of the replayed log of the first record.
fn replay(alloc: Global) -> Result<LogState, Fail> {
    let envs = first_records(alloc)?;
    let state = LogState::replay(alloc, envs.as_slice())?;
    Ok(state.ok_or("a lawful log")?)
}

/// Fails where a replayed log of the first record has not two releases, or that record follows itself.
fn is_replayed(alloc: Global) -> Result<(), Fail> {
    let mut state = replay(alloc)?;
    holds(state.releases().len() == 2, "two releases are replayed")?;
    let name = judged(alloc, &EverySignature, &mut state, FIRST, KEY_ID)?;
    is_text(name, "PreviousRecord")
}

#[test]
fn a_first_record_is_not_its_own_second(rt: HostRuntime) -> Result<(), Fail> {
    is_replayed(rt.alloc())?;
    is_text(second_answer(rt.alloc(), FIRST, KEY_ID)?, "PreviousRecord")
}

/// The record of a registry's log of these contents.
fn read_operator(alloc: Global, contents: &[u8]) -> Result<Envelope<Record<OperatorEntry>>, Fail> {
    Ok(Envelope::read(alloc, contents, KEY_ID, "k:BA==")?)
}

/// What a registry's log answers to a record. It stands alone, since a call brings its whole contract with it.
fn validated_operator(
    alloc: Global,
    state: &mut OperatorState,
    next: &Envelope<Record<OperatorEntry>>,
) -> Result<(), ValidationError> {
    state.validate(alloc, &EverySignature, next)
}

/// The name of what a registry's log answers to a record. It holds the answer alone, which is dropped here.
fn name_of_operator_answer(
    alloc: Global,
    state: &mut OperatorState,
    next: &Envelope<Record<OperatorEntry>>,
) -> &'static str {
    name_in(&validated_operator(alloc, state, next))
}

/// Whether a registry's log defines a namespace, where something is known of it.
fn defines(state: &OperatorState, namespace: &str) -> Option<bool> {
    let known = state.namespace_state(namespace);
    known.map(|state| matches!(state, NamespaceState::Defined))
}

/// Fails where something else is answered of a registry's log of one record, or it defines a namespace otherwise, where
/// something is known of it.
fn is_named(
    alloc: Global,
    contents: &[u8],
    namespace: &str,
    want: (&str, Option<bool>),
) -> Result<(), Fail> {
    let next = read_operator(alloc, contents)?;
    let mut state = OperatorState::new(alloc);
    let answer = name_of_operator_answer(alloc, &mut state, &next);
    holds((answer, defines(&state, namespace)) == want, want.0)
}

#[test]
fn a_namespace_is_taken_once(rt: HostRuntime) -> Result<(), Fail> {
    let alloc = rt.alloc();
    is_named(alloc, NAMESPACE, "a", ("accepted", Some(true)))?;
    is_named(alloc, NAMESPACE, "b", ("accepted", None))?;
    is_named(alloc, NAMESPACE_AGAIN, "a", ("NamespaceTaken", None))
}

/// The signatures `k:BA==` of `a text` and `k:CA==` of `k:AA==`.
fn signatures(alloc: Global) -> Result<Vec<(AnyHash, Signature)>, Fail> {
    let text = AnyHash::from_text(alloc, TEXT_DIGEST)?;
    let other = AnyHash::from_text(alloc, KEY_ID)?;
    let mut list = Vec::new(alloc);
    list.push((text, Signature::new(alloc, "k:BA==")?))?;
    list.push((other, Signature::new(alloc, "k:CA==")?))?;
    Ok(list)
}

/// A signer of `a text` and of `k:AA==`, whose second call fails.
fn listed_signer(alloc: Global) -> Result<ListedSigner, Fail> {
    let key = PublicKey::new(alloc, "k:AA==")?;
    let mut signer = ListedSigner::new(alloc, key, signatures(alloc)?);
    signer.fail_at(2)?;
    Ok(signer)
}

/// Texts, and the signatures that are given for them; nothing where none is given.
const SIGNED: &[(&[u8], Option<&str>)] = &[
    (b"a text", Some("k:BA==")),
    (b"a text", None),
    (b"k:AA==", Some("k:CA==")),
    (b"another text", None),
];

/// Whether a signer gives this signature for a text; it fails where none is given.
fn gives<S: Signer>(alloc: Global, signer: &mut S, text: &[u8], signature: Option<&str>) -> bool {
    match signer.sign(alloc, text) {
        Ok(given) => signature == Some(given.as_str()),
        Err(SignError::Failed) => signature.is_none(),
        Err(_) => false,
    }
}

/// Fails at the first text for which a signer does not give its signature.
fn are_given(
    alloc: Global,
    signer: &mut ListedSigner,
    rows: &[(&[u8], Option<&str>)],
) -> Result<(), Fail> {
    for (text, signature) in rows {
        let is = gives(alloc, signer, text, *signature);
        holds(is, signature.unwrap_or("no signature"))?;
    }
    Ok(())
}

#[test]
fn listed_signatures_are_given_but_at_the_told_call(rt: HostRuntime) -> Result<(), Fail> {
    let mut signer = listed_signer(rt.alloc())?;
    is_text(signer.public_key().as_str(), "k:AA==")?;
    are_given(rt.alloc(), &mut signer, SIGNED)
}
