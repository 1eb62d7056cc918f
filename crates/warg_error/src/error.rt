//! Why a client does not do what it is asked.

use comp_shape::ShapeError;
use thiserror::Error;
use warg_api::ClientError as CallError;
use warg_compose::Why;
use warg_hash::{AnyHash, KeyId, LogId, PackageName};
use warg_log::ValidationError;
use warg_plan::PlanKey;
use warg_store::EntryKind;
use warg_url::UrlError;
use warg_values::Text;
use yaml_read::DeError;

/// What is wrong with a text, a reply's or a caller's.
#[derive(Debug, Drop, Error)]
pub enum Other {
    /// The registry sends records of a log that was not asked for.
    #[error("the registry sends the log `{0}`, which was not asked for: tell its operator")]
    UnknownLog(LogId),
    /// A published record has not the form of a signed record.
    #[error("a published record has not the form of a signed record: tell the registry's operator")]
    BadEnvelope,
    /// A registry's name, or the client's token, is no value of a header.
    #[error("the registry's name or the token can't be sent in a header: take out their control characters")]
    BadHeader,
    /// The URL is that of no registry.
    #[error("{0}")]
    BadUrl(UrlError),
}

/// Why no plan is made of a text.
#[derive(Debug, Drop, Error)]
pub enum PlanFault {
    /// The text is no configuration.
    #[error("{0}")]
    Text(DeError),
    /// The text sets definitions, which are files.
    #[error("`definitions` are files, of which no plan is made: leave them out")]
    Definitions,
    /// The text sets folders of dependencies.
    #[error("`search-paths` are folders, of which no plan is made: leave them out")]
    SearchPaths,
    /// The text sets dependencies, which are files.
    #[error("`dependencies` are files, of which no plan is made: name packages in `instantiations`")]
    Dependencies,
    /// The text sets that components are imported.
    #[error("`import-components` has no place in a plan: leave it out")]
    ImportComponents,
    /// An argument of an instance is an export.
    #[error("the argument `{argument}` of `{instance}` is an `export`, which is not supported: pass the whole instance")]
    Export {
        /// The instance that is given the argument.
        instance: Text,
        /// The name of the argument.
        argument: Text,
    },
    /// An instance has a dependency that is no package.
    #[error("an instance has a dependency that is no package: name one as `namespace:name`")]
    NoPackage(PlanKey),
    /// An argument of an instance names no import of it.
    #[error("the argument `{1}` names no import of its instance: correct its name")]
    NoSuchImport(PlanKey, Text),
}

/// Why a client does not do what it is asked.
#[derive(Debug, Drop, Error)]
pub enum ClientError {
    /// A registry's reply does not give what was asked, or its proofs do not show it.
    #[error("{0}")]
    Api(CallError),
    /// A text has not its form.
    #[error("{0}")]
    Other(Other),
    /// No plan is made of the text.
    #[error("the plan: {0}")]
    BadPlan(PlanFault),
    /// A content that the plan takes is no component.
    #[error("a package's content is no component: {0}")]
    BadComponent(ShapeError),
    /// The name of an import of a content can't be read.
    #[error("the import name `{0}` can't be read: correct it in the component")]
    BadImportName(Text),
    /// An instance needs itself.
    #[error("an instance needs itself: take out an argument or an import on the way back to it")]
    DependencyCycle(PlanKey),
    /// The import of this name is left open, and the text disallows imports.
    #[error("`{0}` is left open, and the plan disallows imports: give it an argument, or allow imports")]
    ImportsDisallowed(Text),
    /// What is wired, or left open, does not go together.
    #[error("the plan: {0}")]
    Incompatible(Why),
    /// What is asked for is not built yet.
    #[error("hints at other registries are not supported yet: ask the registry that has the package")]
    NotBuilt,
    /// The registry has no such package.
    #[error("the registry has no package {name}: check the package's name and the registry")]
    PackageDoesNotExist {
        /// The package's name.
        name: PackageName,
    },
    /// No release of the package is what is asked for.
    #[error("no release of {name} is what is asked for: ask for another version, or release it")]
    PackageVersionRequirementDoesNotExist {
        /// The package's name.
        name: PackageName,
    },
    /// A record of a package's log breaks a rule.
    #[error("the log of {name}: {inner}")]
    PackageValidationFailed {
        /// The package's name.
        name: PackageName,
        /// The rule.
        inner: ValidationError,
    },
    /// A record of the log of a registry's operator breaks a rule.
    #[error("the operator's log: {inner}")]
    OperatorValidationFailed {
        /// The rule.
        inner: ValidationError,
    },
    /// The registry sends no record of a package.
    #[error("the registry sends no record of {name}: check the package's name")]
    PackageLogEmpty {
        /// The package's name.
        name: PackageName,
    },
    /// The registry sends no record of its operator's log.
    #[error("the registry sends no record of its operator's log: check the registry's URL")]
    NoOperatorRecords,
    /// The operator's log has no such key.
    #[error("the checkpoint is signed with the key {key_id}, which the operator's log does not have: do not trust this registry")]
    InvalidCheckpointKeyId {
        /// The id of the key that is to have signed.
        key_id: KeyId,
    },
    /// A checkpoint's signature is not that of its key.
    #[error("the checkpoint's signature is not its key's: do not trust this registry")]
    InvalidCheckpointSignature,
    /// A checkpoint is of a shorter log than the stored one.
    #[error("the registry's log has {to} records, and had {from} before: do not trust this registry")]
    CheckpointLogLengthRewind {
        /// The stored length, in records.
        from: u64,
        /// The new length, in records.
        to: u64,
    },
    /// A checkpoint has the stored one's length, and another root.
    #[error("the registry's log of {log_length} records is another one than before: do not trust this registry")]
    CheckpointChangedLogRootOrMapRoot {
        /// The length, in records.
        log_length: u64,
    },
    /// The registry has not the content of this digest.
    #[error("the registry has no content {digest}: try again later, or ask its operator")]
    ContentNotFound {
        /// The digest.
        digest: AnyHash,
    },
    /// A content has not the digest that was asked for.
    #[error("a content has the digest {digest} where {expected} was asked: clear the stored contents and try again")]
    IncorrectContent {
        /// The digest that it has.
        digest: AnyHash,
        /// The digest that was asked for.
        expected: AnyHash,
    },
    /// As many pages of records as may be were asked for.
    #[error("the registry sends more pages than the limit allows: raise the limit, or tell the registry's operator")]
    RoundLimit,
    /// This length, count or index to be written is above 2^32 - 1.
    #[error("{0} is more than a component can count: make the components smaller")]
    TooLarge(u64),
    /// An entry of this kind that is stored can't be read.
    #[error("an entry of the store can't be read: reset what is stored")]
    Damaged(EntryKind),
    /// The link gave no reply, and its count of faults rose.
    #[error("the registry could not be reached: check the network and the registry's URL")]
    LinkFault,
    /// A store failed, and its count of faults rose.
    #[error("a store could not be read or written: check its permissions and the disk")]
    StoreFault,
    /// No memory was left.
    #[error("out of memory: free some, or give the program more, and try again")]
    Memory,
}
