//! The entries of a registry operator's log.

ghost use Rattle.std.specs.Prelude.{◌≡◌, IfOk};
ghost use Rattle.warg_record.specs.Record.{Operator, DefineNamespace, ImportNamespace, entry_text};
ghost use Rattle.warg_record.specs.Reading as reading;
ghost use Rattle.warg_record.specs.Answer.{GivesOrForm};
ghost use Rattle.warg_record.specs.View.{operator_entry_view};

use crate::entry::{LogEntry, LogPermission};
use crate::error::EnvelopeError;
use crate::fields::{
    grant_of, init_of, one_field, only_field, owned_text_of, revoke_of, two_fields,
};
use crate::key::PublicKey;
use crate::writing;
use std::alloc::Global;
use warg_hash::KeyId;
use warg_values::{Memory, Text};

/// What a key may do in a registry operator's log.
#[derive(Clone, Copy, Debug, PartialEq, Eq, PartialOrd, Ord, Hash)]
pub enum Permission {
    /// Commit records: `commit`. No entry needs it.
    Commit,
    /// Define namespaces: `defineNamespace`.
    DefineNamespace,
    /// Import namespaces: `importNamespace`.
    ImportNamespace,
}

/// One entry of a record in a registry operator's log.
#[derive(Debug, Drop)]
pub enum OperatorEntry {
    /// The log's first entry: its first key, which holds every permission, and the hash algorithm.
    Init {
        key: PublicKey,
        hash_algorithm: Text,
    },
    /// A key that is given permissions.
    GrantFlat {
        key: PublicKey,
        permissions: Vec<Permission>,
    },
    /// A key from which permissions are taken.
    RevokeFlat {
        key_id: KeyId,
        permissions: Vec<Permission>,
    },
    /// A namespace whose packages this registry holds.
    DefineNamespace {
        namespace: Text,
    },
    /// A namespace whose packages another registry holds.
    ImportNamespace {
        namespace: Text,
        registry: Text,
    },
}

impl LogPermission for Permission {
    ghost use Rattle.warg_record.specs.Record.{Operator};
    ghost use Rattle.warg_record.specs.View.{operator_permission_text};

    ghost kind = { Operator };

    ghost text_of = { operator_permission_text };

    fn from_text(text: &str) -> Option<Self> {
        match text {
            "commit" => Some(Permission::Commit),
            "defineNamespace" => Some(Permission::DefineNamespace),
            "importNamespace" => Some(Permission::ImportNamespace),
            _ => None,
        }
    }

    fn as_str(self) -> &'static str {
        match self {
            Permission::Commit => "commit",
            Permission::DefineNamespace => "defineNamespace",
            Permission::ImportNamespace => "importNamespace",
        }
    }
}

impl LogEntry for OperatorEntry {
    ghost use Rattle.warg_record.specs.Record.{Operator};
    ghost use Rattle.warg_record.specs.View.{operator_entry_view};

    ghost kind = { Operator };

    ghost plain = { operator_entry_view };

    fn read(alloc: Global, bytes: &[u8]) -> Result<Self, EnvelopeError> {
        read_entry(alloc, bytes)
    }

    fn try_clone(&self, alloc: Global) -> Result<Self, Memory> {
        match self {
            OperatorEntry::Init {
                key,
                hash_algorithm,
            } => Ok(OperatorEntry::Init {
                key: key.try_clone(alloc)?,
                hash_algorithm: hash_algorithm.try_clone(alloc)?,
            }),
            OperatorEntry::GrantFlat { key, permissions } => Ok(OperatorEntry::GrantFlat {
                key: key.try_clone(alloc)?,
                permissions: Vec::from_slice(alloc, permissions.as_slice())?,
            }),
            OperatorEntry::RevokeFlat {
                key_id,
                permissions,
            } => Ok(OperatorEntry::RevokeFlat {
                key_id: *key_id,
                permissions: Vec::from_slice(alloc, permissions.as_slice())?,
            }),
            OperatorEntry::DefineNamespace { namespace } => Ok(OperatorEntry::DefineNamespace {
                namespace: namespace.try_clone(alloc)?,
            }),
            OperatorEntry::ImportNamespace {
                namespace,
                registry,
            } => Ok(OperatorEntry::ImportNamespace {
                namespace: namespace.try_clone(alloc)?,
                registry: registry.try_clone(alloc)?,
            }),
        }
    }

    fn message(&self, alloc: Global) -> Result<Vec<u8>, Memory> {
        match self {
            OperatorEntry::Init {
                key,
                hash_algorithm,
            } => writing::init_message(alloc, key, hash_algorithm.as_str()),
            OperatorEntry::GrantFlat { key, permissions } => {
                writing::grant_message(alloc, key, permissions)
            }
            OperatorEntry::RevokeFlat {
                key_id,
                permissions,
            } => writing::revoke_message(alloc, key_id, permissions),
            OperatorEntry::DefineNamespace { namespace } => {
                define_message(alloc, namespace.as_str())
            }
            OperatorEntry::ImportNamespace {
                namespace,
                registry,
            } => import_message(alloc, namespace.as_str(), registry.as_str()),
        }
    }
}

/// The entry that a message is, as it is read from left to right.
#[tactic(auto, unfolding(crate::specs::Reading::entry_at))]
fn read_entry(alloc: Global, bytes: &[u8]) -> Result<OperatorEntry, EnvelopeError>
    ensures { GivesOrForm operator_entry_view result (reading.entry_at Operator bytes.now) }
{
    let (key, bytes) = only_field(bytes)?;
    match key {
        10 => {
            let (key, hash_algorithm) = init_of(alloc, bytes)?;
            Ok(OperatorEntry::Init {
                key,
                hash_algorithm,
            })
        }
        18 => {
            let (key, permissions) = grant_of(alloc, bytes)?;
            Ok(OperatorEntry::GrantFlat { key, permissions })
        }
        26 => {
            let (key_id, permissions) = revoke_of(alloc, bytes)?;
            Ok(OperatorEntry::RevokeFlat {
                key_id,
                permissions,
            })
        }
        34 => define_of(alloc, bytes),
        42 => import_of(alloc, bytes),
        _ => Err(EnvelopeError::Form),
    }
}

/// A namespace to be defined.
#[tactic(auto, unfolding(crate::specs::Reading::define_of))]
fn define_of(alloc: Global, bytes: &[u8]) -> Result<OperatorEntry, EnvelopeError>
    ensures { GivesOrForm operator_entry_view result (reading.define_of bytes.now) }
{
    let namespace = one_field(bytes)?;
    let namespace = owned_text_of(alloc, namespace)?;
    Ok(OperatorEntry::DefineNamespace { namespace })
}

/// A namespace to be imported, and the registry that holds its packages.
#[tactic(auto, unfolding(crate::specs::Reading::import_of))]
fn import_of(alloc: Global, bytes: &[u8]) -> Result<OperatorEntry, EnvelopeError>
    ensures { GivesOrForm operator_entry_view result (reading.import_of bytes.now) }
{
    let (namespace, registry) = two_fields(bytes)?;
    let namespace = owned_text_of(alloc, namespace)?;
    let registry = owned_text_of(alloc, registry)?;
    Ok(OperatorEntry::ImportNamespace {
        namespace,
        registry,
    })
}

/// The message of an entry that defines a namespace.
fn define_message(alloc: Global, namespace: &str) -> Result<Vec<u8>, Memory>
    ensures { IfOk result (λ message. message.items ≡ entry_text (DefineNamespace namespace.now)) }
{
    let body = writing::message_of(alloc, 1, namespace.as_bytes())?;
    writing::message_of(alloc, 4, &body)
}

/// The message of an entry that imports a namespace.
fn import_message(alloc: Global, namespace: &str, registry: &str) -> Result<Vec<u8>, Memory>
    ensures { IfOk result (λ message. message.items ≡ entry_text (ImportNamespace namespace.now registry.now)) }
{
    let body = writing::two_fields(alloc, namespace.as_bytes(), registry.as_bytes())?;
    writing::message_of(alloc, 5, &body)
}
