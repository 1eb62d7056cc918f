//! What is kept of a log while it is judged.

use crate::error::ValidationError;
use crate::keys::Keys;
use crate::namespaces::{NamespaceState, Namespaces};
use crate::permissions::PermissionSet;
use crate::release::copy_of;
use crate::releases::Releases;
use semver::Version;
use std::alloc::Global;
use warg_hash::{AnyHash, KeyId};
use warg_record::{LogPermission, PublicKey};
use warg_values::{Memory, Text};

/// What is known after the entries of a log: its keys, and its releases or namespaces.
#[derive(Debug, Drop)]
pub struct Facts {
    pub keys: Keys,
    pub releases: Releases,
    pub namespaces: Namespaces,
}

/// How an entry is taken back.
#[derive(Debug, Drop)]
pub enum Undo {
    /// The key held these permissions, or was not known.
    Key(KeyId, Option<PermissionSet>),
    /// The key held these permissions; where it was not known nothing changed.
    Revoked(Option<PermissionSet>, KeyId),
    /// The last release was added.
    Released,
    /// The release at this place had this content.
    Yanked(usize, AnyHash),
    /// The namespace was free.
    Named(Text),
}

impl Facts {
    ghost use Rattle.std.specs.Prelude.{◌≡◌, ℕ, List, Some, None, IfOk, IfErr, OnOk, OnErr, true, false, map};
    ghost use Rattle.semver.specs.Identifiers.{parts_of};
    ghost use Rattle.warg_record.specs.Record.{Release, Yank};
    ghost use Rattle.warg_log.specs.Rules.{Unpermitted};
    ghost use Rattle.warg_log.specs.Breaches.{IsBreach};
    ghost use Rattle.warg_log.specs.Permissions.{set_of};
    ghost use Rattle.warg_log.specs.Namespaces.{namespace_view};
    ghost use Rattle.warg_log.specs.Facts.{known_by, nothing, is_held, each_unheld, known_breach, init_breach, released_in, yanked_in, give, take_from, name_taken, namespace_breach, undone, CanUndo};

    /// Nothing is known.
    pub fn new(alloc: Global) -> Self
        ensures { known_by result ≡ nothing }
    {
        Facts {
            keys: Keys::new(alloc),
            releases: Releases::new(alloc),
            namespaces: Namespaces::new(alloc),
        }
    }

    /// Equal facts of their own.
    pub fn try_clone(&self, alloc: Global) -> Result<Self, Memory>
        ensures { IfOk result (λ copy. known_by copy ≡ known_by self.now) }
    {
        let keys = self.keys.try_clone(alloc)?;
        let releases = self.releases.try_clone(alloc)?;
        let namespaces = self.namespaces.try_clone(alloc)?;
        Ok(Facts {
            keys,
            releases,
            namespaces,
        })
    }

    /// That the key with this id holds a permission.
    fn check_permission(
        &self,
        signer: &KeyId,
        permission: &'static str,
    ) -> Result<(), ValidationError>
        ensures ok { OnOk result (is_held (known_by self.now) signer.now permission.now ≡ true) }
        ensures err { IfErr result (λ e. (is_held (known_by self.now) signer.now permission.now ≡ false)
            × IsBreach e (Some (Unpermitted signer.now permission.now))) }
    {
        if self.keys.holds(signer, permission) {
            Ok(())
        } else {
            Err(ValidationError::Unpermitted {
                key_id: *signer,
                permission,
            })
        }
    }

    /// That the key with this id holds each of these permissions.
    fn check_permissions<P: LogPermission>(
        &self,
        signer: &KeyId,
        permissions: &[P],
    ) -> Result<(), ValidationError>
        ensures ok { OnOk result (each_unheld signer.now (known_by self.now) (map P.text_of permissions.now) ≡ None) }
        ensures err { IfErr result (λ e. IsBreach e (each_unheld signer.now (known_by self.now)
            (map P.text_of permissions.now))) }
    {
        for permission in permissions {
            self.check_permission(signer, permission.as_str())?;
        }
        Ok(())
    }

    /// The log's first entry, or an Init that stands elsewhere.
    pub fn enter_init(
        &mut self,
        alloc: Global,
        opens: bool,
        key: &PublicKey,
        algorithm: &Text,
        permissions: PermissionSet,
    ) -> Result<Undo, ValidationError>
        ensures ok { OnOk result (init_breach opens algorithm.now ≡ None) }
        ensures after { OnOk result (known_by self.new ≡ give key.now permissions (known_by self.old)) }
        ensures undo { IfOk result (λ u. undone u (known_by self.new) ≡ known_by self.old) }
        ensures can { IfOk result (λ u. CanUndo u (known_by self.new)) }
        ensures err { IfErr result (λ e. IsBreach e (init_breach opens algorithm.now)) }
        ensures same { OnErr result (known_by self.new ≡ known_by self.old) }
    {
        if !opens {
            return Err(ValidationError::InitAgain);
        }
        if algorithm.as_str() != "sha256" {
            return Err(ValidationError::HashAlgorithm {
                found: algorithm.try_clone(alloc)?,
            });
        }
        let held = self.keys.give(alloc, key, permissions)?;
        Ok(Undo::Key(key.id(), held))
    }

    /// A key that is given permissions.
    pub fn enter_grant<P: LogPermission>(
        &mut self,
        alloc: Global,
        signer: &KeyId,
        key: &PublicKey,
        permissions: &[P],
    ) -> Result<Undo, ValidationError>
        ensures ok { OnOk result (each_unheld signer.now (known_by self.old) (map P.text_of permissions.now) ≡ None) }
        ensures after { OnOk result (known_by self.new
            ≡ give key.now (set_of (map P.text_of permissions.now)) (known_by self.old)) }
        ensures undo { IfOk result (λ u. undone u (known_by self.new) ≡ known_by self.old) }
        ensures can { IfOk result (λ u. CanUndo u (known_by self.new)) }
        ensures err { IfErr result (λ e. IsBreach e (each_unheld signer.now (known_by self.old)
            (map P.text_of permissions.now))) }
        ensures same { OnErr result (known_by self.new ≡ known_by self.old) }
    {
        self.check_permissions(signer, permissions)?;
        let held = self.keys.give(alloc, key, PermissionSet::of(permissions))?;
        Ok(Undo::Key(key.id(), held))
    }

    /// A key from which permissions are taken.
    pub fn enter_revoke<P: LogPermission>(
        &mut self,
        signer: &KeyId,
        key_id: &KeyId,
        permissions: &[P],
    ) -> Result<Undo, ValidationError>
        ensures ok { OnOk result (each_unheld signer.now (known_by self.old) (map P.text_of permissions.now) ≡ None) }
        ensures after { OnOk result (known_by self.new
            ≡ take_from key_id.now (set_of (map P.text_of permissions.now)) (known_by self.old)) }
        ensures undo { IfOk result (λ u. undone u (known_by self.new) ≡ known_by self.old) }
        ensures can { IfOk result (λ u. CanUndo u (known_by self.new)) }
        ensures err { IfErr result (λ e. IsBreach e (each_unheld signer.now (known_by self.old)
            (map P.text_of permissions.now))) }
        ensures same { OnErr result (known_by self.new ≡ known_by self.old) }
    {
        self.check_permissions(signer, permissions)?;
        let held = self.keys.take(key_id, PermissionSet::of(permissions));
        Ok(Undo::Revoked(held, *key_id))
    }

    /// A version that is released.
    pub fn enter_release(
        &mut self,
        signer: &KeyId,
        version: &Version,
        content: &AnyHash,
    ) -> Result<Undo, ValidationError>
        ensures ok { OnOk result (known_breach signer.now false (known_by self.old) (Release
            (parts_of version.now) content.now) ≡ None) }
        ensures after { OnOk result (known_by self.new
            ≡ released_in (parts_of version.now) content.now (known_by self.old)) }
        ensures undo { IfOk result (λ u. undone u (known_by self.new) ≡ known_by self.old) }
        ensures can { IfOk result (λ u. CanUndo u (known_by self.new)) }
        ensures err { IfErr result (λ e. IsBreach e (known_breach signer.now false (known_by self.old) (Release
            (parts_of version.now) content.now))) }
        ensures same { OnErr result (known_by self.new ≡ known_by self.old) }
    {
        self.check_permission(signer, "release")?;
        if self.releases.place(version).is_some() {
            return Err(ValidationError::ReleaseAgain {
                version: copy_of(version)?,
            });
        }
        self.releases.push(version, Some(*content))?;
        Ok(Undo::Released)
    }

    /// A version that is yanked.
    pub fn enter_yank(&mut self, signer: &KeyId, version: &Version) -> Result<Undo, ValidationError>
        ensures ok { OnOk result (known_breach signer.now false (known_by self.old) (Yank (parts_of version.now))
            ≡ None) }
        ensures after { OnOk result (known_by self.new ≡ yanked_in (parts_of version.now) (known_by self.old)) }
        ensures undo { IfOk result (λ u. undone u (known_by self.new) ≡ known_by self.old) }
        ensures can { IfOk result (λ u. CanUndo u (known_by self.new)) }
        ensures err { IfErr result (λ e. IsBreach e (known_breach signer.now false (known_by self.old) (Yank
            (parts_of version.now)))) }
        ensures same { OnErr result (known_by self.new ≡ known_by self.old) }
    {
        self.check_permission(signer, "yank")?;
        let Some(place) = self.releases.place(version) else {
            return Err(ValidationError::YankUnreleased {
                version: copy_of(version)?,
            });
        };
        let Some(content) = self.releases.content(place) else {
            return Err(ValidationError::YankYanked {
                version: copy_of(version)?,
            });
        };
        self.releases.set_content(place, None);
        Ok(Undo::Yanked(place, content))
    }

    /// A namespace that is taken.
    pub fn enter_namespace(
        &mut self,
        alloc: Global,
        signer: &KeyId,
        permission: &'static str,
        namespace: &Text,
        state: NamespaceState,
    ) -> Result<Undo, ValidationError>
        ensures ok { OnOk result (namespace_breach signer.now permission.now (known_by self.old) namespace.now ≡ None) }
        ensures after { OnOk result (known_by self.new
            ≡ name_taken namespace.now (namespace_view state) (known_by self.old)) }
        ensures undo { IfOk result (λ u. undone u (known_by self.new) ≡ known_by self.old) }
        ensures can { IfOk result (λ u. CanUndo u (known_by self.new)) }
        ensures err { IfErr result (λ e. IsBreach e (namespace_breach signer.now permission.now
            (known_by self.old) namespace.now)) }
        ensures same { OnErr result (known_by self.new ≡ known_by self.old) }
    {
        self.check_permission(signer, permission)?;
        if self.namespaces.get(namespace.as_str()).is_some() {
            return Err(ValidationError::NamespaceTaken {
                namespace: namespace.try_clone(alloc)?,
            });
        }
        let name = namespace.try_clone(alloc)?;
        self.namespaces.insert(alloc, namespace.as_str(), state)?;
        Ok(Undo::Named(name))
    }

    /// Takes an entry back.
    pub fn undo(&mut self, undo: &Undo)
        requires { CanUndo undo.now (known_by self.old) }
        ensures { known_by self.new ≡ undone undo.now (known_by self.old) }
    {
        match undo {
            Undo::Key(id, held) => self.keys.restore(id, *held),
            Undo::Revoked(None, _) => {}
            Undo::Revoked(held, id) => self.keys.restore(id, *held),
            Undo::Released => self.releases.pop(),
            Undo::Yanked(place, content) => self.releases.set_content(*place, Some(*content)),
            Undo::Named(name) => self.namespaces.remove(name.as_str()),
        }
    }
}
