//! What a log knows of its keys.

ghost use Rattle.std.specs.Prelude.{◌≡◌, ℕ, List, Option, Some, None, IfOk, OnErr, bytes_eq, if◌then◌else◌, option_copied, option_map, false};
ghost use Rattle.std.specs.Option.{option_map_or};
ghost use Rattle.warg_log.specs.Permissions.{union, without, has_permission};
ghost use Rattle.warg_log.specs.Keys.{known, given, taken, restored};
ghost use Rattle.sha2.specs.Sha256.{sha256};

use crate::permissions::PermissionSet;
use std::alloc::Global;
use std::collections::BTreeMap;
use warg_hash::KeyId;
use warg_record::PublicKey;
use warg_values::Memory;

/// A key, and the permissions that it holds.
#[derive(Debug, Drop)]
pub struct KeyFacts {
    pub key: PublicKey,
    pub permissions: PermissionSet,
}

/// The keys of a log, by their ids.
#[derive(Debug, Drop)]
pub struct Keys {
    pub map: BTreeMap<KeyId, KeyFacts>,
}

impl Keys {
    /// No keys.
    pub fn new(alloc: Global) -> Self
        ensures { (id : List ℕ) → known result id ≡ None }
    {
        Keys {
            map: BTreeMap::new(alloc),
        }
    }

    /// Equal keys of their own.
    pub fn try_clone(&self, alloc: Global) -> Result<Self, Memory>
        ensures { IfOk result (λ copy. (id : List ℕ) → known copy id ≡ known self.now id) }
    {
        let mut map = BTreeMap::new(alloc);
        for (id, facts) in &self.map {
            let copy = KeyFacts {
                key: facts.key.try_clone(alloc)?,
                permissions: facts.permissions,
            };
            map.insert(*id, copy)?;
        }
        Ok(Keys { map })
    }

    /// What is known of the key with this id.
    pub fn get(&self, id: &KeyId) -> Option<&KeyFacts>
        ensures { option_copied result ≡ known self.now id.now }
    {
        self.map.get(id)
    }

    /// Whether the key with this id holds a permission.
    pub fn holds(&self, id: &KeyId, permission: &str) -> bool
        ensures { result ≡ option_map_or (λ f. has_permission f.permissions permission.now)
            (known self.now id.now) false }
    {
        match self.map.get(id) {
            Some(facts) => facts.permissions.contains(permission),
            None => false,
        }
    }

    /// Puts a key in with these permissions, or gives them to it where it is known. Answers the permissions that it
    /// held before, if it was known.
    pub fn give(
        &mut self,
        alloc: Global,
        key: &PublicKey,
        gained: PermissionSet,
    ) -> Result<Option<PermissionSet>, Memory>
        ensures ok { IfOk result (λ old. (id : List ℕ)
            → known self.new id
            ≡ (if bytes_eq (sha256 key.now) id then Some (given (known self.old id) key.now gained)
            else known self.old id)) }
        ensures was { IfOk result (λ old. old ≡ option_map (λ f. f.permissions) (known self.old (sha256 key.now))) }
        ensures err { OnErr result ((id : List ℕ) → known self.new id ≡ known self.old id) }
    {
        let id = key.id();
        if let Some(facts) = self.map.get_mut(&id) {
            let old = facts.permissions;
            facts.permissions = old.union(gained);
            return Ok(Some(old));
        }
        let facts = KeyFacts {
            key: key.try_clone(alloc)?,
            permissions: gained,
        };
        self.map.insert(id, facts)?;
        Ok(None)
    }

    /// Takes permissions from the key with this id, where it is known. Answers those that it held before.
    pub fn take(&mut self, id: &KeyId, lost: PermissionSet) -> Option<PermissionSet>
        ensures after { (q : List ℕ)
            → known self.new q ≡ (if bytes_eq id.now q then taken (known self.old q) lost else known self.old q) }
        ensures was { result ≡ option_map (λ f. f.permissions) (known self.old id.now) }
    {
        let facts = self.map.get_mut(id)?;
        let old = facts.permissions;
        facts.permissions = old.without(lost);
        Some(old)
    }

    /// Gives the key with this id the permissions that it held before, or forgets a key that was not known.
    pub fn restore(&mut self, id: &KeyId, held: Option<PermissionSet>)
        ensures { (q : List ℕ)
            → known self.new q ≡ (if bytes_eq id.now q then restored (known self.old q) held else known self.old q) }
    {
        match held {
            Some(permissions) => {
                if let Some(facts) = self.map.get_mut(id) {
                    facts.permissions = permissions;
                }
            }
            None => {
                self.map.remove(id);
            }
        }
    }
}
