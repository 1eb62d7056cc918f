//! The releases of a log, in order, and the place of each version among them.

ghost use Rattle.std.specs.Prelude.{◌≡◌, ◌++◌, ◌∷◌, [], ◌<◌, IfOk, OnOk, OnErr, Some, None, length, find, option_map, option_copied};
ghost use Rattle.semver.specs.Identifiers.{parts_of};
ghost use Rattle.warg_log.specs.History.{same_version};
ghost use Rattle.warg_log.specs.Places.{place_of, release_view, release_views, versions_of, without_last, with_content, content_at};

use crate::release::{Release, copy_of};
use semver::Version;
use std::alloc::{AllocError, Global};
use std::collections::BTreeMap;
use std::marker::Model;
use warg_hash::AnyHash;

/// The releases of a log, none of a version twice.
#[derive(Debug, Drop)]
pub struct Releases {
    items: Vec<Release>,
    places: BTreeMap<Version, usize>,
}

impl Model for Releases {
    ghost use Rattle.std.specs.Prelude.{ℕ, List, Option};
    ghost use Rattle.semver.specs.Parse.{Parts};

    ghost Value = { List (Parts × Option (List ℕ)) };

    ghost use Rattle.warg_log.specs.Places.{release_views, ArePlaced};

    ghost view = { λ r. release_views r.items.items };

    ghost invariant = { λ r. ArePlaced r.items.items r.places };
}

impl Releases {
    /// No releases.
    pub fn new(alloc: Global) -> Self
        ensures { result ≡ [] }
    {
        Releases {
            items: Vec::new(alloc),
            places: BTreeMap::new(alloc),
        }
    }

    /// Equal releases of their own.
    pub fn try_clone(&self, alloc: Global) -> Result<Self, AllocError>
        ensures { IfOk result (λ copy. copy ≡ self.now) }
    {
        let releases = self.items.as_slice();
        let mut copies = Releases::new(alloc);
        for release in releases {
            copies.push(&release.version, release.content)?;
        }
        Ok(copies)
    }

    /// The releases, in order.
    pub fn as_slice(&self) -> &[Release]
        ensures { release_views result.now ≡ self.now }
    {
        self.items.as_slice()
    }

    /// The release of a version.
    pub fn get(&self, version: &Version) -> Option<&Release>
        ensures { option_map release_view (option_copied result)
            ≡ find (λ r. same_version (parts_of version.now) r.0) self.now }
    {
        match self.place(version) {
            Some(place) => Some(&self.as_slice()[place]),
            None => None,
        }
    }

    /// The place of a version.
    pub fn place(&self, version: &Version) -> Option<usize>
        ensures { result ≡ place_of (parts_of version.now) (versions_of self.now) }
    {
        self.places.get(version).copied()
    }

    /// The content of the release at a place, which a yanked one has not.
    pub fn content(&self, place: usize) -> Option<AnyHash>
        requires { place < length self.now }
        ensures { result ≡ content_at self.now place }
    {
        self.items[place].content
    }

    /// Adds a version that was not released. A yanked one has no content.
    pub fn push(&mut self, version: &Version, content: Option<AnyHash>) -> Result<(), AllocError>
        requires { place_of (parts_of version.now) (versions_of self.old) ≡ None }
        ensures ok { OnOk result (self.new ≡ self.old ++ (parts_of version.now, content) ∷ []) }
        ensures err { OnErr result (self.new ≡ self.old) }
    {
        let key = copy_of(version)?;
        let version = copy_of(version)?;
        let place = self.items.len();
        self.items.reserve(1)?;
        self.places.insert(key, place)?;
        self.items.push(Release { version, content }).unwrap();
        Ok(())
    }

    /// Takes the last release away.
    pub fn pop(&mut self)
        ensures { self.new ≡ without_last self.old }
    {
        if let Some(release) = self.items.pop() {
            self.places.remove(&release.version);
        }
    }

    /// Puts the content of the release at a place, or takes it away.
    pub fn set_content(&mut self, place: usize, content: Option<AnyHash>)
        requires { place < length self.old }
        ensures { self.new ≡ with_content self.old place content }
    {
        self.items[place].content = content;
    }
}
