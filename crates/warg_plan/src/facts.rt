//! What is known of packages and contents.

ghost use Rattle.std.specs.Prelude.{◌≡◌, IfOk, OnOk, OnErr, option_map, option_copied};
ghost use Rattle.warg_log.specs.Places.{release_views};
ghost use Rattle.warg_plan.specs.Walk.{nothing_known, log_in, content_in};
ghost use Rattle.warg_plan.specs.Known.{with_log, with_content};
ghost use Rattle.warg_plan.specs.View.{facts_view, content_view};

use indexmap::IndexMap;
use std::alloc::Global;
use warg_hash::{AnyHash, PackageName};
use warg_log::Release;
use warg_values::{Memory, Text};

/// A content, a component: its bytes, and the names of what it imports and exports.
#[derive(Debug, Drop)]
pub struct Content {
    /// The bytes.
    pub bytes: Vec<u8>,
    /// The names of the imports, in order.
    pub imports: Vec<Text>,
    /// The names of the exports, in order.
    pub exports: Vec<Text>,
}

/// What is known: the releases in the logs of packages, and contents by their digests.
#[derive(Debug, Drop)]
pub struct Facts {
    logs: IndexMap<PackageName, Vec<Release>>,
    contents: IndexMap<AnyHash, Content>,
}

impl Facts {
    /// Nothing is known.
    pub fn new(alloc: Global) -> Self
        ensures { facts_view result ≡ nothing_known }
    {
        Facts {
            logs: IndexMap::new(alloc),
            contents: IndexMap::new(alloc),
        }
    }

    /// The releases in the log of a package are known from now on, in the place of what was known of it.
    pub fn add_log(&mut self, name: PackageName, releases: Vec<Release>) -> Result<(), Memory>
        ensures added { OnOk result (facts_view self.new
            ≡ with_log (facts_view self.old) name (release_views releases.items)) }
        ensures unchanged { OnErr result (facts_view self.new ≡ facts_view self.old) }
    {
        self.logs.insert(name, releases)?;
        Ok(())
    }

    /// The content of a digest is known from now on, in the place of what was known of it.
    pub fn add_content(&mut self, digest: AnyHash, content: Content) -> Result<(), Memory>
        ensures added { OnOk result (facts_view self.new
            ≡ with_content (facts_view self.old) digest (content_view content)) }
        ensures unchanged { OnErr result (facts_view self.new ≡ facts_view self.old) }
    {
        self.contents.insert(digest, content)?;
        Ok(())
    }

    /// The releases in the log of a package, where they are known.
    pub fn log(&self, name: &PackageName) -> Option<&[Release]>
        ensures { option_map (λ releases. release_views releases.now) result
            ≡ log_in (facts_view self.now) name.now }
    {
        match self.logs.get(name) {
            Some(releases) => Some(releases.as_slice()),
            None => None,
        }
    }

    /// The content of a digest, where it is known.
    pub fn content(&self, digest: &AnyHash) -> Option<&Content>
        ensures { option_map content_view (option_copied result)
            ≡ content_in (facts_view self.now) digest.now }
    {
        self.contents.get(digest)
    }
}
