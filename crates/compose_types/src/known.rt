//! What is known of resources and named types, and where.

ghost use Rattle.std.specs.Prelude.{◌≡◌, ◌∷◌, ◌++◌, [], OnOk, IfSome, is_some, if◌then◌else◌, option_map, slice_get};
ghost use Rattle.comp_entity.specs.Names.{OfResource, OfPlace};
ghost use Rattle.compose_writing.specs.Keys.{known_at, mention_outside};
ghost use Rattle.compose_types.specs.Views.{IsNamed, at_of, at_there, known_of, mention_of};

use comp_entity::{ResourceNo, TypeNo};
use std::alloc::Global;
use std::collections::BTreeMap;
use std::marker::Model;
use warg_values::{Memory, Sequence, Text};

/// A resource, or the place that named a type, as it is called where it is mentioned.
#[derive(Clone, Copy, Debug, PartialEq, Eq, PartialOrd, Ord)]
pub struct Key {
    /// Whether it is the place that named a type, and no resource.
    pub is_place: bool,
    /// How many scopes further out its scope is.
    pub out: usize,
    /// Its number in its scope.
    pub number: usize,
}

/// Where a scope has a type.
#[derive(Debug, Drop)]
pub enum At {
    /// At this index of its types.
    Index(u32),
    /// At the end of this path of names in the instance of this index.
    InInstance { instance: u32, path: Sequence<Text> },
}

impl Key {
    /// A resource.
    pub fn of_resource(name: ResourceNo) -> Self
        ensures { mention_of result ≡ OfResource name }
    {
        Key {
            is_place: false,
            out: name.out(),
            number: name.number(),
        }
    }

    /// The place that named a type.
    pub fn of_place(name: TypeNo) -> Self
        ensures { mention_of result ≡ OfPlace name }
    {
        Key {
            is_place: true,
            out: name.out(),
            number: name.number(),
        }
    }

    /// The same as it is called so many scopes further out. `None` where it is of a scope on the way.
    pub fn outside(self, width: usize) -> Option<Key>
        ensures { option_map mention_of result ≡ mention_outside width (mention_of self) }
    {
        let out = self.out.checked_sub(width)?;
        Some(Key {
            is_place: self.is_place,
            out,
            number: self.number,
        })
    }
}

/// What is known in a scope, and where it has it.
#[derive(Debug, Drop)]
pub struct KnownThings {
    /// What is known, in the order in which it was noted, with its places.
    places: Vec<(Key, At)>,
    /// Where each of these stands.
    first: BTreeMap<Key, usize>,
}

impl Model for KnownThings {
    ghost use Rattle.compose_writing.specs.Keys.{KnownThings};
    ghost use Rattle.compose_types.specs.Views.{AreFound, known_of};

    ghost Value = { KnownThings };

    ghost view = { λ k. known_of k.places.items };

    ghost invariant = { λ k. AreFound k.first k.places.items };
}

impl KnownThings {
    /// Nothing.
    pub fn new(alloc: Global) -> Self
        ensures { result ≡ [] }
    {
        KnownThings {
            places: Vec::new(alloc),
            first: BTreeMap::new(alloc),
        }
    }

    /// Where the scope has what stands at this place among what is known.
    fn at_place(&self, place: usize) -> Option<&At>
        ensures { option_map (λ at. at_of at.now) result ≡ option_map at_there (slice_get self.now place) }
    {
        match self.places.get(place) {
            Some(known) => Some(&known.1),
            None => None,
        }
    }

    /// Where the scope has this.
    pub fn find(&self, key: Key) -> Option<&At>
        ensures found { option_map (λ at. at_of at.now) result ≡ known_at self.now (mention_of key) }
        ensures named { IfSome result (λ at. IsNamed (at_of at.now)) }
    {
        match self.first.get(&key) {
            Some(place) => self.at_place(*place),
            None => None,
        }
    }

    /// Whether the scope knows this.
    pub fn knows(&self, key: Key) -> bool
        ensures { result ≡ is_some (known_at self.now (mention_of key)) }
    {
        self.find(key).is_some()
    }

    /// Notes where the scope has this, where it is not known.
    pub fn note(&mut self, key: Key, at: At) -> Result<(), Memory>
        requires { IsNamed (at_of at) }
        ensures { OnOk result
            (self.new ≡ (if is_some (known_at self.old (mention_of key)) then self.old
            else self.old ++ (mention_of key, at_of at) ∷ [])) }
    {
        if self.knows(key) {
            return Ok(());
        }
        let place = self.places.len();
        self.places.reserve(1)?;
        self.first.insert(key, place)?;
        // There is room for it now, so that what the map finds is there.
        self.places.push((key, at))?;
        Ok(())
    }
}
