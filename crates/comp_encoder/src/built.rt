//! What was added, as it will be written.

ghost use Rattle.std.specs.Prelude.{◌≡◌, ◌++◌, ◌∷◌, ◌<◌, ◌≤◌, ◌+◌, ◌^◌, [], ℕ, List, length, true, OnOk, OnErr, IfOk, IfErr, Err};
ghost use Rattle.std.specs.List.{AllByRecursion, flat_map};
ghost use Rattle.comp_format.specs.Numbers.{number_text};
ghost use Rattle.comp_format.specs.Sections.{header};
ghost use Rattle.comp_encoder.specs.Builder.{Item, IsBytesOf, IsKept, IsAlone, IsEnded, BeginsWith, item_of, kept, kind_id, entries_of};
ghost use Rattle.comp_encoder.specs.Writing.{IsShort, IsTooLongAmong, is_shared, sections_of, section_text};

use crate::sections::{Run, end_last, end_run, write_section};
use comp_format::{EncodeError, section};
use http_server::Log;
use std::alloc::Global;
use std::marker::Model;
use std::mem;
use warg_values::Memory;

/// What was added, and the id of its section.
#[derive(Debug, Clone, Copy, Drop)]
pub enum Kind {
    /// An item, in a section of this id.
    Item(u8),
    /// A section.
    Section(u8),
}

/// What the last bytes of some are.
#[derive(Debug, Clone, Copy, Drop)]
pub struct Place {
    /// What was added.
    pub kind: Kind,
    /// How many bytes it has.
    pub len: usize,
}

/// The sections that are whole, each as it will be written, and the items of the section that is open. So what was
/// added takes about the memory that the component takes.
#[derive(Drop)]
pub struct Built {
    /// The component as far as its sections are whole, or nothing, as long as there are none.
    out: Vec<u8>,
    /// The items that share the last section, to which more may come.
    run: Run,
    /// A section's length or count that can't be written, where there is one. Then `finish` refuses.
    too_large: Option<u64>,
    /// What was added, in order, which only proofs read: it takes no memory.
    history: Log<Place, Vec<u8>>,
}

impl Model for Built {
    ghost use Rattle.std.specs.Prelude.{List};
    ghost use Rattle.comp_encoder.specs.Builder.{Kept};

    ghost Value = { List Kept };

    ghost use Rattle.comp_encoder.specs.Builder.{kepts_of, IsLaid};

    ghost view = { λ b. kepts_of b.history.items };

    ghost invariant = { λ b. IsLaid (kepts_of b.history.items) b.out.items b.run.id b.run.count b.run.bytes.items b.too_large };
}

/// The id of its section.
fn id_of(kind: Kind) -> u8
    ensures { result ≡ kind_id kind }
{
    match kind {
        Kind::Item(id) => id,
        Kind::Section(id) => id,
    }
}

/// Ends the section of a run, and writes one of this content behind it, which is given in two pieces.
fn write_alone(
    out: &mut Vec<u8>,
    run: &Run,
    told: Option<u64>,
    kind: Kind,
    head: &[u8],
    content: &[u8],
) -> Result<Option<u64>, EncodeError>
    ensures ended { IfOk result
        (λ fault.
        (mid : List ℕ)
        × IsEnded run.now.id run.now.count run.now.bytes.items out.old.items told mid fault
        × (out.new.items
        ≡ mid
        ++ (kind_id kind ∷ (number_text (length (head.now ++ content.now)) ++ (head.now ++ content.now))))) }
    ensures short { OnOk result (length (head.now ++ content.now) < 2 ^ 32) }
    ensures front { BeginsWith out.old.items out.new.items }
    ensures too_large { (n : ℕ) → result ≡ Err (EncodeError.TooLarge n)
        → (n ≡ length (head.now ++ content.now)) × (2 ^ 32 ≤ n) }
{
    let too_large = end_run(out, run, told)?;
    write_section(out, id_of(kind), head, content)?;
    Ok(too_large)
}

impl Built {
    /// Nothing was added yet.
    pub fn new(alloc: Global) -> Self
        ensures { result ≡ [] }
    {
        Built {
            out: Vec::new(alloc),
            run: Run {
                id: section::TYPE,
                count: 0,
                bytes: Vec::new(alloc),
            },
            too_large: None,
            history: Log::new(),
        }
    }

    /// Adds an item that shares a section with its neighbours of the same kind, and gives a buffer for its own.
    pub fn push_item(&mut self, id: u8, bytes: Vec<u8>) -> Result<Vec<u8>, Memory>
        requires kept { IsBytesOf (item_of id bytes.items) id bytes.items }
        requires shared { is_shared id ≡ true }
        ensures added { OnOk result (self.new ≡ self.old ++ Item id bytes.items ∷ []) }
        ensures unchanged { OnErr result (self.new ≡ self.old) }
    {
        let kind = Kind::Item(id);
        let place = Place {
            kind,
            len: bytes.len(),
        };
        if id == self.run.id {
            self.run.push(&bytes)?;
            self.history = self.history.and(&place, &bytes);
            return Ok(bytes);
        }
        let start = self.out.len();
        let Ok(too_large) = end_run(&mut self.out, &self.run, self.too_large) else {
            self.out.truncate(start);
            return Err(Memory);
        };
        self.history = self.history.and(&place, &bytes);
        self.too_large = too_large;
        let ended = mem::replace(
            &mut self.run,
            Run {
                id,
                count: 1,
                bytes,
            },
        );
        Ok(ended.bytes)
    }

    /// Adds what has a section of its own, with this content, which is given in two pieces.
    pub fn push_section(
        &mut self,
        kind: Kind,
        head: &[u8],
        content: &[u8],
    ) -> Result<(), EncodeError>
        requires kept { IsKept (kept kind (head.now ++ content.now)) }
        requires alone { IsAlone kind }
        ensures added { OnOk result (self.new ≡ self.old ++ kept kind (head.now ++ content.now) ∷ []) }
        ensures unchanged { OnErr result (self.new ≡ self.old) }
        ensures short { OnOk result (length (head.now ++ content.now) < 2 ^ 32) }
        ensures too_large { (n : ℕ) → result ≡ Err (EncodeError.TooLarge n)
            → (n ≡ length (head.now ++ content.now)) × (2 ^ 32 ≤ n) }
    {
        let place = Place {
            kind,
            len: head.len() + content.len(),
        };
        let start = self.out.len();
        match write_alone(
            &mut self.out,
            &self.run,
            self.too_large,
            kind,
            head,
            content,
        ) {
            Ok(too_large) => {
                self.history = self.history.and(&place, &self.out);
                self.too_large = too_large;
                self.run.clear();
                Ok(())
            }
            Err(error) => {
                self.out.truncate(start);
                Err(error)
            }
        }
    }

    /// The component as bytes.
    pub fn finish(self) -> Result<Vec<u8>, EncodeError>
        ensures text { IfOk result
            (λ bytes. bytes.items ≡ header ++ flat_map section_text (sections_of (entries_of self))) }
        ensures fits { OnOk result (AllByRecursion IsShort (sections_of (entries_of self))) }
        ensures too_large { (n : ℕ) → result ≡ Err (EncodeError.TooLarge n)
            → IsTooLongAmong n (sections_of (entries_of self)) }
    {
        let Built {
            out,
            run,
            too_large,
            ..
        } = self;
        let (bytes, told) = end_last(out, run, too_large)?;
        match told {
            None => Ok(bytes),
            Some(large) => Err(EncodeError::TooLarge(large)),
        }
    }
}
