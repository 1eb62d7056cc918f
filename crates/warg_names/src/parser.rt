//! The parser of import names.

ghost use Rattle.std.specs.Prelude.{◌≡◌, ◌≢◌, ◌+◌, ◌-◌, ◌^◌, [], length, min, None, Some, IfOk, IfErr, OnOk, OnErr};
ghost use Rattle.warg_names.specs.Import.{import_of, dependency_import};
ghost use Rattle.warg_names.specs.View.{import_tree};
ghost use Rattle.warg_names.specs.declared.error.ImportNameError.TheVariants.{Memory as WantsMemory};

use crate::error::ImportNameError;
use crate::fault::{dependency_fault, name_fault};
use crate::import::Import;
use crate::reading;
use std::alloc::Global;

/// A parser of one import's name.
#[derive(Debug, Drop)]
pub struct DependencyImportParser<'a> {
    /// The text that is left to be read.
    pub next: &'a str,
    /// How many bytes stand before it.
    pub offset: usize,
}

impl<'a> DependencyImportParser<'a> {
    /// Reads the text that is left as the name of an import, whole.
    ///
    /// A text that is no such name is refused with the place at which it stops being one: `Expected` where a mark does not
    /// stand, `NotKebab` where no label begins, `NotVersion` where no version begins, and `Trailing` where a whole name
    /// has ended and more follows. The longest label or version is taken, and the next mark must follow it. A refusal
    /// leaves the parser as it was.
    pub fn parse(&mut self, alloc: Global) -> Result<Import, ImportNameError>
        ensures ok { IfOk result (λ import. import_of self.old.next.now ≡ Some (import_tree import)) }
        ensures refused { IfErr result (λ e. (e ≢ WantsMemory) → import_of self.old.next.now ≡ None) }
        ensures rest { OnOk result (self.new.next.now ≡ []) }
        ensures offset { OnOk result (self.new.offset ≡ min (self.old.offset + length self.old.next.now) (2 ^ 64 - 1)) }
        ensures unchanged { OnErr result (self.new ≡ self.old) }
    {
        let text = self.next;
        match reading::import_of(alloc, text)? {
            Some(import) => {
                self.next = "";
                self.offset = self.offset.saturating_add(text.len());
                Ok(import)
            }
            None => Err(name_fault(text).error(alloc, text, self.offset)?),
        }
    }
}

impl Import {
    /// What a text asks for as the inside of `unlocked-dep=<>`, as dependencies are named in other places.
    ///
    /// It is refused as `parse` refuses a name, and places count from the text's first byte.
    pub fn from_dependency(alloc: Global, text: &str) -> Result<Self, ImportNameError>
        ensures ok { IfOk result (λ import. dependency_import text.now ≡ Some (import_tree import)) }
        ensures refused { IfErr result (λ e. (e ≢ WantsMemory) → dependency_import text.now ≡ None) }
    {
        match reading::dependency_of(alloc, text)? {
            Some(import) => Ok(import),
            None => Err(dependency_fault(text).error(alloc, text, 0)?),
        }
    }
}
