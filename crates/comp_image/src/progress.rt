//! The image of the items that were seen so far.

ghost use Rattle.std.specs.Prelude.{◌≡◌, IfOk, OnOk};
ghost use Rattle.comp_image.specs.Progress.{Imports, Progresses, Shows};
ghost use Rattle.comp_image.specs.Views.{component_of, made_of};
ghost use Rattle.comp_scope.specs.Image.{nothing_seen, with_component, with_export, with_instance};

use crate::image::{ComponentOf, ExportOf, MadeInstance};
use crate::numbered::{Indexed, Numbered};
use comp_format::Sort;
use std::alloc::Global;
use warg_values::Memory;

/// The image of some items, but for the imports, and what their indices stand for.
#[derive(Debug, Drop)]
pub struct Progress<'a, 'b> {
    /// The components.
    pub components: Vec<ComponentOf<'a>>,
    /// The instances.
    pub instances: Vec<MadeInstance>,
    /// The exports.
    pub exports: Vec<ExportOf>,
    /// What indices stand for.
    pub numbered: Numbered<'b>,
}

impl<'a, 'b> Progress<'a, 'b> {
    /// No item was seen.
    pub fn new(alloc: Global) -> Result<Self, Memory>
        ensures { IfOk result (λ part. (imports : Imports) → Shows imports part (nothing_seen imports)) }
    {
        let numbered = Numbered::new(alloc)?;
        Ok(Progress {
            components: Vec::new(alloc),
            instances: Vec::new(alloc),
            exports: Vec::new(alloc),
            numbered,
        })
    }

    /// Adds a component of which instances may be made.
    pub fn add_component(&mut self, of: ComponentOf<'a>) -> Result<(), Memory>
        ensures { (imports : Imports) (p : Progresses) → Shows imports self.old p
            → OnOk result (Shows imports self.new (with_component p (component_of of.entry))) }
    {
        let number = self.components.len();
        self.components.push(of)?;
        self.numbered
            .push(Sort::Component, Indexed::Component(number))
    }

    /// Adds an instance.
    pub fn add_instance(&mut self, made: MadeInstance) -> Result<(), Memory>
        ensures { (imports : Imports) (p : Progresses) → Shows imports self.old p
            → OnOk result (Shows imports self.new (with_instance p (made_of made).0 (made_of made).1)) }
    {
        let number = self.instances.len();
        self.instances.push(made)?;
        self.numbered.push(Sort::Instance, Indexed::Made(number))
    }
}
