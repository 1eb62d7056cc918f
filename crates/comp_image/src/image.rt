//! Link images.

use comp_entity::Entity;
use comp_format::Sort;
use warg_values::Text;

/// A component of which instances are made.
#[derive(Debug, Drop)]
pub enum ComponentOf<'a> {
    /// A nested one: its bytes.
    Defined(&'a [u8]),
    /// An imported one: its name.
    Imported(Text),
}

/// What an instance is given for an import.
#[derive(Debug, Drop)]
pub enum ArgOf {
    /// The instance of this number, whole.
    Instance(usize),
    /// The export of this name of the instance of this number.
    Export(usize, Text),
    /// The import of this name.
    Left(Text),
}

/// An instance that is made.
#[derive(Debug, Drop)]
pub struct MadeInstance {
    /// The number of its component.
    pub component: usize,
    /// What it is given, by the names of its component's imports, in the order of the bytes.
    pub arguments: Vec<(Text, ArgOf)>,
}

/// An export, which is an export of an instance.
#[derive(Debug, Drop)]
pub struct ExportOf {
    /// Its name.
    pub name: Text,
    /// Its sort.
    pub sort: Sort,
    /// The number of the instance.
    pub instance: usize,
    /// The name of that instance's export.
    pub export: Text,
}

/// The link image of a component. Components and instances are numbered in the order of the bytes, from 0 on.
#[derive(Debug, Drop)]
pub struct Image<'a> {
    /// The components of which instances may be made.
    pub components: Vec<ComponentOf<'a>>,
    /// The instances.
    pub instances: Vec<MadeInstance>,
    /// The imports: their names, and what they are.
    pub imports: Vec<(Text, Entity)>,
    /// The exports.
    pub exports: Vec<ExportOf>,
}
