//! Components: their bytes, and what these import and export.

ghost use Rattle.std.specs.Prelude.{◌≡◌, ◌<◌, length, map, All, true, is_ok};
ghost use Rattle.std.proofs.Props.{props};
ghost use Rattle.comp_entity.specs.Views.{shape_tree};
ghost use Rattle.comp_format.specs.Sections.{component_at};
ghost use Rattle.comp_shape.specs.Shape.{HasShape};
ghost use Rattle.compose_component.specs.Content.{content_bytes};
ghost use Rattle.compose_component.specs.Names.{FindsNames};

use crate::content::Content;
use crate::error::ComponentError;
use crate::export::{ComponentExport, ExportIndex, Exports};
use crate::import::{ComponentImport, ImportIndex, Imports};
use crate::naming::places_by_name;
use comp_format::{Item, Sort, TypeRef};
use comp_shape::laws::names_are_not_empty;
use comp_shape::{Shape, ShapeError, read_component};
use std::alloc::Global;
use std::collections::BTreeMap;
use warg_base::{FileError, Files, Memory, Text};

/// What the bytes of a component show.
#[derive(Drop)]
struct Shown {
    /// What it imports and exports, as types with all indices followed.
    shape: Shape,
    /// The imports among its items, in order.
    imports: Vec<ComponentImport>,
    /// The exports among its items, in order.
    exports: Vec<ComponentExport>,
}

/// A component to be linked: its name, its bytes, and its shape.
#[derive(Debug, Drop)]
pub struct Component<'a> {
    /// The name, which is not empty.
    pub(crate) name: Text,
    /// The path of the file that it was read from, where it was.
    pub(crate) path: Option<Text>,
    /// The bytes.
    pub(crate) content: Content<'a>,
    /// What it imports and exports, as types with all indices followed.
    pub(crate) shape: Shape,
    /// The imports among its items, in order.
    pub(crate) imports: Vec<ComponentImport>,
    /// The exports among its items, in order.
    pub(crate) exports: Vec<ComponentExport>,
    /// The first import of each name.
    pub(crate) import_places: BTreeMap<String, usize>,
    /// The first export of each name.
    pub(crate) export_places: BTreeMap<String, usize>,
    ghost called: { 0 < length name },
    ghost is_component: { is_ok (component_at (length (content_bytes content)) (content_bytes content)) ≡ true },
    ghost read: { ∥ HasShape (content_bytes content) (shape_tree shape) ∥₁ },
    ghost named: { All (λ e. 0 < length e.0) shape.exports.items },
    ghost finds_imports: { FindsNames import_places (map (λ i. i.name) imports.items) } by { Prim.hlevel props },
    ghost finds_exports: { FindsNames export_places (map (λ e. e.name) exports.items) } by { Prim.hlevel props },
}

impl<'a> Component<'a> {
    ghost use Rattle.std.specs.Prelude.{◌≤◌, ◌↔◌, [], Some, None, map, slice_get, option_map, IfOk, IfErr, IfSome, Err};
    ghost use Rattle.std.specs.List.{flat_map};
    ghost use Rattle.std.specs.Slice.Iter.{iter_rest};
    ghost use Rattle.warg_values.specs.Faults.{Rose};
    ghost use Rattle.warg_base.specs.Files.{file_at};
    ghost use Rattle.warg_base.specs.declared.files.FileError.{FileError as file_error};
    ghost use Rattle.warg_base.specs.declared.files.FileError.TheVariants as file;
    ghost use Rattle.comp_format.specs.Fits.{IsComponent};
    ghost use Rattle.comp_format.specs.Items.{item_tree};
    ghost use Rattle.comp_shape.specs.declared.error.ShapeError.{ShapeError as shape_error};
    ghost use Rattle.comp_shape.specs.declared.error.ShapeError.TheVariants as shape_refusal;
    ghost use Rattle.comp_shape.specs.Refusal.{IsRefused};
    ghost use Rattle.compose_component.specs.Component.{IsRead, IsReadAs, IsOfBytes, RefusedAt, name_of, path_of, bytes_of, shape_of};
    ghost use Rattle.compose_component.specs.Component.{imports_of, exports_of, import_in, export_in, import_under, export_under};
    ghost use Rattle.compose_component.specs.declared.error.ComponentError.TheVariants.{BadName as bad_name, BadComponent as bad_component, File as bad_file};

    /// The component of these bytes, under a name.
    ///
    /// `BadName` is answered exactly for the empty name, and `BadComponent` exactly where [`read_component`] refuses
    /// the bytes.
    pub fn from_bytes(
        alloc: Global,
        name: &str,
        bytes: &'a [u8],
    ) -> Result<Component<'a>, ComponentError>
        ensures taken { IfOk result (λ c. (name_of c ≡ name.now) × (path_of c ≡ None)) }
        ensures read { IfOk result (λ c. IsRead c bytes.now) }
        ensures bad_name { (result ≡ Err bad_name) ↔ (name.now ≡ []) }
        ensures bad_component { (e : shape_error) → result ≡ Err (bad_component e) → IsRefused e bytes.now }
        ensures not_for_memory { result ≡ Err (bad_component shape_refusal.Memory) → ⊥ }
        ensures no_file { (e : file_error) → result ≡ Err (bad_file e) → ⊥ }
    {
        if name.is_empty() {
            return Err(ComponentError::BadName);
        }
        let shown = Self::shown(alloc, bytes)?;
        let component = Self::named(alloc, name, None, Content::Lent(bytes), shown)?;
        Ok(component)
    }

    /// What the bytes of a component show.
    fn shown(alloc: Global, bytes: &[u8]) -> Result<Shown, ComponentError>
        ensures read { IfOk result (λ x. IsReadAs bytes.now x.shape x.imports.items x.exports.items) }
        ensures named { IfOk result (λ x. All (λ e. 0 < length e.0) x.shape.exports.items) }
        ensures bad_component { (e : shape_error) → result ≡ Err (bad_component e) → IsRefused e bytes.now }
        ensures not_for_memory { result ≡ Err (bad_component shape_refusal.Memory) → ⊥ }
        ensures only { IfErr result IsOfBytes }
    {
        names_are_not_empty();
        let (items, shape) = match read_component(alloc, bytes) {
            Ok(read) => read,
            Err(ShapeError::Memory) => return Err(ComponentError::Memory),
            Err(error) => return Err(ComponentError::BadComponent(error)),
        };
        let imports = Self::imports_among(alloc, &items)?;
        let exports = Self::exports_among(alloc, items)?;
        Ok(Shown {
            shape,
            imports,
            exports,
        })
    }

    /// The imports among items.
    fn imports_among(alloc: Global, items: &[Item<'_>]) -> Result<Vec<ComponentImport>, Memory>
        ensures { IfOk result (λ imports. imports.items ≡ flat_map import_in (map item_tree items.now)) }
    {
        let mut imports = Vec::new(alloc);
        for item in items {
            if let Item::Import { name, ty } = item {
                let name = name.try_clone(alloc)?;
                imports.push(ComponentImport { name, ty: *ty })?;
            }
        }
        Ok(imports)
    }

    /// The exports among items.
    fn exports_among(alloc: Global, items: Vec<Item<'_>>) -> Result<Vec<ComponentExport>, Memory>
        ensures { IfOk result (λ exports. exports.items ≡ flat_map export_in (map item_tree items.entry.items)) }
    {
        let mut exports = Vec::new(alloc);
        for item in items {
            if let Item::Export {
                name,
                sort,
                index,
                ty: _,
            } = item
            {
                exports.push(ComponentExport { name, sort, index })?;
            }
        }
        Ok(exports)
    }

    /// A component of bytes that were read, under a name.
    fn named(
        alloc: Global,
        name: &str,
        path: Option<Text>,
        content: Content<'a>,
        shown: Shown,
    ) -> Result<Component<'a>, Memory>
        requires called { 0 < length name.now }
        requires read { IsReadAs (content_bytes content) shown.shape shown.imports.items shown.exports.items }
        requires named { All (λ e. 0 < length e.0) shown.shape.exports.items }
        ensures taken { IfOk result (λ c. (name_of c ≡ name.now) × (path_of c ≡ path)) }
        ensures read { IfOk result (λ c. IsRead c (content_bytes content.entry)) }
    {
        let Shown {
            shape,
            imports,
            exports,
        } = shown;
        let name = Text::copy_of(alloc, name)?;
        let import_places = places_by_name(alloc, &imports)?;
        let export_places = places_by_name(alloc, &exports)?;
        Ok(Component {
            name,
            path,
            content,
            shape,
            imports,
            exports,
            import_places,
            export_places,
        })
    }

    /// The component of the file at `path`, under a name.
    ///
    /// `BadName` is answered exactly for the empty name, and then no file is touched. `File` tells that the file is
    /// missing or could not be read, and `BadComponent` is answered exactly where [`read_component`] refuses its bytes.
    pub fn from_file<F: Files>(
        alloc: Global,
        files: &mut F,
        name: &str,
        path: &str,
    ) -> Result<Component<'a>, ComponentError>
        ensures never_falls { F.faults files.old ≤ F.faults files.new }
        ensures kept { F.told files.new ≡ F.told files.old }
        ensures untouched { name.now ≡ [] → files.new ≡ files.old }
        ensures taken { IfOk result (λ c. (name_of c ≡ name.now) × (path_of c ≡ Some path.now)) }
        ensures read { IfOk result (λ c. IsRead c (bytes_of c)) }
        ensures found { IfOk result
            (λ c. IfSome (F.told files.old) (λ held. file_at held path.now ≡ Some (bytes_of c))) }
        ensures bad_name { (result ≡ Err bad_name) ↔ (name.now ≡ []) }
        ensures missing { result ≡ Err (bad_file file.Missing)
            → IfSome (F.told files.old) (λ held. file_at held path.now ≡ None) }
        ensures failed { result ≡ Err (bad_file file.Failed) → Rose (F.faults files.old) (F.faults files.new) }
        ensures no_memory { result ≡ Err (bad_file file.Memory) → ⊥ }
        ensures bad_component { (e : shape_error) → result ≡ Err (bad_component e)
            → RefusedAt e (F.told files.old) path.now }
        ensures not_for_memory { result ≡ Err (bad_component shape_refusal.Memory) → ⊥ }
    {
        if name.is_empty() {
            return Err(ComponentError::BadName);
        }
        let bytes = match files.read(alloc, path) {
            Ok(bytes) => bytes,
            Err(FileError::Memory) => return Err(ComponentError::Memory),
            Err(error) => return Err(ComponentError::File(error)),
        };
        let shown = Self::shown(alloc, &bytes)?;
        let path = Text::copy_of(alloc, path)?;
        let component = Self::named(alloc, name, Some(path), Content::Owned(bytes), shown)?;
        Ok(component)
    }

    /// The name, which is not empty.
    pub fn name(&self) -> &str
        ensures { result.now ≡ name_of self.now }
    {
        self.name.as_str()
    }

    /// The name of a component that is needed no longer.
    pub fn into_name(self) -> Text
        ensures { result ≡ name_of self.entry }
    {
        let Component {
            name,
            path: _path,
            content: _content,
            shape: _shape,
            imports: _imports,
            exports: _exports,
            import_places: _import_places,
            export_places: _export_places,
        } = self;
        name
    }

    /// The path of the file that it was read from, where it was.
    pub fn path(&self) -> Option<&str>
        ensures { option_map (λ path. path.now) result ≡ path_of self.now }
    {
        match &self.path {
            Some(path) => Some(path.as_str()),
            None => None,
        }
    }

    /// The bytes, which are those of a component.
    pub fn bytes(&self) -> &[u8]
        ensures value { result.now ≡ bytes_of self.now }
        ensures form { IsComponent result.now }
    {
        match &self.content {
            Content::Lent(bytes) => bytes,
            Content::Owned(bytes) => bytes,
        }
    }

    /// What it imports and exports, as types with all indices followed. No name of an export is empty.
    pub fn types(&self) -> &Shape
        ensures value { shape_tree result.now ≡ shape_of self.now }
        ensures read { ∥ HasShape (bytes_of self.now) (shape_of self.now) ∥₁ }
        ensures named { All (λ e. 0 < length e.0) result.now.exports.items }
    {
        &self.shape
    }

    /// The export of this place: its name, what it is, and the index of that in the component's index space.
    pub fn export(&self, index: ExportIndex) -> Option<(&str, Sort, u32)>
        ensures { option_map (λ e. record { name = e.0.now; sort = e.1; index = e.2 }) result
            ≡ slice_get (exports_of self.now) index.0 }
    {
        match self.exports.get(index.0) {
            Some(export) => Some((export.name.as_str(), export.sort, export.index)),
            None => None,
        }
    }

    /// The first export of this name: its place, what it is, and the index of that in the component's index space.
    pub fn export_by_name(&self, name: &str) -> Option<(ExportIndex, Sort, u32)>
        ensures { option_map (λ e. (e.0.0, e.1, e.2)) result ≡ export_under name.now (exports_of self.now) }
    {
        let place = *self.export_places.get(name)?;
        let export = self.exports.get(place)?;
        Some((ExportIndex(place), export.sort, export.index))
    }

    /// The exports, in order.
    pub fn exports(&self) -> Exports<'_>
        ensures { iter_rest result ≡ exports_of self.now }
    {
        self.exports.iter()
    }

    /// The import of this place: its name, and its description.
    pub fn import(&self, index: ImportIndex) -> Option<(&str, TypeRef)>
        ensures { option_map (λ i. record { name = i.0.now; ty = i.1 }) result
            ≡ slice_get (imports_of self.now) index.0 }
    {
        match self.imports.get(index.0) {
            Some(import) => Some((import.name.as_str(), import.ty)),
            None => None,
        }
    }

    /// The first import of this name: its place, and its description.
    pub fn import_by_name(&self, name: &str) -> Option<(ImportIndex, TypeRef)>
        ensures { option_map (λ i. (i.0.0, i.1)) result ≡ import_under name.now (imports_of self.now) }
    {
        let place = *self.import_places.get(name)?;
        let import = self.imports.get(place)?;
        Some((ImportIndex(place), import.ty))
    }

    /// The imports, in order.
    pub fn imports(&self) -> Imports<'_>
        ensures { iter_rest result ≡ imports_of self.now }
    {
        self.imports.iter()
    }
}
