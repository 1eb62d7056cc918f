//! The sections of a component, and how the bytes of components and core modules begin (`Binary.md`, "Component
//! Definitions"; core specification, "Modules").

/// The magic bytes with which components and core modules begin.
pub const MAGIC: [u8; 4] = [0x00, 0x61, 0x73, 0x6d];

/// The magic bytes, the version and the layer of a component.
pub const HEADER: [u8; 8] = [0x00, 0x61, 0x73, 0x6d, 0x0d, 0x00, 0x01, 0x00];

/// The magic bytes and the version of a core module.
pub const CORE_HEADER: [u8; 8] = [0x00, 0x61, 0x73, 0x6d, 0x01, 0x00, 0x00, 0x00];

/// The id of a custom section.
pub const CUSTOM: u8 = 0;

/// The id of the section of a core module.
pub const CORE_MODULE: u8 = 1;

/// The id of a section of core instances.
pub const CORE_INSTANCE: u8 = 2;

/// The id of a section of core types.
pub const CORE_TYPE: u8 = 3;

/// The id of the section of a nested component.
pub const COMPONENT: u8 = 4;

/// The id of a section of instances.
pub const INSTANCE: u8 = 5;

/// The id of a section of aliases.
pub const ALIAS: u8 = 6;

/// The id of a section of types.
pub const TYPE: u8 = 7;

/// The id of a section of canonical definitions.
pub const CANON: u8 = 8;

/// The id of a start section, which is not supported.
pub const START: u8 = 9;

/// The id of a section of imports.
pub const IMPORT: u8 = 10;

/// The id of a section of exports.
pub const EXPORT: u8 = 11;

/// The id of a section of values, which is not supported.
pub const VALUE: u8 = 12;
