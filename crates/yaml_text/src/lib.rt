//! The text that values are written as in YAML, and the law that it reads back.
//!
//! A value is a number, `true`, `false`, nothing, a text, a list, a map or a variant with a name. What is written
//! for it is `written` of `specs/Written.antt`, in the forms of YAML 1.2.2:
//!
//! - numbers in decimal, `true`, `false` and `~` as plain scalars (section 7.3.3)
//! - keys in quotes, and other texts as blocks or in quotes (sections 7.3.1, 7.3.2 and 8.1.2)
//! - lists and maps as blocks, with each value on a line of its own, and `[]` and `{}` (sections 8.2 and 7.4)
//! - variants as a name and a colon: `Name: ~`, `Name: []`, or the value one level deeper
//!
//! The functions write the texts, keys and indentation of which the rest is made. The law in the module `laws` says
//! that what is written is a carried document of the crate `yaml_small` for the value's tree.
#![tactic(auto)]

pub mod laws;
mod leaf;
mod style;

pub use leaf::{push_indentation, push_key, push_text};
