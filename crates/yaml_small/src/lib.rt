//! The events of a YAML document, emitted one by one, and what scalars stand for.
//!
//! A text is UTF-8 and holds one document of YAML 1.2.2 or none. These forms are carried:
//!
//! - comments and blank lines; `---` before the document, on whose line a scalar or a flow list or map may follow;
//!   `...` behind it; lines that end with a line feed, or with a carriage return and a line feed
//! - block lists and maps by columns, also `- - a` and `- a: b`, and a list at the column of its key
//! - flow lists and maps in brackets, over lines, with a last comma; `{a}` and `{a:}` have a missing value
//! - plain, single-quoted and double-quoted scalars on one line, and block scalars behind `|`, `|-`, `>` and `>-`
//! - missing nodes, which are the plain scalar `~`
//!
//! These are not supported: anchors, aliases, tags, directives, `? ` keys, a tab as indentation or between `---` and a
//! node on its line, plain and quoted scalars over several lines, indentation indicators and `+` at a block scalar, a
//! key directly within a flow list, and a second document. Lists and maps are at most 64 deep. Whatever else a text holds is not well
//! formed.
//!
//! The definition of the carried documents is `specs/Grammar.antt`; the laws that tie the parser to it are in the
//! module `laws`.
#![tactic(auto)]

mod collection;
mod cursor;
mod error;
mod event;
mod flow;
pub mod laws;
mod node;
mod parser;
mod place;
mod scalar;
mod schema;
mod state;
mod yaml;

pub use error::ScanError;
pub use event::{Event, Marker, Style};
pub use parser::Parser;
pub use schema::{Resolved, resolve};
pub use yaml::{Yaml, YamlList, YamlPairs};
