//! Why typed reads of YAML are refused, in the words of the document's tree: which scalar, which field, which list or
//! map it is that is not read. `specs/Causes` says it of each kind of read, and the module `laws` of configurations.
#![tactic(auto)]

pub mod laws;
