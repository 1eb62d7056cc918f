//! Laws of the YAML parser that compare a text with other documents that begin as it does.
//!
//! The laws of `yaml_small` say that a text that is refused for good begins no carried document. Those of this
//! crate say that no refusal comes an event late: wherever the parser stands in a text, some carried document begins
//! with the text in front of the parser's place and emits the same events first.
#![tactic(auto)]

pub mod laws;
