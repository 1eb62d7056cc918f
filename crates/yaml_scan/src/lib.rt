//! The scans of a YAML scanner that look at one line, or at lines alone: lines and white space, plain and
//! quoted scalars, and the lines of a block scalar.
//!
//! Each is a function of bytes that says what it finds, whatever stands around them.
#![tactic(auto)]

mod block;
mod bytes;
mod lines;
mod plain;
mod quoted;

pub use block::{Block, BlockError, Head, block_indent, block_scalar, is_deeper, is_document_mark};
pub use bytes::{
    begins_flow_mark, is_clean, is_control, is_flow_mark, is_gap, is_white, spaces, whites,
};
pub use lines::{
    cut_line, ends, is_comment_line, is_dashes, is_dots, is_passed, is_white_line, text_follows,
};
pub use plain::{begins_plain, plain_len};
pub use quoted::{QuoteError, Quoted, double_quoted, single_quoted};
