//! Reading registries' replies, and the JSON in their bodies. What a value means, and what a reply says, stands in
//! `specs/Body` and `specs/Replies` of `warg_exchange`.
#![tactic(auto)]

mod checkpoint;
mod content;
mod error;
mod from_body;
mod ledger;
mod list;
mod logs;
mod map;
mod members;
mod names;
mod package;
mod proof;
mod recorded;
mod reply;
mod service;
mod value;
mod well_known;

pub use error::BodyError;
pub use from_body::FromBody;
pub use members::{member, optional, required};
pub use reply::{ReplyError, first_header, is_success, read_reply, refusal_of, value_in_bytes};
pub use value::Base64Bytes;
pub use well_known::read_well_known;
