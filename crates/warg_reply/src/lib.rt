//! The replies of a registry, written: each says just what it is made of. What replies mean stands in `specs/Replies`
//! of `warg_exchange`.
#![tactic(auto)]

mod bodies;
mod errors;
mod logs;
mod replies;

pub use replies::{
    checkpoint_reply, consistency_reply, content_reply, inclusion_reply, page_reply, refusal_reply,
    sources_reply,
};
