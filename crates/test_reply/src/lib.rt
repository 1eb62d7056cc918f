//! Tests of `warg_reply`: the bytes of each body.
#![tactic(auto)]

#[cfg(test)]
mod replies;
