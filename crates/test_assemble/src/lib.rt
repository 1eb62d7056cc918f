//! Tests of `Client::assemble` of `warg_client`, over replies of a small registry.
#![tactic(auto)]

#[cfg(test)]
mod assemble;
#[cfg(test)]
mod client;
#[cfg(test)]
mod groups;
#[cfg(test)]
mod world;
