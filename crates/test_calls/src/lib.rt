//! Tests of the calls of registries, over recorded replies: what each answers, and each kind of refusal once.
#![tactic(auto)]

#[cfg(test)]
mod answers;
#[cfg(test)]
mod contents;
#[cfg(test)]
mod proofs;
#[cfg(test)]
mod recorded;
#[cfg(test)]
mod registry;
#[cfg(test)]
mod replies;
#[cfg(test)]
mod streams;
