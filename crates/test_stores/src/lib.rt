//! Tests of stores in files, over files in memory, and of locks: what stands in a file, and what a load answers.
#![tactic(auto)]

#[cfg(test)]
mod configurations;
#[cfg(test)]
mod contents;
#[cfg(test)]
mod listing;
#[cfg(test)]
mod locks;
#[cfg(test)]
mod pending;
#[cfg(test)]
mod publishing;
#[cfg(test)]
mod registries;
#[cfg(test)]
mod stores;
