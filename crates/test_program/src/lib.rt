//! Tests of the program's run, and of the host's files and output, which no clause speaks of.
#![tactic(auto)]

#[cfg(test)]
mod compose;
#[cfg(test)]
mod files;
#[cfg(test)]
mod host;
#[cfg(test)]
mod link;
#[cfg(test)]
mod runs;
#[cfg(test)]
mod texts;
