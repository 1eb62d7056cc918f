//! Callers of the registry's crates, each proved from the crates' public contracts alone.
#![tactic(auto)]

pub mod api;
pub mod body;
pub mod config;
pub mod exchange;
pub mod hash;
pub mod hint;
pub mod info;
pub mod json;
pub mod ledger;
pub mod locks;
pub mod log;
pub mod model;
pub mod names;
pub mod page;
pub mod plan;
pub mod proof;
pub mod prover;
pub mod publish;
pub mod publish_text;
pub mod record;
pub mod recorded;
pub mod registry_url;
pub mod reply;
pub mod request;
pub mod store;
pub mod update;
pub mod values;
pub mod vectors;
pub mod verify;
