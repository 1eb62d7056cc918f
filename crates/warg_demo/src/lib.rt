//! A world to show the program on: registries of packages that need each other, drawn from a seed, and the component that
//! the plan of all of them makes.
#![tactic(auto)]

mod content;
mod demonstrated;
mod draws;
mod needs;
mod releases;
mod world;

pub use demonstrated::demonstrate;
pub use warg_replay::{Assembled, ClientError};
pub use world::{DemoWorld, demo_world};
