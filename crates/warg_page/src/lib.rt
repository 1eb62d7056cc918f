//! Logs of a registry's operator and of packages: what is asked for behind them, what a page of records brings for them,
//! whether each has a record, and where their last records stand.
#![tactic(auto)]

mod heads;
mod ids;
pub mod laws;
mod listed;
mod page;
mod presence;
mod tokens;

pub use heads::{LogHeads, heads_of};
pub use ids::{IdsError, log_ids};
pub use listed::check_listed;
pub use page::{PageError, place_of, take_page};
pub use presence::{PresenceError, check_presence};
pub use tokens::logs_behind;
